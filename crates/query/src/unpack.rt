// Counts and words out of packed bytes, high byte first. For a reader of bytes that has judged their length first: it asks for bytes that are there, so that
// nothing is read past the end. `word` and `wide` are also for crates above.
ghost use Rattle.std.specs.Prelude.{◌≡◌, ◌+◌, ◌*◌, ◌≤◌, ◌<◌, length};
ghost use Rattle.calculus.specs.Lists.{tabulate};
ghost use Rattle.query.specs.Reading.{count_of_nodes, count_of_constants, word_at};

// A byte as a number.
// Stays: a public function, with its promise.
pub fn wide(b: u8) -> u32
    ensures { (result ≡ b) × (result < 256) }
{
    u32::from(b)
}

// The node count of the header.
pub fn node_count(bytes: &[u8]) -> usize
    requires { 2 ≤ length bytes.now }
    ensures { result ≡ count_of_nodes bytes.now }
{
    usize::from(bytes[0]) % 16 * 8 + usize::from(bytes[1]) / 32
}

// The constant count of the header.
pub fn constant_count(bytes: &[u8]) -> usize
    requires { 2 ≤ length bytes.now }
    ensures { result ≡ count_of_constants bytes.now }
{
    usize::from(bytes[1]) % 32
}

// The 32-bit word that starts at a byte.
pub fn word(bytes: &[u8], at: usize) -> u32
    requires { at + 4 ≤ length bytes.now }
    ensures { result ≡ word_at bytes.now at }
{
    u32::from_be_bytes([bytes[at], bytes[at + 1], bytes[at + 2], bytes[at + 3]])
}

// Words from a byte on, as many as the list has places.
pub fn words(bytes: &[u8], from: usize, out: &mut [u32])
    requires { from + 4 * length out.old ≤ length bytes.now }
    ensures { out.new ≡ tabulate (λ i. word_at bytes.now (from + 4 * i)) (length out.old) }
{
    for (i, w) in out.iter_mut().enumerate() {
        *w = word(bytes, from + 4 * i);
    }
}
