// Sets of nodes and variables as numbers: number 0 is the highest bit. A node's bit is asked of a node of a form only, so of a number below `max_nodes`.
ghost use Rattle.std.specs.Prelude.{◌≡◌, [], ◌∷◌, ◌<◌, take};
ghost use Rattle.query.specs.Reading.{max_nodes};
ghost use Rattle.verdict.specs.Bits.{node_mask, variable_mask, has};
ghost use Rattle.verdict.specs.Code.Generating.{without};

use query::NODES;

// The bits of the 64 nodes, by their numbers: node 0 is the highest.
// Stays: document 02 wants a table with a line for each node, and a shift was measured slower.
const NODE_BITS: [u64; NODES] = [
    0x8000_0000_0000_0000, // node 0
    0x4000_0000_0000_0000, // node 1
    0x2000_0000_0000_0000, // node 2
    0x1000_0000_0000_0000, // node 3
    0x0800_0000_0000_0000, // node 4
    0x0400_0000_0000_0000, // node 5
    0x0200_0000_0000_0000, // node 6
    0x0100_0000_0000_0000, // node 7
    0x0080_0000_0000_0000, // node 8
    0x0040_0000_0000_0000, // node 9
    0x0020_0000_0000_0000, // node 10
    0x0010_0000_0000_0000, // node 11
    0x0008_0000_0000_0000, // node 12
    0x0004_0000_0000_0000, // node 13
    0x0002_0000_0000_0000, // node 14
    0x0001_0000_0000_0000, // node 15
    0x0000_8000_0000_0000, // node 16
    0x0000_4000_0000_0000, // node 17
    0x0000_2000_0000_0000, // node 18
    0x0000_1000_0000_0000, // node 19
    0x0000_0800_0000_0000, // node 20
    0x0000_0400_0000_0000, // node 21
    0x0000_0200_0000_0000, // node 22
    0x0000_0100_0000_0000, // node 23
    0x0000_0080_0000_0000, // node 24
    0x0000_0040_0000_0000, // node 25
    0x0000_0020_0000_0000, // node 26
    0x0000_0010_0000_0000, // node 27
    0x0000_0008_0000_0000, // node 28
    0x0000_0004_0000_0000, // node 29
    0x0000_0002_0000_0000, // node 30
    0x0000_0001_0000_0000, // node 31
    0x0000_0000_8000_0000, // node 32
    0x0000_0000_4000_0000, // node 33
    0x0000_0000_2000_0000, // node 34
    0x0000_0000_1000_0000, // node 35
    0x0000_0000_0800_0000, // node 36
    0x0000_0000_0400_0000, // node 37
    0x0000_0000_0200_0000, // node 38
    0x0000_0000_0100_0000, // node 39
    0x0000_0000_0080_0000, // node 40
    0x0000_0000_0040_0000, // node 41
    0x0000_0000_0020_0000, // node 42
    0x0000_0000_0010_0000, // node 43
    0x0000_0000_0008_0000, // node 44
    0x0000_0000_0004_0000, // node 45
    0x0000_0000_0002_0000, // node 46
    0x0000_0000_0001_0000, // node 47
    0x0000_0000_0000_8000, // node 48
    0x0000_0000_0000_4000, // node 49
    0x0000_0000_0000_2000, // node 50
    0x0000_0000_0000_1000, // node 51
    0x0000_0000_0000_0800, // node 52
    0x0000_0000_0000_0400, // node 53
    0x0000_0000_0000_0200, // node 54
    0x0000_0000_0000_0100, // node 55
    0x0000_0000_0000_0080, // node 56
    0x0000_0000_0000_0040, // node 57
    0x0000_0000_0000_0020, // node 58
    0x0000_0000_0000_0010, // node 59
    0x0000_0000_0000_0008, // node 60
    0x0000_0000_0000_0004, // node 61
    0x0000_0000_0000_0002, // node 62
    0x0000_0000_0000_0001, // node 63
];

// The bit that stands for node n, from the table. No caller asks for a number from `NODES` on, which has no bit.
// A `const` table is written to the stack where it is read. The test keeps the compiler from inlining this function into `source::plain`, which calls itself:
// each of its frames would hold the table.
pub fn node_bit(n: usize) -> u64
    requires { n < max_nodes }
    ensures { result ≡ node_mask (n ∷ []) }
{
    if n < NODES {
        return NODE_BITS[n];
    }
    0
}

// The bit of a term where it is a variable, no bit where it is a constant.
pub fn term_bit(t: u32) -> u16
    ensures { result ≡ variable_mask (t ∷ []) }
{
    if t < 16 {
        return 1u16 << (15 - t);
    }
    0
}

// The variables among the first count terms.
pub fn term_bits(count: u32, a: u32, b: u32, c: u32, d: u32) -> u16
    ensures { result ≡ variable_mask (take count (a ∷ b ∷ c ∷ d ∷ [])) }
{
    let mut bits = 0;
    for (i, t) in [a, b, c, d].iter().enumerate() {
        if i < count as usize {
            bits |= term_bit(*t);
        }
    }
    bits
}

// Whether the variable x is in the set.
pub fn is_in(x: u32, set: u16) -> bool
    ensures { result ≡ has 16 set x }
{
    set & term_bit(x) != 0
}

// The set without the variable x.
pub fn leave_out(x: u32, set: u16) -> u16
    ensures { result ≡ without 16 set x }
{
    set & (65535 - term_bit(x))
}
