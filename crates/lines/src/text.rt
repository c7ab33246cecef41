// Bytes of text, written from a place of a list on. Each function hands back the place after what it wrote. For `print` alone (the module is not public): they
// ask for places for all that they write, which `print` has, since its buffer is longer than the longest output.
ghost use Rattle.std.specs.Prelude.{◌≡◌, ◌∷◌, [], cond, ◌+◌, ◌*◌, ◌≤◌, ◌<◌, length};
ghost use Rattle.query.specs.Code.Writing.{wrote};
ghost use Rattle.lines.specs.Text.{decimal, spaced, line as line-text, word_safe, word_unsafe};

use query::write;

// A space and a number.
fn number(n: u32, out: &mut [u8], at: usize) -> usize
    requires { (at + 11 ≤ length out.old) × (at < 1000000) }
    ensures { (result, out.new) ≡ wrote at (32 ∷ decimal n) out.old }
{
    out[at] = b' ';
    write::digits(u64::from(n), 10, out, at + 1)
}

// Numbers, a space before each.
fn numbers(list: &[u32], out: &mut [u8], at: usize) -> usize
    requires { (length list.now ≤ 4096) × (at + 11 * length list.now ≤ length out.old) × (at < 500000) }
    ensures { (result, out.new) ≡ wrote at (spaced list.now) out.old }
{
    let mut end = at;
    for n in list {
        end = number(*n, out, end);
    }
    end
}

// A line: a word, numbers, and a line feed.
pub fn line(text: &[u8], list: &[u32], out: &mut [u8], at: usize) -> usize
    requires { (length text.now ≤ 16) × (length list.now ≤ 4096) × (at + length text.now + 11 * length list.now + 1 ≤ length out.old) × (at < 200000) }
    ensures { (result, out.new) ≡ wrote at (line-text text.now list.now) out.old }
{
    let middle = write::bytes(text, out, at);
    let end = numbers(list, out, middle);
    out[end] = b'\n';
    end + 1
}

// The line of the verdict, at the front of a list.
pub fn verdict(safe: bool, out: &mut [u8]) -> usize
    requires { 7 ≤ length out.old }
    ensures { (result, out.new) ≡ wrote 0 (line-text (cond safe word_safe word_unsafe) []) out.old }
{
    if safe {
        return line(b"safe", &[], out, 0);
    }
    line(b"unsafe", &[], out, 0)
}
