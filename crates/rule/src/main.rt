// The rule program: reads a rule's text on standard input, and writes its packed query, or the line of a refusal, on standard output. What is written is decided
// by `rules::print` alone.
//
// Where standard input can't be read or is over a mebibyte, or standard output can't be written, a line on standard error says so; nothing is printed where the
// text wasn't read whole. An accepted rule has under 2,000 bytes, so no text of over a mebibyte can be packed. But where it leaves the grammar is not known before
// it is read whole, and a wrong place is worse than none.
#![tactic(auto)]

ghost use Rattle.std.specs.Prelude.{◌≡◌, length};

use rules::PACKED;

// One byte more than the longest text, so that a longer one is told by its length. The space is on the stack, as everything here: of the usual 8 MiB it takes one.
const SPACE: usize = 1048577;

// Room for the text. By its contract, which says no more than the length, no proof goes through its bytes one by one.
// Stays: with the array in `main` the check didn't end in five minutes.
fn room() -> [u8; SPACE]
    ensures { 1048577 ≡ length result }
{
    [0; SPACE]
}

fn main(rt: HostRuntime) {
    let mut space = room();
    let Ok(size) = streams::read_all(&mut rt.stdin(), &mut space) else {
        let _ = eprintln!(rt; "standard input: a read failed");
        return;
    };
    if size == SPACE {
        let _ = eprintln!(rt; "standard input: over 1048576 bytes");
        return;
    }
    let mut out = [0u8; PACKED];
    let n = rules::print(&space[..size], &mut out);
    if let Err(e) = rt.write_all(&out[..n]) {
        let _ = eprintln!(rt; "standard output: {e}");
    }
}
