// The list program: reads a packed input on standard input, and writes its lines on standard output. What is written is decided by `lines::print` alone.
//
// Where standard input can't be read, or standard output can't be written, a line on standard error says so; after a failed read nothing is printed.
#![tactic(auto)]

use lines::LINES;

// One byte more than the longest input, so that a longer one is told by its length.
const SPACE: usize = 8193;

fn main(rt: HostRuntime) {
    let mut space = [0u8; SPACE];
    let Ok(size) = streams::read_all(&mut rt.stdin(), &mut space) else {
        let _ = eprintln!(rt; "standard input: a read failed");
        return;
    };
    let mut out = [0u8; LINES];
    let n = lines::print(&space[..size], &mut out);
    if let Err(e) = rt.write_all(&out[..n]) {
        let _ = eprintln!(rt; "standard output: {e}");
    }
}
