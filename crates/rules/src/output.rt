// What the program `rule` prints for a rule's text: the packed query's bytes, or the line of a refusal.
ghost use Rattle.std.specs.Prelude.{◌≡◌, ◌≤◌, length};
ghost use Rattle.causes.specs.Causes.{number_of, place_of};
ghost use Rattle.query.specs.Code.Writing.{wrote};
ghost use Rattle.rules.specs.Reply.{max_bytes};
ghost use Rattle.rules.specs.Output.{refusal_line, PrintReply};

use crate::{PACKED, pack};
use causes::Refusal;
use query::write;

// The line of a refusal, at the front of a list: at most 33 bytes, since the number has at most 3 digits and the place 20.
fn refusal(r: Refusal, out: &mut [u8]) -> usize
    requires { 33 ≤ length out.old }
    ensures out_after { (result, out.new) ≡ wrote 0 (refusal_line (number_of r) (place_of r)) out.old }
    ensures upper_bound { result ≤ 33 }
{
    let middle = write::bytes(b"refused ", out, 0);
    let next = write::digits(u64::from(r.number()), 3, out, middle);
    out[next] = b' ';
    let end = write::digits(r.place(), 20, out, next + 1);
    out[end] = b'\n';
    end + 1
}

// The output for a text, at the front of a list; its length. The rest of the list is unaltered.
pub fn print(text: &[u8], out: &mut [u8; PACKED]) -> usize
    ensures print_reply { PrintReply text.now out.old result out.new }
    ensures upper_bound { result ≤ max_bytes }
{
    match pack(text) {
        Ok(p) => write::bytes(p.packed(), out, 0),
        Err(r) => refusal(r, out),
    }
}
