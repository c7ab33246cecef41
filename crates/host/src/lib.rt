// The host's entries: the verdict and the answers over a packed input, and the query of a rule's text, with numbers and byte runs only. include/palmrummy.h is
// their C side: the layout of every byte written, and the meaning of every number returned.
#![tactic(auto)]

mod bytes;

ghost use Rattle.std.specs.Prelude.{◌≡◌, ◌<◌};
ghost use Rattle.causes.specs.Causes.{refusal_of, place_of};
ghost use Rattle.query.specs.Reading.{max_nodes};
ghost use Rattle.verdict.specs.Verdict.{verdict_in};
ghost use Rattle.host.specs.Entry.{code, verdict_bytes, verdict_entry, answer_entry, RuleEntry};
ghost use Rattle.host.specs.Code.Entry.{Writable};

use answer::Found;
use causes::Refusal;
use query::write;
use rules::PACKED;
use verdict::Verdict;

// The bytes of a verdict.
pub const VERDICT: usize = 370;

// Where the refusals of a verdict and of a rule's text start.
// Stays: numbers, as the C interface has them; so are those below.
const REFUSED: u32 = 2147483648;

// What an endless answer returns, and where the refusals of an answer start.
const ENDLESS: u64 = 9223372036854775808;

// The number and place of a refusal as one number. The place is a node's number, or 0, so both can be read off.
fn code(refusal: Refusal) -> u32
    requires { place_of refusal < max_nodes }
    ensures { (result ≡ code (refusal_of refusal)) × (result < 65536) }
{
    256 * u32::from(refusal.number()) + refusal.place() as u32
}

// A verdict's bytes.
fn written(v: Verdict) -> [u8; VERDICT]
    requires { Writable (verdict_in v) }
    ensures { result ≡ verdict_bytes (verdict_in v) }
{
    let mut reply = [0u8; VERDICT];
    reply[0] = u8::from(v.safe);
    reply[1] = v.columns.count as u8;
    reply[2..6].copy_from_slice(&v.columns.variables);
    for (i, generator) in v.generators.iter().enumerate() {
        bytes::long(*generator, &mut reply, 6 + 8 * i);
    }
    reply[38..40].copy_from_slice(&v.ungenerated.to_be_bytes());
    bytes::long(v.unranged, &mut reply, 40);
    write::query(v.form, &mut reply, 48);
    reply
}

// The verdict on the query of a packed input: causes 2, then 1 and 3 to 10, then 13 and 15.
#[unsafe(no_mangle)]
pub extern "C" fn palmrummy_verdict(input: &[u8], out: &mut [u8; VERDICT]) -> u32
    ensures { (result, out.new) ≡ verdict_entry input.now out.old }
{
    match packed::judge(input) {
        Ok(verdict) => {
            *out = written(verdict);
            0
        }
        Err(refusal) => REFUSED + code(refusal),
    }
}

// The answer to the query of a packed input: causes 2, then 1 and 3 to 10, then 13 and 15, then 18.
#[unsafe(no_mangle)]
pub extern "C" fn palmrummy_answer(input: &[u8], out: &mut [u8]) -> u64
    ensures { (result, out.new) ≡ answer_entry input.now out.old }
{
    match packed::find_bytes(input, out) {
        Ok(listing) => match listing.found {
            Found::Endless => ENDLESS,
            Found::Rows(n) => n as u64,
        },
        Err(refusal) => ENDLESS + u64::from(code(refusal)),
    }
}

// The query of a rule's text: cause 20, its place in a number of its own.
#[unsafe(no_mangle)]
pub extern "C" fn palmrummy_rule(text: &[u8], out: &mut [u8; PACKED], place: &mut [u64; 1]) -> u32
    ensures { RuleEntry text.now out.old place.old (result, (out.new, place.new)) }
{
    match rules::pack(text) {
        Ok(rule) => {
            out.copy_from_slice(&rule.bytes);
            rule.size as u32
        }
        Err(refusal) => {
            *place = [refusal.place()];
            REFUSED + 256 * u32::from(refusal.number())
        }
    }
}
