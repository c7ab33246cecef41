// The reader of a rule, byte by byte. It goes on for text of any length: what is kept is of fixed size. For `pack` alone (the module is not public).
ghost use Rattle.std.specs.Prelude.{◌≡◌, ◌≤◌, unwrap_or};
ghost use Rattle.rules.specs.Code.Draft.{body_from, beside, within};
ghost use Rattle.rules.specs.Code.Modes.{effect_number};
ghost use Rattle.rules.specs.Code.Scan.{start_reader, digit_mode, digit_reader, turn_mode, turn_reader, reader_step, effect_at, body_step, reader_from, is_begun};

use crate::kept::Body;
use crate::mode::{Effect, Mode};
use crate::{draft, mode};
use query::{CONSTANTS, NODES};

// Where the reader stands: its mode, and the number being read, where a digit of it has been read.
#[derive(Clone, Copy)]
pub struct Reader {
    pub mode: Mode,
    pub number: Option<u64>,
}

// Nothing has been read.
pub fn start() -> Reader
    ensures { reader_from result ≡ start_reader }
{
    Reader {
        mode: Mode::Start,
        number: None,
    }
}

// The mode after a digit. None follows a first 0.
fn digit_mode(mode: Mode, number: Option<u64>) -> Mode
    ensures { result ≡ digit_mode mode (unwrap_or number 0) (is_begun number) }
{
    match number {
        Some(0) => Mode::Out,
        _ => mode::next(mode, b'0'),
    }
}

// A digit.
fn digit(p: Reader, b: u8) -> Reader
    requires { (48 ≤ b) × (b ≤ 57) }
    ensures { reader_from result ≡ digit_reader (reader_from p) b }
{
    Reader {
        mode: digit_mode(p.mode, p.number),
        number: Some(draft::more(p.number.unwrap_or(0), u64::from(b - b'0'))),
    }
}

// The mode after a byte that is no digit. One that follows a number needs a digit before it.
fn turn_mode(mode: Mode, started: bool, b: u8) -> Mode
    ensures { result ≡ turn_mode mode started b }
{
    let effect = mode::effect_of(mode, b);
    if !mode::suits(effect, started) {
        return Mode::Out;
    }
    mode::next(mode, b)
}

// A byte that is no digit.
fn turn(p: Reader, b: u8) -> Reader
    ensures { reader_from result ≡ turn_reader (reader_from p) b }
{
    Reader {
        mode: turn_mode(p.mode, p.number.is_some(), b),
        number: None,
    }
}

// One byte more.
pub fn step(p: Reader, b: u8) -> Reader
    ensures { reader_from result ≡ reader_step (reader_from p) b }
{
    if b.is_ascii_digit() {
        digit(p, b)
    } else {
        turn(p, b)
    }
}

// What a byte does to the head or the goals. A digit does nothing.
pub fn effect(mode: Mode, b: u8) -> Effect
    ensures { effect_number result ≡ effect_at mode b }
{
    if b.is_ascii_digit() {
        Effect::Nothing
    } else {
        mode::effect_of(mode, b)
    }
}

// What a byte does to the goals. Nothing is kept of goals past a limit. Of a relation or an equality whose last term is past one the node is still written, with the
// terms that it has.
pub fn goals(
    effect: Effect,
    b: Body,
    number: u64,
    constants: &mut [u32; CONSTANTS],
    nodes: &mut [u32; NODES],
) -> Option<Body>
    ensures kept { beside result (constants.new, nodes.new) ≡ within (body_step (effect_number effect) (body_from b) number constants.old nodes.old) }
    ensures lent { (constants.new, nodes.new) ≡ (body_step (effect_number effect) (body_from b) number constants.old nodes.old).1 }
{
    let mut e = b;
    match effect {
        Effect::Nothing | Effect::Column => {}
        Effect::Denied => e.denied = true,
        Effect::Subject => e.subject = number,
        Effect::Named => e.named = true,
        Effect::Term => return draft::term(b, number, constants),
        Effect::Relation => {
            let Some(whole) = draft::term(b, number, constants) else {
                draft::relation(b, nodes);
                return None;
            };
            return draft::relation(whole, nodes);
        }
        Effect::Equality => {
            let Some(whole) = draft::term(b, number, constants) else {
                draft::equality(b, nodes);
                return None;
            };
            return draft::equality(whole, nodes);
        }
    }
    Some(e)
}
