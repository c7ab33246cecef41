// Menu lines from rule text: document 02, Point 1. A rule is one line of Datalog, `q(X0,X2):-r3(X0,17),not r1(X2).`, and stands for the query that joins its goals
// with and, under an exists for each of their variables that the head doesn't have.
//
// The text is read byte by byte by an automaton (`mode`, `scan`), which keeps the head and the goals as constants and nodes (`draft`). At the full stop the
// quantifiers are added and the query is packed (`finish`). Text may be of any length and any bytes. What the program `rule` prints is written by `output`.
#![tactic(auto)]

mod draft;
mod finish;
mod kept;
mod mode;
mod output;
mod scan;

ghost use Rattle.std.specs.Prelude.{◌≡◌, ◌≤◌, length, take};
ghost use Rattle.rules.specs.Reply.{PackReply, ReadReply, max_bytes, packing_in};
ghost use Rattle.query.specs.Reading.{reading_of};

use causes::{RELATIONS, Refusal};
use mode::{Effect, Mode};
pub use output::print;
use query::{CONSTANTS, NODES, Parsed, Query};

// The bytes of the longest packed query.
pub const PACKED: usize = 322;

// A packed rule: the query by value, and its packed bytes, with zeros in the places past their number.
// Stays: an array and a size, as it is handed back by value and there is no heap.
#[derive(Clone, Copy)]
pub struct Packing {
    pub query: Query,
    pub bytes: [u8; PACKED],
    pub size: usize,
}

impl Packing {
    // The packed bytes. For a packing of this crate, whose size is that of a packed query.
    fn packed(&self) -> &[u8]
        requires { self.now.size ≤ max_bytes }
        ensures value { result.now ≡ take self.now.size self.now.bytes }
        ensures few { length result.now ≤ max_bytes }
    {
        &self.bytes[..self.size]
    }
}

// The query of a rule's text: cause 20. Each text is a rule's or leaves the grammar at a place (`parse`), and the reply is that of either.
pub fn pack(text: &[u8]) -> Result<Packing, Refusal>
    ensures { PackReply text.now (packing_in result) }
{
    let mut constants = [0u32; CONSTANTS];
    let mut nodes = [0u32; NODES];
    let mut here = scan::start();
    let mut head = Some(draft::no_head());
    let mut body = Some(draft::no_goals());
    for (i, b) in text.iter().enumerate() {
        let before = here;
        here = scan::step(before, *b);
        if here.mode == Mode::Out {
            return Err(Refusal::Text(i as u64));
        }
        let number = before.number.unwrap_or(0);
        match scan::effect(before.mode, *b) {
            Effect::Nothing => {}
            Effect::Column => {
                if let Some(h) = head {
                    head = draft::column(h, number);
                }
            }
            effect => {
                if let Some(g) = body {
                    body = scan::goals(effect, g, number, &mut constants, &mut nodes);
                }
            }
        }
    }
    let length = text.len() as u64;
    if here.mode != Mode::Done {
        return Err(Refusal::Text(length));
    }
    let columns = head.ok_or(Refusal::Text(length))?;
    let goals = body.ok_or(Refusal::Text(length))?;
    finish::finish(columns, goals, constants, nodes, length)
}

// A rule's text read as `query::read` reads its packed query, for relations of these widths: cause 20, then 1, then 9.
pub fn read(text: &[u8], widths: [u8; RELATIONS]) -> Result<Parsed, Refusal>
    ensures { ReadReply widths text.now (reading_of result) }
{
    let p = pack(text)?;
    query::read(p.packed(), widths)
}
