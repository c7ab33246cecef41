// From what was read of a rule to its packed query: the quantifiers, and the bytes. For `pack` alone (the module is not public): what is asked for is so of
// every rule that has been read whole (`reached-ready`).
ghost use Rattle.std.specs.Prelude.{◌≡◌, Ok, false, not, ◌≤◌, ◌<◌, get_or, take};
ghost use Rattle.calculus.specs.Sets.{any_of, member};
ghost use Rattle.query.specs.Code.Writing.{Few};
ghost use Rattle.rules.specs.Reply.{packing_in};
ghost use Rattle.rules.specs.Code.Draft.{head_from, body_from, with_room};
ghost use Rattle.rules.specs.Code.Finish.{is_bound, bound_down, bind_all, packing_of, finished};

use crate::kept::{Body, Head};
use crate::{PACKED, Packing, draft};
use causes::Refusal;
use query::{CONSTANTS, NODES, Query, VARIABLES, node, write};

// Whether a variable of the head stands in no goal.
fn is_missing(h: Head, seen: &[bool; 16]) -> bool
    ensures { result ≡ any_of (λ x. not (get_or seen.now x false)) (take h.count h.variables) }
{
    // Stays: a loop. In a closure of `any` the index wasn't proved below 16, with no file and with the variables' bound as a fact of their type.
    for x in &h.variables[..h.count] {
        if !seen[usize::from(*x)] {
            return true;
        }
    }
    false
}

// Whether x is a variable of the head.
fn is_column(h: Head, x: u8) -> bool
    ensures { result ≡ member x (take h.count h.variables) }
{
    h.variables[..h.count].contains(&x)
}

// Whether a goal has x and the head doesn't.
fn needs_exists(h: Head, seen: &[bool; 16], x: u8) -> bool
    requires { x < 16 }
    ensures { result ≡ is_bound (head_from h) seen.now x }
{
    seen[usize::from(x)] && !is_column(h, x)
}

// An exists over the last of n nodes for each variable that the goals have and the head lacks, the highest first, so innermost. How many nodes there are then,
// where all had room.
fn quantify(h: Head, seen: &[bool; 16], n: usize, nodes: &mut [u32; NODES]) -> Option<usize>
    requires { (1 ≤ n) × (n ≤ 64) }
    ensures { (result, nodes.new) ≡ with_room (bind_all (bound_down (is_bound (head_from h) seen.now) 16) n nodes.old) }
{
    let mut end = n;
    for x in (0..VARIABLES).rev() {
        if needs_exists(h, seen, x) {
            end = draft::add(node::existence(u32::from(x), end - 1), end, nodes)?;
        }
    }
    Some(end)
}

// The packed query.
fn packed(query: Query) -> Packing
    requires { Few query }
    ensures { packing_in (Ok result) ≡ packing_of query.constants query.constant_count query.nodes query.node_count }
{
    let mut bytes = [0u8; PACKED];
    write::query(query, &mut bytes, 0);
    Packing {
        query,
        bytes,
        size: 2 + 4 * query.constant_count + 4 * query.node_count,
    }
}

// The reply to a rule that has been read whole, of a text of this length.
pub fn finish(
    h: Head,
    b: Body,
    constants: [u32; CONSTANTS],
    nodes: [u32; NODES],
    length: u64,
) -> Result<Packing, Refusal>
    requires { 1 ≤ b.nodes }
    ensures { packing_in result ≡ finished (head_from h) (body_from b) constants nodes length }
{
    if is_missing(h, &b.seen) {
        return Err(Refusal::Text(length));
    }
    let mut all = nodes;
    let end = quantify(h, &b.seen, b.nodes, &mut all).ok_or(Refusal::Text(length))?;
    Ok(packed(Query {
        constants,
        constant_count: b.constants,
        nodes: all,
        node_count: end,
    }))
}
