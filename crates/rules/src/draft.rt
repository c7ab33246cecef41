// What has been read of a rule, beside its constants and nodes, which stand in two lent arrays. A number may have any number of digits, and a rule any number
// of terms and goals: a number stops at the first one past all limits, and of a head or goals past a limit nothing is kept (`None`).
// For `pack` alone (the module is not public).
ghost use Rattle.std.specs.Prelude.{◌≡◌, ◌≤◌, ◌<◌};
ghost use Rattle.rules.specs.Meaning.{place_in};
ghost use Rattle.rules.specs.Code.Draft.{empty_head, empty_body, capped_more, put_column, put_variable, put_constant, put_term, put_relation, put_equality, settled, add_word, join_goal, append_goal, head_from, the_head, kept_head, body_from, the_body, kept_body, beside, within, with_room};

use crate::kept::{Body, Head, TERMS};
use query::node::Connective;
use query::{CONSTANTS, NODES, node};

// The first number that is past all limits.
const PAST: u64 = 4294967296;

// The largest number of a relation or variable.
const HIGHEST: u64 = 15;

// No variable of the head has been read.
pub fn no_head() -> Head
    ensures { head_from result ≡ empty_head }
{
    Head {
        variables: [0u8; TERMS],
        count: 0,
        least: 0,
    }
}

// No goal has been read.
pub fn no_goals() -> Body
    ensures { body_from result ≡ empty_body }
{
    Body {
        denied: false,
        named: false,
        subject: 0,
        terms: [0u32; TERMS],
        count: 0,
        seen: [false; 16],
        constants: 0,
        nodes: 0,
    }
}

// A number with one digit more, or the first one past all limits.
// Stays: PAST is a number, since the number read is an Option already, and one within it would be no plainer: `Some(None)` would stand for this.
pub fn more(number: u64, digit: u64) -> u64
    ensures { result ≡ capped_more number digit }
{
    number.saturating_mul(10).saturating_add(digit).min(PAST)
}

// The number is a variable of the head.
pub fn column(h: Head, x: u64) -> Option<Head>
    ensures { the_head result ≡ kept_head (put_column (head_from h) x) }
{
    if x < h.least || HIGHEST < x || TERMS <= h.count {
        return None;
    }
    let mut e = h;
    e.variables[h.count] = x as u8;
    e.count += 1;
    e.least = x + 1;
    Some(e)
}

// The first place of a value among the constants, or how many there are.
fn place(v: u32, constants: &[u32]) -> usize
    ensures { result ≡ place_in constants.now v }
{
    // Stays: a loop. Of `position` and `unwrap_or` the check proved neither `place_in` nor the library's word for it.
    for (i, c) in constants.iter().enumerate() {
        if *c == v {
            return i;
        }
    }
    constants.len()
}

// The number is a variable, as the next term.
fn variable(b: Body, x: u64) -> Option<Body>
    requires { b.count < 4 }
    ensures { the_body result ≡ kept_body (put_variable (body_from b) x) }
{
    if HIGHEST < x {
        return None;
    }
    let mut e = b;
    e.terms[b.count] = x as u32;
    e.count += 1;
    e.seen[x as usize] = true;
    Some(e)
}

// The number is a value, as the next term. It is a constant from now on, if it isn't one yet.
fn constant(b: Body, x: u64, constants: &mut [u32; CONSTANTS]) -> Option<Body>
    requires { b.count < 4 }
    ensures kept { beside result constants.new ≡ within (put_constant (body_from b) x constants.old) }
    ensures lent { constants.new ≡ (put_constant (body_from b) x constants.old).1 }
{
    let value = u32::try_from(x).ok()?;
    let p = place(value, &constants[..b.constants]);
    if CONSTANTS <= p {
        return None;
    }
    let mut e = b;
    e.terms[b.count] = 16 + p as u32;
    e.count += 1;
    if p == b.constants {
        constants[p] = value;
        e.constants += 1;
    }
    Some(e)
}

// The number is the next term.
pub fn term(b: Body, x: u64, constants: &mut [u32; CONSTANTS]) -> Option<Body>
    ensures kept { beside result constants.new ≡ within (put_term (body_from b) x constants.old) }
    ensures lent { constants.new ≡ (put_term (body_from b) x constants.old).1 }
{
    if TERMS <= b.count {
        return None;
    }
    if b.named {
        let mut e = b;
        e.named = false;
        return variable(e, x);
    }
    constant(b, x, constants)
}

// A node after n nodes. How many there are then; nothing is written where there is no room.
pub fn add(w: u32, n: usize, nodes: &mut [u32; NODES]) -> Option<usize>
    ensures { (result, nodes.new) ≡ with_room (add_word w n nodes.old) }
{
    if NODES <= n {
        return None;
    }
    nodes[n] = w;
    Some(n + 1)
}

// An and over the goals of the first nodes and the last of n nodes, where there are goals before it.
fn join(before: usize, n: usize, nodes: &mut [u32; NODES]) -> Option<usize>
    requires { (before < n) × (n ≤ 64) }
    ensures { (result, nodes.new) ≡ with_room (join_goal before n nodes.old) }
{
    if before == 0 {
        return Some(n);
    }
    add(node::junction(Connective::And, before - 1, n - 1), n, nodes)
}

// A goal's node after the n nodes of the goals before it, a not over it where it is denied, and an and over those goals and it.
fn append(w: u32, denied: bool, n: usize, nodes: &mut [u32; NODES]) -> Option<usize>
    ensures { (result, nodes.new) ≡ with_room (append_goal w denied n nodes.old) }
{
    let mut end = add(w, n, nodes)?;
    if denied {
        end = add(node::negation(end - 1), end, nodes)?;
    }
    join(n, end, nodes)
}

// The goal that w is the node of is complete, and the next one can be read.
fn settle(b: Body, w: u32, nodes: &mut [u32; NODES]) -> Option<Body>
    ensures kept { beside result nodes.new ≡ within (settled (body_from b) w nodes.old) }
    ensures lent { nodes.new ≡ (settled (body_from b) w nodes.old).1 }
{
    let end = append(w, b.denied, b.nodes, nodes)?;
    let mut e = b;
    e.denied = false;
    e.subject = 0;
    e.terms = [0u32; TERMS];
    e.count = 0;
    e.nodes = end;
    Some(e)
}

// The relation is complete.
pub fn relation(b: Body, nodes: &mut [u32; NODES]) -> Option<Body>
    ensures kept { beside result nodes.new ≡ within (put_relation (body_from b) nodes.old) }
    ensures lent { nodes.new ≡ (put_relation (body_from b) nodes.old).1 }
{
    if HIGHEST < b.subject {
        return None;
    }
    let w = node::membership(b.subject as u32, b.count as u32, b.terms);
    settle(b, w, nodes)
}

// The equality is complete.
pub fn equality(b: Body, nodes: &mut [u32; NODES]) -> Option<Body>
    ensures kept { beside result nodes.new ≡ within (put_equality (body_from b) nodes.old) }
    ensures lent { nodes.new ≡ (put_equality (body_from b) nodes.old).1 }
{
    if HIGHEST < b.subject {
        return None;
    }
    let mut e = b;
    e.seen[b.subject as usize] = true;
    let w = node::equality(b.subject as u32, b.terms[0]);
    settle(e, w, nodes)
}
