// The free variables of packed nodes, and a query's columns, from one pass over the nodes. A set of variables is a number of 16 bits, variable 0 lowest. A node
// count in range is asked for, which cause 4 has judged.
ghost use Rattle.query.specs.Reading.{max_nodes};
ghost use Rattle.std.specs.Prelude.{◌≡◌, true, ◌≤◌, ◌<◌, length, get_or, take};
ghost use Rattle.calculus.specs.Sets.{member};
ghost use Rattle.calculus.specs.Formula.{fv};
ghost use Rattle.calculus.specs.Generators.{columns as columns_read};
ghost use Rattle.query.specs.Decoding.{root};
ghost use Rattle.query.specs.Code.Free.{term_bit as bit-of-term, joined_with, without as set-without, in_set, set_in, SetOf, columns_found};

use crate::node::{Node, of};
use crate::{COLUMNS, Columns, NODES, VARIABLES};

// The bit of a term's variable; none where it is a constant.
fn term_bit(t: u32) -> u16
    ensures { result ≡ bit-of-term true t }
{
    if t < 16 { 1u16 << t } else { 0 }
}

// The set of the variables among the first `count` terms.
fn term_bits(count: u32, terms: [u32; 4]) -> u16
    ensures { result ≡ joined_with 0 (take count terms) }
{
    terms
        .iter()
        .take(count as usize)
        .fold(0, |set, t| set | term_bit(*t))
}

// The set without a variable.
fn without(set: u16, variable: u32) -> u16
    ensures { result ≡ set-without variable set }
{
    let bound = term_bit(variable);
    (set | bound) ^ bound
}

// The set of the variables free in a node, given those of the nodes before it.
fn set_in_node(w: u32, before: &[u16; NODES]) -> u16
    ensures { result ≡ set_in w (λ c. get_or before.now c 0) }
{
    match of(w) {
        Node::Record(a) => term_bits(a.count, a.terms),
        Node::Equality(variable, term) => term_bit(variable) | term_bit(term),
        Node::Not(child) => before[child],
        Node::Join(_, left, right) => before[left] | before[right],
        Node::Exists(variable, child) => without(before[child], variable),
        _ => 0,
    }
}

// The set of the variables free in the query.
fn free_set(nodes: &[u32]) -> u16
    requires { (1 ≤ length nodes.now) × (length nodes.now ≤ max_nodes) }
    ensures { SetOf (root nodes.now) result }
{
    let mut sets = [0u16; NODES];
    for (i, w) in nodes.iter().enumerate() {
        let here = set_in_node(*w, &sets);
        sets[i] = here;
    }
    sets[nodes.len() - 1]
}

// Whether variable x is in a set.
fn has(set: u16, x: u32) -> bool
    requires { x < 16 }
    ensures { result ≡ in_set x set }
{
    (set >> x) % 2 == 1
}

// Whether variable x is free in the query.
pub fn is_free(nodes: &[u32], x: u32) -> bool
    requires { (1 ≤ length nodes.now) × (length nodes.now ≤ max_nodes) × (x < 16) }
    ensures { result ≡ member x (fv (root nodes.now)) }
{
    has(free_set(nodes), x)
}

// The free variables of the query, ascending: their number, and the first four of them.
pub fn columns(nodes: &[u32]) -> Columns
    requires { (1 ≤ length nodes.now) × (length nodes.now ≤ max_nodes) }
    ensures { result ≡ columns_found (columns_read (root nodes.now)) }
{
    let set = free_set(nodes);
    let mut variables = [0u8; COLUMNS];
    let mut count = 0;
    for x in 0..VARIABLES {
        if has(set, u32::from(x)) {
            if count < COLUMNS {
                variables[count] = x;
            }
            count += 1;
        }
    }
    Columns { variables, count }
}
