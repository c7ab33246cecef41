// The faults of one node: causes 6 to 9. For the reader alone (the module is not public).
ghost use Rattle.std.specs.Prelude.{◌≡◌, leb};
ghost use Rattle.calculus.specs.Sets.{any_of};
ghost use Rattle.query.specs.Nodes.{children, malformed, is_stray, strays, mismatched};

use crate::node::{self, Node, of};
use causes::RELATIONS;

// Cause 6: kind 7, or a zero bit or an unused term set.
pub fn is_malformed(w: u32) -> bool
    ensures { result ≡ malformed w }
{
    if node::rest(w) != 0 {
        return true;
    }
    match of(w) {
        Node::Unknown => true,
        Node::Record(a) => a.terms.iter().skip(a.count as usize).any(|t| *t != 0),
        _ => false,
    }
}

// Whether a child of the node is not below i.
pub fn reaches(w: u32, i: usize) -> bool
    ensures { result ≡ any_of (leb i) (children w) }
{
    match of(w) {
        Node::Not(child) | Node::Exists(_, child) => i <= child,
        Node::Join(_, left, right) => i <= left || i <= right,
        _ => false,
    }
}

// Whether a term is a constant at or past the count.
fn is_past(constants: u32, term: u32) -> bool
    ensures { result ≡ is_stray constants term }
{
    16 <= term && constants <= term % 16
}

// Cause 8: a constant's place at or past the count.
pub fn has_stray(constants: u32, w: u32) -> bool
    ensures { result ≡ strays constants w }
{
    match of(w) {
        Node::Record(a) => a
            .terms
            .iter()
            .take(a.count as usize)
            .any(|t| is_past(constants, *t)),
        Node::Equality(_, term) => is_past(constants, term),
        _ => false,
    }
}

// Cause 9: a relation absent, or a term count that is not its width.
pub fn is_mismatched(widths: &[u8; RELATIONS], w: u32) -> bool
    ensures { result ≡ mismatched widths.now w }
{
    match of(w) {
        Node::Record(a) => {
            let width = u32::from(widths[a.relation as usize]);
            width == 0 || a.count != width
        }
        _ => false,
    }
}
