// The leaf nodes that a variable is generated from: document 01's order with document 02's last step, plain and denied. Each of the two calls itself with a
// child, whose number is below its node's, and the other one through a not. The sets of `generate` say which way the order takes, so that no node is looked at
// twice; both ask for the nodes of a form with these sets, and for one of the 16 variables.
ghost use Rattle.std.specs.Prelude.{◌≡◌, ◌<◌, length};
ghost use Rattle.verdict.specs.Code.Generating.{IsJudged, plain_nodes, denied_nodes, other_side};

use crate::bits;
use crate::generate::{self, Judged};
use query::node::{self, Connective, Node};

// The other side of an equality of x.
fn other(w: u32, x: u32) -> u32
    ensures { result ≡ other_side w x }
{
    let f = node::fields(w);
    if x == f.variable { f.term } else { f.variable }
}

// The nodes from which node i generates x; none where it doesn't.
#[cycle(denied_plain)]
pub fn plain(judged: &Judged, i: usize, x: u32) -> u64
    requires { IsJudged judged.now × (i < length judged.now.nodes.now) × (x < 16) }
    ensures { result ≡ plain_nodes judged.now.nodes.now i x }
{
    if !bits::is_in(x, judged.plains[i]) {
        return 0;
    }
    match node::of(judged.nodes[i]) {
        Node::Not(child) => denied(judged, child, x),
        Node::Join(connective, left, right) => match connective {
            Connective::And => { // left, else right, else by an equality: on the right, else on the left
                if bits::is_in(x, judged.plains[left]) {
                    return plain(judged, left, x);
                }
                if bits::is_in(x, judged.plains[right]) {
                    return plain(judged, right, x);
                }
                let carried = generate::equated(judged.nodes[right], judged.plains[left]);
                if bits::is_in(x, carried) {
                    return plain(judged, left, other(judged.nodes[right], x));
                }
                plain(judged, right, other(judged.nodes[left], x))
            }
            Connective::Or => plain(judged, left, x) | plain(judged, right, x), // both
        },
        Node::Exists(_, child) => plain(judged, child, x),
        Node::Truth(_) => 0, // false: from no node
        _ => bits::node_bit(i), // a record or an equality
    }
}

// The nodes from which node i, standing under a not, generates x; none where it doesn't.
// Stays: document 01 has plain and denied generation call each other.
#[cycle(denied_plain)]
pub fn denied(judged: &Judged, i: usize, x: u32) -> u64
    requires { IsJudged judged.now × (i < length judged.now.nodes.now) × (x < 16) }
    ensures { result ≡ denied_nodes judged.now.nodes.now i x }
{
    if !bits::is_in(x, judged.denieds[i]) {
        return 0;
    }
    match node::of(judged.nodes[i]) {
        Node::Not(child) => plain(judged, child, x),
        Node::Join(connective, left, right) => match connective {
            Connective::And => denied(judged, left, x) | denied(judged, right, x), // both
            Connective::Or => { // left, else right
                if bits::is_in(x, judged.denieds[left]) {
                    denied(judged, left, x)
                } else {
                    denied(judged, right, x)
                }
            }
        },
        _ => 0, // no other node generates as denied
    }
}
