// The causes of a packed query, in order: 1, 3, 4, 5 of its header, then 6 to 9, each over all nodes. For the reader alone (the module is not public): what
// follows the header asks for counts in range, which causes 4 and 5 have just judged.
ghost use Rattle.std.specs.Prelude.{◌≡◌, ℕ, ◌≤◌, ◌<◌, length, get_or};
ghost use Rattle.calculus.specs.Lists.{tabulate};
ghost use Rattle.causes.specs.Causes.{answer_of, first_cause, lowest};
ghost use Rattle.query.specs.Nodes.{uses, malformed as is-malformed, misplaced as is-misplaced, strays, mismatched as is-mismatched};
ghost use Rattle.query.specs.Code.Judging.{counted_with, finding_of};
ghost use Rattle.query.specs.Reading.{max_nodes, max_constants, header_checks, tree_checks};

use crate::node::{Node, of};
use crate::{CONSTANTS, NODES, fault, unpack};
use causes::{RELATIONS, Refusal};

// Causes 1, 3, 4 and 5.
pub fn header(bytes: &[u8], widths: [u8; RELATIONS]) -> Result<(), Refusal>
    ensures { answer_of result ≡ first_cause (header_checks widths bytes.now) }
{
    if !causes::widths_are_right(widths) {
        return Err(Refusal::Width);
    }
    let length = bytes.len();
    if length < 2 || bytes[0] / 16 != 1 {
        return Err(Refusal::Version);
    }
    let n = unpack::node_count(bytes);
    let k = unpack::constant_count(bytes);
    if n == 0 || NODES < n || CONSTANTS < k {
        return Err(Refusal::Counts);
    }
    if length != 2 + 4 * k + 4 * n {
        return Err(Refusal::Length);
    }
    Ok(())
}

// The uses counted so far, and those by the child fields of the node w.
fn count(counts: &mut [u8; NODES], w: u32)
    requires { (c : ℕ) → c < max_nodes → get_or counts.old c 0 < 254 }
    ensures { counts.new ≡ counted_with counts.old w }
{
    match of(w) {
        Node::Not(child) => counts[child] += 1,
        Node::Exists(_, child) => counts[child] += 1,
        Node::Join(_, left, right) => {
            counts[left] += 1;
            counts[right] += 1;
        }
        _ => {}
    }
}

// How often each node is a child.
fn count_uses(nodes: &[u32]) -> [u8; NODES]
    requires { length nodes.now ≤ max_nodes }
    ensures { result ≡ tabulate (uses nodes.now) max_nodes }
{
    let mut counts = [0u8; NODES];
    for w in nodes {
        count(&mut counts, *w);
    }
    counts
}

// Cause 7: whether node i has a child not below it, or is not the last and not a child exactly once.
fn is_misplaced(nodes: &[u32], counts: &[u8; NODES], i: usize) -> bool
    requires { (i < length nodes.now) × (length nodes.now ≤ max_nodes) × (counts.now ≡ tabulate (uses nodes.now) max_nodes) }
    ensures { result ≡ is-misplaced nodes.now i }
{
    fault::reaches(nodes[i], i) || i + 1 != nodes.len() && counts[i] != 1
}

// The lowest node that meets cause 6.
fn malformed(nodes: &[u32]) -> Option<usize>
    ensures { finding_of result ≡ lowest (λ i. is-malformed (get_or nodes.now i 0)) (length nodes.now) }
{
    nodes.iter().position(|w| fault::is_malformed(*w))
}

// The lowest node that meets cause 7, by the counts of their uses.
fn misplaced(nodes: &[u32], counts: &[u8; NODES]) -> Option<usize>
    requires { (length nodes.now ≤ max_nodes) × (counts.now ≡ tabulate (uses nodes.now) max_nodes) }
    ensures { finding_of result ≡ lowest (is-misplaced nodes.now) (length nodes.now) }
{
    (0..nodes.len()).find(|i| is_misplaced(nodes, counts, *i))
}

// The lowest node that meets cause 8.
fn stray(nodes: &[u32], constants: u32) -> Option<usize>
    ensures { finding_of result ≡ lowest (λ i. strays constants (get_or nodes.now i 0)) (length nodes.now) }
{
    nodes.iter().position(|w| fault::has_stray(constants, *w))
}

// The lowest node that meets cause 9.
fn mismatched(nodes: &[u32], widths: &[u8; RELATIONS]) -> Option<usize>
    ensures { finding_of result ≡ lowest (λ i. is-mismatched widths.now (get_or nodes.now i 0)) (length nodes.now) }
{
    nodes.iter().position(|w| fault::is_mismatched(widths, *w))
}

// Causes 6 to 9, each over all nodes.
pub fn tree(nodes: &[u32], constants: usize, widths: &[u8; RELATIONS]) -> Result<(), Refusal>
    requires { (length nodes.now ≤ max_nodes) × (constants ≤ max_constants) }
    ensures { answer_of result ≡ first_cause (tree_checks widths.now constants nodes.now) }
{
    let counts = count_uses(nodes);
    if let Some(i) = malformed(nodes) {
        return Err(Refusal::Malformed(i));
    }
    if let Some(i) = misplaced(nodes, &counts) {
        return Err(Refusal::Misplaced(i));
    }
    if let Some(i) = stray(nodes, constants as u32) {
        return Err(Refusal::Stray(i));
    }
    if let Some(i) = mismatched(nodes, widths) {
        return Err(Refusal::Mismatched(i));
    }
    Ok(())
}
