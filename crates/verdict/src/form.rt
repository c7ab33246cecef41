// The constant-propagated form of an accepted query (000, 2.3), packed anew: left subtree, right subtree, parent.
//
// The words of the form stand at the front of an array, with zeros after them. A subtree is written after the words that are there; what propagation then
// drops is set to zero again. The parts ask for room in the array: a form has at most as many nodes as its query, which cause 4 has judged.
ghost use Rattle.std.specs.Prelude.{◌≡◌, [], ◌∷◌, ◌++◌, ◌+◌, ◌≤◌, ◌<◌, take};
ghost use Rattle.calculus.specs.Formula.{size};
ghost use Rattle.calculus.specs.Propagation.{cp};
ghost use Rattle.query.specs.Decoding.{formula_at};
ghost use Rattle.query.specs.Reading.{max_nodes};
ghost use Rattle.query.specs.Packing.{words};
ghost use Rattle.query.specs.Code.Fields.{kind_of};
ghost use Rattle.verdict.specs.Code.Form.{held, words_in, IsHeld, HasRoom, negated, joined, unit_word, quantified, InQuery, IsAccepted};
ghost use Rattle.verdict.specs.Form.{form_of};

use query::node::{self, Connective, Node};
use query::{NODES, Query};

// The words so far, with zeros after them.
#[derive(Drop)]
struct Words {
    nodes: [u32; NODES],
    count: usize,
}

impl Words {
    // One word more.
    fn push(&mut self, w: u32)
        requires { IsHeld self.old × (self.old.count < max_nodes) }
        ensures { self.new ≡ held (words_in self.old ++ (w ∷ [])) }
    {
        self.nodes[self.count] = w;
        self.count += 1;
    }

    // The words from `at` on are dropped.
    fn cut(&mut self, at: usize)
        requires { IsHeld self.old × (at ≤ self.old.count) × (self.old.count ≤ max_nodes) }
        ensures { self.new ≡ held (take at (words_in self.old)) }
    {
        self.nodes[at..self.count].fill(0);
        self.count = at;
    }

    // A not over the last subtree: a truth value is turned over.
    fn negate(&mut self)
        requires { HasRoom self.old }
        ensures { self.new ≡ held (negated (words_in self.old)) }
    {
        let top = self.count - 1;
        match self.nodes[top] {
            node::FALSE => self.nodes[top] = node::TRUE,
            node::TRUE => self.nodes[top] = node::FALSE,
            _ => self.push(node::negation(top)),
        }
    }

    // An and or an or over the last two subtrees, the first of them no truth value. It starts at `at`, and the second at `middle`.
    fn join(&mut self, connective: Connective, at: usize, middle: usize)
        requires { HasRoom self.old × (at < middle) × (middle < self.old.count) }
        ensures { self.new ≡ held (joined (kind_of connective) at middle (words_in self.old)) }
    {
        let top = self.count - 1;
        let last = self.nodes[top];
        if let Node::Truth(_) = node::of(last) {
            if last == unit(connective) {
                self.cut(middle);
            } else {
                self.cut(at);
                self.push(last);
            }
        } else {
            self.push(node::junction(connective, middle - 1, top));
        }
    }

    // An exists over the last subtree: kept where its variable is free there.
    fn quantify(&mut self, x: u32)
        requires { HasRoom self.old × (x < 16) }
        ensures { self.new ≡ held (quantified x (words_in self.old)) }
    {
        if query::is_free(&self.nodes[..self.count], x) {
            self.push(node::existence(x, self.count - 1));
        }
    }
}

// The truth value that an and or an or drops.
fn unit(connective: Connective) -> u32
    ensures { result ≡ unit_word (kind_of connective) }
{
    match connective {
        Connective::And => node::TRUE,
        Connective::Or => node::FALSE,
    }
}

// The form of node i, written after the words that are there.
fn propagate(nodes: &[u32], i: usize, out: &mut Words)
    requires { InQuery nodes.now i × IsHeld out.old × (out.old.count + size (formula_at nodes.now i) ≤ max_nodes) }
    ensures { out.new ≡ held (words_in out.old ++ words (cp (formula_at nodes.now i)) out.old.count) }
{
    let w = nodes[i];
    match node::of(w) {
        // An equality of a variable with itself is true.
        Node::Equality(x, term) => out.push(if x == term { node::TRUE } else { w }),
        Node::Not(child) => {
            propagate(nodes, child, out);
            out.negate();
        }
        Node::Join(connective, left, right) => {
            let at = out.count;
            propagate(nodes, left, out);
            let middle = out.count;
            let first = out.nodes[middle - 1];
            if let Node::Truth(_) = node::of(first) {
                if first == unit(connective) {
                    out.cut(at);
                    propagate(nodes, right, out);
                }
            } else {
                propagate(nodes, right, out);
                out.join(connective, at, middle);
            }
        }
        Node::Exists(x, child) => {
            propagate(nodes, child, out);
            out.quantify(x);
        }
        _ => out.push(w),
    }
}

// The propagated form of an accepted query.
pub fn form_of(query: Query) -> Query
    requires { IsAccepted query }
    ensures { result ≡ form_of query }
{
    let mut out = Words {
        nodes: [0u32; NODES],
        count: 0,
    };
    propagate(&query.nodes, query.node_count - 1, &mut out);
    Query {
        constants: query.constants,
        constant_count: query.constant_count,
        nodes: out.nodes,
        node_count: out.count,
    }
}
