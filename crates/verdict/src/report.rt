// What the verdict reports: the generators of each column, the columns that aren't generated, and the exists nodes whose variable isn't. It asks for the nodes
// of a form with their sets, and for columns as the reader hands them back: at most 4, each below 16.
ghost use Rattle.std.specs.Prelude.{◌≡◌, ℕ, ◌≤◌, ◌<◌, length};
ghost use Rattle.calculus.specs.Sets.{In};
ghost use Rattle.query.specs.Reading.{max_columns, variables_in};
ghost use Rattle.verdict.specs.Code.Generating.{IsJudged, numbers_of, missing_from, unranged_in};

use crate::generate::Judged;
use crate::{bits, source};
use query::node::{self, Node};
use query::{COLUMNS, Columns};

// The generators of each column.
pub fn generators(judged: &Judged, columns: Columns) -> [u64; COLUMNS]
    requires form { IsJudged judged.now }
    requires count_le_max_columns { (columns.count ≤ max_columns) × ((x : ℕ) → In x (variables_in columns) → x < 16) }
    ensures { result ≡ numbers_of judged.now.nodes.now (length judged.now.nodes.now) (variables_in columns) }
{
    let root = judged.nodes.len() - 1;
    let mut numbers = [0u64; COLUMNS];
    for (c, x) in columns.variables[..columns.count].iter().enumerate() {
        numbers[c] = source::plain(judged, root, u32::from(*x));
    }
    numbers
}

// The columns that aren't among the variables that the root generates.
pub fn ungenerated(set: u16, columns: Columns) -> u16
    requires { columns.count ≤ max_columns }
    ensures { result ≡ missing_from set (variables_in columns) }
{
    let mut missing = 0;
    for x in &columns.variables[..columns.count] {
        let x = u32::from(*x);
        if !bits::is_in(x, set) {
            missing |= bits::term_bit(x);
        }
    }
    missing
}

// The exists nodes whose variable isn't generated in their child.
pub fn unranged(judged: &Judged) -> u64
    requires { IsJudged judged.now }
    ensures { result ≡ unranged_in judged.now.nodes.now (length judged.now.nodes.now) }
{
    let mut found = 0;
    for (i, w) in judged.nodes.iter().enumerate() {
        if let Node::Exists(x, child) = node::of(*w) {
            if !bits::is_in(x, judged.plains[child]) {
                found |= bits::node_bit(i);
            }
        }
    }
    found
}
