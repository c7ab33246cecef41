// The reader of packed queries.
//
// A packed query is a header of 16 bits (version 4, node count 7, constant count 5), then 32-bit constants, then 32-bit nodes, high byte first. The nodes
// are a tree: the last one is the root, and a child's number is below its parent's. The reader judges any bytes (causes 1 and 3 to 10) and hands back the
// constants and nodes of those that it accepts, with the query's columns. The crates above look at a node, and write one, by `node` alone. They write a query as
// bytes by `write`.
#![tactic(auto)]

mod fault;
mod free;
mod judge;
pub mod node;
mod unpack;
pub mod write;

ghost use Rattle.std.specs.Prelude.{◌≡◌};
ghost use Rattle.query.specs.Reading.{read_of, reading_of};

use causes::{RELATIONS, Refusal};
pub use free::is_free;
pub use unpack::{wide, word};

// The limits of a query: its nodes, constants and columns. Variables are numbered from 0.
pub const NODES: usize = 64;

pub const CONSTANTS: usize = 16;

pub const COLUMNS: usize = 4;

pub const VARIABLES: u8 = 16;

// An accepted query: its constants and nodes, with zeros in the places past the counts.
// Stays: there is no heap, so each list has places for the most that it may hold, and a count.
#[derive(Clone, Copy)]
pub struct Query {
    pub constants: [u32; CONSTANTS],
    pub constant_count: usize,
    pub nodes: [u32; NODES],
    pub node_count: usize,
}

// The free variables of a query as read, ascending, with zeros in the places past the count.
// Stays: there is no heap, so there are places for the most variables, and a count.
#[derive(Clone, Copy, PartialEq, Eq)]
pub struct Columns {
    pub variables: [u8; COLUMNS],
    pub count: usize,
}

// What reading hands back of an accepted query.
#[derive(Clone, Copy)]
pub struct Parsed {
    pub query: Query,
    pub columns: Columns,
}

// The query that the bytes hold, for relations of these widths: causes 1 and 3 to 10.
pub fn read(bytes: &[u8], widths: [u8; RELATIONS]) -> Result<Parsed, Refusal>
    ensures { reading_of result ≡ read_of widths bytes.now }
{
    judge::header(bytes, widths)?;
    let n = unpack::node_count(bytes);
    let k = unpack::constant_count(bytes);
    let mut constants = [0u32; CONSTANTS];
    unpack::words(bytes, 2, &mut constants[..k]);
    let mut nodes = [0u32; NODES];
    unpack::words(bytes, 2 + 4 * k, &mut nodes[..n]);
    judge::tree(&nodes[..n], k, &widths)?;
    let columns = free::columns(&nodes[..n]);
    if COLUMNS < columns.count {
        return Err(Refusal::Columns);
    }
    let query = Query {
        constants,
        constant_count: k,
        nodes,
        node_count: n,
    };
    Ok(Parsed { query, columns })
}
