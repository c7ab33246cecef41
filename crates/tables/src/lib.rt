// The store of a tool: sixteen relations and at most 256 records of them.
//
// A store is a value. Record i stands in relations[i] and values[4 i .. 4 i + 3]. The first `count` records are those held, strictly ascending; every
// place past the count is zero. A call judges what it is given (layout.rt), then changes one record (change.rt) or fills a store (fill.rt).
#![tactic(auto)]

pub mod change;
pub mod fill;
pub mod layout;
pub mod place;

use causes::RELATIONS;

// The record places of a store, and the values in them.
pub const PLACES: usize = 256;

pub const VALUES: usize = 4 * PLACES;

// A relation and four values; those past the relation's width are zero. Records are ordered by relation, then by values from the first.
#[derive(Clone, Copy, Debug, PartialEq, Eq, PartialOrd, Ord)]
pub struct Record {
    pub relation: u8,
    pub first: u32,
    pub second: u32,
    pub third: u32,
    pub fourth: u32,
}

// The record of an unused place.
pub const BLANK: Record = Record {
    relation: 0,
    first: 0,
    second: 0,
    third: 0,
    fourth: 0,
};

// Stays: document 01's form of a store, arrays of fixed size with a count beside them, passed and handed back by value.
#[derive(Clone, Copy)]
pub struct Store {
    pub widths: [u8; RELATIONS],
    pub relations: [u8; PLACES],
    pub values: [u32; VALUES],
    pub count: usize,
}
