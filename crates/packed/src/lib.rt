// The calls over the packed input, which the list program and the host make.
//
// The packed input has sixteen width bytes, a record count of 2 bytes, the records of 17 bytes each (a relation, four values of 4 bytes), all high byte first,
// and then the query, which is the rest of it. It is refused 2 where it ends before the query or is over 8,192 bytes; then the query's causes run, then those of
// the records, which fill a store in any order, and then those of the answer.
#![tactic(auto)]

mod part;

ghost use Rattle.std.specs.Prelude.{◌≡◌, replicate, Ok};
ghost use Rattle.verdict.specs.Verdict.{judging_of};
ghost use Rattle.packed.specs.Code.Packed.{input_in, input_of, assessment_in, assessed};
ghost use Rattle.answer.specs.Reply.{rows_found};
ghost use Rattle.packed.specs.Packed.{judged_of, beside, listing_found, listing_of, byte_listing_of};

use answer::Found;
use causes::Refusal;
use query::{Columns, Query};
use tables::Store;
use verdict::Verdict;

// The most bytes of an input; the bytes before its records; the bytes of a record.
pub const LIMIT: usize = 8192;

pub const HEAD: usize = 18;

pub const RECORD: usize = 17;

// The numbers that a list has room for in the list program.
pub const ROOM: usize = 4096;

// What an input holds: the store of its records, and its query with the columns.
#[derive(Clone, Copy)]
pub struct Input {
    pub store: Store,
    pub query: Query,
    pub columns: Columns,
}

// An input as judged: the store of its records, and the verdict on its query, with the query's form and columns.
#[derive(Clone, Copy)]
pub struct Assessment {
    pub store: Store,
    pub verdict: Verdict,
}

// What the list of an input's query is: whether the query is safe-range, its columns, and whether infinitely many rows satisfy it, or how many do.
#[derive(Clone, Copy)]
pub struct Listing {
    pub safe: bool,
    pub columns: Columns,
    pub found: Found,
}

// The room of the list program, as zeros.
pub fn room() -> [u32; ROOM]
    ensures { result ≡ replicate 4096 0 }
{
    [0u32; ROOM]
}

// What the bytes hold: causes 2, then 1 and 3 to 10 of the query, then 13 and 15 of the records. The query is handed to the reader as the rest of the bytes.
fn take(bytes: &[u8]) -> Result<Input, Refusal>
    ensures { input_in result ≡ input_of bytes.now }
{
    let Some(head) = part::measure(bytes) else {
        return Err(Refusal::StoreLayout);
    };
    let from = HEAD + RECORD * head.count;
    let read = query::read(&bytes[from..], head.widths)?;
    let store = part::fill(bytes, head)?;
    Ok(Input {
        store,
        query: read.query,
        columns: read.columns,
    })
}

// The store of an input beside the verdict on its query: causes 2, then 1 and 3 to 10, then 13 and 15.
fn assess(bytes: &[u8]) -> Result<Assessment, Refusal>
    ensures { assessment_in result ≡ assessed bytes.now }
{
    let input = take(bytes)?;
    Ok(Assessment {
        store: input.store,
        verdict: verdict::judged(input.query, input.columns),
    })
}

// The verdict on the query of an input: causes 2, then 1 and 3 to 10, then 13 and 15.
pub fn judge(bytes: &[u8]) -> Result<Verdict, Refusal>
    ensures { judging_of result ≡ judged_of bytes.now }
{
    let assessment = assess(bytes)?;
    Ok(assessment.verdict)
}

// What was found, with the verdict and the columns beside it.
fn list(verdict: &Verdict, found: Found) -> Listing
    ensures { listing_found (Ok result) ≡ beside (rows_found found) verdict.now.safe verdict.now.columns }
{
    Listing {
        safe: verdict.safe,
        columns: verdict.columns,
        found,
    }
}

// The list of an input's query: causes 2, then 1 and 3 to 10, then 13 and 15, then 18. The rows stand at the front of the lent list, the rest of which is
// unaltered; a refusal leaves it whole.
pub fn find(bytes: &[u8], out: &mut [u32]) -> Result<Listing, Refusal>
    ensures { (listing_found result, out.new) ≡ listing_of bytes.now out.old }
{
    let Assessment { store, verdict } = assess(bytes)?;
    let found = answer::evaluate(store, verdict.form, verdict.columns, out)?;
    Ok(list(&verdict, found))
}

// The list of an input's query, its rows as bytes, four to a number, high byte first, with room for a quarter of the bytes: the causes of `find`.
// Stays: beside `find` it calls another function of `answer`, and their clauses name two definitions.
pub fn find_bytes(bytes: &[u8], out: &mut [u8]) -> Result<Listing, Refusal>
    ensures { (listing_found result, out.new) ≡ byte_listing_of bytes.now out.old }
{
    let Assessment { store, verdict } = assess(bytes)?;
    let found = answer::evaluate_bytes(store, verdict.form, verdict.columns, out)?;
    Ok(list(&verdict, found))
}
