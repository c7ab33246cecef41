// A store filled from widths and a lent list of records, in any order: causes 1, 13 and 15. A repeat is kept once.
ghost use Rattle.std.specs.Prelude.{◌≡◌};
ghost use Rattle.tables.specs.Records.{record_of_parts};
ghost use Rattle.tables.specs.Change.{changed_of};
ghost use Rattle.tables.specs.Code.Fill.{beginning, CollectedBy};
ghost use Rattle.tables.specs.Fill.{fill_reply};
ghost use Rattle.tables.specs.Store.{no_store};

use crate::{PLACES, Record, Store, VALUES, change};
use causes::{RELATIONS, Refusal};

// No relation, and no record: what a filling starts from, and what a caller that is refused before it has a store can go on with.
pub fn none() -> Store
    ensures { result ≡ no_store }
{
    Store {
        widths: [0u8; RELATIONS],
        relations: [0u8; PLACES],
        values: [0u32; VALUES],
        count: 0,
    }
}

// A filling before its first record: cause 1.
pub fn begin(widths: [u8; RELATIONS]) -> Result<Store, Refusal>
    ensures { changed_of no_store result ≡ beginning widths }
{
    if !causes::widths_are_right(widths) {
        return Err(Refusal::Width);
    }
    Ok(Store { widths, ..none() })
}

// A filling with one record more, given by its parts: causes 13 and 15. One that is refused stays so, whatever its refusal carries. A store whose count is past
// the places, which no filling has, is refused with cause 2.
pub fn collect<E: From<Refusal> + Drop>(
    mut f: Result<Store, E>,
    relation: u8,
    first: u32,
    second: u32,
    third: u32,
    fourth: u32,
) -> Result<Store, E>
    ensures { CollectedBy E.from_gives f (record_of_parts relation first second third fourth) result }
{
    let Ok(s) = &mut f else {
        return f;
    };
    if PLACES < s.count {
        return Err(E::from(Refusal::StoreLayout));
    }
    let r = Record {
        relation,
        first,
        second,
        third,
        fourth,
    };
    match change::join(s, r) {
        Ok(()) | Err(Refusal::Held) => f,
        Err(cause) => Err(E::from(cause)),
    }
}

// The store of the records of a list. Each record is taken apart, and `collect` is given its parts.
pub fn fill(widths: [u8; RELATIONS], records: &[Record]) -> Result<Store, Refusal>
    ensures { changed_of no_store result ≡ fill_reply widths records.now }
{
    let mut f = begin(widths);
    for r in records {
        f = collect(f, r.relation, r.first, r.second, r.third, r.fourth);
    }
    f
}
