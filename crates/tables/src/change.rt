// One record put or removed: causes 1, 2 and 13 to 16. The store goes in and comes back by value; a caller that is refused keeps the one it has.
ghost use Rattle.std.specs.Prelude.{◌≡◌, ◌+◌, ◌-◌, ◌≤◌, ◌<◌};
ghost use Rattle.tables.specs.Store.{capacity, places_of, held, of_places};
ghost use Rattle.tables.specs.Change.{changed_of, rank, put_reply, removal_reply};
ghost use Rattle.tables.specs.Code.Change.{located, raised, lowered, insertion, Joined, deletion};

use crate::{BLANK, PLACES, Record, Store, layout, place};
use causes::Refusal;

// The number of records below r that stand before any other, among the first count.
fn rank_of(s: &Store, r: Record) -> usize
    requires { s.now.count ≤ capacity }
    ensures { result ≡ rank r (held s.now) }
{
    for i in 0..s.count {
        // A record of a relation before r's is below r, whatever its values: most are told by this alone.
        if r.relation <= s.relations[i] && !(place::read(&s.relations, &s.values, i) < r) {
            return i;
        }
    }
    s.count
}

// Where a record stands in a store whose count was judged; as an error, where it would stand.
fn locate(s: &Store, r: Record) -> Result<usize, usize>
    requires { s.now.count ≤ capacity }
    ensures { result ≡ located s.now r }
{
    let place = rank_of(s, r);
    if place < s.count && place::read(&s.relations, &s.values, place) == r {
        return Ok(place);
    }
    Err(place)
}

// Puts r at place k of a store, and the records from there on one place up.
fn raise(s: &mut Store, k: usize, r: Record)
    requires { (k ≤ capacity) × (s.old.count ≤ capacity) }
    ensures { s.new ≡ of_places s.old.widths (raised (places_of s.old) k r) (s.old.count + 1) }
{
    let mut carried = r;
    for i in k..PLACES {
        let next = place::read(&s.relations, &s.values, i);
        place::write(&mut s.relations, &mut s.values, i, carried);
        carried = next;
    }
    s.count += 1;
}

// The store without the record at place k, those past it one place down, and the last place blank.
fn lower(mut s: Store, k: usize) -> Store
    requires { (k < capacity) × (0 < s.count) }
    ensures { result ≡ of_places s.widths (lowered (places_of s) k) (s.count - 1) }
{
    for i in k..PLACES - 1 {
        let next = place::read(&s.relations, &s.values, i + 1);
        place::write(&mut s.relations, &mut s.values, i, next);
    }
    place::write(&mut s.relations, &mut s.values, PLACES - 1, BLANK);
    s.count -= 1;
    s
}

// Causes 13 to 15 and the put, in a store that is lent and judged: only its count matters here.
pub(crate) fn join(s: &mut Store, r: Record) -> Result<(), Refusal>
    requires { s.old.count ≤ capacity }
    ensures { Joined s.old r result s.new }
{
    if !layout::record_fits(&s.widths, r) {
        return Err(Refusal::RecordLayout);
    }
    match locate(s, r) {
        Ok(_) => Err(Refusal::Held),
        Err(_) if PLACES <= s.count => Err(Refusal::StoreFull),
        Err(place) => {
            raise(s, place, r);
            Ok(())
        }
    }
}

// The same, for a caller that hands the store over.
pub fn insert(mut s: Store, r: Record) -> Result<Store, Refusal>
    requires { s.count ≤ capacity }
    ensures { changed_of s result ≡ insertion s r }
{
    join(&mut s, r)?;
    Ok(s)
}

// Causes 13 and 16 and the removal, for a caller that has judged the store: only its count matters here.
pub fn delete(s: Store, r: Record) -> Result<Store, Refusal>
    requires { s.count ≤ capacity }
    ensures { changed_of s result ≡ deletion s r }
{
    if !layout::record_fits(&s.widths, r) {
        return Err(Refusal::RecordLayout);
    }
    match locate(&s, r) {
        Ok(place) => Ok(lower(s, place)),
        Err(_) => Err(Refusal::NotHeld),
    }
}

// A record put into a store: causes 1, 2, 13, 14, 15.
pub fn put(s: Store, r: Record) -> Result<Store, Refusal>
    ensures { changed_of s result ≡ put_reply s r }
{
    layout::judge(s)?;
    insert(s, r)
}

// A record removed from a store: causes 1, 2, 13, 16.
pub fn remove(s: Store, r: Record) -> Result<Store, Refusal>
    ensures { changed_of s result ≡ removal_reply s r }
{
    layout::judge(s)?;
    delete(s, r)
}
