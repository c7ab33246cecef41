// The layout of a store, and of a record: causes 1, 2 and 13.
ghost use Rattle.std.specs.Prelude.{◌≡◌, ◌&&◌, ◌≤◌, ◌<◌};
ghost use Rattle.calculus.specs.Sets.{all_of};
ghost use Rattle.causes.specs.Causes.{answer_of};
ghost use Rattle.tables.specs.Records.{fits, record_below, is_blank};
ghost use Rattle.tables.specs.Store.{capacity, record_at, held, unused, judgement};
ghost use Rattle.tables.specs.Code.Layout.{top_of, highest_of, within, goes_on, RunTo, orderly};

use crate::{BLANK, PLACES, Record, Store, place};
use causes::{RELATIONS, Refusal};

// Whether a record is of a present relation and has zeros past its width. Where not, cause 13 is met.
pub fn record_fits(widths: &[u8; RELATIONS], r: Record) -> bool
    ensures { result ≡ fits widths.now r }
{
    let relation = r.relation as usize;
    if RELATIONS <= relation {
        return false;
    }
    let width = widths[relation];
    if width == 0 {
        return false;
    }
    if width <= 1 && r.second != 0 {
        return false;
    }
    if width <= 2 && r.third != 0 {
        return false;
    }
    if width <= 3 && r.fourth != 0 {
        return false;
    }
    true
}

// The greatest value that a record of this width has at a place, from 1 for its second value on.
fn top(width: u8, place: u8) -> u32
    ensures { result ≡ top_of width place }
{
    if width <= place { 0 } else { u32::MAX }
}

// The greatest record of a relation of this width.
fn highest(relation: u8, width: u8) -> Record
    ensures { result ≡ highest_of relation width }
{
    Record {
        relation,
        first: u32::MAX,
        second: top(width, 1),
        third: top(width, 2),
        fourth: top(width, 3),
    }
}

// Whether the next record goes on with a run: it is of the limit's relation, no value is above the limit's, and it is above the last record.
fn continues(limit: Record, last: Record, next: Record) -> bool
    ensures { result ≡ within limit next && record_below last next }
{
    if next.relation != limit.relation {
        return false;
    }
    if limit.second < next.second || limit.third < next.third || limit.fourth < next.fourth {
        return false;
    }
    last < next
}

// The end of the run of a relation that starts at a place: the first place after it whose record doesn't go on with the one before, or the count.
fn run_end(relation: u8, width: u8, s: &Store, start: usize) -> usize
    requires { (0 < width) × (start < s.now.count) × (s.now.count ≤ capacity) }
    ensures { RunTo (goes_on relation width (record_at s.now.relations s.now.values)) start s.now.count result }
{
    let limit = highest(relation, width);
    for i in start + 1..s.count {
        let last = place::read(&s.relations, &s.values, i - 1);
        if !continues(limit, last, place::read(&s.relations, &s.values, i)) {
            return i;
        }
    }
    s.count
}

// Whether the first count records fit the widths and are strictly ascending. One pass goes over them in runs of one relation: the records of a run have one limit,
// so that the width is looked up once for each run. Where a run ends at a record that is of no later relation, that record doesn't fit or doesn't ascend.
fn is_orderly(s: &Store) -> bool
    requires { s.now.count ≤ capacity }
    ensures { result ≡ orderly s.now.widths (held s.now) }
{
    let mut least = 0;
    let mut i = 0;
    // Stays: a turn goes on by a run, not by one place.
    while i < s.count {
        let r = place::read(&s.relations, &s.values, i);
        let relation = r.relation as usize;
        if relation < least || !record_fits(&s.widths, r) {
            return false;
        }
        least = relation + 1;
        i = run_end(r.relation, s.widths[relation], s, i);
    }
    true
}

// Whether every place from the count on is zero.
fn rest_blank(s: &Store) -> bool
    requires { s.now.count ≤ capacity }
    ensures { result ≡ all_of is_blank (unused s.now) }
{
    for i in s.count..PLACES {
        if place::read(&s.relations, &s.values, i) != BLANK {
            return false;
        }
    }
    true
}

// Causes 1 and 2.
pub fn judge(s: Store) -> Result<(), Refusal>
    ensures { answer_of result ≡ judgement s }
{
    if !causes::widths_are_right(s.widths) {
        return Err(Refusal::Width);
    }
    if PLACES < s.count || !is_orderly(&s) || !rest_blank(&s) {
        return Err(Refusal::StoreLayout);
    }
    Ok(())
}
