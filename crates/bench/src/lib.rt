// The answers call, and a put or removal with its standing list, as the benchmark makes them from C: over the arrays of a store and of a list, with one number
// returned.
// Stays: arrays with their counts, marks and numbers are parameters of their own, as the C interface has them.
#![tactic(auto)]

ghost use Rattle.std.specs.Prelude.{◌≡◌, ◌<◌};
ghost use Rattle.causes.specs.Causes.{number_of, place_of};
ghost use Rattle.query.specs.Reading.{max_nodes};
ghost use Rattle.answer.specs.Reply.{found_of};
ghost use Rattle.standing.specs.Checks.{action_of};
ghost use Rattle.standing.specs.Change.{change_in, change_of};
ghost use Rattle.bench.specs.Entry.{refusal, store_with, coded, view_with, record_with, coded_change};

use answer::Found;
use causes::{RELATIONS, Refusal};
use query::{COLUMNS, Columns};
use standing::{Change, NUMBERS, Rows, View};
use tables::{PLACES, Record, Store, VALUES};

// What tells endless: 2^63. A refusal is told past it.
const ENDLESS: u64 = 1 << 63;

// The store of these arrays.
fn store_of<'a>(
    widths: &'a [u8; RELATIONS],
    relations: &'a [u8; PLACES],
    values: &'a [u32; VALUES],
    count: usize,
) -> Store
    ensures { result ≡ store_with widths.now relations.now values.now count }
{
    Store {
        widths: *widths,
        relations: *relations,
        values: *values,
        count,
    }
}

// The list of these arrays. Its counts are those of rows at opening, joined and left.
fn view_of<'a>(
    variables: &'a [u8; COLUMNS],
    columns: usize,
    rows: &'a [u32; NUMBERS],
    held: usize,
    endless: bool,
    counts: &'a [u64; 3],
) -> View
    ensures { result ≡ view_with variables.now columns rows.now held endless counts.now }
{
    View {
        columns: Columns {
            variables: *variables,
            count: columns,
        },
        rows: Rows {
            values: *rows,
            count: held,
        },
        endless,
        opening: counts[0],
        joined: counts[1],
        left: counts[2],
    }
}

// The record of a relation and four values.
fn record_of(relation: u8, tuple: &[u32; 4]) -> Record
    ensures { result ≡ record_with relation tuple.now }
{
    Record {
        relation,
        first: tuple[0],
        second: tuple[1],
        third: tuple[2],
        fourth: tuple[3],
    }
}

// A refusal as one number. The place is a node's number, or 0.
fn refused(cause: Refusal) -> u64
    requires { place_of cause < max_nodes }
    ensures { result ≡ refusal (number_of cause) (place_of cause) }
{
    ENDLESS + 256 * u64::from(cause.number()) + cause.place()
}

// The answer to the query that the bytes hold. The number of rows; or 2^63 for endless; or 2^63 + 256 × number + place for a refusal.
#[unsafe(no_mangle)]
pub extern "C" fn palmrummy_find<'a>(
    widths: &'a [u8; RELATIONS],
    relations: &'a [u8; PLACES],
    values: &'a [u32; VALUES],
    count: usize,
    bytes: &'a [u8],
    wanted: bool,
    out: &mut [u32],
) -> u64
    ensures { (result, out.new) ≡ coded (found_of (store_with widths.now relations.now values.now count) bytes.now wanted out.old) }
{
    let store = store_of(widths, relations, values, count);
    match answer::find(store, bytes, wanted, out) {
        Ok(Found::Endless) => ENDLESS,
        Ok(Found::Rows(n)) => n as u64,
        Err(cause) => refused(cause),
    }
}

// A put, or a removal.
fn change(
    removal: bool,
    store: Store,
    view: View,
    bytes: &[u8],
    tuple: Record,
    joined: &mut [u32],
    left: &mut [u32],
) -> Result<Change, Refusal>
    ensures { (change_in store view result, (joined.new, left.new)) ≡ change_of (action_of removal tuple) store view bytes.now joined.old left.old }
{
    if removal {
        standing::remove(store, view, bytes, tuple, joined, left)
    } else {
        standing::put(store, view, bytes, tuple, joined, left)
    }
}

// A put or removal over a store and its list. The numbers of rows that joined and left, as joined + 65536 × left; or 2^63 + 256 × number + place for a refusal.
// The new store and list are made, and not handed back.
#[unsafe(no_mangle)]
pub extern "C" fn palmrummy_change<'a>(
    widths: &'a [u8; RELATIONS],
    relations: &'a [u8; PLACES],
    values: &'a [u32; VALUES],
    count: usize,
    variables: &'a [u8; COLUMNS],
    columns: usize,
    rows: &'a [u32; NUMBERS],
    held: usize,
    endless: bool,
    counts: &'a [u64; 3],
    bytes: &'a [u8],
    removal: bool,
    relation: u8,
    tuple: &'a [u32; 4],
    joined: &mut [u32],
    left: &mut [u32],
) -> u64
    ensures { (result, (joined.new, left.new)) ≡ coded_change (change_of (action_of removal (record_with relation tuple.now)) (store_with widths.now relations.now values.now count) (view_with variables.now columns rows.now held endless counts.now) bytes.now joined.old left.old) }
{
    let store = store_of(widths, relations, values, count);
    let view = view_of(variables, columns, rows, held, endless, counts);
    let record = record_of(relation, tuple);
    match change(removal, store, view, bytes, record, joined, left) {
        Ok(changed) => changed.joined as u64 + 65536 * changed.left as u64,
        Err(cause) => refused(cause),
    }
}
