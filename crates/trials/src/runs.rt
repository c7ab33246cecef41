// A run of a standing list: it is opened or handed in, and then records are put and removed. Each call writes its answer, sums over the two buffers it was lent,
// and the store and the list after it.
ghost use Rattle.std.specs.Prelude.{◌<◌};

use crate::parts::{byte, long, pair, quad, record_of, store_of};
use crate::put;
use causes::Refusal;
use query::Columns;
use standing::{Change, Rows, View};
use std::io::Stdout;
use tables::{Record, Store};

// The bytes of a call: its kind, a record, and the lengths of two buffers.
const CALL: usize = 22;

// The store and the list that the last call left.
#[derive(Clone, Copy)]
struct Held {
    store: Store,
    view: View,
}

fn rows_of(s: &[u8], from: usize, count: usize, given: usize) -> Rows
    requires { (from < 900000) × (given < 65536) }
{
    let mut values = [0u32; standing::NUMBERS];
    for i in 0..standing::NUMBERS.min(4 * given) {
        values[i] = quad(s, from + 4 * i);
    }
    Rows { values, count }
}

// The list at a place of a body.
fn view_of(s: &[u8], from: usize) -> View
    requires { from < 800000 }
{
    let variables = [
        byte(s, from + 2),
        byte(s, from + 3),
        byte(s, from + 4),
        byte(s, from + 5),
    ];
    View {
        columns: Columns {
            variables,
            count: pair(s, from),
        },
        rows: rows_of(s, from + 35, pair(s, from + 6), pair(s, from + 8)),
        endless: byte(s, from + 10) == 1,
        opening: long(s, from + 11),
        joined: long(s, from + 19),
        left: long(s, from + 27),
    }
}

fn list_columns(out: Stdout, c: Columns) {
    put::bytes(out, b" columns");
    put::word(out, c.count as u64);
    put::numbers(out, &crate::variables_of(c), 4);
}

fn list_view(out: Stdout, v: View) {
    list_columns(out, v.columns);
    if v.endless {
        put::bytes(out, b" endless");
    }
    put::bytes(out, b" rows");
    put::word(out, v.rows.count as u64);
    put::word(out, crate::sum_from(&v.rows.values, 0));
    put::bytes(out, b" counts");
    put::word(out, v.opening);
    put::word(out, v.joined);
    put::word(out, v.left);
}

// What a call answers: the numbers of rows that joined and left, both 0 where it is refused.
fn list_answer(out: Stdout, changed: Result<Change, Refusal>) {
    put::bytes(out, b" ;");
    match changed {
        Ok(c) => {
            put::bytes(out, b" done");
            put::word(out, c.joined as u64);
            put::word(out, c.left as u64);
        }
        Err(refusal) => {
            put::refused(out, refusal);
            put::bytes(out, b" 0 0");
        }
    }
}

// Stays: a kind is a byte of the input, told apart here alone.
fn change(
    kind: u8,
    held: Held,
    bytes: &[u8],
    tuple: Record,
    joined: &mut [u32],
    left: &mut [u32],
) -> Result<Change, Refusal> {
    if kind == b'p' {
        return standing::put(held.store, held.view, bytes, tuple, joined, left);
    }
    standing::remove(held.store, held.view, bytes, tuple, joined, left)
}

fn changed(
    out: Stdout,
    kind: u8,
    held: Held,
    bytes: &[u8],
    tuple: Record,
    joined: &mut [u32],
    left: &mut [u32],
) -> Held {
    let answer = change(kind, held, bytes, tuple, joined, left);
    let after = match answer {
        Ok(c) => Held {
            store: c.store,
            view: c.view,
        },
        Err(_) => held,
    };
    list_answer(out, answer);
    crate::list_store(out, after.store);
    list_view(out, after.view);
    put::bytes(out, b" buffers");
    put::word(out, crate::sum_from(joined, 0));
    put::word(out, crate::sum_from(left, 0));
    after
}

// The call at a place, on the store and list that the last one left.
fn call(out: Stdout, held: Held, bytes: &[u8], calls: &[u8], at: usize) -> Held
    requires { at < 65536 }
{
    let a = pair(calls, at + 18);
    let b = pair(calls, at + 20);
    if crate::LENT < a || crate::LENT < b {
        return held;
    }
    let mut first = crate::lent(a);
    let mut second = crate::lent(b);
    let tuple = record_of(calls, at + 1);
    changed(
        out,
        byte(calls, at),
        held,
        bytes,
        tuple,
        &mut first[..a],
        &mut second[..b],
    )
}

fn go_on(out: Stdout, held: Held, bytes: &[u8], calls: &[u8]) {
    list_view(out, held.view);
    let mut now = held;
    for i in 0..calls.len().min(65536) / CALL {
        now = call(out, now, bytes, calls, CALL * i);
    }
}

fn opened(out: Stdout, store: Store, bytes: &[u8], calls: &[u8]) {
    match standing::open(store, bytes) {
        Ok(view) => go_on(out, Held { store, view }, bytes, calls),
        Err(refusal) => {
            put::refused(out, refusal);
            list_view(out, unopened());
        }
    }
}

// The list of a refused opening: no columns and no rows.
fn unopened() -> View {
    View {
        columns: Columns {
            variables: [0u8; 4],
            count: 0,
        },
        rows: Rows {
            values: [0u32; standing::NUMBERS],
            count: 0,
        },
        endless: false,
        opening: 0,
        joined: 0,
        left: 0,
    }
}

// Whether the list is handed in, the length of the query, a store, the query, a list that is handed in, and the calls.
pub fn run(out: Stdout, body: &[u8]) {
    let start = 23 + 17 * pair(body, 21);
    let end = start + pair(body, 1);
    if body.len() < end || 65536 < end {
        return;
    }
    let store = store_of(body, 3);
    if byte(body, 0) == 0 {
        opened(out, store, &body[start..end], &body[end..]);
        return;
    }
    let calls = end + 35 + 16 * pair(body, end + 8);
    if body.len() < calls {
        return;
    }
    let held = Held {
        store,
        view: view_of(body, end),
    };
    go_on(out, held, &body[start..end], &body[calls..]);
}
