// Runs the calls of the crates tables, query, verdict, answer and standing on the cases of standard input, and writes a line for each: its name, and the reply.
//
// A case is a kind, the length of its name (1 byte), the length of its body (2 bytes, high byte first), the name and the body. Kinds:
// q reads a query: the body is sixteen widths and the query's bytes. v gives the verdict on it.
// s judges a store, p puts a record into one, r removes one: the body is a record of 17 bytes, then the store: sixteen widths, its count (2 bytes), the
//   number of record places that follow (2 bytes), and those places, 17 bytes each; places that don't follow are zero.
// f fills a store: the body is sixteen widths, and the records, 17 bytes each.
// l fills a store from a lent list: the same, with eight records.
// a answers a query: the body is whether safe-range answers are wanted (1 byte), the length of the buffer (2 bytes, at most 8,192), a store as above, and the
//   query's bytes. The reply ends with a sum over the numbers of the buffer past the rows.
// o is a run of a standing list: the body is whether the list is handed in (1 byte), the length of the query (2 bytes), a store as above, the query's bytes, the
//   list if it is handed in, and the calls. A list is the number of its columns (2 bytes), four variables (1 byte each), the number of its rows and of those that
//   follow (2 bytes each), the endless mark (1 byte), three counts (8 bytes each), and the rows, 16 bytes each; places that don't follow are zero. A call is p or
//   r, a record of 17 bytes, and the lengths of the two buffers (2 bytes each, at most 8,192).
#![tactic(auto)]

mod lend;
mod parts;
mod put;
mod runs;

ghost use Rattle.std.specs.Prelude.{◌≤◌, ◌<◌, ◌≡◌, length};
ghost use Rattle.answer.specs.Reply.{found_in, found_of};

use answer::Found;
use causes::Refusal;
use parts::{byte, pair, record_of, store_of, widths_of};
use query::{Columns, Query};
use std::io::Stdout;
use streams::ReadFailed;
use tables::{Record, Store};
use verdict::Verdict;

// The bytes of input that are read.
const SPACE: usize = 65536;

// The most numbers that are lent to an answer.
const LENT: usize = 8192;

// The relation and the values of a record.
fn five(r: Record) -> [u32; 5] {
    [u32::from(r.relation), r.first, r.second, r.third, r.fourth]
}

fn list_record(out: Stdout, r: Record) {
    put::bytes(out, b" |");
    put::numbers(out, &five(r), 5);
}

fn mixed(h: u64, v: u32) -> u64 {
    h % 1000003 * 31 + u64::from(v)
}

// A sum that goes on from h over numbers.
fn mixed_over(h: u64, s: &[u32]) -> u64 {
    s.iter().fold(h, |sum, v| mixed(sum, *v))
}

// A sum over the numbers from a place on.
fn sum_from(s: &[u32], from: usize) -> u64 {
    mixed_over(7, s.get(from..).unwrap_or(&[]))
}

// A sum over all record places and widths, which tells stores apart.
fn sum_of(s: Store) -> u64 {
    let mut h = 7;
    for i in 0..256 {
        if i < 16 {
            h = mixed(h, u32::from(s.widths[i]));
        }
        let r = tables::place::read(&s.relations, &s.values, i);
        h = mixed_over(h, &five(r));
    }
    h
}

// The count, the sum, and the records of a small store.
fn list_store(out: Stdout, s: Store) {
    put::bytes(out, b" count");
    put::word(out, s.count as u64);
    put::bytes(out, b" sum");
    put::word(out, sum_of(s));
    if s.count <= 4 {
        for i in 0..s.count {
            list_record(out, tables::place::read(&s.relations, &s.values, i));
        }
    }
}

// What a call on a store answers, and the store after it.
fn list_changed(out: Stdout, before: Store, changed: Result<Store, Refusal>) {
    match changed {
        Ok(after) => {
            put::bytes(out, b" done");
            list_store(out, after);
        }
        Err(refusal) => {
            put::refused(out, refusal);
            list_store(out, before);
        }
    }
}

// The variables of the columns.
fn variables_of(c: Columns) -> [u32; 4] {
    c.variables.map(u32::from)
}

fn list_columns(out: Stdout, c: Columns) {
    put::bytes(out, b" accepted columns");
    put::numbers(out, &variables_of(c), c.count);
}

fn list_query(out: Stdout, q: Query) {
    put::bytes(out, b" constants");
    put::numbers(out, &q.constants, q.constant_count);
    put::bytes(out, b" nodes");
    put::words(out, &q.nodes, q.node_count);
}

fn run_query(out: Stdout, body: &[u8]) {
    if body.len() < 16 {
        return;
    }
    match query::read(&body[16..], widths_of(body, 0)) {
        Ok(read) => {
            list_columns(out, read.columns);
            list_query(out, read.query);
        }
        Err(refusal) => put::refused(out, refusal),
    }
}

// The form with the query's columns, then what the verdict reports.
fn list_verdict(out: Stdout, v: Verdict) {
    list_columns(out, v.columns);
    list_query(out, v.form);
    put::bytes(out, b" generators");
    for g in &v.generators {
        put::hex_long(out, *g);
    }
    put::bytes(out, b" ungenerated");
    put::hex_long(out, u64::from(v.ungenerated));
    put::bytes(out, b" unranged");
    put::hex_long(out, v.unranged);
    put::bytes(out, if v.safe { b" safe" } else { b" unsafe" });
}

fn run_verdict(out: Stdout, body: &[u8]) {
    if body.len() < 16 {
        return;
    }
    match verdict::judge(&body[16..], widths_of(body, 0)) {
        Ok(v) => list_verdict(out, v),
        Err(refusal) => put::refused(out, refusal),
    }
}

fn run_fill(out: Stdout, body: &[u8]) {
    let mut f = tables::fill::begin(widths_of(body, 0));
    for i in 0..body.len().min(65536).saturating_sub(16) / 17 {
        let r = record_of(body, 16 + 17 * i);
        f = tables::fill::collect(f, r.relation, r.first, r.second, r.third, r.fourth);
    }
    list_changed(out, tables::fill::none(), f);
}

fn run_lent_fill(out: Stdout, body: &[u8]) {
    let mut records = [tables::BLANK; 8];
    for i in 0..8 {
        records[i] = record_of(body, 16 + 17 * i);
    }
    let filled = lend::fill_eight(widths_of(body, 0), records);
    list_changed(out, tables::fill::none(), filled);
}

fn run_judge(out: Stdout, s: Store) {
    match tables::layout::judge(s) {
        Ok(()) => put::bytes(out, b" done"),
        Err(refusal) => put::refused(out, refusal),
    }
}

// A buffer of which so many numbers are lent: they tell whether and where it is written to.
fn lent(room: usize) -> [u32; LENT]
    requires { room ≤ 8192 }
{
    let mut numbers = [0u32; LENT];
    for i in 0..room {
        numbers[i] = (7 * i + 1) as u32;
    }
    numbers
}

// How many numbers so many rows have, for at most 65,536 rows and four columns.
fn numbers_of(rows: usize, columns: usize) -> usize {
    rows.min(65536) * columns.min(4)
}

fn list_found(out: Stdout, found: Result<Found, Refusal>, columns: usize, numbers: &[u32]) {
    let mut end = 0;
    match found {
        Ok(Found::Endless) => put::bytes(out, b" endless"),
        Ok(Found::Rows(n)) => {
            end = numbers_of(n, columns);
            put::bytes(out, b" rows");
            put::word(out, n as u64);
            put::numbers(out, numbers, end);
        }
        Err(refusal) => put::refused(out, refusal),
    }
    put::bytes(out, b" rest");
    put::word(out, sum_from(numbers, end));
}

// How many columns a query has: as many as the reader finds.
fn width_of(bytes: &[u8], widths: [u8; 16]) -> usize {
    match query::read(bytes, widths) {
        Ok(read) => read.columns.count,
        Err(_) => 0,
    }
}

fn find(s: Store, bytes: &[u8], wanted: bool, out: &mut [u32]) -> Result<Found, Refusal>
    ensures { (found_in result, out.new) ≡ found_of s bytes.now wanted out.old }
{
    answer::find(s, bytes, wanted, out)
}

fn run_answer(out: Stdout, body: &[u8]) {
    let start = 23 + 17 * pair(body, 21);
    let room = pair(body, 1);
    if body.len() < start || LENT < room {
        return;
    }
    let mut space = lent(room);
    let numbers = &mut space[..room];
    let s = store_of(body, 3);
    let columns = width_of(&body[start..], s.widths);
    let found = find(s, &body[start..], byte(body, 0) == 1, numbers);
    list_found(out, found, columns, numbers);
}

fn run_put(out: Stdout, body: &[u8]) {
    let s = store_of(body, 17);
    list_changed(out, s, tables::change::put(s, record_of(body, 0)));
}

fn run_removal(out: Stdout, body: &[u8]) {
    let s = store_of(body, 17);
    list_changed(out, s, tables::change::remove(s, record_of(body, 0)));
}

// Stays: a kind is a byte of the input, told apart here alone.
fn run(out: Stdout, kind: u8, body: &[u8]) {
    match kind {
        b'q' => run_query(out, body),
        b'v' => run_verdict(out, body),
        b's' => run_judge(out, store_of(body, 17)),
        b'p' => run_put(out, body),
        b'r' => run_removal(out, body),
        b'f' => run_fill(out, body),
        b'l' => run_lent_fill(out, body),
        b'a' => run_answer(out, body),
        b'o' => runs::run(out, body),
        _ => {}
    }
}

// The case at a place of the input, and where the next one starts.
fn step(out: Stdout, input: &[u8], at: usize) -> usize
    requires { at < 65536 }
    ensures { at < result }
{
    let kind = byte(input, at);
    let name = at + 4;
    let body = name + usize::from(byte(input, at + 1));
    let end = body + pair(input, at + 2);
    if input.len() < end {
        put::bytes(out, b"input ends early\n");
        return end;
    }
    put::bytes(out, &input[name..body]);
    put::bytes(out, b":");
    run(out, kind, &input[body..end]);
    put::bytes(out, b"\n");
    end
}

// Room for the input. By its contract, which says no more than the length, no proof goes through its bytes one by one.
fn input_room() -> [u8; SPACE]
    ensures { 65536 ≡ length result }
{
    [0; SPACE]
}

fn main(rt: HostRuntime) {
    let mut space = input_room();
    let n = match streams::read_all(&mut rt.stdin(), &mut space) {
        Ok(bytes) | Err(ReadFailed { bytes }) => bytes,
    };
    let mut at = 0;
    // Stays: `step` says where the next case starts.
    while at < n {
        at = step(rt.stdout(), &space[..n], at);
    }
}
