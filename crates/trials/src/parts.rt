// The parts of a case's body: numbers, high byte first, records and stores. What is past the end is zero.
ghost use Rattle.std.specs.Prelude.{◌<◌};

use tables::{Record, Store};

// The byte at i.
pub fn byte(s: &[u8], i: usize) -> u8 {
    s.get(i).copied().unwrap_or(0)
}

pub fn pair(s: &[u8], i: usize) -> usize
    requires { i < 1000000 }
    ensures { result < 65536 }
{
    usize::from(u16::from_be_bytes([byte(s, i), byte(s, i + 1)]))
}

pub fn quad(s: &[u8], i: usize) -> u32
    requires { i < 1000000 }
{
    u32::from_be_bytes([byte(s, i), byte(s, i + 1), byte(s, i + 2), byte(s, i + 3)])
}

pub fn long(s: &[u8], i: usize) -> u64
    requires { i < 900000 }
{
    let high = u64::from(quad(s, i));
    let low = u64::from(quad(s, i + 4));
    high * 4294967296 + low
}

pub fn record_of(s: &[u8], i: usize) -> Record
    requires { i < 900000 }
{
    Record {
        relation: byte(s, i),
        first: quad(s, i + 1),
        second: quad(s, i + 5),
        third: quad(s, i + 9),
        fourth: quad(s, i + 13),
    }
}

pub fn widths_of(s: &[u8], from: usize) -> [u8; 16]
    requires { from < 1000 }
{
    let mut widths = [0u8; 16];
    for i in 0..16 {
        widths[i] = byte(s, from + i);
    }
    widths
}

// The store at a place of a body.
pub fn store_of(s: &[u8], from: usize) -> Store
    requires { from < 100 }
{
    let mut store = tables::fill::none();
    store.widths = widths_of(s, from);
    store.count = pair(s, from + 16);
    let given = pair(s, from + 18);
    for i in 0..given.min(256) {
        let r = record_of(s, from + 20 + 17 * i);
        tables::place::write(&mut store.relations, &mut store.values, i, r);
    }
    store
}
