// The parts of a packed input: whether they are all there, the head, and the records, which fill a store. For `take` alone (the module is not public): it asks
// for bytes that are there, having judged the length by `measure` first.
ghost use Rattle.std.specs.Prelude.{◌≡◌, ◌+◌, ◌≤◌, ◌<◌, length};
ghost use Rattle.calculus.specs.Lists.{tabulate};
ghost use Rattle.tables.specs.Store.{no_store};
ghost use Rattle.tables.specs.Change.{changed_of};
ghost use Rattle.tables.specs.Code.Fill.{beginning, collect_all};
ghost use Rattle.packed.specs.Packed.{head_length, head_in, record_length, record_from, start, record_at};
ghost use Rattle.packed.specs.Code.Packed.{extent_in, extent_of};

use crate::{HEAD, LIMIT, RECORD};
use causes::{RELATIONS, Refusal};
use tables::{Record, Store};

// The head of an input: the sixteen widths, and the number of records.
#[derive(Clone, Copy)]
pub struct Head {
    pub widths: [u8; RELATIONS],
    pub count: usize,
}

// The head of an input that is long enough to have one. No other function knows where its parts stand.
fn read_head(bytes: &[u8]) -> Head
    requires { head_length ≤ length bytes.now }
    ensures { (result ≡ head_in bytes.now) × (result.count < 65536) }
{
    let mut widths = [0u8; RELATIONS];
    widths.copy_from_slice(&bytes[..RELATIONS]);
    let count = u16::from_be_bytes([bytes[16], bytes[17]]);
    Head {
        widths,
        count: usize::from(count),
    }
}

// The head of an input that is whole: at most 8,192 bytes, which reach to the query. None where cause 2 is met.
pub fn measure(bytes: &[u8]) -> Option<Head>
    ensures { extent_in result ≡ extent_of bytes.now }
{
    let n = bytes.len();
    if LIMIT < n || n < HEAD {
        return None;
    }
    let head = read_head(bytes);
    if n < HEAD + RECORD * head.count {
        return None;
    }
    Some(head)
}

// The record that starts at a byte.
fn record(bytes: &[u8], at: usize) -> Record
    requires { at + record_length ≤ length bytes.now }
    ensures { result ≡ record_from bytes.now at }
{
    Record {
        relation: bytes[at],
        first: query::word(bytes, at + 1),
        second: query::word(bytes, at + 5),
        third: query::word(bytes, at + 9),
        fourth: query::word(bytes, at + 13),
    }
}

// The store filled from the records after a head: cause 1, then 13 and 15 record by record.
pub fn fill(bytes: &[u8], head: Head) -> Result<Store, Refusal>
    requires { (start head.count ≤ length bytes.now) × (head.count < 65536) }
    ensures { changed_of no_store result ≡ collect_all (beginning head.widths) (tabulate (record_at bytes.now) head.count) }
{
    let mut f = tables::fill::begin(head.widths);
    for i in 0..head.count {
        let r = record(bytes, HEAD + RECORD * i);
        f = tables::fill::collect(f, r.relation, r.first, r.second, r.third, r.fourth);
    }
    f
}
