// A record place, read and written. Everything else in this crate looks at the two arrays through these functions. They ask for a place below 256, which a
// caller that goes over the places of a judged store has.
ghost use Rattle.std.specs.Prelude.{◌≡◌, ◌<◌, set};
ghost use Rattle.tables.specs.Store.{capacity, record_at};
ghost use Rattle.tables.specs.Code.Store.{set_values};

use crate::{PLACES, Record, VALUES};

// The record at place i.
pub fn read(relations: &[u8; PLACES], values: &[u32; VALUES], i: usize) -> Record
    requires { i < capacity }
    ensures { result ≡ record_at relations.now values.now i }
{
    Record {
        relation: relations[i],
        first: values[4 * i],
        second: values[4 * i + 1],
        third: values[4 * i + 2],
        fourth: values[4 * i + 3],
    }
}

// The record put at place i; every other place stays.
pub fn write(relations: &mut [u8; PLACES], values: &mut [u32; VALUES], i: usize, r: Record)
    requires { i < capacity }
    ensures { (relations.new ≡ set relations.old i r.relation) × (values.new ≡ set_values values.old i r) }
{
    relations[i] = r.relation;
    values[4 * i] = r.first;
    values[4 * i + 1] = r.second;
    values[4 * i + 2] = r.third;
    values[4 * i + 3] = r.fourth;
}
