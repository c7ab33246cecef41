// Rows in their places, made of numbers one row after the other and turned into them, and the rows of one list that another has not. The lists have at most
// `ROWS` rows of at most four columns, as every list in the layout and every answer that passed cause 17.
//
// Stays: the places and the count are parameters of their own, and the places are lent and filled. With `Rows` handed back a change took nearly twice as long with
// the older kit, in copies of 8 KB (docs/DECISIONS.md, "arrays of rows inside a change").
ghost use Rattle.std.specs.Prelude.{◌≡◌, map, ◌*◌, ◌≤◌, length, take, replicate};
ghost use Rattle.calculus.specs.Sets.{any_of, same_list};
ghost use Rattle.calculus.specs.Order.{Ascending};
ghost use Rattle.calculus.specs.Rows.{row_below, only_in};
ghost use Rattle.answer.specs.Code.Listing.{cut};
ghost use Rattle.standing.specs.View.{max_rows, row_places, held_rows, stored};
ghost use Rattle.standing.specs.Code.View.{rows_with, InOrder, values_of, Passed, Parted};
ghost use Rattle.standing.specs.Change.{fronted};

use crate::{NUMBERS, Quad, Rows, row};

// The n rows of k columns that stand one after the other in a list, each in its place; the places are zero before.
pub fn spread(numbers: &[u32], k: usize, n: usize, values: &mut [u32])
    requires { (k ≤ 4) × (n ≤ max_rows) × (n * k ≤ length numbers.now) × (values.old ≡ replicate (4 * max_rows) 0) }
    ensures { values.new ≡ (stored (cut k n numbers.now)).values }
{
    for i in 0..n {
        values[4 * i..4 * i + k].copy_from_slice(&numbers[i * k..i * k + k]);
    }
}

// The first place from j on, of the first m, whose row is not below x; every row before j is.
fn skip(ys: &[u32; NUMBERS], m: usize, j: usize, x: Quad) -> usize
    requires { (m ≤ max_rows) × Passed (take m (row_places ys.now)) j (values_of x) }
    ensures { Parted (take m (row_places ys.now)) result (values_of x) }
{
    for p in j..m {
        if x <= row::read(ys, p) {
            return p;
        }
    }
    m
}

// Whether x is one of the first m rows, which are ascending: it can stand only at place j.
fn stands(ys: &[u32; NUMBERS], m: usize, j: usize, x: Quad) -> bool
    requires { (m ≤ max_rows) × Ascending row_below (take m (row_places ys.now)) × Parted (take m (row_places ys.now)) j (values_of x) }
    ensures { result ≡ any_of (same_list (values_of x)) (take m (row_places ys.now)) }
{
    j < m && x == row::read(ys, j)
}

// The first n rows of one list that are not among the first m of another, written into places that are zero before; both lists are ascending. How many they are.
pub fn only_in(
    xs: &[u32; NUMBERS],
    n: usize,
    ys: &[u32; NUMBERS],
    m: usize,
    values: &mut [u32],
) -> usize
    requires { InOrder (rows_with xs.now n) × InOrder (rows_with ys.now m) × (values.old ≡ replicate (4 * max_rows) 0) }
    ensures { rows_with values.new result ≡ stored (only_in (held_rows (rows_with xs.now n)) (held_rows (rows_with ys.now m))) }
{
    let mut count = 0;
    let mut j = 0;
    for i in 0..n {
        let x = row::read(xs, i);
        j = skip(ys, m, j, x);
        if !stands(ys, m, j, x) {
            values[4 * count..4 * count + 4].copy_from_slice(&xs[4 * i..4 * i + 4]);
            count += 1;
        }
    }
    count
}

// The first k values of each of the first n rows, one row after the other at the front of a list.
pub fn gather(values: &[u32; NUMBERS], n: usize, k: usize, out: &mut [u32])
    requires { (k ≤ 4) × (n ≤ max_rows) × (n * k ≤ length out.old) }
    ensures { out.new ≡ fronted (map (take k) (held_rows (rows_with values.now n))) out.old }
{
    for i in 0..n {
        out[i * k..i * k + k].copy_from_slice(&values[4 * i..4 * i + k]);
    }
}
