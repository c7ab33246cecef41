// The layout of a list: cause 12.
ghost use Rattle.std.specs.Prelude.{◌≡◌, ◌+◌, ◌≤◌, take, drop, eqb};
ghost use Rattle.calculus.specs.Sets.{all_of};
ghost use Rattle.calculus.specs.Order.{is-ascending};
ghost use Rattle.calculus.specs.Rows.{row_below};
ghost use Rattle.query.specs.Reading.{variables_in};
ghost use Rattle.standing.specs.View.{max_rows, row_places, held_rows, ends, suits, QueryColumns};
ghost use Rattle.standing.specs.Code.View.{places_fit, tests_of};

use crate::{NUMBERS, ROWS, Rows, View, row};
use query::Columns;

// Whether each of the rows from one place to before another is zero past its first k values.
fn all_end(values: &[u32; NUMBERS], from: usize, to: usize, k: usize) -> bool
    requires { to ≤ max_rows }
    ensures { result ≡ all_of (ends k) (drop from (take to (row_places values.now))) }
{
    for i in from..to {
        if !row::ends(row::read(values, i), k) {
            return false;
        }
    }
    true
}

// Whether the rows are strictly ascending, in their four places.
fn all_ascend(rows: &Rows) -> bool
    requires { rows.now.count ≤ max_rows }
    ensures { result ≡ is-ascending row_below (held_rows rows.now) }
{
    for i in 1..rows.count {
        if row::read(&rows.values, i) <= row::read(&rows.values, i - 1) {
            return false;
        }
    }
    true
}

// Whether rows at opening plus joined are left plus rows held, as whole numbers.
fn add_up(view: &View) -> bool
    ensures { result ≡ eqb (view.now.opening + view.now.joined) (view.now.left + view.now.rows.count) }
{
    u128::from(view.opening) + u128::from(view.joined)
        == u128::from(view.left) + view.rows.count as u128
}

// Whether at most `ROWS` rows are in the layout for k columns: zero past their values, ascending, and zeros in every place past them.
fn in_places(rows: &Rows, k: usize) -> bool
    requires { rows.now.count ≤ max_rows }
    ensures { result ≡ places_fit rows.now k }
{
    all_end(&rows.values, 0, rows.count, k)
        && all_ascend(rows)
        && all_end(&rows.values, rows.count, ROWS, 0)
}

// Whether a list with k columns and at most `ROWS` rows is in the layout: its rows, none of them under the endless mark, and counts that add up.
fn in_order(view: &View, k: usize) -> bool
    requires { view.now.rows.count ≤ max_rows }
    ensures { result ≡ tests_of view.now k }
{
    in_places(&view.rows, k) && !(view.endless && 0 < view.rows.count) && add_up(view)
}

// Whether a list is in the layout, with these columns, which are those of an accepted query.
pub fn suits(view: View, columns: Columns) -> bool
    requires { QueryColumns columns }
    ensures { result ≡ suits view (variables_in columns) }
{
    if view.columns != columns || ROWS < view.rows.count {
        return false;
    }
    in_order(&view, columns.count)
}
