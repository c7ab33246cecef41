// One row in its four places: read, and whether it ends after so many values. Reading asks for one of the row places, which a caller that goes over the rows of
// a list has.
ghost use Rattle.std.specs.Prelude.{◌≡◌, ◌<◌};
ghost use Rattle.standing.specs.View.{max_rows, row_at, ends};
ghost use Rattle.standing.specs.Code.View.{values_of};

use crate::{NUMBERS, Quad};

// The row at place i.
pub fn read(values: &[u32; NUMBERS], i: usize) -> Quad
    requires { i < max_rows }
    ensures { values_of result ≡ row_at values.now i }
{
    Quad {
        first: values[4 * i],
        second: values[4 * i + 1],
        third: values[4 * i + 2],
        fourth: values[4 * i + 3],
    }
}

// Whether a row is zero past its first k values.
pub fn ends(x: Quad, k: usize) -> bool
    ensures { result ≡ ends k (values_of x) }
{
    [x.first, x.second, x.third, x.fourth]
        .iter()
        .skip(k)
        .all(|value| *value == 0)
}
