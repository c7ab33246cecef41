// A list of records lent to the filling, as document 01 names it.
ghost use Rattle.std.specs.Prelude.{◌≡◌};
ghost use Rattle.tables.specs.Change.{changed_of};
ghost use Rattle.tables.specs.Fill.{fill_reply};
ghost use Rattle.tables.specs.Store.{no_store};

use causes::Refusal;
use tables::{Record, Store};

// The store of eight records, lent as a list.
pub fn fill_eight(widths: [u8; 16], records: [Record; 8]) -> Result<Store, Refusal>
    ensures { changed_of no_store result ≡ fill_reply widths records }
{
    tables::fill::fill(widths, &records)
}
