// The verdict on a packed query: its propagated form, the generators of its columns, and whether it is safe-range.
//
// A query's way: read (the crate `query`), propagated into its form (`form`), then the form's nodes judged from the leaves: which variables each of them
// generates, plainly and as denied (`generate`), and from which leaf nodes (`source`). The reports are sets of nodes and variables as numbers (`bits`).
#![tactic(auto)]

pub mod bits;
pub mod form;
mod generate;
mod report;
mod source;

ghost use Rattle.std.specs.Prelude.{◌≡◌};
ghost use Rattle.calculus.specs.Generators.{columns as columns_read};
ghost use Rattle.query.specs.Reading.{formula, columns_of};
ghost use Rattle.verdict.specs.Code.Form.{IsAccepted};
ghost use Rattle.verdict.specs.Verdict.{verdict_in, judging_of, judged as judgement, verdict_of};

use causes::{RELATIONS, Refusal};
use query::{COLUMNS, Columns, Query};

// The verdict. Generators are numbers of nodes of the form, node 0 the highest of 64 bits; `ungenerated` has variable 0 as the highest of 16, `unranged` node 0
// of the form as the highest of 64.
#[derive(Clone, Copy)]
pub struct Verdict {
    pub form: Query,
    pub columns: Columns,
    pub generators: [u64; COLUMNS],
    pub ungenerated: u16,
    pub unranged: u64,
    pub safe: bool,
}

// The verdict on an accepted query, with its columns.
pub fn judged(read: Query, columns: Columns) -> Verdict
    requires { IsAccepted read × (columns ≡ columns_of (columns_read (formula read))) }
    ensures { verdict_in result ≡ judgement read }
{
    let form = form::form_of(read);
    let n = form.node_count;
    let judged = generate::generated(&form.nodes[..n]);
    let generators = report::generators(&judged, columns);
    let ungenerated = report::ungenerated(judged.plains[n - 1], columns);
    let unranged = report::unranged(&judged);
    Verdict {
        form,
        columns,
        generators,
        ungenerated,
        unranged,
        safe: ungenerated == 0 && unranged == 0,
    }
}

// The verdict on the query that the bytes hold, for relations of these widths: causes 1 and 3 to 10.
pub fn judge(bytes: &[u8], widths: [u8; RELATIONS]) -> Result<Verdict, Refusal>
    ensures { judging_of result ≡ verdict_of widths bytes.now }
{
    let parsed = query::read(bytes, widths)?;
    Ok(judged(parsed.query, parsed.columns))
}
