// The lines that the list program prints for a packed input: from the input's bytes to the output's. Everything that decides what is printed is here.
#![tactic(auto)]

mod text;

ghost use Rattle.std.specs.Prelude.{◌≡◌, ◌∷◌, [], ◌+◌, ◌*◌, ◌≤◌, ◌<◌, length, take};
ghost use Rattle.calculus.specs.Sets.{union_of};
ghost use Rattle.causes.specs.Causes.{number_of, place_of};
ghost use Rattle.query.specs.Reading.{max_nodes};
ghost use Rattle.query.specs.Code.Writing.{wrote};
ghost use Rattle.answer.specs.Code.Listing.{cut};
ghost use Rattle.lines.specs.Text.{line, word_refused, word_row, head_text, printed};

use answer::Found;
use causes::Refusal;
use query::Columns;

// The bytes of the longest output, and some more.
pub const LINES: usize = 65536;

// The line of a refusal, at the front of a list. The place is a node's number, or 0.
fn refused(cause: Refusal, out: &mut [u8]) -> usize
    requires { (place_of cause < max_nodes) × (64 ≤ length out.old) }
    ensures { (result, out.new) ≡ wrote 0 (line word_refused (number_of cause ∷ place_of cause ∷ [])) out.old }
{
    let numbers = [u32::from(cause.number()), cause.place() as u32];
    text::line(b"refused", &numbers, out, 0)
}

// The first two lines.
fn head(safe: bool, columns: Columns, out: &mut [u8]) -> usize
    requires { (columns.count ≤ 4) × (64 ≤ length out.old) }
    ensures { (result, out.new) ≡ wrote 0 (head_text safe (take columns.count columns.variables)) out.old }
{
    let at = text::verdict(safe, out);
    let variables = columns.variables.map(u32::from);
    text::line(b"columns", &variables[..columns.count], out, at)
}

// A line for each of the n rows of k values that stand one after the other in a list.
fn rows(numbers: &[u32], k: usize, n: usize, out: &mut [u8], at: usize) -> usize
    requires { (n ≤ 4097) × (n * k ≤ length numbers.now) × (length numbers.now ≤ 4096) × (at + 4 * n + 11 * (n * k) ≤ length out.old) × (at ≤ 65536) }
    ensures { (result, out.new) ≡ wrote at (union_of (line word_row) (cut k n numbers.now)) out.old }
{
    let mut left = numbers;
    let mut end = at;
    // Stays: no `chunks_exact`, since k is 0 where a query has no columns.
    for _i in 0..n {
        let (row, rest) = left.split_at(k);
        end = text::line(b"row", row, out, end);
        left = rest;
    }
    end
}

// The output for a packed input, at the front of a list; its length. The rest of the list is unaltered.
pub fn print(input: &[u8], out: &mut [u8; LINES]) -> usize
    ensures out_after { (result, out.new) ≡ printed input.now out.old }
    ensures upper_bound { result ≤ 65536 }
{
    let mut numbers = packed::room();
    let listing = match packed::find(input, &mut numbers) {
        Ok(listing) => listing,
        Err(cause) => return refused(cause, out),
    };
    let at = head(listing.safe, listing.columns, out);
    match listing.found {
        Found::Endless => text::line(b"endless", &[], out, at),
        Found::Rows(n) => {
            let end = rows(&numbers, listing.columns.count, n, out, at);
            let total = n as u32;
            text::line(b"rows", &[total], out, end)
        }
    }
}
