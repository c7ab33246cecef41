// Document 01's table of refusals: what a call answers, and the cause that stores and queries share (1).
#![tactic(auto)]

ghost use Rattle.std.specs.Prelude.{◌≡◌};
ghost use Rattle.causes.specs.Causes.{number_of, place_of, widths_fit};

// The relations of a store.
pub const RELATIONS: usize = 16;

// The greatest width of a relation.
pub const MAX_WIDTH: u8 = 4;

// Why a call is declined: the causes of document 01's table, in its order, and document 02's last. A cause that names a node, or a place in a text, has it.
#[derive(Clone, Copy, Debug, PartialEq, Eq)]
pub enum Refusal {
    // 1: a width above 4.
    Width,
    // 2: a store not in the layout, or an input that ends early or is too long.
    StoreLayout,
    // 3: a query under 2 bytes, or of another version.
    Version,
    // 4: a node count of 0 or over 64, or over 16 constants.
    Counts,
    // 5: another length than the counts ask for.
    Length,
    // 6: kind 7, or a zero bit or unused term set.
    Malformed(usize),
    // 7: a child not below it, or not last and not a child exactly once.
    Misplaced(usize),
    // 8: a constant's place at or past the count.
    Stray(usize),
    // 9: a relation absent, or a term count that is not its width.
    Mismatched(usize),
    // 10: over 4 free variables as read.
    Columns,
    // 11: safe-range answers wanted, and the verdict is not so.
    Unsafe,
    // 12: a list not in the layout, or of other columns.
    ListLayout,
    // 13: a record of an absent relation, or with a nonzero value past its width.
    RecordLayout,
    // 14: a put of a record held.
    Held,
    // 15: a new record where no place is left.
    StoreFull,
    // 16: a removal of a record not held.
    NotHeld,
    // 17: a list over 512 rows, or a count of it past 64 bits.
    ListFull,
    // 18: the rows of an answer, or those that joined, over the first buffer.
    FirstBuffer,
    // 19: the rows that left over the second buffer.
    SecondBuffer,
    // 20: a text that is no rule, or a rule past a limit, at a place of the text.
    Text(u64),
}

impl Refusal {
    // The cause's number.
    pub fn number(self) -> u8
        ensures { result ≡ number_of self }
    {
        match self {
            Refusal::Width => 1,
            Refusal::StoreLayout => 2,
            Refusal::Version => 3,
            Refusal::Counts => 4,
            Refusal::Length => 5,
            Refusal::Malformed(_) => 6,
            Refusal::Misplaced(_) => 7,
            Refusal::Stray(_) => 8,
            Refusal::Mismatched(_) => 9,
            Refusal::Columns => 10,
            Refusal::Unsafe => 11,
            Refusal::ListLayout => 12,
            Refusal::RecordLayout => 13,
            Refusal::Held => 14,
            Refusal::StoreFull => 15,
            Refusal::NotHeld => 16,
            Refusal::ListFull => 17,
            Refusal::FirstBuffer => 18,
            Refusal::SecondBuffer => 19,
            Refusal::Text(_) => 20,
        }
    }

    // The place that the refusal names: a node's number, a place in a text, or 0.
    pub fn place(self) -> u64
        ensures { result ≡ place_of self }
    {
        match self {
            Refusal::Malformed(node)
            | Refusal::Misplaced(node)
            | Refusal::Stray(node)
            | Refusal::Mismatched(node) => node as u64,
            Refusal::Text(at) => at,
            _ => 0,
        }
    }
}

// Whether every width is at most 4. Where not, cause 1 is met.
pub fn widths_are_right(widths: [u8; RELATIONS]) -> bool
    ensures { result ≡ widths_fit widths }
{
    widths.iter().all(|width| *width <= MAX_WIDTH)
}
