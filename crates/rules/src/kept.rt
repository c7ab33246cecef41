// What is kept of a rule that is being read, beside its constants and nodes. For this crate alone (the module is not public).
ghost use Rattle.std.specs.Prelude.{ℕ, ◌≤◌, ◌<◌, get_or};

// The most terms of a head or a relation.
pub const TERMS: usize = 4;

// The head's variables, and the least number that the next one can have.
// Stays: an array and a count, as a slice can't grow and there is no heap.
#[derive(Clone, Copy)]
pub struct Head {
    pub variables: [u8; TERMS],
    pub count: usize,
    pub least: u64,
    pub ghost few: { count ≤ 4 },
    pub ghost small: { (i : ℕ) → get_or variables i 0 < 16 },
}

// The goals. Of the goal being read: whether a not stands before it, whether an X stands before the number, its relation or the variable before its =, and the 5
// bits of each term. Of all goals: which variables they have, and how many constants and nodes.
// Stays: an array and a count, as a slice can't grow and there is no heap.
#[derive(Clone, Copy)]
pub struct Body {
    pub denied: bool,
    pub named: bool,
    pub subject: u64,
    pub terms: [u32; TERMS],
    pub count: usize,
    pub seen: [bool; 16],
    pub constants: usize,
    pub nodes: usize,
    pub ghost few_terms: { count ≤ 4 },
    pub ghost small_terms: { (i : ℕ) → get_or terms i 0 < 32 },
    pub ghost few_constants: { constants ≤ 16 },
    pub ghost few_nodes: { nodes ≤ 64 },
}
