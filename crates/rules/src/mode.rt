// Where the reader of a rule stands. The grammar is regular: what can follow is decided by the place reached. Numbers stand apart from this: in a mode that
// reads one, a digit stays in the mode, and the byte after the number is judged by `next`.
ghost use Rattle.std.specs.Prelude.{◌≡◌};
ghost use Rattle.rules.specs.Code.Modes.{next_mode, effect_of, effect_number, suits};

// What a byte that is no digit does, beside the step to the next mode.
#[derive(Clone, Copy, Debug, PartialEq, Eq)]
pub enum Effect {
    Nothing,
    // The number before it is a variable of the head.
    Column,
    // A not stands before the goal.
    Denied,
    // The number before it is the goal's relation, or the variable before its =.
    Subject,
    // An X stands before the number that follows.
    Named,
    // The number before it is a term of a relation that has more.
    Term,
    // The number before it is the last term of a relation.
    Relation,
    // The number before it is the term of an equality.
    Equality,
}

#[derive(Clone, Copy, Debug, PartialEq, Eq)]
pub enum Mode {
    // No rule goes on so.
    Out,
    // Before the q.
    Start,
    // q
    Letter,
    // q( or a comma in the head: an X is due.
    ColumnDue,
    // The number of a variable of the head.
    Column,
    // The head's closing bracket.
    Closed,
    // The : of :-
    Colon,
    // :- or a comma after a goal: a goal is due.
    GoalDue,
    // n, no, not, and the space after it: a relation is due.
    DenialN,
    DenialNo,
    DenialNot,
    Denial,
    // The number of a relation.
    Relation,
    // The opening bracket or a comma in a relation: a term is due.
    TermDue,
    // The number of a term.
    Term,
    // The relation's closing bracket.
    Ended,
    // The number of an equality's variable.
    Subject,
    // The space, the =, and the space after it: a term is due.
    Spaced,
    Equals,
    OtherDue,
    // The number of an equality's term.
    Other,
    // The full stop.
    Done,
}

// The mode after a byte, where 0 stands for every digit.
pub fn next(mode: Mode, b: u8) -> Mode
    ensures { result ≡ next_mode mode b }
{
    match (mode, b) {
        (Mode::Start, b'q') => Mode::Letter,
        (Mode::Letter, b'(') => Mode::ColumnDue,
        (Mode::Letter, b':') => Mode::Colon,
        (Mode::ColumnDue, b'X') => Mode::Column,
        (Mode::Column, b'0') => Mode::Column,
        (Mode::Column, b',') => Mode::ColumnDue,
        (Mode::Column, b')') => Mode::Closed,
        (Mode::Closed, b':') => Mode::Colon,
        (Mode::Colon, b'-') => Mode::GoalDue,
        (Mode::GoalDue, b'X') => Mode::Subject,
        (Mode::GoalDue, b'r') => Mode::Relation,
        (Mode::GoalDue, b'n') => Mode::DenialN,
        (Mode::DenialN, b'o') => Mode::DenialNo,
        (Mode::DenialNo, b't') => Mode::DenialNot,
        (Mode::DenialNot, b' ') => Mode::Denial,
        (Mode::Denial, b'r') => Mode::Relation,
        (Mode::Relation, b'0') => Mode::Relation,
        (Mode::Relation, b'(') => Mode::TermDue,
        (Mode::TermDue, b'0' | b'X') => Mode::Term,
        (Mode::Term, b'0') => Mode::Term,
        (Mode::Term, b',') => Mode::TermDue,
        (Mode::Term, b')') => Mode::Ended,
        (Mode::Ended, b',') => Mode::GoalDue,
        (Mode::Ended, b'.') => Mode::Done,
        (Mode::Subject, b'0') => Mode::Subject,
        (Mode::Subject, b' ') => Mode::Spaced,
        (Mode::Spaced, b'=') => Mode::Equals,
        (Mode::Equals, b' ') => Mode::OtherDue,
        (Mode::OtherDue, b'0' | b'X') => Mode::Other,
        (Mode::Other, b'0') => Mode::Other,
        (Mode::Other, b',') => Mode::GoalDue,
        (Mode::Other, b'.') => Mode::Done,
        _ => Mode::Out,
    }
}

// What a byte that is no digit does in a mode.
pub fn effect_of(mode: Mode, b: u8) -> Effect
    ensures { effect_number result ≡ effect_of mode b }
{
    match mode {
        Mode::Column => Effect::Column,
        Mode::Denial => Effect::Denied,
        Mode::Relation | Mode::Subject => Effect::Subject,
        Mode::TermDue | Mode::OtherDue => Effect::Named,
        Mode::Term => {
            if b == b')' {
                Effect::Relation
            } else {
                Effect::Term
            }
        }
        Mode::Other => Effect::Equality,
        _ => Effect::Nothing,
    }
}

// Whether an effect can take place: all but Nothing, Denied and Named use the number before the byte, so a digit of it must have been read.
pub fn suits(effect: Effect, started: bool) -> bool
    ensures { result ≡ suits (effect_number effect) started }
{
    match effect {
        Effect::Nothing | Effect::Denied | Effect::Named => true,
        _ => started,
    }
}
