// The relational calculus: definitions and theorems only, in specs/. There is no code here.
// The crates above cite them in their contracts.
#![tactic(auto)]
