// What a person is told: words as lines of the listing, how a run ended, all that it left, by name, and what a step changed.
// Each is a value that `print!` writes to standard output.
#![tactic(auto)]

pub mod changes;
pub mod end;
pub mod source;
pub mod state;
pub mod words;
