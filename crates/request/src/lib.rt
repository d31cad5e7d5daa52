// What a person asks for: the command with its file and its options.
// What cannot be understood is said at once on standard error, in a sentence.
#![tactic(auto)]

pub mod asked;
pub mod command;
mod draft;
mod option;
