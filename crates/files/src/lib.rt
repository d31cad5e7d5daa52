// The files of a request: the words of one, also as a listing or a block, a listing that is moved, the messages of a run, and where answers go.
// What cannot be read or written is said at once on standard error, in a sentence.
#![tactic(auto)]

pub mod input;
pub mod lines;
pub mod messages;
pub mod moves;
pub mod out;
pub mod room;
pub mod texts;
pub mod trouble;
pub mod whole;
