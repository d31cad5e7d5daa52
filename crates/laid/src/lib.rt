// An instruction from the numbers of its fields, and laid into a word: each field in its place, and whether it fits there.
// Reader, check and run need none of it; the writer judges by it, and so does who takes fields from C or from a text.
#![tactic(auto)]

pub mod fields;
pub mod widths;
pub mod word;
