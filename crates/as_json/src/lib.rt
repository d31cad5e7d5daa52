// What a script is told: the same answers as JSON, one object a file, with each number by its name.
// docs/help/ has the shape: list.txt, check.txt, run.txt. Each part is a value that `print!` writes to standard output.
#![tactic(auto)]

pub mod file;
pub mod state;
pub mod words;
