// What a program tells the script that started it: on descriptor 3 the exit status and the number that it is about.
// The answer itself goes to standard output, and why there is none to standard error.
#![tactic(auto)]

ghost use Rattle.std.specs.Prelude.{◌≡◌};
ghost use Rattle.told.specs.Status.{status_number};

pub mod complaint;

pub use complaint::{Said, complain_of_file};

// How a program ends, from the best to the worst.
#[derive(Clone, Copy, PartialEq, Eq)]
pub enum Status {
    Accepted,
    Refused,
    NoAnswer,
}

impl Status {
    pub fn number(self) -> u64
        ensures { result ≡ status_number self }
    {
        match self {
            Status::Accepted => 0,
            Status::Refused => 1,
            Status::NoAnswer => 2,
        }
    }
}

// Where the script listens. `std` writes to no descriptor by its number, and what stands behind this one, as a socket, cannot always be
// opened by a name.
const SCRIPT_FILENO: i32 = 3;

// The status comes after the last line of the answer: a program that does not come to its end tells none.
pub fn ends(status: u64, number: u64) {
    io::print_decimal(SCRIPT_FILENO, status);
    io::write_all(SCRIPT_FILENO, b" ");
    io::print_decimal(SCRIPT_FILENO, number);
    io::write_all(SCRIPT_FILENO, b"\n");
}
