// What the programs ask of the system, over the handle that `main` is given: their arguments, standard input, output and error, and files.
// Names are bytes, as an argument has them. Nothing here takes memory from the heap.
#![tactic(auto)]

mod argument;
mod file;
mod input;
mod pieces;
mod text;

ghost use Rattle.std.specs.Prelude.{◌≤◌, length, IfOk};

pub use file::{create, open, remove, rename};
pub use input::{Input, fill};
use pieces::{Pieces, To};
use std::fmt::{Display, Write};
use std::io::{IsTerminal, Read, Result};
use std::rt::{HostRuntime, Stdin};
pub use text::Reason;

// The system, as `main` is given it; it has no size.
#[derive(Clone, Copy)]
pub struct System {
    host: HostRuntime,
}

impl System {
    pub fn of(host: HostRuntime) -> System {
        System { host }
    }

    fn tell(self, to: To, text: impl Display + Drop, end: &str) {
        let mut pieces = Pieces::of(self, to);
        let _ = write!(pieces, "{text}{end}");
        pieces.send();
    }

    // Text to standard output, as `print!(system; ..)` formats it. What cannot be written is lost, and nothing follows from it.
    pub fn print(self, text: impl Display + Drop) {
        self.tell(To::Output, text, "");
    }

    // The same and the end of a line, for `println!`.
    pub fn println(self, text: impl Display + Drop) {
        self.tell(To::Output, text, "\n");
    }

    // Bytes that need not be text, as those of a name.
    pub fn print_bytes(self, bytes: &[u8]) {
        let _ = self.host.write_all(bytes);
    }

    // What goes to standard error, likewise.
    pub fn eprint(self, text: impl Display + Drop) {
        self.tell(To::Error, text, "");
    }

    pub fn eprintln(self, text: impl Display + Drop) {
        self.tell(To::Error, text, "\n");
    }

    pub fn eprint_bytes(self, bytes: &[u8]) {
        let _ = self.host.stderr().write_all(bytes);
    }

    // Standard input. Each read takes what has come, and no more.
    pub fn input(self) -> Stdin {
        self.host.stdin()
    }

    // What has come on standard input, at the start of a buffer; nothing at its end.
    pub fn read(self, buffer: &mut [u8]) -> Result<usize>
        ensures { IfOk result (λ n. n ≤ length buffer.new) }
    {
        self.input().read(buffer)
    }

    // Whether standard input is a keyboard.
    pub fn is_keyboard(self) -> bool {
        self.host.stdin().is_terminal()
    }
}
