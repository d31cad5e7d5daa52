// The arguments of the program; 0 is its own name.
// Each is laid at the start of a buffer that is lent for it.
ghost use Rattle.std.specs.Prelude.{◌≤◌, length, IfSome};

use crate::System;
use std::env::FillError;
use std::rt::Env;

impl System {
    // The argument; none where there is no such argument or it does not fit.
    pub fn argument(self, i: usize, buffer: &mut [u8]) -> Option<&[u8]>
        ensures { IfSome result (λ text. length text.now ≤ length buffer.old) }
    {
        match self.host.arg(i, buffer) {
            Ok(n) => Some(&buffer[..n]),
            Err(_) => None,
        }
    }

    // The same, where one that is none is as an empty one.
    pub fn name(self, i: usize, buffer: &mut [u8]) -> &[u8]
        ensures { length result.now ≤ length buffer.old }
    {
        match self.argument(i, buffer) {
            Some(text) => text,
            None => b"",
        }
    }

    fn has_argument(self, i: usize) -> bool {
        let mut nothing = [0u8; 1];
        match self.host.arg(i, &mut nothing) {
            Err(FillError::NotPresent) => false,
            _ => true,
        }
    }

    // How many arguments there are.
    pub fn argument_count(self) -> usize {
        (0..usize::MAX)
            .take_while(|&i| self.has_argument(i))
            .count()
    }
}
