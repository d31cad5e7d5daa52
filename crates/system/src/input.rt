// What is read: a file, or standard input. It comes in pieces of any size.
// A name of "-" is that of standard input.
ghost use Rattle.std.specs.Prelude.{◌≤◌, length, IfOk};

use crate::{System, open};
use std::fs::File;
use std::io::{Read, Result};
use std::rt::Stdin;

#[derive(Drop)]
pub enum Input {
    File(File),
    Standard(Stdin),
}

impl Read for Input {
    fn read(&mut self, buffer: &mut [u8]) -> Result<usize> {
        match self {
            Input::File(file) => file.read(buffer),
            Input::Standard(input) => input.read(buffer),
        }
    }
}

impl Input {
    pub fn is_standard(name: &[u8]) -> bool {
        matches!(name, b"-")
    }

    pub fn named(system: System, name: &[u8]) -> Result<Input> {
        if Input::is_standard(name) {
            return Ok(Input::Standard(system.input()));
        }
        Ok(Input::File(open(system, name)?))
    }

    // The name by which a person knows it.
    pub fn shown(name: &[u8]) -> &[u8] {
        if Input::is_standard(name) {
            return b"standard input";
        }
        name
    }
}

// How many bytes came before a buffer was full or the input at its end.
pub fn fill(input: &mut impl Read, buffer: &mut [u8]) -> Result<usize>
    ensures { IfOk result (λ n. n ≤ length buffer.new) }
{
    let mut n = 0;
    // No index is counted: each read takes what has come.
    while n < buffer.len() {
        let more = input.read(&mut buffer[n..])?;
        if more == 0 {
            break;
        }
        n += more;
    }
    Ok(n)
}
