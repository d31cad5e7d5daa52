// Which file an answer is about, and its exit status: the beginning of every object.
// A name is bytes: what is no UTF-8 in it is told by the numbers that Python's `os.fsencode` turns back.
use instruction::Rules;
use std::fmt;
use system::System;

// A name between quotes.
#[derive(Clone, Copy)]
struct Name<'a>(&'a [u8]);

// The firmware that an answer is for.
#[derive(Clone, Copy)]
pub struct Firmware(pub Rules);

// Quotes, backslashes and what does not print go by their number.
fn write_escaped<W: fmt::Write>(f: &mut fmt::Formatter<W>, c: char) -> fmt::Result {
    match c {
        '\0'..='\x1f' | '"' | '\\' | '\x7f' => write!(f, "\\u{:04x}", c as u32),
        _ => f.write_char(c),
    }
}

impl fmt::Display for Name<'_> {
    fn fmt<W: fmt::Write>(&self, f: &mut fmt::Formatter<W>) -> fmt::Result {
        let name = self.0;
        for chunk in name.utf8_chunks() {
            for c in chunk.valid().chars() {
                write_escaped(f, c)?;
            }
            for byte in chunk.invalid() {
                write!(f, "\\udc{byte:02x}")?;
            }
        }
        Ok(())
    }
}

impl fmt::Display for Firmware {
    fn fmt<W: fmt::Write>(&self, f: &mut fmt::Formatter<W>) -> fmt::Result {
        let firmware = self.0.firmware;
        f.write_str(if firmware.is_older() {
            r#""older""#
        } else {
            r#""current""#
        })
    }
}

// An object begins with its file, which an argument names, and the exit status that it would have alone.
pub fn begin(system: System, argument: usize, status: u64) {
    let mut buffer = io::large_buffer();
    let name = Name(system.name(argument, &mut buffer));
    print!(system; r#"{{"file":"{name}","status":{status}"#);
}

pub fn end(system: System) {
    println!(system; "}}");
}
