// One line of a listing, without its line feed: what is wrong with it, or the word that the writer writes for it.
// Address, name, and the fields that the listing shows of that name, parted by tabs.
ghost use Rattle.std.specs.Prelude.{◌≡◌, true, not, ◌≤◌, ◌<◌, eqb, length};
ghost use Rattle.instruction.specs.Bits.{pick};
ghost use Rattle.text.specs.Cut.{tab, cut, fields_after};
ghost use Rattle.names.specs.Names.{name_count};
ghost use Rattle.listing_reader.specs.ReadBack.{field_count, KnownShape, Shaped, line_read};

use crate::ReadBack;
use fields::read_numbers;
use instruction::{Body, Instruction, Rules};
use laid::fields::body_of;
use names::named;
use text::{find, number_from};
use writer::{Written, write};

// How many fields the listing shows behind a name.
pub fn field_count(row: u64) -> usize
    ensures { result ≡ field_count row }
{
    match row {
        Body::WAVEFORM => 6,
        Body::MARKER => 6,
        Body::WAIT => 2,
        Body::LOAD_REPEAT => 3,
        Body::REPEAT => 3,
        Body::CMP => 4,
        Body::GOTO => 3,
        Body::CALL => 3,
        Body::RETURN => 2,
        Body::SYNC => 2,
        Body::MODULATOR => 5,
        Body::LOAD_CMP => 2,
        Body::PREFETCH => 3,
        _ => 0,
    }
}

// What a line is before the writer is asked: what is wrong with it, or the row of its name and where that starts.
#[derive(Clone, Copy)]
pub struct Shape {
    pub number: u64,
    pub row: u64,
    pub from: usize,
}

impl Shape {
    fn refused(number: u64) -> Shape
        ensures { result ≡ record { number = number; row = 0; from = 0 } }
    {
        Shape {
            number,
            row: 0,
            from: 0,
        }
    }
}

// A line whose name is known, from the end of the name on; what its fields say is laid from the front.
fn known_shape(line: &[u8], end: usize, row: u64, address: u64, a: u64, values: &mut [u64]) -> u64
    requires { (end ≤ length line.now) × (row < name_count) × (6 ≤ length values.old) }
    ensures { KnownShape row address a (fields_after end line.now) values.old values.new result }
{
    if !read_numbers(line, end, &mut values[..field_count(row)]) {
        return ReadBack::NO_LINE;
    }
    if address != a {
        return ReadBack::WRONG_ADDRESS;
    }
    0
}

// A line whose name is not known.
fn unknown_shape(address: u64, a: u64) -> u64
    ensures { result ≡ pick (not (eqb address a)) 62 63 }
{
    if address != a {
        return ReadBack::WRONG_ADDRESS;
    }
    ReadBack::NO_NAME
}

// The line of the word at address a, as far as it can be told without the writer.
pub fn line_shape(line: &[u8], a: u64, values: &mut [u64]) -> Shape
    requires { 6 ≤ length values.old }
    ensures { Shaped a (cut tab line.now) values.old values.new result }
{
    let Some(address) = number_from(line, 0) else {
        return Shape::refused(ReadBack::NO_LINE);
    };
    if line.len() <= address.end {
        return Shape::refused(ReadBack::NO_LINE);
    }
    let from = address.end + 1;
    let end = find(line, from, b'\t');
    let Some(row) = named(&line[from..end]) else {
        let number = unknown_shape(address.value, a);
        return Shape::refused(number);
    };
    let number = known_shape(line, end, row, address.value, a, values);
    Shape { number, row, from }
}

// The line of the word at address a.
pub fn read_line(line: &[u8], a: u64, rules: Rules) -> Written
    ensures { result ≡ line_read rules a (record { bytes = line.now; ended = true }) }
{
    let mut values = [0u64; ReadBack::FIELDS];
    let shape = line_shape(line, a, &mut values);
    if shape.number != 0 {
        return Written {
            number: shape.number,
            word: 0,
        };
    }
    let body = body_of(shape.row, values[2], values[3], values[4], values[5]);
    let i = Instruction {
        engine: values[0],
        write: values[1],
        body,
    };
    write(i, rules)
}
