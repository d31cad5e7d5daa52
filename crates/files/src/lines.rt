// Where a person finds what is told: the lines of a text, counted from 1, and those that have the words of a listing.
// A listing of edition 2 has label lines between them.
ghost use Rattle.std.specs.Prelude.{◌≤◌, length};

use editions::kind_of;
use listing_reader::ReadBack;

// A line with its line feed, if it has one; empty where there is no such line.
pub fn line_at(text: &[u8], line: u64) -> &[u8] {
    if line == 0 {
        return b"";
    }
    text.split_inclusive(|byte| *byte == b'\n')
        .nth((line - 1) as usize)
        .unwrap_or(b"")
}

// One more line, where there is room for it; how many there are.
fn note(room: &mut [u64], n: usize, line: u64) -> usize
    requires { n ≤ length room.old }
    ensures { result ≤ length room.new }
{
    if room.len() <= n {
        return n;
    }
    room[n] = line;
    n + 1
}

// The line of each word of a listing that is read, of either edition, and the one behind the last, as far as there is room.
pub fn word_lines<'a>(text: &[u8], room: &'a mut [u64]) -> &'a [u64] {
    let mut line = ReadBack::FIRST_LINE;
    let mut n = 0;
    for piece in text.split_inclusive(|byte| *byte == b'\n').skip(1) {
        let kind = kind_of(piece.strip_suffix(b"\n").unwrap_or(piece));
        if !kind.label {
            n = note(room, n, line);
        }
        line = line.wrapping_add(1);
    }
    n = note(room, n, line);
    &room[..n]
}

// The line of the word that an edition 1 of the same words has in a line.
pub fn line_meant(lines: &[u64], line: u64) -> Option<u64> {
    if line < ReadBack::FIRST_LINE {
        return Some(line);
    }
    lines.get((line - ReadBack::FIRST_LINE) as usize).copied()
}
