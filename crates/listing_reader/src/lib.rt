// A listing read back as words: for physicists who mend a sequence in a text editor.
// Every line is judged before the first word is written, so that the buffer has all words or is as it was.
#![tactic(auto)]

ghost use Rattle.std.specs.Prelude.{◌≡◌, map, ◌<◌, length, drop, Some, None};
ghost use Rattle.instruction.specs.Bits.{pick};
ghost use Rattle.buffer.specs.Put.{put};
ghost use Rattle.text.specs.Cut.{line_feed, place_of, row_at, rows_in};
ghost use Rattle.listing.specs.Listing.{head_of};
ghost use Rattle.listing_reader.specs.ReadBack.{is_edition, line_number, told_of, word_in, ReadsBack};

use crate::line::read_line;
use instruction::Rules;
use listing::{Listing, put_header};
use text::{find, same};

pub mod line;

// What is told of a text: 0 and how many words it has, or the number of a refusal and its line.
#[derive(Clone, Copy)]
pub struct ReadBack {
    pub number: u64,
    pub line: u64,
    pub count: u64,
}

impl ReadBack {
    pub const NO_HEADER: u64 = 60;

    pub const NO_LINE: u64 = 61;

    pub const WRONG_ADDRESS: u64 = 62;

    pub const NO_NAME: u64 = 63;

    pub const NO_ROOM: u64 = 64;

    // The header is line 1, and the word at address 0 stands behind it.
    pub const FIRST_LINE: u64 = 2;

    // No name has more fields behind it: engine select, write flag and four of the table's.
    pub const FIELDS: usize = 6;
}

// Where the lines of an edition begin: behind its header; nowhere where the text does not begin with it.
pub fn header_end(text: &[u8], edition: u64) -> Option<usize>
    requires { edition < 10 }
    ensures { result ≡ pick (is_edition edition text.now) (Some (length (head_of edition))) None }
{
    let mut page = [0u8; Listing::HEADER];
    let n = put_header(&mut page, edition);
    if text.len() < n {
        return None;
    }
    if same(&text[..n], &page[..n]) {
        return Some(n);
    }
    None
}

// What is wrong with the line from a place to its end, if anything.
fn line_number(text: &[u8], at: usize, end: usize, a: u64, room: u64, rules: Rules) -> u64
    requires { (at < length text.now) × (end ≡ place_of line_feed at text.now) }
    ensures { result ≡ line_number rules room a (row_at text.now at end) }
{
    if text.len() <= end {
        return ReadBack::NO_LINE;
    }
    let read = read_line(&text[at..end], a, rules);
    if read.number != 0 {
        return read.number;
    }
    if room <= a {
        return ReadBack::NO_ROOM;
    }
    0
}

// The first bad line from a place on, or how many words there are.
fn judge(text: &[u8], from: usize, room: usize, rules: Rules) -> ReadBack
    requires { 0 < from }
    ensures { result ≡ told_of rules room 0 (rows_in (drop from text.now)) }
{
    let size = text.len();
    let mut at = from;
    let mut a: usize = 0;
    // No index is counted: where the next line stands is found on the way.
    while at < size {
        let end = find(text, at, b'\n');
        let next = end + 1;
        let number = line_number(text, at, end, a as u64, room as u64, rules);
        if number != 0 {
            let line = a as u64 + ReadBack::FIRST_LINE;
            return ReadBack {
                number,
                line,
                count: 0,
            };
        }
        at = next;
        a += 1;
    }
    ReadBack {
        number: 0,
        line: 0,
        count: a as u64,
    }
}

// The words of lines that are all good, from the front.
fn fill(text: &[u8], from: usize, words: &mut [u64], rules: Rules)
    requires { (told_of rules (length words.old) 0 (rows_in (drop from text.now))).number ≡ 0 }
    ensures { words.new ≡ put words.old 0 (map (word_in rules) (rows_in (drop from text.now))) }
{
    let mut at = from;
    let mut a: usize = 0;
    // No index is counted: where the next line stands is found on the way.
    while at < text.len() {
        let end = find(text, at, b'\n');
        let read = read_line(&text[at..end], a as u64, rules);
        words[a] = read.word;
        at = end + 1;
        a += 1;
    }
}

// A listing as words: all of them from the front of the buffer, or a refusal and the buffer as it was.
pub fn read_listing(text: &[u8], rules: Rules, words: &mut [u64]) -> ReadBack
    ensures { ReadsBack rules text.now words.old words.new result }
{
    let Some(from) = header_end(text, Listing::EDITION) else {
        return ReadBack {
            number: ReadBack::NO_HEADER,
            line: 1,
            count: 0,
        };
    };
    let told = judge(text, from, words.len(), rules);
    if told.number == 0 {
        fill(text, from, words, rules);
    }
    told
}
