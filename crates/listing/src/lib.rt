// The listing of raw words, as text: laid out on a page that has room for the longest one, and then handed over whole or not at all.
// Each function that writes takes the place to write from and answers with the place behind what it wrote.
#![tactic(auto)]

ghost use Rattle.std.specs.Prelude.{◌≡◌, [], ◌∷◌, ◌++◌, map, ◌≤◌, ◌<◌, ◌+◌, ◌*◌, length, take, drop};
ghost use Rattle.buffer.specs.Put.{Fits, Put};
ghost use Rattle.reader.specs.Reading.{reading_of};
ghost use Rattle.text.specs.Line.{name, number, rest_text, line_text, text_of};
ghost use Rattle.instruction.specs.Word.{word_bytes};
ghost use Rattle.listing.specs.Listing.{word_at, shown_of, entries_of, bad_numbers, entries_in, lines_from, head_of, listing_of, heard_size, heard_of, page_size, Listed};

use buffer::lay;
use instruction::{Body, Instruction, Refusal, Rules};
use names::put_name;
use page::{put_end, put_number, put_numbers, put_value, put_word};
use reader::{coarse_of, instruction_in, judged_by};

#[derive(Clone, Copy)]
pub struct Listing;

impl Listing {
    pub const WORDS: usize = 2048;

    pub const WORD_BYTES: usize = Instruction::BYTES as usize;

    // What the header line says of the listing's form.
    pub const EDITION: u64 = 1;

    // The edition in which jumps go to labels.
    pub const LABELLED: u64 = 2;

    // A bit is set that is not named; which kind it is, and which bit, come after it.
    pub const UNNAMED: u64 = 11;

    // The bytes are no whole number of words.
    pub const NOT_WHOLE: u64 = 8;

    pub const TOO_MANY: u64 = 9;

    // Bytes of an input that are enough to tell its listing: two words more than are listed.
    pub const HEARD: usize = Listing::WORD_BYTES * (Listing::WORDS + 2);

    // Room for the header line.
    pub const HEADER: usize = 16;

    // No line is longer.
    pub const LINE: usize = 84;

    // Room for the longest listing: the header, and a line for each word.
    pub const PAGE: usize = Listing::LINE * (Listing::WORDS + 1);
}

// The table's fields, and the end of the line.
fn put_fields(page: &mut [u8], at: usize, body: Body) -> usize
    requires { Fits (rest_text (map number (shown_of body))) page.old at }
    ensures { Put (rest_text (map number (shown_of body))) page.old at page.new result }
{
    match body {
        Body::Waveform(f) => put_numbers(page, at, &[f.op, f.ta, f.count.0, f.address.0]),
        Body::Marker(f) => put_numbers(page, at, &[f.op, f.transition, f.state, f.count.0]),
        Body::Wait => put_end(page, at),
        Body::LoadRepeat(n) => put_numbers(page, at, &[n.0]),
        Body::Repeat(a) => put_numbers(page, at, &[a.0]),
        Body::Cmp(x) => put_numbers(page, at, &[x.code, x.mask]),
        Body::Goto(a) => put_numbers(page, at, &[a.0]),
        Body::Call(a) => put_numbers(page, at, &[a.0]),
        Body::Return(_) => put_end(page, at),
        Body::Sync => put_end(page, at),
        Body::Modulator(f) => put_numbers(page, at, &[f.op, f.nco, f.payload]),
        Body::LoadCmp(_) => put_end(page, at),
        Body::Prefetch(a) => put_numbers(page, at, &[a.0]),
        Body::Noop => put_end(page, at),
    }
}

// What follows the address of a word that reads as an instruction.
fn put_instruction(page: &mut [u8], at: usize, i: Instruction) -> usize
    requires { Fits (rest_text (entries_of i)) page.old at }
    ensures { Put (rest_text (entries_of i)) page.old at page.new result }
{
    let body = i.body;
    let named = put_name(page, at, body);
    if body.code() == Body::NOOP {
        return put_end(page, named);
    }
    let select = put_value(page, named, i.engine);
    let flag = put_value(page, select, i.write);
    put_fields(page, flag, body)
}

// The number of a word that fails form, or 11, the finer number and the bit; and the end of the line.
fn put_refusal(page: &mut [u8], at: usize, refusal: Refusal) -> usize
    requires { Fits (rest_text (map number (bad_numbers refusal))) page.old at }
    ensures { Put (rest_text (map number (bad_numbers refusal))) page.old at page.new result }
{
    if refusal.tells_bit() {
        return put_numbers(page, at, &[Listing::UNNAMED, refusal.number, refusal.bit]);
    }
    put_numbers(page, at, &[refusal.number])
}

// What follows the address of a word that fails form.
fn put_bad(page: &mut [u8], at: usize, refusal: Refusal) -> usize
    requires { Fits (rest_text (name "BAD" ∷ map number (bad_numbers refusal))) page.old at }
    ensures { Put (rest_text (name "BAD" ∷ map number (bad_numbers refusal))) page.old at page.new result }
{
    let named = put_word(page, at, b"BAD");
    put_refusal(page, named, refusal)
}

fn put_reading(page: &mut [u8], at: usize, reading: Result<Instruction, Refusal>) -> usize
    requires { Fits (rest_text (entries_in reading)) page.old at }
    ensures { Put (rest_text (entries_in reading)) page.old at page.new result }
{
    match reading {
        Ok(i) => put_instruction(page, at, i),
        Err(r) => put_bad(page, at, r),
    }
}

// The line of a word at an address.
fn put_line(page: &mut [u8], at: usize, address: u64, word: u64, rules: Rules) -> usize
    requires { Fits (line_text (number address) (entries_in (reading_of rules word))) page.old at }
    ensures { Put (line_text (number address) (entries_in (reading_of rules word))) page.old at page.new result }
{
    let reading = judged_by(word, coarse_of(word, rules), instruction_in(word));
    let told = put_number(page, at, address);
    put_reading(page, told, reading)
}

// A line of a name and a number.
fn put_pair(page: &mut [u8], text: &[u8], n: u64) -> usize
    requires { Fits (text.now ++ rest_text (number n ∷ [])) page.old 0 }
    ensures { Put (text.now ++ rest_text (number n ∷ [])) page.old 0 page.new result }
{
    let end = lay(page, 0, text);
    put_numbers(page, end, &[n])
}

// The header line of an edition, from the start of a page.
pub fn put_header(page: &mut [u8], edition: u64) -> usize
    requires { Fits (head_of edition) page.old 0 }
    ensures { Put (head_of edition) page.old 0 page.new result }
{
    put_pair(page, b"aps2-listing", edition)
}

// The word at an address, most significant byte first.
fn word_at(bytes: &[u8], a: usize) -> u64
    requires { (a + 1) * word_bytes ≤ length bytes.now }
    ensures { result ≡ word_at bytes.now a }
{
    let from = a * Listing::WORD_BYTES;
    let mut word: u64 = 0;
    for k in 0..Listing::WORD_BYTES {
        word = word * Instruction::BYTE_SPAN + Instruction::wide(bytes[from + k]);
    }
    word
}

// The lines of the first n words.
fn put_lines(page: &mut [u8], at: usize, bytes: &[u8], n: usize, rules: Rules) -> usize
    requires { Fits (text_of (lines_from rules bytes.now 0 n)) page.old at × (n * word_bytes ≤ length bytes.now) }
    ensures { Put (text_of (lines_from rules bytes.now 0 n)) page.old at page.new result }
{
    let mut end = at;
    for a in 0..n {
        end = put_line(page, end, a as u64, word_at(bytes, a), rules);
    }
    end
}

// The whole listing, from the start of a page.
fn lay_out(bytes: &[u8], page: &mut [u8], rules: Rules) -> usize
    requires { page_size ≤ length page.old }
    ensures { Put (listing_of rules bytes.now) page.old 0 page.new result }
{
    if bytes.len() % Listing::WORD_BYTES != 0 {
        return put_pair(page, b"refused", Listing::NOT_WHOLE);
    }
    let n = bytes.len() / Listing::WORD_BYTES;
    if Listing::WORDS < n {
        return put_pair(page, b"refused", Listing::TOO_MANY);
    }
    let from = put_header(page, Listing::EDITION);
    put_lines(page, from, bytes, n, rules)
}

// The first n bytes of a page, at the start of a buffer.
fn hand_over(page: &[u8], n: usize, out: &mut [u8])
    requires { (n ≤ length page.now) × (n ≤ length out.old) }
    ensures { out.new ≡ take n page.now ++ drop n out.old }
{
    out[..n].copy_from_slice(&page[..n]);
}

// The length of the listing, which is written where it fits.
pub fn list(bytes: &[u8], rules: Rules, out: &mut [u8]) -> usize
    ensures { Listed (listing_of rules bytes.now) out.old out.new result }
{
    let mut page = [0u8; Listing::PAGE];
    let n = lay_out(bytes, &mut page, rules);
    if out.len() < n {
        return n;
    }
    hand_over(&page, n, out);
    n
}

// The line of one word at an address, and its length; it is written where it fits.
pub fn line(address: u64, word: u64, rules: Rules, out: &mut [u8]) -> usize
    ensures { Listed (line_text (number address) (entries_in (reading_of rules word))) out.old out.new result }
{
    let mut page = [0u8; Listing::LINE];
    let n = put_line(&mut page, 0, address, word, rules);
    if out.len() < n {
        return n;
    }
    hand_over(&page, n, out);
    n
}

// How many bytes to hand to `list` for an input of so many: of one that is too long, a word more than are listed and what is left over.
pub fn heard(total: usize) -> usize
    ensures { (result ≡ heard_of total) × (result < heard_size) }
{
    if total < Listing::HEARD {
        return total;
    }
    Listing::HEARD - Listing::WORD_BYTES + total % Listing::WORD_BYTES
}
