// A listing of edition 1 moved to edition 2: every target gets a label, and no line an address.
// Every line is judged before the first byte is written, so that the buffer has the whole text or is as it was.
#![tactic(auto)]

ghost use Rattle.std.specs.Prelude.{◌≡◌, [], ◌∷◌, ◌++◌, ◌+◌, ◌-◌, ◌≤◌, ◌<◌, length, drop, MatchResult};
ghost use Rattle.instruction.specs.Bits.{pick};
ghost use Rattle.buffer.specs.Put.{Fits, Put};
ghost use Rattle.text.specs.Cut.{line_feed, place_of, row_at, rows_in};
ghost use Rattle.text.specs.Line.{letters};
ghost use Rattle.editions.specs.Moves.{moved, Moves, label_line, ToLabels};
ghost use Rattle.to_labels.specs.Loops.{TellsRow, is_plain, label_text, parts_text, InText, PartsOf, PartsFit, parts_by, kept_note, Movable, Noted, marked_of, LineCount, Ready, BadLine, GoodLines, Based, Known, Near, LabelsRoom, Layable, labelled_lines, Passed, labelled_text};

use buffer::lay;
use editions::{LineOne, Moved, Room, glance_one, last_field, line_one};
use listing::{Listing, put_header};
use listing_reader::{ReadBack, header_end};
use page::{digit_count, put_byte, put_end, put_number};
use text::{Refused, find};

#[derive(Clone, Copy)]
pub struct Labels;

impl Labels {
    // Addresses that have a mark at a time: those of the longest sequence.
    pub const SPAN: u64 = 65536;

    pub const MARKS: usize = Labels::SPAN as usize;

    // `label`, tab, `L` and the line feed.
    pub const LINE: usize = 8;

    // Words of which a note is kept: as many as the longest sequence has.
    const NOTES: usize = 65536;

    // Numbers of a note: where the word's name starts, where its target does, and where its line ends.
    const NOTE: usize = 3;
}

// How many lines stand from a place on: the last may have no line feed.
fn line_count(text: &[u8], from: usize) -> u64
    ensures { LineCount (rows_in (drop from text.now)) result }
{
    let mut n: u64 = 0;
    let mut at = from;
    // No index is counted: where the next line stands is found on the way.
    while at < text.len() {
        at = find(text, at, b'\n') + 1;
        n += 1;
    }
    n
}

// The line from a place to its end, as the one of address a.
fn tell_line(text: &[u8], at: usize, end: usize, a: u64, n: u64) -> LineOne
    requires { (at < length text.now) × (end ≡ place_of line_feed at text.now) }
    ensures { TellsRow n a (row_at text.now at end) result }
{
    if text.len() <= end {
        return LineOne::refused(ReadBack::NO_LINE);
    }
    line_one(&text[at..end], a, n)
}

// How long a line is in edition 2, of so many bytes with its line feed: an `L` more where it jumps.
fn named_size(size: usize, told: LineOne) -> usize
    requires { (0 < told.from) × (told.from ≤ size) }
    ensures { result ≡ size - told.from + pick (is_plain told) 0 1 }
{
    let rest = size - told.from;
    if told.target == LineOne::NOWHERE {
        return rest;
    }
    rest + 1
}

// A target gets its mark, where it has one: the marks are those of the addresses from a base on.
fn mark(marks: &mut [u8], base: u64, target: u64)
    ensures { marks.new ≡ marked_of base target marks.old }
{
    if target < base {
        return;
    }
    let i = (target - base) as usize;
    if i < marks.len() {
        marks[i] = 1;
    }
}

// A line's parts, as places in the text: where its name starts, where its target does, and its end; a line that does not jump has its
// target at its end.
#[derive(Clone, Copy)]
struct Parts {
    from: usize,
    last: usize,
    end: usize,
}

// The parts of a line from a place to its end, by what was told of it: a target is as long as its digits.
fn parts_of(at: usize, end: usize, told: LineOne) -> Parts
    requires { PartsFit at end told }
    ensures { result ≡ parts_by at end told }
{
    let from = at + told.from;
    if told.target == LineOne::NOWHERE {
        return Parts {
            from,
            last: end,
            end,
        };
    }
    Parts {
        from,
        last: end - digit_count(told.target),
        end,
    }
}

// A note of word a kept, where there is room.
fn keep_note(notes: &mut [u64], a: u64, parts: Parts)
    ensures { notes.new ≡ kept_note notes.old a parts }
{
    let i = a as usize;
    if notes.len() / Labels::NOTE <= i {
        return;
    }
    let from = Labels::NOTE * i;
    notes[from] = parts.from as u64;
    notes[from + 1] = parts.last as u64;
    notes[from + 2] = parts.end as u64;
}

// The first bad line from a place on, or the room that the lines leave, with every target marked and a note of each word.
fn judge_lines(
    text: &[u8],
    from: usize,
    n: u64,
    marks: &mut [u8],
    notes: &mut [u64],
    room: Room,
) -> Result<Room, Refused>
    requires { Ready n (rows_in (drop from text.now)) marks.old }
    ensures { MatchResult result (GoodLines n text.now from room marks.new notes.new) (BadLine n text.now from) }
{
    let mut at = from;
    let mut a: u64 = 0;
    let mut left = room;
    // No index is counted: where the next line stands is found on the way.
    while at < text.len() {
        let end = find(text, at, b'\n');
        let next = end + 1;
        let told = tell_line(text, at, end, a, n);
        if told.number != 0 {
            return Err(Refused {
                number: told.number,
                line: a + ReadBack::FIRST_LINE,
            });
        }
        mark(marks, 0, told.target);
        left = left.take(named_size(next - at, told));
        keep_note(notes, a, parts_of(at, end, told));
        at = next;
        a += 1;
    }
    Ok(left)
}

// The targets of all lines are marked anew, from a base on.
fn mark_from(text: &[u8], from: usize, n: u64, marks: &mut [u8], base: u64)
    requires { Based n (rows_in (drop from text.now)) base marks.old }
    ensures { Known n (rows_in (drop from text.now)) base marks.new }
{
    marks.fill(0);
    let mut at = from;
    let mut a: u64 = 0;
    // No index is counted: where the next line stands is found on the way.
    while at < text.len() {
        let end = find(text, at, b'\n');
        let told = tell_line(text, at, end, a, n);
        mark(marks, base, told.target);
        at = end + 1;
        a += 1;
    }
}

// The base of marks that tell of an address: where theirs does not, they are made anew.
fn base_for(text: &[u8], from: usize, n: u64, marks: &mut [u8], base: u64, a: u64) -> u64
    requires { Known n (rows_in (drop from text.now)) base marks.old × (a < n) }
    ensures { Near n (rows_in (drop from text.now)) a marks.new result }
{
    let start = a - a % Labels::SPAN;
    if start == base {
        return base;
    }
    mark_from(text, from, n, marks, start);
    start
}

// How long the label line of an address is, if it has one.
fn label_size(on: bool, a: u64) -> usize
    ensures { result ≡ length (label_text on a) }
{
    if !on {
        return 0;
    }
    Labels::LINE + digit_count(a)
}

// The room that the label lines leave, from the last to the first, so that the marks are then those of the first addresses again.
fn room_for_labels(text: &[u8], from: usize, n: u64, marks: &mut [u8], room: Room) -> Room
    requires { Known n (rows_in (drop from text.now)) 0 marks.old }
    ensures { LabelsRoom n (rows_in (drop from text.now)) room marks.new result }
{
    let mut left = room;
    let mut base: u64 = 0;
    for a in (0..n).rev() {
        base = base_for(text, from, n, marks, base, a);
        let on = marks[(a - base) as usize] != 0;
        left = left.take(label_size(on, a));
    }
    left
}

// `label`, tab, `L` and the address, by which a target is named.
fn put_label_line(out: &mut [u8], at: usize, a: u64) -> usize
    requires { Fits (label_line a) out.old at }
    ensures { Put (label_line a) out.old at out.new result }
{
    let from = lay(out, at, b"label\tL");
    let end = put_number(out, from, a);
    put_end(out, end)
}

// The label line of an address, if it has one.
fn put_label(out: &mut [u8], at: usize, a: u64, on: bool) -> usize
    requires { Fits (label_text on a) out.old at }
    ensures { Put (label_text on a) out.old at out.new result }
{
    if !on {
        return at;
    }
    put_label_line(out, at, a)
}

// The last of a line, and its line feed.
fn put_last(out: &mut [u8], at: usize, text: &[u8]) -> usize
    requires { Fits (text.now ++ (line_feed ∷ [])) out.old at }
    ensures { Put (text.now ++ (line_feed ∷ [])) out.old at out.new result }
{
    let end = lay(out, at, text);
    put_end(out, end)
}

// A line in two parts, and an `L` before the second.
fn put_jump(out: &mut [u8], at: usize, front: &[u8], target: &[u8]) -> usize
    requires { Fits (front.now ++ (letters "L" ++ (target.now ++ (line_feed ∷ [])))) out.old at }
    ensures { Put (front.now ++ (letters "L" ++ (target.now ++ (line_feed ∷ [])))) out.old at out.new result }
{
    let end = lay(out, at, front);
    let next = put_byte(out, end, b'L');
    put_last(out, next, target)
}

// A line by its parts, with an `L` before its target where it jumps.
fn put_parts(out: &mut [u8], at: usize, text: &[u8], parts: Parts) -> usize
    requires { InText text.now parts × Fits (parts_text text.now parts) out.old at }
    ensures { Put (parts_text text.now parts) out.old at out.new result }
{
    let from = parts.from;
    let last = parts.last;
    let end = parts.end;
    if last == end {
        return put_last(out, at, &text[from..end]);
    }
    put_jump(out, at, &text[from..last], &text[last..end])
}

// The line of address a, and its label line before it, if it has one.
fn put_row(out: &mut [u8], at: usize, text: &[u8], parts: Parts, a: u64, on: bool) -> usize
    requires { InText text.now parts × Fits (label_text on a ++ parts_text text.now parts) out.old at }
    ensures { Put (label_text on a ++ parts_text text.now parts) out.old at out.new result }
{
    let next = put_label(out, at, a, on);
    put_parts(out, next, text, parts)
}

// The parts of a line that is known to be well, by looking at it.
fn parts_seen(text: &[u8], at: usize) -> Parts
    requires { Movable text.now at }
    ensures { PartsOf text.now at result }
{
    let end = find(text, at, b'\n');
    let told = glance_one(&text[at..end]);
    let from = at + told.from;
    if told.target == LineOne::NOWHERE {
        return Parts {
            from,
            last: end,
            end,
        };
    }
    let last = at + last_field(&text[at..end]);
    Parts { from, last, end }
}

// The parts of the line of address a, by the note of it, or by looking at it where there is none.
fn parts_at(text: &[u8], notes: &[u64], at: usize, a: u64) -> Parts
    requires { Movable text.now at × Noted text.now notes.now at a }
    ensures { PartsOf text.now at result }
{
    let i = a as usize;
    if notes.len() / Labels::NOTE <= i {
        return parts_seen(text, at);
    }
    let from = Labels::NOTE * i;
    Parts {
        from: notes[from] as usize,
        last: notes[from + 1] as usize,
        end: notes[from + 2] as usize,
    }
}

// The lines of edition 2, from a place on.
fn put_lines(
    text: &[u8],
    from: usize,
    n: u64,
    marks: &mut [u8],
    notes: &[u64],
    out: &mut [u8],
    start: usize,
) -> usize
    requires { Layable n text.now from marks.old notes.now out.old start }
    ensures { Put (labelled_lines (rows_in (drop from text.now))) out.old start out.new result }
{
    let mut at = from;
    let mut a: u64 = 0;
    let mut base: u64 = 0;
    let mut place = start;
    // No index is counted: where the next line stands is found on the way.
    while at < text.len() {
        let parts = parts_at(text, notes, at, a);
        base = base_for(text, from, n, marks, base, a);
        let on = marks[(a - base) as usize] != 0;
        place = put_row(out, place, text, parts, a, on);
        at = parts.end + 1;
        a += 1;
    }
    place
}

// The text of lines with which nothing is wrong: whole, or not at all where there is no room for it.
fn finish(
    text: &[u8],
    from: usize,
    n: u64,
    marks: &mut [u8],
    notes: &[u64],
    room: Room,
    out: &mut [u8],
) -> Moved
    requires { Passed n text.now from marks.old notes.now out.old room }
    ensures { Moves (moved 0) (labelled_text (rows_in (drop from text.now))) out.old out.new result }
{
    let left = room_for_labels(text, from, n, marks, room);
    if left.left == 0 {
        return Moved::refused(ReadBack::NO_ROOM, 0);
    }
    let start = put_header(out, Listing::LABELLED);
    let size = put_lines(text, from, n, marks, notes, out, start);
    Moved {
        number: 0,
        line: 0,
        size: size as u64,
    }
}

// A listing with labels: whole in front of the buffer, or a refusal and the buffer as it was.
// The headers of both editions are as long, so that the room for the new one is what the old one takes.
pub fn to_labels(text: &[u8], out: &mut [u8]) -> Moved
    ensures { ToLabels text.now out.old out.new result }
{
    let Some(from) = header_end(text, Listing::EDITION) else {
        return Moved::refused(ReadBack::NO_HEADER, 1);
    };
    let n = line_count(text, from);
    let room = Room::behind(out.len(), from);
    let mut marks = [0u8; Labels::MARKS];
    let mut notes = [1u64; Labels::NOTE * Labels::NOTES];
    match judge_lines(text, from, n, &mut marks, &mut notes, room) {
        Ok(left) => finish(text, from, n, &mut marks, &notes, left, out),
        Err(bad) => Moved::refused(bad.number, bad.line),
    }
}
