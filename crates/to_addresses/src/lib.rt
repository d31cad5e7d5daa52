// A listing of edition 2 moved to edition 1: every word gets its address, and every label the address that it means.
// Labels are collected, then every line is judged, and then all is written, so that the buffer has the whole text or is as it was.
#![tactic(auto)]

ghost use Rattle.std.specs.Prelude.{◌≡◌, true, ◌&&◌, [], ◌∷◌, ◌++◌, ◌≤◌, ◌<◌, ◌+◌, ltb, length, IfSome, MatchResult};
ghost use Rattle.buffer.specs.Put.{Fits, Put};
ghost use Rattle.text.specs.Cut.{tab, line_feed, place_of, same_text};
ghost use Rattle.text.specs.Line.{decimal};
ghost use Rattle.label.specs.Label.{is_label};
ghost use Rattle.label.specs.First.{first_name};
ghost use Rattle.label.specs.Key.{count, Seen};
ghost use Rattle.editions.specs.Moves.{labels_of, addressed_from, ToAddresses};
ghost use Rattle.to_addresses.specs.Moving.{rows_from, defined_in, label_to, Few, passed_by, defines_in, Labelled, DefinesAt, kept_label, collected_row, Collected, Sought, Knows, Twice, Stands, label_number_at, weighed_jump, Weighs, kept_note, BadLine, GoodLines, Layable, LaysRow, Noted, LaysNoted, LayableFrom, LayableAll, Parts, Finishes};

use buffer::lay;
use editions::{LineTwo, Moved, Room, glance_two, kind_of, label_from, row_two};
use label::index::{Table, means_at, prepare, seek};
use label::{Key, pack};
use listing::{Listing, put_header};
use listing_reader::{ReadBack, header_end};
use page::{digit_count, put_byte, put_end, put_number};
use text::{Refused, find, same};

#[derive(Clone, Copy)]
pub struct Addresses;

impl Addresses {
    // A label is defined twice.
    pub const TWICE: u64 = 65;

    // No word stands behind a label.
    pub const NO_WORD: u64 = 66;

    // A label is not defined.
    pub const NOT_DEFINED: u64 = 67;

    // All numbers of as many labels as the table takes.
    const NUMBERS: usize = Table::NUMBERS * Table::LABELS;

    // Words of which a note is kept: as many as the longest sequence has.
    const NOTES: usize = 65536;

    // Numbers of a note: where the word's line starts, where it stops or its label starts, what the label means, and the place behind the line.
    const NOTE: usize = 4;

    // What stands in a line beside its address and its fields: the tab behind the address, and the line feed.
    const TAB_AND_END: usize = 2;
}

// How many labels and words were passed.
#[derive(Clone, Copy)]
struct Passed {
    labels: usize,
    words: usize,
}

// What a line defines: whether it is a word, and where the label starts that it defines; 0 is none.
#[derive(Clone, Copy)]
struct Defining {
    word: bool,
    from: usize,
}

fn defined_at(text: &[u8], at: usize, end: usize) -> Defining
    requires { (at < length text.now) × (end ≡ place_of line_feed at text.now) }
    ensures { DefinesAt text.now at end result }
{
    if text[at] != b'l' {
        return Defining {
            word: true,
            from: 0,
        };
    }
    let kind = kind_of(&text[at..end]);
    if !kind.label {
        return Defining {
            word: true,
            from: 0,
        };
    }
    let from = label_from(&text[at..end], kind.end);
    if from == 0 {
        return Defining {
            word: false,
            from: 0,
        };
    }
    if text.len() <= end {
        return Defining {
            word: false,
            from: 0,
        };
    }
    Defining {
        word: false,
        from: at + from,
    }
}

// Past a line that defines a label or not, and is a word or not.
fn pass(past: Passed, defines: bool, word: bool) -> Passed
    requires { Few past }
    ensures { result ≡ passed_by defines word past }
{
    if defines {
        return Passed {
            labels: past.labels + 1,
            words: past.words,
        };
    }
    if word {
        return Passed {
            labels: past.labels,
            words: past.words + 1,
        };
    }
    past
}

// The numbers of label j kept, and the address that it means, where there is room.
fn keep_label(keys: &mut [u64], j: usize, k: Key, a: usize)
    ensures { keys.new ≡ kept_label keys.old j k a }
{
    if keys.len() / Table::NUMBERS <= j {
        return;
    }
    let from = Table::NUMBERS * j;
    keys[from] = k.lo;
    keys[from + 1] = k.hi;
    keys[from + 2] = a as u64;
}

// A label that a line defines kept.
fn collect_row(text: &[u8], end: usize, line: Defining, past: Passed, keys: &mut [u64])
    requires { defines_in line ≡ true → Labelled text.now line.from end }
    ensures { keys.new ≡ collected_row text.now end line past keys.old }
{
    let from = line.from;
    if from == 0 {
        return;
    }
    let k = pack(&text[from..end]);
    keep_label(keys, past.labels, k, past.words);
}

// The labels and the addresses that they mean, as far as there is room; how many labels and words there are.
fn collect(text: &[u8], from: usize, keys: &mut [u64]) -> Passed
    ensures { Collected text.now from keys.new result }
{
    let mut at = from;
    let mut past = Passed {
        labels: 0,
        words: 0,
    };
    // No index is counted: where the next line stands is found on the way.
    while at < text.len() {
        let end = find(text, at, b'\n');
        let line = defined_at(text, at, end);
        collect_row(text, end, line, past, keys);
        past = pass(past, line.from != 0, line.word);
        at = end + 1;
    }
    past
}

// Where a label is defined first among those of the text, and the address that it means; their number and 0 where it is not.
#[derive(Clone, Copy)]
struct Found {
    first: usize,
    means: u64,
}

// Whether a line defines this label.
fn names_it(text: &[u8], end: usize, line: Defining, name: &[u8]) -> bool
    requires { defines_in line ≡ true → Labelled text.now line.from end }
    ensures { result ≡ (defines_in line && same_text (label_to text.now line.from end) name.now) }
{
    let from = line.from;
    if from == 0 {
        return false;
    }
    same(&text[from..end], name)
}

// A label looked for line by line.
fn scan(text: &[u8], from: usize, name: &[u8]) -> Found
    ensures { Sought (defined_in text.now from) name.now result }
{
    let mut at = from;
    let mut past = Passed {
        labels: 0,
        words: 0,
    };
    // No index is counted: where the next line stands is found on the way.
    while at < text.len() {
        let end = find(text, at, b'\n');
        let line = defined_at(text, at, end);
        if names_it(text, end, line, name) {
            return Found {
                first: past.labels,
                means: past.words as u64,
            };
        }
        past = pass(past, line.from != 0, line.word);
        at = end + 1;
    }
    Found {
        first: past.labels,
        means: 0,
    }
}

// What is known of a text's labels: where its lines begin, the first label that stood before if the table is to be used,
// and how many labels and words there are.
#[derive(Clone, Copy)]
struct Known {
    from: usize,
    double: Option<usize>,
    labels: usize,
    words: usize,
}

// A label looked for in the table, or line by line where that is not to be used.
fn find_label(text: &[u8], keys: &[u64], table: &[u32], known: Known, name: &[u8]) -> Found
    requires { Knows text.now keys.now table.now known × (is_label name.now ≡ true) }
    ensures { Sought (defined_in text.now known.from) name.now result }
{
    let Some(_) = known.double else {
        return scan(text, known.from, name);
    };
    let k = pack(name);
    let first = seek(keys, table, k);
    if keys.len() / Table::NUMBERS <= first {
        return Found { first, means: 0 };
    }
    let means = means_at(keys, first);
    Found { first, means }
}

// Whether label j, which is this one, stood before.
fn is_doubled(text: &[u8], known: Known, j: usize, name: &[u8]) -> bool
    requires { Twice text.now known j name.now }
    ensures { result ≡ ltb (first_name (labels_of (defined_in text.now known.from)) name.now) j }
{
    match known.double {
        Some(double) => j == double,
        None => scan(text, known.from, name).first < j,
    }
}

// What is wrong with a label line that has its shape.
fn label_number(text: &[u8], known: Known, past: Passed, name: &[u8]) -> u64
    requires { Twice text.now known past.labels name.now }
    ensures { result ≡ label_number_at (labels_of (defined_in text.now known.from)) known.words past name.now }
{
    if is_doubled(text, known, past.labels, name) {
        return Addresses::TWICE;
    }
    if known.words <= past.words {
        return Addresses::NO_WORD;
    }
    0
}

// What is told of a line: whether it is a label line, what is wrong with it, and where nothing is the room that is left, where the line
// stops or the label of a jump starts, and the address that this means.
#[derive(Clone, Copy)]
struct Weighed {
    number: u64,
    label: bool,
    room: Room,
    stop: usize,
    means: u64,
}

// A jump that has its shape, of so many bytes up to its label: what is wrong with that, and the room that is left.
fn weigh_jump(
    room: Room,
    past: Passed,
    at: usize,
    stop: usize,
    known: Known,
    found: Found,
) -> Weighed
    requires { at ≤ stop }
    ensures { result ≡ weighed_jump room past at stop known found }
{
    if known.labels <= found.first {
        return Weighed {
            number: Addresses::NOT_DEFINED,
            label: false,
            room,
            stop: 0,
            means: 0,
        };
    }
    let address = digit_count(past.words as u64) + Addresses::TAB_AND_END;
    let left = room
        .take(address)
        .take(digit_count(found.means))
        .take(stop - at);
    Weighed {
        number: 0,
        label: false,
        room: left,
        stop,
        means: found.means,
    }
}

// What is wrong with a line, and the room that what it moves to leaves.
fn weigh(
    text: &[u8],
    keys: &[u64],
    table: &[u32],
    known: Known,
    at: usize,
    end: usize,
    past: Passed,
    room: Room,
) -> Weighed
    requires { Stands text.now keys.now table.now known at end past }
    ensures { Weighs text.now known at end past room result }
{
    let told = row_two(text, at, end);
    if told.number != 0 {
        return Weighed {
            number: told.number,
            label: told.label,
            room,
            stop: 0,
            means: 0,
        };
    }
    let from = at + told.from;
    if told.label {
        let number = label_number(text, known, past, &text[from..end]);
        return Weighed {
            number,
            label: true,
            room,
            stop: 0,
            means: 0,
        };
    }
    if told.jump {
        let found = find_label(text, keys, table, known, &text[from..end]);
        return weigh_jump(room, past, at, from, known, found);
    }
    let left = room
        .take(digit_count(past.words as u64) + Addresses::TAB_AND_END)
        .take(end - at);
    Weighed {
        number: 0,
        label: false,
        room: left,
        stop: end,
        means: 0,
    }
}

// A note of word a kept, where there is room; a label line has no word.
fn keep_note(notes: &mut [u64], a: usize, at: usize, told: Weighed, next: usize)
    ensures { notes.new ≡ kept_note notes.old a at told next }
{
    if told.label {
        return;
    }
    if notes.len() / Addresses::NOTE <= a {
        return;
    }
    let from = Addresses::NOTE * a;
    notes[from] = at as u64;
    notes[from + 1] = told.stop as u64;
    notes[from + 2] = told.means;
    notes[from + 3] = next as u64;
}

// The first bad line, or the room that what they move to leaves, and a note of each word.
fn judge(
    text: &[u8],
    keys: &[u64],
    table: &[u32],
    known: Known,
    notes: &mut [u64],
    room: Room,
) -> Result<Room, Refused>
    requires { Knows text.now keys.now table.now known × (2 ≤ known.from) }
    ensures { MatchResult result (GoodLines text.now known.from room notes.new) (BadLine text.now known.from) }
{
    let mut at = known.from;
    let mut past = Passed {
        labels: 0,
        words: 0,
    };
    let mut left = room;
    // No index is counted: where the next line stands is found on the way.
    while at < text.len() {
        let end = find(text, at, b'\n');
        let told = weigh(text, keys, table, known, at, end, past, left);
        if told.number != 0 {
            let line = (past.labels + past.words) as u64 + ReadBack::FIRST_LINE;
            return Err(Refused {
                number: told.number,
                line,
            });
        }
        let next = end + 1;
        keep_note(notes, past.words, at, told, next);
        left = told.room;
        past = pass(past, told.label, true);
        at = next;
    }
    Ok(left)
}

// A word's address, and the tab behind it.
fn put_address(out: &mut [u8], at: usize, a: u64) -> usize
    requires { Fits (decimal a ++ (tab ∷ [])) out.old at }
    ensures { Put (decimal a ++ (tab ∷ [])) out.old at out.new result }
{
    let end = put_number(out, at, a);
    put_byte(out, end, b'\t')
}

// A word's line as it stands, behind its address.
fn put_plain(out: &mut [u8], at: usize, a: u64, line: &[u8]) -> usize
    requires { Fits ((decimal a ++ (tab ∷ [])) ++ (line.now ++ (line_feed ∷ []))) out.old at }
    ensures { Put ((decimal a ++ (tab ∷ [])) ++ (line.now ++ (line_feed ∷ []))) out.old at out.new result }
{
    let next = put_address(out, at, a);
    let end = lay(out, next, line);
    put_end(out, end)
}

// The address that a label means, and the end of its line.
fn put_target(out: &mut [u8], at: usize, means: u64) -> usize
    requires { Fits (decimal means ++ (line_feed ∷ [])) out.old at }
    ensures { Put (decimal means ++ (line_feed ∷ [])) out.old at out.new result }
{
    let end = put_number(out, at, means);
    put_end(out, end)
}

// A jump's line, behind its address, up to its label, and the address that this means.
fn put_jump(out: &mut [u8], at: usize, a: u64, front: &[u8], means: u64) -> usize
    requires { Fits ((decimal a ++ (tab ∷ [])) ++ (front.now ++ (decimal means ++ (line_feed ∷ [])))) out.old at }
    ensures { Put ((decimal a ++ (tab ∷ [])) ++ (front.now ++ (decimal means ++ (line_feed ∷ [])))) out.old at out.new result }
{
    let next = put_address(out, at, a);
    let end = lay(out, next, front);
    put_target(out, end, means)
}

// The place of the next line, where it is laid, and how many words were.
#[derive(Clone, Copy)]
struct Laid {
    at: usize,
    place: usize,
    words: usize,
}

// What a line moves to.
fn put_row(
    text: &[u8],
    keys: &[u64],
    table: &[u32],
    known: Known,
    out: &mut [u8],
    laid: Laid,
) -> Laid
    requires { Layable text.now keys.now table.now known out.old laid }
    ensures { LaysRow text.now known.from out.old laid out.new result }
{
    let at = laid.at;
    let end = find(text, at, b'\n');
    let told = glance_two(&text[at..end]);
    if told.label {
        return Laid {
            at: end + 1,
            place: laid.place,
            words: laid.words,
        };
    }
    let a = laid.words as u64;
    let words = laid.words + 1;
    if !told.jump {
        let place = put_plain(out, laid.place, a, &text[at..end]);
        return Laid {
            at: end + 1,
            place,
            words,
        };
    }
    let from = at + told.from;
    let found = find_label(text, keys, table, known, &text[from..end]);
    let place = put_jump(out, laid.place, a, &text[at..from], found.means);
    Laid {
        at: end + 1,
        place,
        words,
    }
}

// The next word by its note, and the label lines before it.
fn put_noted(text: &[u8], notes: &[u64], out: &mut [u8], laid: Laid) -> Laid
    requires { Noted text.now notes.now out.old laid }
    ensures { LaysNoted text.now notes.now out.old laid out.new result }
{
    let from = Addresses::NOTE * laid.words;
    let start = notes[from] as usize;
    let stop = notes[from + 1] as usize;
    let means = notes[from + 2];
    let at = notes[from + 3] as usize;
    let a = laid.words as u64;
    let words = laid.words + 1;
    if stop + 1 == at {
        let place = put_plain(out, laid.place, a, &text[start..stop]);
        return Laid { at, place, words };
    }
    let place = put_jump(out, laid.place, a, &text[start..stop], means);
    Laid { at, place, words }
}

// What lines that are all good move to, from a place on.
fn put_others(
    text: &[u8],
    keys: &[u64],
    table: &[u32],
    known: Known,
    out: &mut [u8],
    start: Laid,
) -> usize
    requires { LayableFrom text.now keys.now table.now known out.old start }
    ensures { Put (addressed_from (defined_in text.now known.from) start.words (rows_from text.now start.at)) out.old start.place out.new result }
{
    let mut laid = start;
    // No index is counted: where the next line stands is found on the way.
    while laid.at < text.len() {
        laid = put_row(text, keys, table, known, out, laid);
    }
    laid.place
}

// What lines that are all good move to, by the notes of their words as far as they go.
fn put_rows(
    text: &[u8],
    keys: &[u64],
    table: &[u32],
    known: Known,
    notes: &[u64],
    out: &mut [u8],
    start: usize,
) -> usize
    requires { LayableAll text.now keys.now table.now known notes.now out.old start }
    ensures { Put (addressed_from (defined_in text.now known.from) 0 (rows_from text.now known.from)) out.old start out.new result }
{
    let noted = known.words.min(notes.len() / Addresses::NOTE);
    let mut laid = Laid {
        at: known.from,
        place: start,
        words: 0,
    };
    for _ in 0..noted {
        laid = put_noted(text, notes, out, laid);
    }
    put_others(text, keys, table, known, out, laid)
}

// The first label that stood before, where the list has all labels and the table is to be used.
fn first_double(keys: &[u64], labels: usize, table: &mut [u32]) -> Option<usize>
    ensures { IfSome result (λ d. Seen keys.now table.new d × (count keys.now ≡ labels)) }
{
    if keys.len() / Table::NUMBERS != labels {
        return None;
    }
    prepare(keys, table)
}

// All of it, once the labels are collected.
fn finish(text: &[u8], from: usize, keys: &[u64], end: Passed, out: &mut [u8]) -> Moved
    requires { Parts text.now from keys.now end }
    ensures { Finishes text.now from out.old out.new result }
{
    let mut table = [Table::EMPTY; Table::SLOTS];
    let double = first_double(keys, end.labels, &mut table);
    let known = Known {
        from,
        double,
        labels: end.labels,
        words: end.words,
    };
    let room = Room::behind(out.len(), from);
    let mut notes = [1u64; Addresses::NOTE * Addresses::NOTES];
    match judge(text, keys, &table, known, &mut notes, room) {
        Err(bad) => Moved::refused(bad.number, bad.line),
        Ok(left) => {
            if left.left == 0 {
                return Moved::refused(ReadBack::NO_ROOM, 0);
            }
            let start = put_header(out, Listing::EDITION);
            let size = put_rows(text, keys, &table, known, &notes, out, start);
            Moved {
                number: 0,
                line: 0,
                size: size as u64,
            }
        }
    }
}

// A listing with addresses: whole in front of the buffer, or a refusal and the buffer as it was.
// The headers of both editions are as long, so that the room for the new one is what the old one takes.
pub fn to_addresses(text: &[u8], out: &mut [u8]) -> Moved
    ensures { ToAddresses text.now out.old out.new result }
{
    let Some(from) = header_end(text, Listing::LABELLED) else {
        return Moved::refused(ReadBack::NO_HEADER, 1);
    };
    let mut keys = [1u64; Addresses::NUMBERS];
    let end = collect(text, from, &mut keys);
    let n = Table::NUMBERS * end.labels.min(Table::LABELS);
    finish(text, from, &keys[..n], end, out)
}
