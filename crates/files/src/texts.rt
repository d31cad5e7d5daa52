// The words of a text that people write, a listing of either edition or a block, as a file or standard input has it.
// It is read whole before the first word counts; of a bad line as much is shown as there is room for.
use crate::lines::{line_at, line_meant, word_lines};
use crate::room;
use crate::room::front;
use crate::trouble::{Refused, Trouble};
use crate::whole::{Kept, complain_by_name, text_of};
use block::block;
use instruction::{QuadSamples, Rules};
use listing::Listing;
use listing_reader::{ReadBack, header_end, read_listing};
use report::source::Source;
use sequence::Sequence;
use system::System;
use to_addresses::to_addresses;
use told::Said;

// What a text is: a listing, read for a module, or a block, for a waveform memory.
#[derive(Clone, Copy)]
pub enum Written {
    Listing(Rules),
    Block(QuadSamples),
}

// What is lent for words, for the lines that they stand in, and for a line that is refused.
#[derive(Drop)]
pub struct Rooms<'a> {
    pub words: &'a mut [u64],
    pub lines: &'a mut [u64],
    pub line: &'a mut [u8],
}

impl Written {
    // Whether it tells the lines of its words.
    fn is_listing(self) -> bool {
        matches!(self, Written::Listing(_))
    }
}

// A text that has no end where there is room for one: which it is, and its line where that alone is too long.
pub fn complain_of_length(
    system: System,
    argument: usize,
    line: Option<u64>,
    listing: bool,
) -> Said {
    let text = if listing { "listing" } else { "block" };
    eprint!(system; "aps2: ");
    complain_by_name(system, argument);
    if let Some(line) = line {
        eprint!(system; ", line {line}");
    }
    eprintln!(system; ": longer than a whole {text} can be");
    Said
}

// The words of a listing of edition 1, how many they are.
fn read_addressed(text: &[u8], rules: Rules, words: &mut [u64]) -> Result<u64, Refused> {
    let read = read_listing(text, rules, words);
    match read.number {
        0 => Ok(read.count),
        number => Err(Refused::at(number, read.line)),
    }
}

// The line of the first word that a sequence has no place for, where the lines tell that there is one.
fn line_too_many(lines: &[u64]) -> Option<u64> {
    if lines.len() <= Sequence::WORDS as usize + 1 {
        return None;
    }
    line_meant(lines, Sequence::WORDS + ReadBack::FIRST_LINE)
}

// The words of a listing of edition 2, which stand in these lines. A refusal of what it moves to has the line of the same word.
#[inline(never)]
fn read_labelled(
    text: &[u8],
    rules: Rules,
    words: &mut [u64],
    lines: &[u64],
) -> Result<u64, Refused> {
    let mut listing = room::for_listing();
    let moved = to_addresses(text, &mut listing);
    match moved.number {
        0 => {}
        ReadBack::NO_ROOM => return Err(Refused {
            number: ReadBack::NO_ROOM,
            line: line_too_many(lines),
        }),
        number => return Err(Refused::at(number, moved.line)),
    }
    let read = read_addressed(front(&listing, moved.size), rules, words);
    read.map_err(|refused| Refused {
        line: refused.line.and_then(|line| line_meant(lines, line)),
        ..refused
    })
}

fn is_labelled(text: &[u8]) -> bool {
    header_end(text, Listing::LABELLED).is_some()
}

// The words of a listing, which tells its edition.
fn read_either(
    text: &[u8],
    rules: Rules,
    words: &mut [u64],
    lines: &[u64],
) -> Result<u64, Refused> {
    if is_labelled(text) {
        read_labelled(text, rules, words, lines)
    } else {
        read_addressed(text, rules, words)
    }
}

fn read_block(text: &[u8], wave: QuadSamples, words: &mut [u64]) -> Result<u64, Refused> {
    block(text, wave, words).map_err(|refused| Refused::at(refused.number, refused.line))
}

// The words of a text, and the lines that they stand in where it is a listing.
fn read_as<'a>(
    text: &[u8],
    written: Written,
    words: &'a mut [u64],
    lines: &'a mut [u64],
) -> Result<Source<'a>, Refused> {
    match written {
        Written::Listing(rules) => {
            let lines = word_lines(text, lines);
            let count = read_either(text, rules, words, lines)?;
            let words = front(words, count);
            Ok(Source { words, lines })
        }
        Written::Block(wave) => {
            let count = read_block(text, wave, words)?;
            let words = front(words, count);
            Ok(Source { words, lines: &[] })
        }
    }
}

// Whether a refusal is of what goes on past what was kept: of a line that does, or of the whole.
fn goes_on(text: &[u8], line: Option<u64>) -> bool {
    match line {
        None => true,
        Some(line) => !line_at(text, line).ends_with(b"\n"),
    }
}

// What can be told of a text that goes on past what is kept: what is wrong with an earlier line, but of a listing of edition 2 nothing, since
// its labels may be defined in what is missing.
fn refused_in_part(
    system: System,
    argument: usize,
    text: &[u8],
    written: Written,
    read: Result<Source<'_>, Refused>,
) -> Result<Refused, Said> {
    let listing = written.is_listing();
    let tells_nothing = listing && is_labelled(text);
    match read {
        Err(refused) if !tells_nothing => {
            if goes_on(text, refused.line) {
                return Err(complain_of_length(system, argument, refused.line, listing));
            }
            Ok(refused)
        }
        _ => Err(complain_of_length(system, argument, None, listing)),
    }
}

// The words of the text that an argument names, and the lines that they stand in where it is a listing.
#[inline(never)]
pub fn words_in_text<'a>(
    system: System,
    argument: usize,
    written: Written,
    rooms: Rooms<'a>,
) -> Result<Source<'a>, Trouble<'a>> {
    let Rooms { words, lines, line } = rooms;
    let mut buffer = room::for_text();
    match text_of(system, argument, &mut buffer)? {
        Kept::Whole(text) => match read_as(text, written, words, lines) {
            Ok(source) => Ok(source),
            Err(refused) => Err(refused.shown_in(text, line)),
        },
        Kept::Part(text) => {
            let read = read_as(text, written, words, lines);
            let refused = refused_in_part(system, argument, text, written, read)?;
            Err(refused.shown_in(text, line))
        }
    }
}
