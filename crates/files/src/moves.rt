// A listing moved from one edition to the other: that of a file or standard input, or that of words.
// It is moved whole, or refused with its line.
ghost use Rattle.std.specs.Prelude.{◌≤◌, length};

use crate::room;
use crate::room::front;
use crate::texts::complain_of_length;
use crate::trouble::{Refused, Trouble};
use crate::whole::{Kept, text_of};
use instruction::Rules;
use system::System;
use to_addresses::to_addresses;
use to_labels::to_labels;

// What a listing gets in place of what it has.
#[derive(Clone, Copy)]
pub enum Way {
    ToLabels,
    ToAddresses,
}

// What is lent for the text that a listing moves to, and for a line that is refused.
#[derive(Drop)]
pub struct Rooms<'a> {
    pub text: &'a mut [u8],
    pub line: &'a mut [u8],
}

// The line of a word, where there is room; tells where it ends.
fn lay_word(address: u64, word: u64, rules: Rules, text: &mut [u8], at: usize) -> usize
    requires { at ≤ length text.old }
    ensures { result ≤ length text.new }
{
    let n = listing::line(address, word, rules, &mut text[at..]);
    if text.len() - at < n {
        return at;
    }
    at + n
}

// The listing of words, as far as there is room. That of no words is its header, whatever the rules.
fn lay_listing<'a>(words: &[u64], rules: Rules, text: &'a mut [u8]) -> &'a [u8]
    ensures { length result.now ≤ length text.old }
{
    let mut at = listing::list(b"", rules, text).min(text.len());
    for (address, word) in words.iter().enumerate() {
        at = lay_word(address as u64, *word, rules, text, at);
    }
    &text[..at]
}

impl Way {
    // What a text moves to; of one that is refused, the line is laid at the start of what is lent.
    fn moved<'a>(self, text: &[u8], rooms: Rooms<'a>) -> Result<&'a [u8], Trouble<'a>> {
        let Rooms { text: out, line } = rooms;
        let told = match self {
            Way::ToLabels => to_labels(text, out),
            Way::ToAddresses => to_addresses(text, out),
        };
        match told.number {
            0 => Ok(front(out, told.size)),
            number => Err(Refused::at(number, told.line).shown_in(text, line)),
        }
    }
}

// The listing of words, with labels.
pub fn labelled<'a>(
    words: &[u64],
    rules: Rules,
    rooms: Rooms<'a>,
) -> Result<&'a [u8], Trouble<'a>> {
    let mut buffer = room::for_text();
    let text = lay_listing(words, rules, &mut buffer);
    Way::ToLabels.moved(text, rooms)
}

// The listing of the file that an argument names.
pub fn moved_of<'a>(
    system: System,
    argument: usize,
    way: Way,
    rooms: Rooms<'a>,
) -> Result<&'a [u8], Trouble<'a>> {
    let mut buffer = room::for_text();
    match text_of(system, argument, &mut buffer)? {
        Kept::Whole(text) => way.moved(text, rooms),
        Kept::Part(_) => Err(complain_of_length(system, argument, None, true).into()),
    }
}
