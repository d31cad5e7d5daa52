// What a line asks for in a lesson: a word, and a number behind it where it takes one.
// Blanks around them do not matter.
use std::fmt;
use typed::number;

#[derive(Clone, Copy)]
pub enum Wish {
    Steps(u64),
    Go,
    Triggers(u32),
    Message(u8),
    State,
    Back,
    Help,
    Quit,
}

// What cannot be heard in a line: a word that is none, or which number is not one.
#[derive(Clone, Copy)]
pub enum Unclear {
    Word,
    Triggers,
    Message,
}

impl fmt::Display for Unclear {
    fn fmt<W: fmt::Write>(&self, f: &mut fmt::Formatter<W>) -> fmt::Result {
        f.write_str(match self {
            Unclear::Word => "that is none of the words here; help tells them",
            Unclear::Triggers =>
                "how many triggers? A number behind it, as trigger 3, or none for one",
            Unclear::Message => "which message? A number from 0 to 255 behind it, as message 7",
        })
    }
}

fn is_blank(byte: u8) -> bool {
    matches!(byte, b' ' | b'\t' | b'\r')
}

// The number that a word says, if it does.
fn number_in(word: &[u8]) -> Option<u64> {
    number(word, u32::MAX).ok()
}

fn triggers_in(word: &[u8]) -> Result<Wish, Unclear> {
    match number_in(word).map(u32::try_from) {
        Some(Ok(n)) => Ok(Wish::Triggers(n)),
        _ => Err(Unclear::Triggers),
    }
}

fn message_in(word: &[u8]) -> Result<Wish, Unclear> {
    match number_in(word).map(u8::try_from) {
        Some(Ok(message)) => Ok(Wish::Message(message)),
        _ => Err(Unclear::Message),
    }
}

fn alone(word: &[u8]) -> Result<Wish, Unclear> {
    match word {
        b"go" => Ok(Wish::Go),
        b"trigger" => Ok(Wish::Triggers(1)),
        b"message" => Err(Unclear::Message),
        b"state" => Ok(Wish::State),
        b"back" => Ok(Wish::Back),
        b"help" => Ok(Wish::Help),
        b"quit" => Ok(Wish::Quit),
        _ => number_in(word).map(Wish::Steps).ok_or(Unclear::Word),
    }
}

// A word with another behind it.
fn two(word: &[u8], value: &[u8]) -> Result<Wish, Unclear> {
    match word {
        b"trigger" => triggers_in(value),
        b"message" => message_in(value),
        _ => Err(Unclear::Word),
    }
}

pub fn wish_in(line: &[u8]) -> Result<Wish, Unclear> {
    let mut words = line
        .split(|byte| is_blank(*byte))
        .filter(|word| !word.is_empty());
    let Some(word) = words.next() else {
        return Ok(Wish::Steps(1));
    };
    match (words.next(), words.next()) {
        (None, _) => alone(word),
        (Some(value), None) => two(word, value),
        // More words are no number.
        _ => two(word, b""),
    }
}
