// Words as JSON: what the listing's line of a word has, each entry by its name; and a trace as words of text.
// A script need not hold numbers of 64 bits.
use instruction::{Body, Rules};
use listing::Listing;
use reader::{coarse_of, instruction_in};
use report::words::Line;
use std::fmt;

// The names of what follows the name of a word in its line: of one that is BAD a number, or 11 with the finer number and the bit; of an
// instruction engine select and write flag, and its fields.
const BAD: &[&str] = &["number", "kind", "bit"];

const WAVEFORM: &[&str] = &["engine", "write", "op", "ta", "count", "address"];

const MARKER: &[&str] = &["engine", "write", "op", "transition", "state", "count"];

const LOAD_REPEAT: &[&str] = &["engine", "write", "count"];

const CMP: &[&str] = &["engine", "write", "code", "mask"];

const MODULATOR: &[&str] = &["engine", "write", "op", "nco", "payload"];

const JUMP: &[&str] = &["engine", "write", "address"];

// A line of the listing as an object.
#[derive(Clone, Copy)]
struct Object {
    line: Line,
    names: &'static [&'static str],
}

#[derive(Clone, Copy)]
pub struct Words<'a> {
    pub words: &'a [u64],
    pub rules: Rules,
}

// Words as their sixteen digits.
#[derive(Clone, Copy)]
pub struct Digits<'a>(pub &'a [u64]);

fn names_of(word: u64, rules: Rules) -> &'static [&'static str] {
    if coarse_of(word, rules) != 0 {
        return BAD;
    }
    match instruction_in(word).body {
        Body::Waveform(_) => WAVEFORM,
        Body::Marker(_) => MARKER,
        Body::LoadRepeat(_) => LOAD_REPEAT,
        Body::Cmp(_) => CMP,
        Body::Modulator(_) => MODULATOR,
        _ => JUMP,
    }
}

impl fmt::Display for Object {
    fn fmt<W: fmt::Write>(&self, f: &mut fmt::Formatter<W>) -> fmt::Result {
        let mut buffer = [0u8; Listing::LINE];
        let names = self.names;
        let mut entries = self.line.text(&mut buffer).trim_ascii_end().split('\t');
        let place = entries.next().unwrap_or("");
        let word = entries.next().unwrap_or("");
        write!(f, r#"{{"place":{place},"name":"{word}""#)?;
        for (entry, name) in entries.zip(names.iter()) {
            write!(f, r#","{name}":{entry}"#)?;
        }
        write!(f, "}}")
    }
}

// Before every item of a list but the first.
fn comma_before(place: usize) -> &'static str {
    if place == 0 { "" } else { "," }
}

impl fmt::Display for Words<'_> {
    fn fmt<W: fmt::Write>(&self, f: &mut fmt::Formatter<W>) -> fmt::Result {
        let Words { words, rules } = *self;
        write!(f, "[")?;
        for (place, word) in words.iter().enumerate() {
            let line = Line {
                address: place as u64,
                word: *word,
                rules,
            };
            let names = names_of(*word, rules);
            write!(f, "{}{}", comma_before(place), Object { line, names })?;
        }
        write!(f, "]")
    }
}

impl fmt::Display for Digits<'_> {
    fn fmt<W: fmt::Write>(&self, f: &mut fmt::Formatter<W>) -> fmt::Result {
        let words = self.0;
        write!(f, "[")?;
        for (place, word) in words.iter().enumerate() {
            write!(f, r#"{}"{word:016x}""#, comma_before(place))?;
        }
        write!(f, "]")
    }
}
