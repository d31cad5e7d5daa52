// Words as lines of the listing.
// A place is told with the word that stands there, and a long trace is cut.
use crate::source::Source;
use instruction::{Refusal, Rules, WordAddress};
use listing::Listing;
use std::fmt;
use std::str::from_utf8;

// The words of a trace that are shown.
const SHOWN: usize = 40;

// A word as its line, at an address.
#[derive(Clone, Copy)]
pub struct Line {
    pub address: u64,
    pub word: u64,
    pub rules: Rules,
}

// The lines of words from address 0 on.
#[derive(Clone, Copy)]
struct Lines<'a> {
    words: &'a [u64],
    rules: Rules,
}

#[derive(Clone, Copy)]
pub struct WholeListing<'a> {
    pub words: &'a [u64],
    pub rules: Rules,
}

// The word at an address, or that there is none.
#[derive(Clone, Copy)]
pub struct WordAt<'a> {
    pub words: &'a [u64],
    pub place: WordAddress,
    pub rules: Rules,
}

// The bit, where the number tells one.
#[derive(Clone, Copy)]
pub struct Bit(pub Refusal);

// Where a refusal is, its bit, and the listing's line of the word there.
#[derive(Clone, Copy)]
pub struct Place<'a> {
    pub source: Source<'a>,
    pub refusal: Refusal,
    pub place: WordAddress,
    pub rules: Rules,
}

// A line of a text, as it was typed.
#[derive(Clone, Copy)]
pub struct Typed<'a>(pub &'a [u8]);

// Words as text: sixteen hexadecimal digits, a line each.
#[derive(Clone, Copy)]
pub struct Hexadecimal<'a>(pub &'a [u64]);

// The trace as listing lines, cut with a count of the rest.
#[derive(Clone, Copy)]
pub struct Trace<'a> {
    pub words: &'a [u64],
    pub rules: Rules,
}

// What the listing laid at the start of a buffer.
fn laid(buffer: &[u8], n: usize) -> &str {
    match buffer.get(..n) {
        Some(text) => from_utf8(text).unwrap_or(""),
        None => "",
    }
}

impl Line {
    // The line with its line feed, in a buffer that is lent.
    pub fn text<'a>(&self, buffer: &'a mut [u8]) -> &'a str {
        let n = listing::line(self.address, self.word, self.rules, buffer);
        laid(buffer, n)
    }
}

impl fmt::Display for Line {
    fn fmt<W: fmt::Write>(&self, f: &mut fmt::Formatter<W>) -> fmt::Result {
        let mut buffer = [0u8; Listing::LINE];
        f.write_str(self.text(&mut buffer))
    }
}

impl fmt::Display for Lines<'_> {
    fn fmt<W: fmt::Write>(&self, f: &mut fmt::Formatter<W>) -> fmt::Result {
        for (address, word) in self.words.iter().enumerate() {
            let line = Line {
                address: address as u64,
                word: *word,
                rules: self.rules,
            };
            write!(f, "{line}")?;
        }
        Ok(())
    }
}

impl fmt::Display for WholeListing<'_> {
    // The listing of no words is its header, whatever the rules.
    fn fmt<W: fmt::Write>(&self, f: &mut fmt::Formatter<W>) -> fmt::Result {
        let mut header = [0u8; Listing::LINE];
        let n = listing::list(b"", Rules::CURRENT, &mut header);
        f.write_str(laid(&header, n))?;
        let lines = Lines {
            words: self.words,
            rules: self.rules,
        };
        write!(f, "{lines}")
    }
}

impl fmt::Display for WordAt<'_> {
    fn fmt<W: fmt::Write>(&self, f: &mut fmt::Formatter<W>) -> fmt::Result {
        match self.words.get(self.place.0 as usize) {
            None => writeln!(f, "past the last word"),
            Some(word) => {
                let line = Line {
                    address: self.place.0,
                    word: *word,
                    rules: self.rules,
                };
                write!(f, "{line}")
            }
        }
    }
}

impl fmt::Display for Bit {
    fn fmt<W: fmt::Write>(&self, f: &mut fmt::Formatter<W>) -> fmt::Result {
        if self.0.tells_bit() {
            write!(f, ", bit {}", self.0.bit)?;
        }
        Ok(())
    }
}

impl Place<'_> {
    // A word at the end of a line that has told its place; where it came from a listing, its line, too.
    fn fmt_word<W: fmt::Write>(
        &self,
        f: &mut fmt::Formatter<W>,
        place: WordAddress,
        before: &str,
    ) -> fmt::Result {
        if let Some(line) = self.source.line_of(place) {
            write!(f, "{before}line {line}")?;
        }
        let word = WordAt {
            words: self.source.words,
            place,
            rules: self.rules,
        };
        write!(f, "\n{word}")
    }
}

impl fmt::Display for Place<'_> {
    // A word past the last is told with the last.
    fn fmt<W: fmt::Write>(&self, f: &mut fmt::Formatter<W>) -> fmt::Result {
        let n = self.source.words.len() as u64;
        if n == 0 {
            return writeln!(f, "");
        }
        write!(f, " at word {}{}", self.place.0, Bit(self.refusal))?;
        if self.place.0 < n {
            return self.fmt_word(f, self.place, ", ");
        }
        write!(f, ", past the last, which is")?;
        self.fmt_word(f, WordAddress(n - 1), " ")
    }
}

impl fmt::Display for Typed<'_> {
    // What is no printing ASCII goes by its number, but a tab.
    fn fmt<W: fmt::Write>(&self, f: &mut fmt::Formatter<W>) -> fmt::Result {
        for byte in self.0 {
            match byte {
                b' '..=b'~' | b'\t' => f.write_char(*byte as char)?,
                _ => write!(f, "\\x{byte:02x}")?,
            }
        }
        writeln!(f, "")
    }
}

impl fmt::Display for Hexadecimal<'_> {
    fn fmt<W: fmt::Write>(&self, f: &mut fmt::Formatter<W>) -> fmt::Result {
        for word in self.0 {
            writeln!(f, "{word:016x}")?;
        }
        Ok(())
    }
}

impl fmt::Display for Trace<'_> {
    fn fmt<W: fmt::Write>(&self, f: &mut fmt::Formatter<W>) -> fmt::Result {
        let Trace { words, rules } = *self;
        let n = words.len();
        let words = words.get(..SHOWN).unwrap_or(words);
        let lines = Lines { words, rules };
        write!(f, "trace\t{n}\n{lines}")?;
        if SHOWN < n {
            let rest = n - SHOWN;
            writeln!(f, "and {rest} words more; --trace FILE writes all of them")?;
        }
        Ok(())
    }
}
