// The words that an answer is about, and where a person finds them.
// Words that came from no listing have no lines.
use instruction::WordAddress;

// The lines are those of the words, each its own, and the one behind the last.
#[derive(Clone, Copy)]
pub struct Source<'a> {
    pub words: &'a [u64],
    pub lines: &'a [u64],
}

impl Source<'_> {
    // The line of the word at an address, where a listing had the words.
    pub fn line_of(self, place: WordAddress) -> Option<u64> {
        if self.lines.is_empty() {
            return None;
        }
        let line = self.lines.get(place.0 as usize).copied();
        Some(line.unwrap_or(0))
    }
}
