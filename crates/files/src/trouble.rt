// Why a file gives nothing: what is wrong was said at once, or its text is refused with a number.
// Of a line that is refused as much is shown as there is room for.
use crate::lines::line_at;
use told::Said;

// The number of a refusal, and its line where it has one.
#[derive(Clone, Copy)]
pub struct Refused {
    pub number: u64,
    pub line: Option<u64>,
}

// The same with what stands in that line.
#[derive(Clone, Copy)]
pub struct BadText<'a> {
    pub number: u64,
    pub line: Option<u64>,
    pub shown: &'a [u8],
}

#[derive(Clone, Copy)]
pub enum Trouble<'a> {
    Said,
    Refused(BadText<'a>),
}

impl From<Said> for Trouble<'_> {
    fn from(_said: Said) -> Self {
        Trouble::Said
    }
}

impl Refused {
    // Where a number comes with a line, or with 0 for none.
    pub fn at(number: u64, line: u64) -> Refused {
        let line = if line == 0 { None } else { Some(line) };
        Refused { number, line }
    }

    // The line of the text that is refused, laid at the start of what is lent.
    pub fn shown_in<'a>(self, text: &[u8], room: &'a mut [u8]) -> Trouble<'a> {
        let line = line_at(text, self.line.unwrap_or(0));
        let line = line.strip_suffix(b"\n").unwrap_or(line);
        let n = line.len().min(room.len());
        room[..n].copy_from_slice(&line[..n]);
        Trouble::Refused(BadText {
            number: self.number,
            line: self.line,
            shown: &room[..n],
        })
    }
}
