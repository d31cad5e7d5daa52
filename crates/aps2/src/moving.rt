// A listing moved from one edition to the other: that of a file, or of words that were read.
// What is refused is told as everywhere, with its line.
use crate::answer::{refused_text, text};
use crate::ending::Ending;
use files::moves::{Rooms, Way, labelled, moved_of};
use files::room;
use files::trouble::Trouble;
use request::asked::Asked;
use system::System;
use told::Said;

fn tell(system: System, moved: Result<&[u8], Trouble<'_>>, asked: Asked) -> Result<Ending, Said> {
    match moved {
        Ok(moved) => text(system, moved, asked.options.out),
        Err(Trouble::Refused(bad)) => Ok(refused_text(system, bad, asked)),
        Err(Trouble::Said) => Err(Said),
    }
}

// The list with labels is a listing moved.
#[inline(never)]
pub fn list(system: System, words: &[u64], asked: Asked) -> Result<Ending, Said> {
    let mut text = room::for_listing();
    let mut line = io::buffer();
    let rooms = Rooms {
        text: &mut text,
        line: &mut line,
    };
    tell(system, labelled(words, asked.options.rules, rooms), asked)
}

// The file that is asked for.
#[inline(never)]
pub fn serve(system: System, way: Way, asked: Asked) -> Result<Ending, Said> {
    let mut text = room::for_listing();
    let mut line = io::buffer();
    let rooms = Rooms {
        text: &mut text,
        line: &mut line,
    };
    tell(system, moved_of(system, asked.file, way, rooms), asked)
}
