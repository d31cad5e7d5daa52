// Room for texts: zeros, of which a contract tells the number alone.
// A sequence bounds them, as far as a text of one can be long.
ghost use Rattle.std.specs.Prelude.{◌≡◌, length};
ghost use Rattle.files.specs.Room.{text_room, listing_room};

use sequence::Sequence;

#[derive(Clone, Copy)]
pub struct Text;

impl Text {
    // No line of a listing is longer whose address is that of a sequence, and none of a block that fits a sequence.
    const LINE: usize = 40;

    // The longest line of a word in edition 2, which has no address, and that of a label, with 16 letters.
    const LABELLED: usize = 34 + 23;

    // More than any listing of a sequence has with a label for each word, its lines, and less than half a line for the
    // header. A block has fewer lines than words, but for an end, which is shorter than its repeat has words.
    pub const ROOM: usize = Text::LABELLED * (Sequence::WORDS as usize) + 16;

    // The same of a listing of edition 1. What one moves to is no longer: the line of a jump is short, and has a label
    // line at most.
    pub const LISTING: usize = Text::LINE * (Sequence::WORDS as usize) + 16;
}

fn zeros<const N: usize>() -> [u8; N]
    ensures { N ≡ length result }
{
    [0; N]
}

// For a text that is read.
pub fn for_text() -> [u8; Text::ROOM]
    ensures { text_room ≡ length result }
{
    zeros()
}

// For what a text moves to.
pub fn for_listing() -> [u8; Text::LISTING]
    ensures { listing_room ≡ length result }
{
    zeros()
}

// The first of what is lent, as many as were laid there.
pub fn front<T>(lent: &[T], n: u64) -> &[T] {
    lent.get(..n as usize).unwrap_or(lent)
}
