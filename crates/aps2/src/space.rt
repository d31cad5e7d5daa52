// Room for what is read and dispatched: zeros, of which a contract tells the number alone.
// Each function has its own on the stack, and is not inlined, so that it has it only while it runs.
ghost use Rattle.std.specs.Prelude.{◌≡◌, ◌+◌, length};
ghost use Rattle.sequence.specs.Bounds.{word_limit};
ghost use Rattle.request.specs.Room.{most_room};

use request::asked::Asked;
use sequence::Sequence;

fn zeros<const N: usize>() -> [u64; N]
    ensures { N ≡ length result }
{
    [0; N]
}

// For the words of a sequence, its marks, or the messages of a run.
pub fn for_words() -> [u64; Sequence::WORDS as usize]
    ensures { word_limit ≡ length result }
{
    zeros()
}

// For the lines that a listing has the words of a sequence in, of one word too many, and the one behind the last.
pub fn for_lines() -> [u64; Sequence::WORDS as usize + 2]
    ensures { word_limit + 2 ≡ length result }
{
    zeros()
}

// For a trace.
pub fn for_trace() -> [u64; Asked::MOST_ROOM as usize]
    ensures { most_room ≡ length result }
{
    zeros()
}
