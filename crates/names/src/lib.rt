// The names of instructions: on a page, and whose a name is.
// A name is a text of its own in each arm: measured, this is faster than a table that is put on the stack for every word.
#![tactic(auto)]

ghost use Rattle.std.specs.Prelude.{◌≡◌, ◌∷◌};
ghost use Rattle.buffer.specs.Put.{Fits, Put};
ghost use Rattle.text.specs.Cut.{tab, same_text};
ghost use Rattle.text.specs.Line.{letters};
ghost use Rattle.names.specs.Names.{name_of, name_at, row_of, guess_of};

use instruction::Body;
use page::put_word;
use text::same;

#[derive(Clone, Copy)]
pub struct Names;

impl Names {
    // The op codes in their order, and NOOP behind the last of them.
    pub const COUNT: u64 = Body::PREFETCH + 2;

    // No name is shorter; no two have the same third letter and the same length.
    pub const SHORTEST: usize = 3;
}

// The name, after a tab.
pub fn put_name(page: &mut [u8], at: usize, body: Body) -> usize
    requires { Fits (tab ∷ letters (name_of body)) page.old at }
    ensures { Put (tab ∷ letters (name_of body)) page.old at page.new result }
{
    match body {
        Body::Waveform(_) => put_word(page, at, b"WAVEFORM"),
        Body::Marker(_) => put_word(page, at, b"MARKER"),
        Body::Wait => put_word(page, at, b"WAIT"),
        Body::LoadRepeat(_) => put_word(page, at, b"LOAD_REPEAT"),
        Body::Repeat(_) => put_word(page, at, b"REPEAT"),
        Body::Cmp(_) => put_word(page, at, b"CMP"),
        Body::Goto(_) => put_word(page, at, b"GOTO"),
        Body::Call(_) => put_word(page, at, b"CALL"),
        Body::Return(_) => put_word(page, at, b"RETURN"),
        Body::Sync => put_word(page, at, b"SYNC"),
        Body::Modulator(_) => put_word(page, at, b"MODULATOR"),
        Body::LoadCmp(_) => put_word(page, at, b"LOAD_CMP"),
        Body::Prefetch(_) => put_word(page, at, b"PREFETCH"),
        Body::Noop => put_word(page, at, b"NOOP"),
    }
}

// Whether this is the name in a row.
fn is_name(text: &[u8], row: u64) -> bool
    ensures { result ≡ same_text text.now (name_at row) }
{
    match row {
        Body::WAVEFORM => same(text, b"WAVEFORM"),
        Body::MARKER => same(text, b"MARKER"),
        Body::WAIT => same(text, b"WAIT"),
        Body::LOAD_REPEAT => same(text, b"LOAD_REPEAT"),
        Body::REPEAT => same(text, b"REPEAT"),
        Body::CMP => same(text, b"CMP"),
        Body::GOTO => same(text, b"GOTO"),
        Body::CALL => same(text, b"CALL"),
        Body::RETURN => same(text, b"RETURN"),
        Body::SYNC => same(text, b"SYNC"),
        Body::MODULATOR => same(text, b"MODULATOR"),
        Body::LOAD_CMP => same(text, b"LOAD_CMP"),
        Body::PREFETCH => same(text, b"PREFETCH"),
        _ => same(text, b"NOOP"),
    }
}

// The only row whose name has this third letter and this length, where there is one.
fn guess(third: u8, size: usize) -> u64
    ensures { result ≡ guess_of third size }
{
    match third {
        b'R' => Body::MARKER,
        b'I' => Body::WAIT,
        b'A' => {
            if size == 8 {
                Body::LOAD_CMP
            } else {
                Body::LOAD_REPEAT
            }
        }
        b'P' => {
            if size == Names::SHORTEST {
                Body::CMP
            } else {
                Body::REPEAT
            }
        }
        b'T' => { if size == 4 { Body::GOTO } else { Body::RETURN } }
        b'L' => Body::CALL,
        b'N' => Body::SYNC,
        b'D' => Body::MODULATOR,
        b'E' => Body::PREFETCH,
        b'O' => Names::COUNT - 1,
        _ => Body::WAVEFORM,
    }
}

// The row of the table that has this name.
pub fn named(text: &[u8]) -> Option<u64>
    ensures { result ≡ row_of text.now }
{
    if text.len() < Names::SHORTEST {
        return None;
    }
    let row = guess(text[2], text.len());
    if is_name(text, row) {
        return Some(row);
    }
    None
}
