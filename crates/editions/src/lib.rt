// The two editions of a listing, line by line: addresses that count up, or labels before the words they mean.
// What is wrong with a line, where it jumps, and what a move from one edition to the other tells of a text.
#![tactic(auto)]

ghost use Rattle.std.specs.Prelude.{◌≡◌, true, [], ◌≤◌, ◌<◌, length, get_or};
ghost use Rattle.text.specs.Cut.{tab, cut, fields_after, row_at};
ghost use Rattle.names.specs.Names.{row_named};
ghost use Rattle.editions.specs.Editions.{jumps};
ghost use Rattle.editions.specs.Moves.{refused_at};
ghost use Rattle.editions.specs.Told.{final_from, nowhere, TellsOne, room_behind, taken, last_label, has_target, Finds, KindOf, found_two, plain_two, TellsTwo, TellsRow, GlancesOne, GlancesTwo};

use fields::read_numbers;
use instruction::Body;
use label::is_label;
use listing_reader::ReadBack;
use listing_reader::line::{field_count, line_shape};
use names::named;
use text::{find, number_from, same};

// What is told of a text: 0 and how many bytes it moves to, or the number of a refusal and its line.
#[derive(Clone, Copy)]
pub struct Moved {
    pub number: u64,
    pub line: u64,
    pub size: u64,
}

impl Moved {
    // A target past the last word.
    pub const PAST: u64 = 21;

    pub fn refused(number: u64, line: u64) -> Moved
        ensures { result ≡ refused_at number line }
    {
        Moved {
            number,
            line,
            size: 0,
        }
    }
}

// Room for a text that is written whole or not at all: one more than what is left of it, and 0 where what is asked for does not fit.
#[derive(Clone, Copy)]
pub struct Room {
    pub left: usize,
}

impl Room {
    // In a buffer of this size, behind its first bytes.
    pub fn behind(size: usize, head: usize) -> Room
        requires { 0 < head }
        ensures { result ≡ room_behind size head }
    {
        if size < head {
            return Room { left: 0 };
        }
        Room {
            left: size - head + 1,
        }
    }

    // With so much more in it.
    pub fn take(self, more: usize) -> Room
        ensures { result ≡ taken more self }
    {
        Room {
            left: self.left.saturating_sub(more),
        }
    }
}

// Whether the name in a row of the table is that of a jump, which goes to a label.
pub fn is_jump(row: u64) -> bool
    ensures { result ≡ jumps row }
{
    (row == Body::REPEAT) | (row == Body::GOTO) | (row == Body::CALL)
}

// Whether a name is that of a jump.
fn names_jump(name: &[u8]) -> bool
    ensures { result ≡ jumps (row_named name.now) }
{
    match named(name) {
        Some(row) => is_jump(row),
        None => false,
    }
}

// Where the last field of a line starts.
pub fn last_field(line: &[u8]) -> usize
    ensures { result ≡ final_from line.now }
{
    for i in (0..line.len()).rev() {
        if line[i] == b'\t' {
            return i + 1;
        }
    }
    0
}

// A line of edition 1: what is wrong with it, or its target and where its name starts.
#[derive(Clone, Copy)]
pub struct LineOne {
    pub number: u64,
    pub target: u64,
    pub from: usize,
}

impl LineOne {
    // The target of a line that does not jump.
    pub const NOWHERE: u64 = u64::MAX;

    pub fn refused(number: u64) -> LineOne
        ensures { result ≡ record { number = number; target = nowhere; from = 0 } }
    {
        LineOne {
            number,
            target: LineOne::NOWHERE,
            from: 0,
        }
    }
}

// The line of the word at address a, of n.
pub fn line_one(line: &[u8], a: u64, n: u64) -> LineOne
    ensures { TellsOne n a (cut tab line.now) result }
{
    let mut values = [0u64; ReadBack::FIELDS];
    let shape = line_shape(line, a, &mut values);
    if shape.number != 0 {
        return LineOne::refused(shape.number);
    }
    if !is_jump(shape.row) {
        return LineOne {
            number: 0,
            target: LineOne::NOWHERE,
            from: shape.from,
        };
    }
    let target = values[2];
    if n <= target {
        return LineOne::refused(Moved::PAST);
    }
    LineOne {
        number: 0,
        target,
        from: shape.from,
    }
}

// A line of edition 1 that is known to be well, at a glance: whether it has a target, and where its name starts.
pub fn glance_one(line: &[u8]) -> LineOne
    ensures { GlancesOne (cut tab line.now) result }
{
    let end = find(line, 0, b'\t');
    if line.len() <= end {
        return LineOne::refused(ReadBack::NO_LINE);
    }
    let from = end + 1;
    let stop = find(line, from, b'\t');
    if names_jump(&line[from..stop]) {
        return LineOne {
            number: 0,
            target: 0,
            from,
        };
    }
    LineOne {
        number: 0,
        target: LineOne::NOWHERE,
        from,
    }
}

// Whether a line of edition 2 is a label line, and where its first field ends.
#[derive(Clone, Copy)]
pub struct Kind {
    pub label: bool,
    pub end: usize,
}

pub fn kind_of(line: &[u8]) -> Kind
    ensures { KindOf line.now result }
{
    let end = find(line, 0, b'\t');
    let label = same(&line[..end], b"label");
    Kind { label, end }
}

// Where the label starts that is all that stands behind a field; 0 where it is no label.
pub fn label_from(line: &[u8], end: usize) -> usize
    requires { end ≤ length line.now }
    ensures { Finds (last_label (fields_after end line.now)) (get_or (fields_after end line.now) 0 []) line.now result }
{
    if line.len() <= end {
        return 0;
    }
    let from = end + 1;
    if is_label(&line[from..]) {
        return from;
    }
    0
}

// Where the target starts that stands behind engine select and write flag; 0 where these three are not what stands there.
fn target_from(line: &[u8], end: usize) -> usize
    requires { end ≤ length line.now }
    ensures { Finds (has_target (fields_after end line.now)) (get_or (fields_after end line.now) 2 []) line.now result }
{
    if line.len() <= end {
        return 0;
    }
    let Some(engine) = number_from(line, end + 1) else {
        return 0;
    };
    if line.len() <= engine.end {
        return 0;
    }
    let Some(write) = number_from(line, engine.end + 1) else {
        return 0;
    };
    label_from(line, write.end)
}

// A line of edition 2: what is wrong with its shape, whether it is a label line or a jump, and then where its label starts.
#[derive(Clone, Copy)]
pub struct LineTwo {
    pub number: u64,
    pub label: bool,
    pub jump: bool,
    pub from: usize,
}

impl LineTwo {
    // A label line, or a jump, whose label starts at a place; 0 is none.
    fn found(label: bool, from: usize) -> LineTwo
        ensures { result ≡ found_two label from }
    {
        if from == 0 {
            return LineTwo {
                number: ReadBack::NO_LINE,
                label,
                jump: !label,
                from,
            };
        }
        LineTwo {
            number: 0,
            label,
            jump: !label,
            from,
        }
    }

    fn plain(number: u64) -> LineTwo
        ensures { result ≡ plain_two number }
    {
        LineTwo {
            number,
            label: false,
            jump: false,
            from: 0,
        }
    }
}

// A line with its line feed.
pub fn line_two(line: &[u8]) -> LineTwo
    ensures { TellsTwo true line.now result }
{
    let kind = kind_of(line);
    let end = kind.end;
    if kind.label {
        let from = label_from(line, end);
        return LineTwo::found(true, from);
    }
    let Some(row) = named(&line[..end]) else {
        return LineTwo::plain(ReadBack::NO_NAME);
    };
    if is_jump(row) {
        let from = target_from(line, end);
        return LineTwo::found(false, from);
    }
    let mut values = [0u64; ReadBack::FIELDS];
    if !read_numbers(line, end, &mut values[..field_count(row)]) {
        return LineTwo::plain(ReadBack::NO_LINE);
    }
    LineTwo::plain(0)
}

// A line that is known to have its shape, at a glance: whether it is a label line or a jump, and then where its last field starts.
pub fn glance_two(line: &[u8]) -> LineTwo
    ensures { GlancesTwo line.now result }
{
    let kind = kind_of(line);
    let end = kind.end;
    if kind.label {
        return LineTwo {
            number: 0,
            label: true,
            jump: false,
            from: 0,
        };
    }
    if names_jump(&line[..end]) {
        return LineTwo {
            number: 0,
            label: false,
            jump: true,
            from: last_field(line),
        };
    }
    LineTwo::plain(0)
}

// The line from a place to its end.
pub fn row_two(text: &[u8], at: usize, end: usize) -> LineTwo
    requires { (at ≤ end) × (end ≤ length text.now) }
    ensures { TellsRow (row_at text.now at end) result }
{
    let told = line_two(&text[at..end]);
    if text.len() <= end {
        return LineTwo {
            number: ReadBack::NO_LINE,
            label: told.label,
            jump: told.jump,
            from: told.from,
        };
    }
    told
}
