// A block text as words: for physicists who write what is played and how often, and leave calls and counters to us.
// Every line is judged before the first word is written, so that the buffer has all words or is as it was.
#![tactic(auto)]

ghost use Rattle.std.specs.Prelude.{◌≡◌, true, false, suc, ◌≤◌, ◌<◌, ◌^◌, length};
ghost use Rattle.nest.specs.Block.{nest_limit};
ghost use Rattle.nest.specs.Layout.{sum_of, starts_from, laid_in};
ghost use Rattle.text.specs.Told.{refused_at};
ghost use Rattle.block.specs.Text.{block_of, fitted, Translates};
ghost use Rattle.block.specs.Steps.{is_end, words_for, Judges, ItemAsks, Moved, BlockAsks, Laid, CanStart};

use block_line::{level_after, line_number, take_line};
use instruction::{Numbered, QuadSamples};
use nest::{Line, Nest, close_repeat, open_repeat, put_park, put_pulse, put_sync};
use sequence::{BadInput, Sequence};
use text::Refused;

// So many words, or 54 or 55.
fn fit(size: usize, room: usize) -> Result<u64, Refused>
    ensures { result ≡ fitted room size }
{
    let count = size as u64;
    if Sequence::WORDS < count {
        return refused(Nest::TOO_MANY_WORDS, 0);
    }
    if room < size {
        return refused(Nest::NO_ROOM, 0);
    }
    Ok(count)
}

fn refused(number: u64, line: u64) -> Result<u64, Refused>
    ensures { result ≡ refused_at number line }
{
    Err(Refused { number, line })
}

fn is_end(line: Line) -> bool
    ensures { result ≡ is_end line }
{
    matches!(line, Line::End)
}

// How many words a line has at its level.
fn words_for(line: Line) -> usize
    ensures { result ≡ words_for line }
{
    match line {
        Line::Pulse(_) => 1,
        Line::Repeat(_) => 3,
        Line::End => 1,
        Line::Unshaped => 0,
    }
}

// The first bad line, or how many words each level has; none is told of yet.
fn judge(text: &[u8], wave: QuadSamples, sizes: &mut [usize; Nest::LEVELS]) -> Result<u64, Refused>
    requires { (length sizes.old ≡ suc nest_limit) × (sum_of sizes.old ≤ 2) }
    ensures { Judges wave.0 text.now sizes.old sizes.new result }
{
    let mut at: usize = 0;
    let mut row: u64 = 1;
    let mut level: usize = 0;
    // No index is counted: where the next line stands is found on the way.
    while at < text.len() {
        let taken = take_line(text, at);
        let line = taken.line;
        let number = line_number(line, level, wave);
        if number != 0 {
            return refused(number, row);
        }
        sizes[level] += words_for(line);
        level = level_after(line, level);
        at = taken.next;
        row += 1;
    }
    if level != 0 {
        return refused(Nest::UNPAIRED, row);
    }
    Ok(0)
}

// One level behind the other: where each begins, and how many words there are.
fn stack_levels(heads: &mut [usize; Nest::LEVELS]) -> usize
    requires { (length heads.old ≡ suc nest_limit) × (sum_of heads.old < 2 ^ 64) }
    ensures { (heads.new ≡ starts_from 0 heads.old) × (result ≡ sum_of heads.old) }
{
    let mut place: usize = 0;
    for head in heads.iter_mut() {
        let size = *head;
        *head = place;
        place += size;
    }
    place
}

// One item: its words go to the next places of its level, and the body of a repeat one level further in.
#[cycle(lay_block_lay_item)]
fn lay_item(
    text: &[u8],
    line: Line,
    next: usize,
    level: usize,
    heads: &mut [usize; Nest::LEVELS],
    words: &mut [u64],
) -> usize
    requires { ItemAsks text.now line next level heads.old words.old }
    ensures { Moved text.now line next level heads.old words.old result heads.new words.new }
{
    match line {
        Line::Pulse(f) => {
            put_pulse(f, level, heads, words);
            next
        }
        Line::Repeat(n) => {
            open_repeat(n, level, heads, words);
            let after = lay_block(text, next, level + 1, heads, words);
            close_repeat(level + 1, heads, words);
            after
        }
        Line::End => next,
        Line::Unshaped => next,
    }
}

// A block from a line on, at its level; then the place behind its end.
#[cycle(lay_block_lay_item)]
fn lay_block(
    text: &[u8],
    at: usize,
    level: usize,
    heads: &mut [usize; Nest::LEVELS],
    words: &mut [u64],
) -> usize
    requires { BlockAsks text.now at level heads.old words.old }
    ensures { Laid text.now at level heads.old words.old result heads.new words.new }
{
    let mut i = at;
    // No index is counted: where the next line stands is found on the way.
    while i < text.len() {
        let taken = take_line(text, i);
        let line = taken.line;
        let next = taken.next;
        if is_end(line) {
            return next;
        }
        i = lay_item(text, line, next, level, heads, words);
    }
    i
}

// SYNC, the block, and the park.
fn lay(text: &[u8], heads: &mut [usize; Nest::LEVELS], words: &mut [u64])
    requires { CanStart text.now heads.old words.old }
    ensures { words.new ≡ (laid_in (block_of text.now) words.old).words }
{
    put_sync(heads, words);
    lay_block(text, 0, 0, heads, words);
    put_park(heads, words);
}

// A block text as words: all of them from the front of the buffer and how many, or a refusal and the buffer as it was.
pub fn block(text: &[u8], wave: QuadSamples, words: &mut [u64]) -> Result<u64, Refused>
    ensures { Translates wave.0 text.now words.old words.new result }
{
    if Sequence::WAVE.0 < wave.0 {
        return refused(BadInput::TooMuchWave.number(), 0);
    }
    let mut heads = [0usize; Nest::LEVELS];
    heads[0] = 2;
    judge(text, wave, &mut heads)?;
    let size = stack_levels(&mut heads);
    let count = fit(size, words.len())?;
    lay(text, &mut heads, words);
    Ok(count)
}
