// A block of plays, holds and counted repeats, and the words that it becomes: for physicists, who write nests, not jumps.
// A word goes to the next place of its level: the main line is level 0, and the body of a repeat is one level further in.
#![tactic(auto)]

ghost use Rattle.std.specs.Prelude.{◌≡◌, [], ◌∷◌, suc, ◌+◌, ◌≤◌, ◌<◌, length, get_or};
ghost use Rattle.instruction.specs.Word.{word_of};
ghost use Rattle.nest.specs.Block.{nest_limit, high};
ghost use Rattle.nest.specs.Layout.{sheet, put, opening, closing, parked};

use instruction::{Body, Ignored, Instruction, Repeats, WaveformFields, WordAddress};
use laid::word::word_of;
use sequence::Sequence;

#[derive(Clone, Copy)]
pub struct Nest;

impl Nest {
    // Passes of a repeat.
    pub const REPEATS: u64 = 65536;

    // Repeats around a line: each takes an entry of the stack.
    pub const DEEPEST: usize = Sequence::STACK as usize;

    // The main line, and one more for each repeat around a line.
    pub const LEVELS: usize = Nest::DEEPEST + 1;

    // Engine select of every word, and the write flag: high on SYNC, play and hold only.
    const ENGINE: u64 = 0;

    const HIGH: u64 = 1;

    const LOW: u64 = 0;

    pub const UNSHAPED: u64 = 50;

    pub const NO_COUNT: u64 = 51;

    pub const UNPAIRED: u64 = 52;

    pub const TOO_DEEP: u64 = 53;

    pub const TOO_MANY_WORDS: u64 = 54;

    pub const NO_ROOM: u64 = 55;
}

// A line of a block text, as it was written.
#[derive(Clone, Copy)]
pub enum Line {
    Pulse(WaveformFields),
    Repeat(u64),
    End,
    Unshaped,
}

// The word of a body, with its flag.
#[inline(always)]
fn word(body: Body, write: u64) -> u64
    ensures { result ≡ word_of (record { engine = 0; write = write; body = body }) }
{
    word_of(Instruction {
        engine: Nest::ENGINE,
        write,
        body,
    })
}

// A word, at the next place of a level.
fn put_one(word: u64, level: usize, heads: &mut [usize; Nest::LEVELS], words: &mut [u64])
    requires { (level ≤ nest_limit) × (get_or heads.old level 0 < length words.old) }
    ensures { (i : Instruction) → word ≡ word_of i → sheet heads.new words.new ≡ put level (i ∷ []) (sheet heads.old words.old) }
{
    let here = heads[level];
    words[here] = word;
    heads[level] = here + 1;
}

pub fn put_sync(heads: &mut [usize; Nest::LEVELS], words: &mut [u64])
    requires { get_or heads.old 0 0 < length words.old }
    ensures { sheet heads.new words.new ≡ put 0 (high Body.Sync ∷ []) (sheet heads.old words.old) }
{
    put_one(word(Body::Sync, Nest::HIGH), 0, heads, words);
}

// A GOTO to itself.
pub fn put_park(heads: &mut [usize; Nest::LEVELS], words: &mut [u64])
    requires { get_or heads.old 0 0 < length words.old }
    ensures { sheet heads.new words.new ≡ parked (sheet heads.old words.old) }
{
    let here = WordAddress(heads[0] as u64);
    put_one(word(Body::Goto(here), Nest::LOW), 0, heads, words);
}

pub fn put_pulse(
    f: WaveformFields,
    level: usize,
    heads: &mut [usize; Nest::LEVELS],
    words: &mut [u64],
)
    requires { (level ≤ nest_limit) × (get_or heads.old level 0 < length words.old) }
    ensures { sheet heads.new words.new ≡ put level (high (Body.Waveform f) ∷ []) (sheet heads.old words.old) }
{
    put_one(word(Body::Waveform(f), Nest::HIGH), level, heads, words);
}

// The RETURN that ends a body.
pub fn close_repeat(level: usize, heads: &mut [usize; Nest::LEVELS], words: &mut [u64])
    requires { (level ≤ nest_limit) × (get_or heads.old level 0 < length words.old) }
    ensures { sheet heads.new words.new ≡ put level closing (sheet heads.old words.old) }
{
    put_one(
        word(Body::Return(Ignored(0)), Nest::LOW),
        level,
        heads,
        words,
    );
}

// The words of a repeat in the line around it: the count, the CALL of its body, and the REPEAT onto that CALL.
pub fn open_repeat(n: u64, level: usize, heads: &mut [usize; Nest::LEVELS], words: &mut [u64])
    requires { (1 ≤ n) × (level < nest_limit) × (get_or heads.old level 0 + 3 ≤ length words.old) }
    ensures { sheet heads.new words.new ≡ put level (opening n (get_or heads.old level 0) (get_or heads.old (suc level) 0)) (sheet heads.old words.old) }
{
    let here = heads[level];
    let call = here + 1;
    let body = heads[level + 1];
    words[here] = word(Body::LoadRepeat(Repeats(n - 1)), Nest::LOW);
    words[call] = word(Body::Call(WordAddress(body as u64)), Nest::LOW);
    words[here + 2] = word(Body::Repeat(WordAddress(call as u64)), Nest::LOW);
    heads[level] = here + 3;
}
