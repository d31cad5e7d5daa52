// The sequence: its bounds, each named once, the input numbers, and where a word may stand.
// Check and run judge by what stands here, so that both mean the same.
#![tactic(auto)]

ghost use Rattle.std.specs.Prelude.{◌≡◌, not, ◌+◌, eqb, leb};
ghost use Rattle.instruction.specs.Form.{told};
ghost use Rattle.sequence.specs.Numbers.{input_number, input_numbered, input_told_apart, place_number, place_numbered, place_told_apart, fault_number, fault_numbered, fault_told_apart};
ghost use Rattle.sequence.specs.Bounds.{lengths_refused};
ghost use Rattle.sequence.specs.Placing.{is_engine, out_of_wave, placing_of};

use instruction::{Body, EngineOp, Numbered, QuadSamples, WaveformFields, WordAddress};

// What an input is refused for before a word is read.
#[derive(Clone, Copy, PartialEq, Eq)]
pub enum BadInput {
    NoWords,
    TooManyWords,
    TooMuchWave,
    // Of a check.
    ShortMarks,
    // Of a run.
    TooMuchBudget,
}

impl Numbered for BadInput {
    ghost number_of = { input_number };

    ghost numbered = { input_numbered };

    ghost told_apart = { input_told_apart };

    fn number(self) -> u64 {
        match self {
            BadInput::NoWords => 1,
            BadInput::TooManyWords => 2,
            BadInput::TooMuchWave => 3,
            BadInput::ShortMarks => 4,
            BadInput::TooMuchBudget => 5,
        }
    }
}

// What a word that has its form is refused for where it stands.
#[derive(Clone, Copy, PartialEq, Eq)]
pub enum Misplaced {
    OutOfWave,
    OutOfWords,
    BrokenGroup,
}

impl Numbered for Misplaced {
    ghost number_of = { place_number };

    ghost numbered = { place_numbered };

    ghost told_apart = { place_told_apart };

    // A call of its own, made where the steps end: measured, each step is quicker for it.
    #[cold]
    #[inline(never)]
    fn number(self) -> u64 {
        match self {
            Misplaced::OutOfWave => 20,
            Misplaced::OutOfWords => 21,
            Misplaced::BrokenGroup => 22,
        }
    }
}

// What the flow of a sequence comes to that has no next word.
#[derive(Clone, Copy, PartialEq, Eq)]
pub enum Fault {
    PastTheEnd,
    StackFull,
    StackEmpty,
}

impl Fault {
    // No number of a fault is lower.
    pub const FIRST: u64 = 30;
}

impl Numbered for Fault {
    ghost number_of = { fault_number };

    ghost numbered = { fault_numbered };

    ghost told_apart = { fault_told_apart };

    // A call of its own, made where the steps end: measured, each step is quicker for it.
    #[cold]
    #[inline(never)]
    fn number(self) -> u64 {
        match self {
            Fault::PastTheEnd => Fault::FIRST,
            Fault::StackFull => 31,
            Fault::StackEmpty => 32,
        }
    }
}

#[derive(Clone, Copy)]
pub struct Sequence;

impl Sequence {
    pub const WORDS: u64 = 65536;

    // Waveform memory.
    pub const WAVE: QuadSamples = QuadSamples(16777216);

    // H1: entries of the stack.
    pub const STACK: u64 = 16;

    // Steps of a run.
    pub const BUDGET: u64 = 1000000;

    // Words of a group.
    pub const GROUP: u64 = 8;

    // 1, 2 or 3, for n words and a waveform memory.
    pub fn lengths_refused(n: u64, wave: QuadSamples) -> Result<(), BadInput>
        ensures { told input_number result ≡ lengths_refused n wave.0 }
    {
        if n == 0 {
            return Err(BadInput::NoWords);
        }
        if Sequence::WORDS < n {
            return Err(BadInput::TooManyWords);
        }
        if Sequence::WAVE.0 < wave.0 {
            return Err(BadInput::TooMuchWave);
        }
        Ok(())
    }

    pub fn is_engine(body: Body) -> bool
        ensures { result ≡ is_engine body }
    {
        match body {
            Body::Waveform(_) => true,
            Body::Marker(_) => true,
            Body::Wait => false,
            Body::LoadRepeat(_) => false,
            Body::Repeat(_) => false,
            Body::Cmp(_) => false,
            Body::Goto(_) => false,
            Body::Call(_) => false,
            Body::Return(_) => false,
            Body::Sync => false,
            Body::Modulator(_) => true,
            Body::LoadCmp(_) => false,
            Body::Prefetch(_) => false,
            Body::Noop => false,
        }
    }

    fn reaches_past(wave: QuadSamples, address: QuadSamples, count: QuadSamples) -> bool
        ensures { result ≡ not (leb (address.0 + count.0) wave.0) }
    {
        if wave.0 < address.0 {
            return true;
        }
        wave.0 - address.0 < count.0
    }

    fn out_of_wave(wave: QuadSamples, f: WaveformFields) -> bool
        ensures { result ≡ out_of_wave wave.0 f }
    {
        let op = f.op;
        let ta = f.ta;
        let address = f.address;
        if (op == EngineOp::PLAY) & (ta == 0) {
            let count = f.count;
            return Sequence::reaches_past(wave, address, count);
        }
        ((op == EngineOp::PLAY) | (op == EngineOp::PREFETCH)) & !(address.0 < wave.0)
    }

    fn out_of_words(n: u64, a: WordAddress) -> bool
        ensures { result ≡ leb n a.0 }
    {
        n <= a.0
    }

    fn is_misplaced(wave: QuadSamples, n: u64, body: Body) -> bool
        ensures { result ≡ not (eqb (placing_of wave.0 n body) 0) }
    {
        match body {
            Body::Waveform(f) => Sequence::out_of_wave(wave, f),
            Body::Marker(_) => false,
            Body::Wait => false,
            Body::LoadRepeat(_) => false,
            Body::Repeat(a) => Sequence::out_of_words(n, a),
            Body::Cmp(_) => false,
            Body::Goto(a) => Sequence::out_of_words(n, a),
            Body::Call(a) => Sequence::out_of_words(n, a),
            Body::Return(_) => false,
            Body::Sync => false,
            Body::Modulator(_) => false,
            Body::LoadCmp(_) => false,
            Body::Prefetch(a) => Sequence::out_of_words(n, a),
            Body::Noop => false,
        }
    }

    // 20 or 21, with a waveform memory and n words. Whether there is one is asked for by itself: measured, the run and the check then go by
    // the name of a word once, and not twice.
    pub fn placing(wave: QuadSamples, n: u64, body: Body) -> Result<(), Misplaced>
        ensures { told place_number result ≡ placing_of wave.0 n body }
    {
        if !Sequence::is_misplaced(wave, n, body) {
            return Ok(());
        }
        match body {
            Body::Waveform(_) => Err(Misplaced::OutOfWave),
            _ => Err(Misplaced::OutOfWords),
        }
    }
}
