// Dispatch: a group of words goes into the lent trace, and the six engines count what was sent to them.
// It goes out whole; whether there is room is asked before.
#![tactic(auto)]

ghost use Rattle.std.specs.Prelude.{◌≡◌, true, false, ◌++◌, ◌+◌, ◌^◌, ◌≤◌, ◌<◌, length, drop};
ghost use Rattle.instruction.specs.Bits.{pick, span};
ghost use Rattle.instruction.specs.Table.{engine_select};
ghost use Rattle.instruction.specs.Form.{plays, awaits_trigger};
ghost use Rattle.instruction.specs.Word.{spelled_by};
ghost use Rattle.dispatch.specs.Engines.{plus_one, Six, Counted};
ghost use Rattle.dispatch.specs.Counting.{count_in, share_of, share_in, Small, CountedOne};
ghost use Rattle.dispatch.specs.Trace.{Dispatched, CountedAll, CanCount, CanDispatch};

use instruction::{
    Body, EngineOp, Instruction, MarkerFields, ModulatorFields, QuadSamples, Samples,
};

// The engines that count: waveform, markers 0 to 3, modulator.
#[derive(Clone, Copy)]
pub struct Engines;

impl Engines {
    pub const COUNT: usize = 6;

    pub const WAVEFORM: u64 = 0;

    pub const FIRST_MARKER: u64 = 1;

    pub const MODULATOR: u64 = 5;

    // After the count of a play a marker puts out its transition word, one bit a sample.
    pub const TRANSITION: QuadSamples = QuadSamples(
        MarkerFields::TRANSITION.width / Samples::PER_QUAD,
    );
}

// What one word adds to the counts: to which engine, how many trigger waits, how many quad-samples; or, as WAIT does, one wait to all.
#[derive(Clone, Copy)]
pub struct Share {
    pub engine: u64,
    pub waits: u64,
    pub plays: QuadSamples,
    pub all: bool,
}

impl Share {
    fn given(test: bool, number: u64) -> u64
        ensures { result ≡ pick test number 0 }
    {
        if test { number } else { 0 }
    }

    fn of_engine(engine: u64, awaits: bool, plays: bool, count: QuadSamples) -> Share
        ensures { result ≡ share_of engine awaits plays count.0 }
    {
        Share {
            engine,
            waits: Share::given(awaits, 1),
            plays: QuadSamples(Share::given(plays, count.0)),
            all: false,
        }
    }

    // WAVEFORM and MARKER: a play lasts its count, and what its engine puts out after it.
    fn of_op(engine: u64, op: u64, count: QuadSamples, after: QuadSamples) -> Share
        requires { count.0 + after.0 ≤ 2 ^ 32 }
        ensures { result ≡ share_of engine (awaits_trigger op) (plays op) (count.0 + after.0) }
    {
        let lasts = count.0 + after.0;
        Share::of_engine(
            engine,
            op == EngineOp::WAIT_TRIGGER,
            op == EngineOp::PLAY,
            QuadSamples(lasts),
        )
    }

    fn none() -> Share
        ensures { result ≡ record { engine = 0; waits = 0; plays = record { 0 = 0 }; all = false } }
    {
        Share {
            engine: 0,
            waits: 0,
            plays: QuadSamples(0),
            all: false,
        }
    }

    fn for_all() -> Share
        ensures { result ≡ record { engine = 0; waits = 0; plays = record { 0 = 0 }; all = true } }
    {
        Share {
            engine: 0,
            waits: 0,
            plays: QuadSamples(0),
            all: true,
        }
    }

    fn of(i: Instruction) -> Share
        requires { (i.engine < span engine_select) × (count_in i.body < 2 ^ 32) }
        ensures { result ≡ share_in i }
    {
        let body = i.body;
        let marker = Engines::FIRST_MARKER + i.engine;
        match body {
            Body::Waveform(f) => Share::of_op(Engines::WAVEFORM, f.op, f.count, QuadSamples(0)),
            Body::Marker(f) => Share::of_op(marker, f.op, f.count, Engines::TRANSITION),
            Body::Wait => Share::for_all(),
            Body::LoadRepeat(_) => Share::none(),
            Body::Repeat(_) => Share::none(),
            Body::Cmp(_) => Share::none(),
            Body::Goto(_) => Share::none(),
            Body::Call(_) => Share::none(),
            Body::Return(_) => Share::none(),
            Body::Sync => Share::none(),
            Body::Modulator(f) => Share::of_engine(
                Engines::MODULATOR,
                f.op == ModulatorFields::WAIT_TRIGGER,
                f.op == ModulatorFields::MODULATE,
                QuadSamples(f.payload),
            ),
            Body::LoadCmp(_) => Share::none(),
            Body::Prefetch(_) => Share::none(),
            Body::Noop => Share::none(),
        }
    }

    fn in_word(word: u64) -> Share
        ensures { result ≡ share_in (spelled_by word) }
    {
        Share::of(Instruction::spelled_by(word))
    }
}

// WAIT: each of the six counts, one more.
fn plus_one(waits: &mut [u64; Engines::COUNT])
    requires { Six (2 ^ 32) waits.old }
    ensures { waits.new ≡ plus_one waits.old }
{
    for waited in waits.iter_mut() {
        *waited += 1;
    }
}

// The engines count what one word adds.
fn count(share: Share, waits: &mut [u64; Engines::COUNT], totals: &mut [u64; Engines::COUNT])
    requires { Counted (2 ^ 31) waits.old totals.old × Small share }
    ensures { CountedOne share waits.old totals.old waits.new totals.new }
{
    let engine = share.engine as usize;
    totals[engine] += share.plays.0;
    if share.all {
        plus_one(waits);
        return;
    }
    waits[engine] += share.waits;
}

// The words of a group, each counted in its turn.
fn write_all(
    group: &[u64],
    room: &mut [u64],
    waits: &mut [u64; Engines::COUNT],
    totals: &mut [u64; Engines::COUNT],
)
    requires { CanCount group.now waits.old totals.old × (length group.now ≤ length room.old) }
    ensures { (room.new ≡ group.now ++ drop (length group.now) room.old) × CountedAll group.now waits.old totals.old waits.new totals.new }
{
    for (i, word) in group.iter().enumerate() {
        room[i] = *word;
        count(Share::in_word(*word), waits, totals);
    }
}

// The group writer: the words of a group go out from the start of the part that is lent. Most words go out alone.
fn write_group(
    group: &[u64],
    room: &mut [u64],
    waits: &mut [u64; Engines::COUNT],
    totals: &mut [u64; Engines::COUNT],
)
    requires { CanCount group.now waits.old totals.old × (length group.now ≤ length room.old) }
    ensures { (room.new ≡ group.now ++ drop (length group.now) room.old) × CountedAll group.now waits.old totals.old waits.new totals.new }
{
    if group.len() == 1 {
        let word = group[0];
        room[0] = word;
        count(Share::in_word(word), waits, totals);
        return;
    }
    write_all(group, room, waits, totals);
}

// The dispatcher: the group goes out whole, after the last dispatched word.
// Both counts are lent apart, as `OneDispatch` speaks of them.
pub fn dispatch(
    group: &[u64],
    trace: &mut [u64],
    len: usize,
    waits: &mut [u64; Engines::COUNT],
    totals: &mut [u64; Engines::COUNT],
)
    requires { CanDispatch group.now (length trace.old) len waits.old totals.old }
    ensures { Dispatched group.now len trace.old waits.old totals.old trace.new waits.new totals.new }
{
    write_group(group, &mut trace[len..], waits, totals);
}
