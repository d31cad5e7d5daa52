// The C interface: what `include/aps2.h` declares. Each function takes its buffers apart and calls the library.
// Nothing is kept, nothing is allocated, and nothing is read past what is lent.
#![tactic(auto)]

ghost use Rattle.std.specs.Prelude.{◌≡◌, false, length};
ghost use Rattle.reader.specs.Reading.{reading_of};
ghost use Rattle.jumps.specs.State.{Fixed, fixed_in};
ghost use Rattle.rehearsal.specs.Run.{rehearse};
ghost use Rattle.paused.specs.Pause.{setting_of};
ghost use Rattle.paused.specs.declared.Pace.{Pace};
ghost use Rattle.listing.specs.Listing.{listing_of, Listed};
ghost use Rattle.aps2_c.specs.Firmware.{rules_of};
ghost use Rattle.editions.specs.Moves.{lines_judged, labelled, labels_judged, addressed};
ghost use Rattle.aps2_c.specs.Answer.{flat_of, Ran, Checked, ListingRead, BlockWritten, TextMoved};
ghost use Rattle.aps2_c.specs.Calls.{condition_refused, called_on, CallMade};
ghost use Rattle.aps2_c.specs.Fields.{numbers_of, fields_of, Read, is_name, filled_past, values_asked, wish_of, Wrote};

use block::block;
use buffer::lay;
use instruction::{Body, Instruction, Numbered, QuadSamples, Refusal, Rules};
use laid::fields::body_of;
use laid::widths::header_fits;
use listing::list;
use listing_reader::read_listing;
use paused::{Asked, BadCall, Pace, Paused, advance};
use reader::read;
use rehearsal::{Answer, input_refused, run};
use state_c::{Numbers, held_in, held_numbers, lay_state};
use to_addresses::to_addresses;
use to_labels::to_labels;
use verdict::check;
use writer::{Written, write};

// How many numbers C lends for the fields of an instruction, and for the answer of a run.
#[derive(Clone, Copy)]
pub struct Lent;

impl Lent {
    pub const FIELDS: usize = 8;

    // The end, the numbers of the state, and the bit.
    pub const ANSWER: usize = 1 + Numbers::STATE + 1;
}

// The firmware that a number of C's means: 0 is current, anything else is older.
fn rules_of(firmware: u64) -> Rules
    ensures { result ≡ rules_of firmware }
{
    if firmware == 0 {
        return Rules::CURRENT;
    }
    Rules::OLDER
}

fn fields_of(i: Instruction) -> [u64; Lent::FIELDS]
    ensures { result ≡ fields_of i }
{
    let body = i.body;
    let e = i.engine;
    let w = i.write;
    match body {
        Body::Waveform(f) => [Body::WAVEFORM, e, w, f.op, f.ta, f.count.0, f.address.0, 0],
        Body::Marker(f) => [
            Body::MARKER,
            e,
            w,
            f.op,
            f.transition,
            f.state,
            f.count.0,
            0,
        ],
        Body::Wait => [Body::WAIT, e, w, 0, 0, 0, 0, 0],
        Body::LoadRepeat(n) => [Body::LOAD_REPEAT, e, w, n.0, 0, 0, 0, 0],
        Body::Repeat(a) => [Body::REPEAT, e, w, a.0, 0, 0, 0, 0],
        Body::Cmp(x) => [Body::CMP, e, w, x.code, x.mask, 0, 0, 0],
        Body::Goto(a) => [Body::GOTO, e, w, a.0, 0, 0, 0, 0],
        Body::Call(a) => [Body::CALL, e, w, a.0, 0, 0, 0, 0],
        Body::Return(p) => [Body::RETURN, e, w, p.0, 0, 0, 0, 0],
        Body::Sync => [Body::SYNC, e, w, 0, 0, 0, 0, 0],
        Body::Modulator(f) => [Body::MODULATOR, e, w, f.op, f.nco, f.payload, 0, 0],
        Body::LoadCmp(p) => [Body::LOAD_CMP, e, w, p.0, 0, 0, 0, 0],
        Body::Prefetch(a) => [Body::PREFETCH, e, w, a.0, 0, 0, 0, 0],
        Body::Noop => [Body::NOOP, e, w, 0, 0, 0, 0, 0],
    }
}

#[unsafe(no_mangle)]
pub extern "C" fn aps2_read(
    word: u64,
    firmware: u64,
    fields: &mut [u64; Lent::FIELDS],
    bit: &mut [u64; 1],
) -> u64
    ensures { Read (reading_of (rules_of firmware) word) result fields.new bit.new }
{
    *bit = [0];
    let reading = read(word, rules_of(firmware));
    match reading {
        Ok(i) => {
            *fields = fields_of(i);
            0
        }
        Err(r) => {
            *fields = [0; Lent::FIELDS];
            *bit = [r.bit];
            r.number
        }
    }
}

// How many of the table's fields a name has.
fn shown_count(body: Body) -> u64
    ensures { result ≡ length (numbers_of body) }
{
    match body {
        Body::Waveform(_) => 4,
        Body::Marker(_) => 4,
        Body::Wait => 0,
        Body::LoadRepeat(_) => 1,
        Body::Repeat(_) => 1,
        Body::Cmp(_) => 2,
        Body::Goto(_) => 1,
        Body::Call(_) => 1,
        Body::Return(_) => 1,
        Body::Sync => 0,
        Body::Modulator(_) => 3,
        Body::LoadCmp(_) => 1,
        Body::Prefetch(_) => 1,
        Body::Noop => 0,
    }
}

fn filled_past(n: u64, fields: &[u64; Lent::FIELDS]) -> bool
    ensures { result ≡ filled_past false n 0 (values_asked fields.now) }
{
    (n <= 0) & (fields[3] != 0)
        | (n <= 1) & (fields[4] != 0)
        | (n <= 2) & (fields[5] != 0)
        | (n <= 3) & (fields[6] != 0)
        | (n <= 4) & (fields[7] != 0)
}

fn is_name(code: u64) -> bool
    ensures { result ≡ is_name code }
{
    (code <= Body::PREFETCH) | (code == Body::NOOP)
}

fn wish(fields: &[u64; Lent::FIELDS], rules: Rules) -> Written
    ensures { result ≡ wish_of rules fields.now }
{
    let code = fields[0];
    let engine = fields[1];
    let flag = fields[2];
    let body = body_of(code, fields[3], fields[4], fields[5], fields[6]);
    if filled_past(shown_count(body), fields) {
        return Written {
            number: Refusal::TOO_WIDE,
            word: 0,
        };
    }
    if is_name(code) {
        let i = Instruction {
            engine,
            write: flag,
            body,
        };
        return write(i, rules);
    }
    if header_fits(engine, flag) {
        return Written {
            number: Refusal::NO_SUCH_CODE,
            word: 0,
        };
    }
    Written {
        number: Refusal::TOO_WIDE,
        word: 0,
    }
}

#[unsafe(no_mangle)]
pub extern "C" fn aps2_write(
    fields: &[u64; Lent::FIELDS],
    firmware: u64,
    word: &mut [u64; 1],
) -> u64
    ensures { Wrote (wish_of (rules_of firmware) fields.now) result word.new }
{
    let written = wish(fields, rules_of(firmware));
    *word = [written.word];
    written.number
}

fn flat(a: Answer) -> [u64; Lent::ANSWER]
    ensures { result ≡ flat_of a }
{
    let state = a.state;
    let first = [a.end.number];
    let last = [a.end.bit];
    let mut out = [0u64; Lent::ANSWER];
    let mut at = lay(&mut out, 0, &first);
    at = lay_state(&mut out, at, state);
    lay(&mut out, at, &last);
    out
}

#[unsafe(no_mangle)]
pub extern "C" fn aps2_check(
    words: &[u64],
    wave: u64,
    firmware: u64,
    marks: &mut [u64],
    place: &mut [u64; 2],
) -> u64
    ensures { Checked (rules_of firmware) wave words.now marks.old marks.new place.new result }
{
    let v = check(words, QuadSamples(wave), rules_of(firmware), marks);
    *place = [v.place.0, v.refusal.bit];
    v.refusal.number
}

#[unsafe(no_mangle)]
pub extern "C" fn aps2_run(
    words: &[u64],
    wave: u64,
    firmware: u64,
    messages: &[u8],
    triggers: u32,
    trace: &mut [u64],
    budget: u64,
    answer: &mut [u64; Lent::ANSWER],
) -> u64
    ensures { Ran (rehearse budget (fixed_in words.now messages.now trace.old (record { wave = record { 0 = wave }; rules = rules_of firmware; triggers = triggers })))
        trace.old trace.new answer.new result }
{
    let a = run(
        words,
        QuadSamples(wave),
        rules_of(firmware),
        messages,
        triggers,
        trace,
        budget,
    );
    *answer = flat(a);
    a.end.number
}

fn asked_of(wave: u64, firmware: u64, triggers: u32, budget: u64) -> Asked
    ensures { result ≡ record { wave = record { 0 = wave }; rules = rules_of firmware; triggers = triggers; budget = budget } }
{
    Asked {
        wave: QuadSamples(wave),
        rules: rules_of(firmware),
        triggers,
        budget,
    }
}

// Of a condition that is none: 1, 2, 3, 5, then 70.
fn condition_refused(n: u64, wave: u64, budget: u64) -> u64
    ensures { (e : Fixed) → length e.words ≡ n → e.setting.wave.0 ≡ wave → result ≡ condition_refused budget e }
{
    match input_refused(n, QuadSamples(wave), budget) {
        Ok(()) => BadCall::NoSuchState.number(),
        Err(bad) => bad.number(),
    }
}

// A call on the state that C holds: refused for a condition that is none, or made on the state that the numbers are.
fn call(
    words: &[u64],
    messages: &[u8],
    trace: &mut [u64],
    state: &mut [u64; Numbers::HELD],
    bit: &mut [u64; 1],
    asked: Asked,
    pace: Pace,
) -> u64
    ensures { CallMade (called_on pace asked.budget (fixed_in words.now messages.now trace.old (setting_of asked)) state.old)
        state.old trace.old trace.new state.new bit.new result }
{
    if Numbers::CONDITIONS <= state[Numbers::CONDITION] {
        *bit = [0];
        return condition_refused(words.len() as u64, asked.wave.0, asked.budget);
    }
    let r = advance(words, messages, trace, held_in(state), asked, pace);
    *bit = [r.end.bit];
    let paused = r.paused;
    *state = held_numbers(paused);
    r.end.number
}

#[unsafe(no_mangle)]
pub extern "C" fn aps2_step(
    words: &[u64],
    wave: u64,
    firmware: u64,
    messages: &[u8],
    triggers: u32,
    trace: &mut [u64],
    budget: u64,
    state: &mut [u64; Numbers::HELD],
    bit: &mut [u64; 1],
) -> u64
    ensures { CallMade (called_on Pace.Single budget (fixed_in words.now messages.now trace.old (record { wave = record { 0 = wave }; rules = rules_of firmware; triggers = triggers })) state.old)
        state.old trace.old trace.new state.new bit.new result }
{
    let asked = asked_of(wave, firmware, triggers, budget);
    call(words, messages, trace, state, bit, asked, Pace::Single)
}

#[unsafe(no_mangle)]
pub extern "C" fn aps2_go_on(
    words: &[u64],
    wave: u64,
    firmware: u64,
    messages: &[u8],
    triggers: u32,
    trace: &mut [u64],
    budget: u64,
    state: &mut [u64; Numbers::HELD],
    bit: &mut [u64; 1],
) -> u64
    ensures { CallMade (called_on Pace.On budget (fixed_in words.now messages.now trace.old (record { wave = record { 0 = wave }; rules = rules_of firmware; triggers = triggers })) state.old)
        state.old trace.old trace.new state.new bit.new result }
{
    let asked = asked_of(wave, firmware, triggers, budget);
    call(words, messages, trace, state, bit, asked, Pace::On)
}

#[unsafe(no_mangle)]
pub extern "C" fn aps2_listing(bytes: &[u8], firmware: u64, out: &mut [u8]) -> usize
    ensures { Listed (listing_of (rules_of firmware) bytes.now) out.old out.new result }
{
    list(bytes, rules_of(firmware), out)
}

#[unsafe(no_mangle)]
pub extern "C" fn aps2_read_listing(
    text: &[u8],
    firmware: u64,
    words: &mut [u64],
    told: &mut [u64; 2],
) -> u64
    ensures { ListingRead (rules_of firmware) text.now words.old words.new told.new result }
{
    let read = read_listing(text, rules_of(firmware), words);
    *told = [read.line, read.count];
    read.number
}

#[unsafe(no_mangle)]
pub extern "C" fn aps2_block(text: &[u8], wave: u64, words: &mut [u64], told: &mut [u64; 2]) -> u64
    ensures { BlockWritten wave text.now words.old words.new told.new result }
{
    match block(text, QuadSamples(wave), words) {
        Ok(count) => {
            *told = [0, count];
            0
        }
        Err(refused) => {
            *told = [refused.line, 0];
            refused.number
        }
    }
}

#[unsafe(no_mangle)]
pub extern "C" fn aps2_to_labels(text: &[u8], out: &mut [u8], told: &mut [u64; 2]) -> u64
    ensures { TextMoved (lines_judged text.now) (labelled text.now) out.old out.new told.new result }
{
    let moved = to_labels(text, out);
    *told = [moved.line, moved.size];
    moved.number
}

#[unsafe(no_mangle)]
pub extern "C" fn aps2_to_addresses(text: &[u8], out: &mut [u8], told: &mut [u64; 2]) -> u64
    ensures { TextMoved (labels_judged text.now) (addressed text.now) out.old out.new told.new result }
{
    let moved = to_addresses(text, out);
    *told = [moved.line, moved.size];
    moved.number
}
