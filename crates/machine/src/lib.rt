// One step of a sequence on the module's instruction set.
// The core goes by value and the arrays are lent beside it: measured, this runs as plain C does.
#![tactic(auto)]

ghost use Rattle.std.specs.Prelude.{◌≡◌, true, false, length, eqb};
ghost use Rattle.instruction.specs.Bits.{pick};
ghost use Rattle.instruction.specs.Table.{code_of};
ghost use Rattle.instruction.specs.Form.{told};
ghost use Rattle.reader.specs.Reading.{reading_of};
ghost use Rattle.sequence.specs.Numbers.{place_number};
ghost use Rattle.jumps.specs.State.{fixed_in};
ghost use Rattle.jumps.specs.Lent.{state_in, Leaves};
ghost use Rattle.jumps.specs.declared.Setting.{Setting};
ghost use Rattle.machine.specs.Step.{send_of, any_above, act_of, breaks_group, execute_of, step_of};
ghost use Rattle.machine.specs.Kept.{Outward, Sends, Ready, At, goes_out, group_refused};

use dispatch::dispatch;
use instruction::{Body, Instruction, QuadSamples, Refusal, Rules};
use jumps::{Arrays, Core, Halt, Setting, Stepped, call, message, ret};
use reader::{coarse_of, finer, instruction_in};
use sequence::{Fault, Misplaced, Sequence};

// The held words and this one go out together, or 43.
fn send(words: &[u64], trace: &mut [u64], arrays: &mut Arrays, s: Core) -> Stepped
    requires { Sends words.now (length trace.old) s arrays.old.waits arrays.old.totals }
    ensures { (setting : Setting) → Outward send_of words.now trace.old trace.new s setting result arrays.old arrays.new }
{
    let held = s.held as usize;
    let at = s.address.0 as usize;
    let group = &words[at - held..at + 1];
    let sent = s.sent as usize;
    let end = sent + group.len();
    if trace.len() < end {
        return Stepped::stop_for(Halt::TraceFull, s);
    }
    dispatch(group, trace, sent, &mut arrays.waits, &mut arrays.totals);
    Stepped::moves(s.sends(end as u64))
}

// Whether one of several numbers is above a bound.
pub fn any_above(bound: u64, numbers: &[u64]) -> bool
    ensures { result ≡ any_above bound numbers.now }
{
    numbers.iter().any(|number| bound < *number)
}

// H6: SYNC.
fn awaits_trigger(body: Body, triggers: u64, waits: &[u64]) -> bool
    ensures { result ≡ pick (eqb (code_of body) (code_of Body.Sync)) (any_above triggers waits.now) false }
{
    if body.code() != Body::SYNC {
        return false;
    }
    any_above(triggers, waits)
}

// A word that goes out: 41, or held where it is an engine word and its write flag is low, or sent.
fn outward(
    words: &[u64],
    trace: &mut [u64],
    arrays: &mut Arrays,
    s: Core,
    write: u64,
    body: Body,
    setting: Setting,
) -> Stepped
    requires { Sends words.now (length trace.old) s arrays.old.waits arrays.old.totals × (goes_out body ≡ true) }
    ensures { Outward (λ e s. act_of e s write body) words.now trace.old trace.new s setting result arrays.old arrays.new }
{
    if awaits_trigger(body, setting.triggers, &arrays.waits) {
        return Stepped::stop_for(Halt::TriggerAwaited, s);
    }
    if Sequence::is_engine(body) & (write == 0) {
        return Stepped::moves(s.hold());
    }
    send(words, trace, arrays, s)
}

// What an instruction does that form, 20, 21 and 22 let through.
fn act(
    words: &[u64],
    messages: &[u8],
    trace: &mut [u64],
    arrays: &mut Arrays,
    s: Core,
    write: u64,
    body: Body,
    setting: Setting,
) -> Stepped
    requires { At (fixed_in words.now messages.now trace.old setting) (state_in s arrays.old) }
    ensures { Leaves (act_of (fixed_in words.now messages.now trace.old setting)
        (state_in s arrays.old) write body)
        s.sent trace.old trace.new result arrays.new }
{
    match body {
        Body::LoadRepeat(n) => return Stepped::moves(s.loads(n.0)),
        Body::Repeat(a) => return Stepped::moves(s.repeat(a)),
        Body::Cmp(x) => return Stepped::moves(s.compare(x)),
        Body::Goto(a) => return Stepped::moves(s.goto(a)),
        Body::Call(a) => return call(arrays, s, a),
        Body::Return(_) => return ret(arrays, s),
        Body::LoadCmp(_) => return message(messages, s),
        Body::Prefetch(_) => return Stepped::moves(s.nexts()),
        Body::Noop => return Stepped::moves(s.nexts()),
        // What goes out.
        Body::Waveform(_) => {}
        Body::Marker(_) => {}
        Body::Wait => {}
        Body::Sync => {}
        Body::Modulator(_) => {}
    }
    outward(words, trace, arrays, s, write, body, setting)
}

fn breaks_group(held: u64, write: u64, body: Body) -> bool
    ensures { result ≡ breaks_group held write body }
{
    if Sequence::is_engine(body) {
        return (held == Sequence::GROUP - 1) & (write == 0);
    }
    0 < held
}

// 20 and 21, then 22, of a word that comes while a group is held.
fn group_refused(held: u64, i: Instruction, n: u64, wave: QuadSamples) -> Result<(), Misplaced>
    ensures { told place_number result ≡ group_refused held i n wave.0 }
{
    if held == 0 {
        return Ok(());
    }
    let body = i.body;
    Sequence::placing(wave, n, body)?;
    if breaks_group(held, i.write, body) {
        return Err(Misplaced::BrokenGroup);
    }
    Ok(())
}

// 20 and 21, then 22, then what the instruction does. Where no group is held, no word can break it.
fn execute(
    words: &[u64],
    messages: &[u8],
    trace: &mut [u64],
    arrays: &mut Arrays,
    s: Core,
    i: Instruction,
    setting: Setting,
) -> Stepped
    requires { At (fixed_in words.now messages.now trace.old setting) (state_in s arrays.old) }
    ensures { Leaves (execute_of (fixed_in words.now messages.now trace.old setting)
        (state_in s arrays.old) i)
        s.sent trace.old trace.new result arrays.new }
{
    let n = words.len() as u64;
    if let Err(misplaced) = group_refused(s.held, i, n, setting.wave) {
        return Stepped::stop_for(misplaced, s);
    }
    let body = i.body;
    if let Err(misplaced) = Sequence::placing(setting.wave, n, body) {
        return Stepped::stop_for(misplaced, s);
    }
    act(words, messages, trace, arrays, s, i.write, body, setting)
}

// What a word reads as. Whether it is refused is asked before it is taken apart: measured, a step takes fewer instructions so.
fn reads_as(word: u64, rules: Rules) -> Result<Instruction, Refusal>
    ensures { result ≡ reading_of rules word }
{
    let coarse = coarse_of(word, rules);
    if coarse != 0 {
        return Err(finer(word, coarse));
    }
    Ok(instruction_in(word))
}

// One step. The budget is the run's.
pub fn step(
    words: &[u64],
    messages: &[u8],
    trace: &mut [u64],
    arrays: &mut Arrays,
    s: Core,
    setting: Setting,
) -> Stepped
    requires { Ready (fixed_in words.now messages.now trace.old setting) (state_in s arrays.old) }
    ensures { Leaves (step_of (fixed_in words.now messages.now trace.old setting)
        (state_in s arrays.old))
        s.sent trace.old trace.new result arrays.new }
{
    let at = s.address.0 as usize;
    if words.len() <= at {
        return Stepped::stop_for(Fault::PastTheEnd, s);
    }
    let word = words[at];
    match reads_as(word, setting.rules) {
        Ok(i) => execute(words, messages, trace, arrays, s, i, setting),
        Err(end) => Stepped { end, core: s },
    }
}
