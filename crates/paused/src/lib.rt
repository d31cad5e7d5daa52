// A run that pauses: its state is kept between calls where the host holds it, a single step or all that the budget leaves at a time.
// All is judged and done by value; two thin functions update the state behind its reference.
#![tactic(auto)]

ghost use Rattle.std.specs.Prelude.{◌≡◌};
ghost use Rattle.jumps.specs.State.{fixed_by, fixed_in};
ghost use Rattle.jumps.specs.Lent.{state_in, Leaves};
ghost use Rattle.instruction.specs.Form.{told};
ghost use Rattle.paused.specs.declared.BadCall.TheVariants.{Input};
ghost use Rattle.paused.specs.Pause.{call_number, call_numbered, call_told_apart, fresh_paused, call_refused, done_by, steps_of, is_single, ends_of, CanGoOn, setting_of, Does};

use instruction::{Numbered, QuadSamples, Refusal, Rules};
use jumps::{Arrays, Core, Halt, Setting, State, Stepped};
use left::could_be_left;
use rehearsal::{Answer, input_refused, run_from};
use sequence::BadInput;

// What the host holds: the state of the run, and what the last call that was not refused gave.
#[derive(Clone, Copy)]
pub struct Paused {
    pub state: State,
    pub budget: u64,
    pub triggers: u64,
}

// What a call brings beside words, messages and trace; triggers and budget as totals so far.
#[derive(Clone, Copy)]
pub struct Asked {
    pub wave: QuadSamples,
    pub rules: Rules,
    pub triggers: u32,
    pub budget: u64,
}

#[derive(Clone, Copy)]
pub enum Pace {
    Single,
    On,
}

// How a call ended, and what the host then holds.
#[derive(Clone, Copy)]
pub struct Moved {
    pub end: Refusal,
    pub paused: Paused,
}

// What a call is refused for: its input, the state that it is handed, or less than last time.
#[derive(Clone, Copy, PartialEq, Eq)]
pub enum BadCall {
    Input(BadInput),
    NoSuchState,
    LessThanLastTime,
}

impl From<BadInput> for BadCall {
    ghost from_gives = { λ bad e. e ≡ Input bad };

    fn from(bad: BadInput) -> BadCall {
        BadCall::Input(bad)
    }
}

impl Numbered for BadCall {
    ghost number_of = { call_number };

    ghost numbered = { call_numbered };

    ghost told_apart = { call_told_apart };

    fn number(self) -> u64 {
        match self {
            BadCall::Input(bad) => bad.number(),
            BadCall::NoSuchState => 70,
            BadCall::LessThanLastTime => 71,
        }
    }
}

impl Paused {
    // All zeros.
    pub fn fresh() -> Paused
        ensures { result ≡ fresh_paused }
    {
        Paused {
            state: State::fresh(),
            budget: 0,
            triggers: 0,
        }
    }

    // What was asked is last time's to the next call.
    fn put_together(core: Core, arrays: Arrays, asked: Asked) -> Paused
        ensures { result ≡ record { state = state_in core arrays; budget = asked.budget; triggers = asked.triggers } }
    {
        Paused {
            state: State::of(core, arrays),
            budget: asked.budget,
            triggers: asked.triggers as u64,
        }
    }
}

impl Pace {
    fn steps(self, left: u64) -> u64
        ensures { result ≡ steps_of self left }
    {
        match self {
            Pace::Single => 1,
            Pace::On => left,
        }
    }

    fn is_single(self) -> bool
        ensures { result ≡ is_single self }
    {
        match self {
            Pace::Single => true,
            Pace::On => false,
        }
    }

    fn ends(self, r: Stepped) -> Stepped
        ensures { result ≡ ends_of self r }
    {
        let core = r.core;
        if self.is_single() & (r.end.number == Answer::BUDGET_SPENT) {
            return Stepped::moves(core);
        }
        r
    }
}

impl Asked {
    fn setting(self) -> Setting
        ensures { result ≡ setting_of self }
    {
        let wave = self.wave;
        let rules = self.rules;
        Setting {
            wave,
            rules,
            triggers: self.triggers as u64,
        }
    }
}

// 1, 2, 3, 5, then 70, then 71.
#[tactic(auto, unfolding(crate::specs::Pause::call_refused))]
fn refused(
    words: &[u64],
    messages: &[u8],
    room: u64,
    p: Paused,
    asked: Asked,
) -> Result<(), BadCall>
    ensures { told call_number result ≡ call_refused asked.budget (fixed_by words.now messages.now room (setting_of asked)) p }
{
    let wave = asked.wave;
    input_refused(words.len() as u64, wave, asked.budget)?;
    let s = p.state;
    if !could_be_left(words, messages, room, s, p.budget, asked.setting()) {
        return Err(BadCall::NoSuchState);
    }
    if ((asked.triggers as u64) < p.triggers) | (asked.budget < p.budget) {
        return Err(BadCall::LessThanLastTime);
    }
    Ok(())
}

// A step, or the steps that the budget leaves, of a state whose arrays are lent. Both are the run's loop: measured, a step with two callers takes three times as long.
fn goes_on(
    words: &[u64],
    messages: &[u8],
    trace: &mut [u64],
    arrays: &mut Arrays,
    s: Core,
    pace: Pace,
    budget: u64,
    setting: Setting,
) -> Stepped
    requires { CanGoOn budget (fixed_in words.now messages.now trace.old setting) (state_in s arrays.old) }
    ensures { Leaves (done_by pace budget (fixed_in words.now messages.now trace.old setting)
        (state_in s arrays.old))
        s.sent trace.old trace.new result arrays.new }
{
    let done = s.steps;
    if budget <= done {
        return Stepped::stop_for(Halt::BudgetSpent, s);
    }
    let r = run_from(
        words,
        messages,
        trace,
        arrays,
        s,
        pace.steps(budget - done),
        setting,
    );
    pace.ends(r)
}

// A call that is not refused, by value: the state is taken apart, its arrays are lent, and it is put together anew.
fn moves_on(
    words: &[u64],
    messages: &[u8],
    trace: &mut [u64],
    p: Paused,
    asked: Asked,
    pace: Pace,
) -> Moved
    requires { call_refused asked.budget (fixed_in words.now messages.now trace.old (setting_of asked)) p ≡ 0 }
    ensures { Does pace words.now messages.now trace.old trace.new p asked result.end result.paused }
{
    let s = p.state;
    let core = s.core;
    let mut arrays = s.arrays();
    let r = goes_on(
        words,
        messages,
        trace,
        &mut arrays,
        core,
        pace,
        asked.budget,
        asked.setting(),
    );
    let end = r.end;
    let last = r.core;
    let paused = Paused::put_together(last, arrays, asked);
    Moved { end, paused }
}

// A call by value: refused with nothing changed, or done.
pub fn advance(
    words: &[u64],
    messages: &[u8],
    trace: &mut [u64],
    p: Paused,
    asked: Asked,
    pace: Pace,
) -> Moved
    ensures { Does pace words.now messages.now trace.old trace.new p asked result.end result.paused }
{
    let no = refused(words, messages, trace.len() as u64, p, asked);
    if let Err(bad) = no {
        return Moved {
            end: Refusal::numbered(bad.number()),
            paused: p,
        };
    }
    moves_on(words, messages, trace, p, asked, pace)
}

// At most one step, by value.
pub fn stepped(words: &[u64], messages: &[u8], trace: &mut [u64], p: Paused, asked: Asked) -> Moved
    ensures { Does Pace.Single words.now messages.now trace.old trace.new p asked result.end result.paused }
{
    advance(words, messages, trace, p, asked, Pace::Single)
}

// All steps that the budget leaves, by value.
pub fn gone_on(words: &[u64], messages: &[u8], trace: &mut [u64], p: Paused, asked: Asked) -> Moved
    ensures { Does Pace.On words.now messages.now trace.old trace.new p asked result.end result.paused }
{
    advance(words, messages, trace, p, asked, Pace::On)
}

fn end_of(r: Moved) -> Refusal
    ensures { result ≡ r.end }
{
    r.end
}

fn held_of(r: Moved) -> Paused
    ensures { result ≡ r.paused }
{
    r.paused
}

// A call on the run whose state the host holds.
fn call_held(
    words: &[u64],
    messages: &[u8],
    trace: &mut [u64],
    state: &mut Paused,
    asked: Asked,
    pace: Pace,
) -> Refusal
    ensures { Does pace words.now messages.now trace.old trace.new state.old asked result state.new }
{
    let p = *state;
    let r = advance(words, messages, trace, p, asked, pace);
    let next = held_of(r);
    *state = next;
    end_of(r)
}

// A single step of the run whose state the host holds.
pub fn step_once(
    words: &[u64],
    messages: &[u8],
    trace: &mut [u64],
    state: &mut Paused,
    asked: Asked,
) -> Refusal
    ensures { Does Pace.Single words.now messages.now trace.old trace.new state.old asked result state.new }
{
    call_held(words, messages, trace, state, asked, Pace::Single)
}

// The run whose state the host holds goes on.
pub fn go_on(
    words: &[u64],
    messages: &[u8],
    trace: &mut [u64],
    state: &mut Paused,
    asked: Asked,
) -> Refusal
    ensures { Does Pace.On words.now messages.now trace.old trace.new state.old asked result state.new }
{
    call_held(words, messages, trace, state, asked, Pace::On)
}
