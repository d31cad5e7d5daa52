// The rehearsal: a run without a module, for every list of words, waveform length, firmware, messages, triggers, trace and budget.
// It takes exactly the steps that the instruction set gives.
#![tactic(auto)]

ghost use Rattle.std.specs.Prelude.{◌≡◌};
ghost use Rattle.instruction.specs.Form.{told, numbered};
ghost use Rattle.sequence.specs.Numbers.{input_number};
ghost use Rattle.jumps.specs.State.{fixed_in, fresh};
ghost use Rattle.jumps.specs.Lent.{state_in, Leaves};
ghost use Rattle.rehearsal.specs.Run.{run_of, input_refused, rehearse, Rehearsed, CanGo};

use instruction::{Numbered, QuadSamples, Refusal, Rules};
use jumps::{Arrays, Core, Halt, Setting, State, Stepped};
use machine::step;
use sequence::{BadInput, Sequence};

// How the run ended and why, and the whole state then.
#[derive(Clone, Copy)]
pub struct Answer {
    pub end: Refusal,
    pub state: State,
}

impl Answer {
    pub const BUDGET_SPENT: u64 = Halt::FIRST;

    // Zeros beside an input number.
    fn refused(bad: BadInput) -> Answer
        ensures { result ≡ record { end = numbered (input_number bad); state = fresh } }
    {
        Answer {
            end: Refusal::numbered(bad.number()),
            state: State::fresh(),
        }
    }
}

// 1, 2, 3 or 5.
#[tactic(auto, unfolding(crate::specs::Run::input_refused))]
pub fn input_refused(n: u64, wave: QuadSamples, budget: u64) -> Result<(), BadInput>
    ensures { told input_number result ≡ input_refused n wave.0 budget }
{
    Sequence::lengths_refused(n, wave)?;
    if Sequence::BUDGET < budget {
        return Err(BadInput::TooMuchBudget);
    }
    Ok(())
}

// At most so many steps from a state on.
pub fn run_from(
    words: &[u64],
    messages: &[u8],
    trace: &mut [u64],
    arrays: &mut Arrays,
    s: Core,
    budget: u64,
    setting: Setting,
) -> Stepped
    requires { CanGo budget (fixed_in words.now messages.now trace.old setting) (state_in s arrays.old) }
    ensures { Leaves (run_of budget (fixed_in words.now messages.now trace.old setting)
        (state_in s arrays.old))
        s.sent trace.old trace.new result arrays.new }
{
    let mut at = s;
    for _left in (0..budget).rev() {
        let r = step(words, messages, trace, arrays, at, setting);
        if r.end.number != 0 {
            return r;
        }
        at = r.core;
    }
    Stepped::stop_for(Halt::BudgetSpent, at)
}

// Steps from the fresh state until one stops or the budget is spent.
fn from_fresh(
    words: &[u64],
    messages: &[u8],
    trace: &mut [u64],
    budget: u64,
    setting: Setting,
) -> Answer
    requires { CanGo budget (fixed_in words.now messages.now trace.old setting) fresh }
    ensures { Rehearsed (run_of budget (fixed_in words.now messages.now trace.old setting) fresh)
        trace.old trace.new result }
{
    let mut arrays = Arrays::fresh();
    let r = run_from(
        words,
        messages,
        trace,
        &mut arrays,
        Core::fresh(),
        budget,
        setting,
    );
    let end = r.end;
    let last = r.core;
    let state = State::of(last, arrays);
    Answer { end, state }
}

// The run: input numbers first, then its steps.
pub fn run(
    words: &[u64],
    wave: QuadSamples,
    rules: Rules,
    messages: &[u8],
    triggers: u32,
    trace: &mut [u64],
    budget: u64,
) -> Answer
    ensures { Rehearsed (rehearse budget (fixed_in words.now messages.now trace.old (record { wave = wave; rules = rules; triggers = triggers })))
        trace.old trace.new result }
{
    if let Err(bad) = input_refused(words.len() as u64, wave, budget) {
        return Answer::refused(bad);
    }
    let setting = Setting {
        wave,
        rules,
        triggers: triggers as u64,
    };
    from_fresh(words, messages, trace, budget, setting)
}
