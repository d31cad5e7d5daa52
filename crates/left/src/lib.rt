// A state that a host hands back: whether a run could have left it, judged by the fields that document 02 lists.
// What passes is safe to step, whoever made it up.
#![tactic(auto)]

ghost use Rattle.std.specs.Prelude.{◌≡◌, List, ℕ, ◌-◌, ◌*◌, ◌^◌, ◌≤◌, ◌<◌, ltb, length};
ghost use Rattle.reader.specs.Reading.{reading_of};
ghost use Rattle.sequence.specs.Bounds.{stack_depth};
ghost use Rattle.jumps.specs.State.{Fixed, fixed_by};
ghost use Rattle.machine.specs.Step.{any_above};
ghost use Rattle.left.specs.Left.{stack_fits, can_be_held, can_all_be_held, group_fits, counts_fit, core_fits, could_be_left};

use jumps::{Core, Setting, State};
use machine::any_above;
use reader::{coarse_of, instruction_in, judged_by};
use sequence::Sequence;

// What a dispatched word adds to a total at the most.
#[derive(Clone, Copy)]
struct Most;

impl Most {
    const QUADS: u64 = 4294967296;
}

fn total_above(sent: u64, total: u64) -> bool
    ensures { result ≡ ltb (sent * 2 ^ 32) total }
{
    let whole = total / Most::QUADS;
    (sent < whole) | (sent == whole) & (total % Most::QUADS != 0)
}

fn any_total_above(sent: u64, totals: &[u64]) -> bool
    ensures { result ≡ any_above (sent * 2 ^ 32) totals.now }
{
    totals.iter().any(|total| total_above(sent, *total))
}

fn stack_fits(n: u64, s: State) -> bool
    requires { s.core.depth ≤ stack_depth }
    ensures { result ≡ stack_fits n s.core.depth s.returns s.counters }
{
    let depth = s.core.depth as usize;
    let returns = s.returns;
    let counters = s.counters;
    if any_above(n, &returns) {
        return false;
    }
    if any_above(0, &returns[depth..]) {
        return false;
    }
    !any_above(0, &counters[depth..])
}

fn counts_fit(sent: u64, s: State) -> bool
    ensures { result ≡ counts_fit sent s.waits s.totals }
{
    let waits = s.waits;
    let totals = s.totals;
    if any_above(sent, &waits) {
        return false;
    }
    !any_total_above(sent, &totals)
}

fn can_be_held(word: u64, n: u64, setting: Setting) -> bool
    ensures { (words messages : List ℕ) (room : ℕ) → length words ≡ n
        → result ≡ can_be_held (fixed_by words messages room setting) (reading_of setting.rules word) }
{
    match judged_by(word, coarse_of(word, setting.rules), instruction_in(word)) {
        Ok(i) => {
            let body = i.body;
            Sequence::is_engine(body)
                & (i.write == 0)
                & Sequence::placing(setting.wave, n, body).is_ok()
        }
        Err(_) => false,
    }
}

// The words of a group, of a sequence of n words.
fn can_all_be_held(group: &[u64], n: u64, setting: Setting) -> bool
    ensures { (words messages : List ℕ) (room : ℕ) → length words ≡ n
        → result ≡ can_all_be_held (fixed_by words messages room setting) group.now }
{
    for word in group {
        if !can_be_held(*word, n, setting) {
            return false;
        }
    }
    true
}

fn group_fits(words: &[u64], s: Core, setting: Setting) -> bool
    requires { s.address.0 ≤ length words.now }
    ensures { (messages : List ℕ) (room : ℕ) → result ≡ group_fits (fixed_by words.now messages room setting) s }
{
    let held = s.held;
    let address = s.address.0;
    if Sequence::GROUP <= held {
        return false;
    }
    if (s.steps < held) | (address < held) {
        return false;
    }
    let group = &words[(address - held) as usize..address as usize];
    can_all_be_held(group, words.len() as u64, setting)
}

fn core_fits(c: Core, n: u64, messages: u64, room: u64, budget: u64) -> bool
    ensures { (e : Fixed) → length e.words ≡ n → length e.messages ≡ messages → e.room ≡ room → result ≡ core_fits e budget c }
{
    (c.address.0 <= n)
        & (c.depth <= Sequence::STACK)
        & (c.used <= messages)
        & (c.sent <= room)
        & (c.steps <= budget)
}

// With last time's budget.
pub fn could_be_left(
    words: &[u64],
    messages: &[u8],
    room: u64,
    s: State,
    budget: u64,
    setting: Setting,
) -> bool
    ensures { result ≡ could_be_left (fixed_by words.now messages.now room setting) budget s }
{
    let c = s.core;
    let n = words.len() as u64;
    if !core_fits(c, n, messages.len() as u64, room, budget) {
        return false;
    }
    if !stack_fits(n, s) {
        return false;
    }
    if !group_fits(words, c, setting) {
        return false;
    }
    counts_fit(c.steps - c.held, s)
}
