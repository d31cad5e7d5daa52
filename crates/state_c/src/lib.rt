// A run's state as the numbers that C holds: laid down one behind the other, and taken up again.
// Which number stands where is said once, for the answer of a run and for the state of one that pauses.
#![tactic(auto)]

ghost use Rattle.std.specs.Prelude.{◌≡◌, ◌+◌, ◌≤◌};
ghost use Rattle.buffer.specs.Put.{Fits, Put};
ghost use Rattle.state_c.specs.Numbers.{condition_of, numbers_of, held_numbers, numbers_at, condition_in, held_with, held_in};

use buffer::lay;
use dispatch::Engines;
use instruction::WordAddress;
use jumps::{Condition, Core, State};
use paused::Paused;
use sequence::Sequence;

// How many numbers there are of a state, and of one that a host holds, and where its condition stands.
#[derive(Clone, Copy)]
pub struct Numbers;

impl Numbers {
    // Nine of the core, two for each engine, and two for each entry of the stack.
    pub const STATE: usize = 9 + 2 * Engines::COUNT + 2 * (Sequence::STACK as usize);

    pub const HELD: usize = Numbers::STATE + 2;

    pub const CONDITION: usize = 18;

    pub const CONDITIONS: u64 = 3;
}

// No `From` and no `TryFrom`: neither type is of this crate, and what C holds is no business of the crate that has the condition.
fn condition_of(c: Condition) -> u64
    ensures { result ≡ condition_of c }
{
    match c {
        Condition::Absent => 0,
        Condition::Fails => 1,
        Condition::Holds => 2,
    }
}

fn condition_in(number: u64) -> Condition
    ensures { result ≡ condition_in number }
{
    match number {
        0 => Condition::Absent,
        1 => Condition::Fails,
        _ => Condition::Holds,
    }
}

// The numbers of a state, from a place on; the place behind them.
pub fn lay_state(out: &mut [u64], at: usize, s: State) -> usize
    requires { Fits (numbers_of s) out.old at }
    ensures { Put (numbers_of s) out.old at out.new result }
{
    let c = s.core;
    let condition = c.condition;
    let waits = s.waits;
    let totals = s.totals;
    let returns = s.returns;
    let counters = s.counters;
    let number = condition_of(condition);
    let first = [c.address.0, c.steps, c.used, c.sent];
    let middle = [c.counter, c.register, number, c.held, c.depth];
    let mut place = lay(out, at, &first);
    place = lay(out, place, &waits);
    place = lay(out, place, &totals);
    place = lay(out, place, &middle);
    place = lay(out, place, &returns);
    lay(out, place, &counters)
}

// What a host holds, as numbers.
pub fn held_numbers(p: Paused) -> [u64; Numbers::HELD]
    ensures { result ≡ held_numbers p }
{
    let s = p.state;
    let last = [p.budget, p.triggers];
    let mut out = [0u64; Numbers::HELD];
    let at = lay_state(&mut out, 0, s);
    lay(&mut out, at, &last);
    out
}

// So many of the numbers, from a place on.
fn numbers_at<const N: usize>(numbers: &[u64; Numbers::HELD], from: usize) -> [u64; N]
    requires { from + N ≤ Numbers.HELD }
    ensures { result ≡ numbers_at from N numbers.now }
{
    let mut part = [0u64; N];
    part.copy_from_slice(&numbers[from..from + N]);
    part
}

// What numbers stand for that a host holds, with this condition.
fn held_with(condition: Condition, numbers: &[u64; Numbers::HELD]) -> Paused
    ensures { result ≡ held_with condition numbers.now }
{
    let core = Core {
        address: WordAddress(numbers[0]),
        steps: numbers[1],
        used: numbers[2],
        sent: numbers[3],
        counter: numbers[16],
        register: numbers[17],
        condition,
        held: numbers[19],
        depth: numbers[20],
    };
    let state = State {
        core,
        returns: numbers_at(numbers, 21),
        counters: numbers_at(numbers, 37),
        waits: numbers_at(numbers, 4),
        totals: numbers_at(numbers, 10),
    };
    Paused {
        state,
        budget: numbers[53],
        triggers: numbers[54],
    }
}

// What numbers stand for that a host holds; a condition that is none counts as the last, so it is asked for before.
pub fn held_in(numbers: &[u64; Numbers::HELD]) -> Paused
    ensures { result ≡ held_in numbers.now }
{
    held_with(condition_in(numbers[Numbers::CONDITION]), numbers)
}
