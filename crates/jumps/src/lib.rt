// The state of a run, and what changes it without dispatch: jumps, the repeat counter, comparison and messages.
// The core goes by value and the arrays are lent beside it: measured, this runs as plain C does.
#![tactic(auto)]

ghost use Rattle.std.specs.Prelude.{◌≡◌, ◌<◌};
ghost use Rattle.instruction.specs.Bits.{pick};
ghost use Rattle.sequence.specs.Bounds.{budget_limit};
ghost use Rattle.jumps.specs.Halt.{halt_number, halt_numbered, halt_told_apart, halt_told_by};
ghost use Rattle.jumps.specs.State.{fresh_core, fresh_arrays, fresh, with_message, with_sent, with_counter, with_condition, stopped};
ghost use Rattle.jumps.specs.Lent.{state_in, arrays_of, DoneIn};
ghost use Rattle.jumps.specs.declared.Arrays.{Arrays};
ghost use Rattle.jumps.specs.Jumps.{goes, nexts, repeat_of, compares, compare_of, acts, goto_of, call_of, return_of, message_of, hold_of};
ghost use Rattle.jumps.specs.Asked.{Counts, CanHold, CanReturn};

use dispatch::Engines;
use instruction::{Comparison, Instruction, Numbered, QuadSamples, Refusal, Rules, WordAddress};
use sequence::{Fault, Sequence};

#[derive(Clone, Copy, PartialEq, Eq)]
pub enum Condition {
    Absent,
    Fails,
    Holds,
}

// All of the state that is no array.
#[derive(Clone, Copy)]
pub struct Core {
    pub address: WordAddress,
    pub steps: u64,
    pub used: u64,
    pub sent: u64,
    pub counter: u64,
    pub register: u64,
    pub condition: Condition,
    pub held: u64,
    pub depth: u64,
}

// The stack's entries, and what each engine counts: lent beside the core while a run goes on.
#[derive(Clone, Copy)]
pub struct Arrays {
    pub returns: [u64; Sequence::STACK as usize],
    pub counters: [u64; Sequence::STACK as usize],
    pub waits: [u64; Engines::COUNT],
    pub totals: [u64; Engines::COUNT],
}

#[derive(Clone, Copy)]
pub struct State {
    pub core: Core,
    pub returns: [u64; Sequence::STACK as usize],
    pub counters: [u64; Sequence::STACK as usize],
    pub waits: [u64; Engines::COUNT],
    pub totals: [u64; Engines::COUNT],
}

// What is fixed in a run beside its words, messages and trace.
#[derive(Clone, Copy)]
pub struct Setting {
    pub wave: QuadSamples,
    pub rules: Rules,
    pub triggers: u64,
}

// How a step ended, 0 where it moved, and the core then.
#[derive(Clone, Copy)]
pub struct Stepped {
    pub end: Refusal,
    pub core: Core,
}

// Why a run halts that is neither refused nor faulted.
#[derive(Clone, Copy, PartialEq, Eq)]
pub enum Halt {
    BudgetSpent,
    TriggerAwaited,
    MessageAwaited,
    TraceFull,
}

impl Halt {
    // No number of a halt is lower.
    pub const FIRST: u64 = 40;

    // The halt that has a number.
    pub fn told_by(number: u64) -> Option<Halt>
        ensures { result ≡ halt_told_by number }
    {
        match number {
            Halt::FIRST => Some(Halt::BudgetSpent),
            41 => Some(Halt::TriggerAwaited),
            42 => Some(Halt::MessageAwaited),
            43 => Some(Halt::TraceFull),
            _ => None,
        }
    }
}

impl Numbered for Halt {
    ghost number_of = { halt_number };

    ghost numbered = { halt_numbered };

    ghost told_apart = { halt_told_apart };

    // A call of its own, made where the steps end: measured, each step is quicker for it.
    #[cold]
    #[inline(never)]
    fn number(self) -> u64 {
        match self {
            Halt::BudgetSpent => Halt::FIRST,
            Halt::TriggerAwaited => 41,
            Halt::MessageAwaited => 42,
            Halt::TraceFull => 43,
        }
    }
}

impl Stepped {
    pub fn stop_for<E: Numbered>(why: E, core: Core) -> Stepped
        ensures { result ≡ stopped (E.number_of why) core }
    {
        Stepped::stop(why.number(), core)
    }

    pub fn stop(number: u64, core: Core) -> Stepped
        ensures { result ≡ stopped number core }
    {
        let end = Refusal { number, bit: 0 };
        Stepped { end, core }
    }

    pub fn moves(core: Core) -> Stepped
        ensures { result ≡ stopped 0 core }
    {
        Stepped {
            end: Refusal::numbered(0),
            core,
        }
    }
}

impl Condition {
    // A jump is taken.
    fn acts(self) -> bool
        ensures { result ≡ acts self }
    {
        match self {
            Condition::Absent => true,
            Condition::Fails => false,
            Condition::Holds => true,
        }
    }

    fn of(holds: bool) -> Condition
        ensures { result ≡ pick holds Condition.Holds Condition.Fails }
    {
        if holds {
            Condition::Holds
        } else {
            Condition::Fails
        }
    }
}

impl Core {
    pub fn fresh() -> Core
        ensures { result ≡ fresh_core }
    {
        Core {
            address: WordAddress(0),
            steps: 0,
            used: 0,
            sent: 0,
            counter: 0,
            register: 0,
            condition: Condition::Absent,
            held: 0,
            depth: 0,
        }
    }

    fn with_condition(self, condition: Condition) -> Core
        ensures { result ≡ with_condition condition self }
    {
        let address = self.address;
        Core {
            address,
            steps: self.steps,
            used: self.used,
            sent: self.sent,
            counter: self.counter,
            register: self.register,
            condition,
            held: self.held,
            depth: self.depth,
        }
    }

    fn goes(mut self, to: WordAddress) -> Core
        requires { self.steps < budget_limit }
        ensures { result ≡ goes to.0 self }
    {
        self.address = to;
        self.steps = self.steps + 1;
        self
    }

    pub fn nexts(self) -> Core
        requires { Counts self }
        ensures { result ≡ nexts self }
    {
        self.goes(WordAddress(self.address.0 + 1))
    }

    // H3.
    pub fn repeat(mut self, to: WordAddress) -> Core
        requires { Counts self }
        ensures { result ≡ repeat_of self to.0 }
    {
        let counter = self.counter;
        let on = WordAddress(self.address.0 + 1);
        if counter == 0 {
            return self.goes(on);
        }
        self.counter = counter - 1;
        self.goes(to)
    }

    // H4.
    pub fn compare(self, x: Comparison) -> Core
        requires { Counts self }
        ensures { result ≡ compare_of self x }
    {
        let holds = holds(x.code, self.register, x.mask);
        self.nexts().with_condition(Condition::of(holds))
    }

    pub fn goto(self, to: WordAddress) -> Core
        requires { Counts self }
        ensures { result ≡ goto_of self to.0 }
    {
        let condition = self.condition;
        if condition.acts() {
            self.goes(to).with_condition(Condition::Absent)
        } else {
            self.nexts().with_condition(Condition::Absent)
        }
    }

    pub fn hold(mut self) -> Core
        requires { CanHold self }
        ensures { result ≡ hold_of self }
    {
        self.held = self.held + 1;
        self.nexts()
    }

    fn takes(mut self, message: u64, used: u64) -> Core
        requires { Counts self }
        ensures { result ≡ nexts (with_message used message self) }
    {
        self.register = message;
        self.used = used;
        self.nexts()
    }

    // A group that ends here has gone out.
    pub fn sends(mut self, sent: u64) -> Core
        requires { Counts self }
        ensures { result ≡ nexts (with_sent sent 0 self) }
    {
        self.sent = sent;
        self.held = 0;
        self.nexts()
    }

    pub fn loads(mut self, counter: u64) -> Core
        requires { Counts self }
        ensures { result ≡ nexts (with_counter counter self) }
    {
        self.counter = counter;
        self.nexts()
    }
}

impl Arrays {
    pub fn fresh() -> Arrays
        ensures { result ≡ fresh_arrays }
    {
        Arrays {
            returns: [0; Sequence::STACK as usize],
            counters: [0; Sequence::STACK as usize],
            waits: [0; Engines::COUNT],
            totals: [0; Engines::COUNT],
        }
    }
}

impl State {
    pub fn fresh() -> State
        ensures { result ≡ fresh }
    {
        State::of(Core::fresh(), Arrays::fresh())
    }

    // Put together of its core and what was lent beside it.
    pub fn of(core: Core, arrays: Arrays) -> State
        ensures { result ≡ state_in core arrays }
    {
        let returns = arrays.returns;
        let counters = arrays.counters;
        let waits = arrays.waits;
        let totals = arrays.totals;
        State {
            core,
            returns,
            counters,
            waits,
            totals,
        }
    }

    // What is lent beside the core.
    pub fn arrays(self) -> Arrays
        ensures { result ≡ arrays_of self }
    {
        let returns = self.returns;
        let counters = self.counters;
        let waits = self.waits;
        let totals = self.totals;
        Arrays {
            returns,
            counters,
            waits,
            totals,
        }
    }
}

// CMP: register on the left, mask on the right.
fn holds(code: u64, register: u64, mask: u64) -> bool
    ensures { result ≡ compares code register mask }
{
    if code == Comparison::EQUAL {
        return register == mask;
    }
    if code == Comparison::UNEQUAL {
        return register != mask;
    }
    if code == Comparison::ABOVE {
        return mask < register;
    }
    register < mask
}

// H5, and 31.
pub fn call(arrays: &mut Arrays, s: Core, to: WordAddress) -> Stepped
    requires { Counts s }
    ensures { DoneIn (call_of (state_in s arrays.old) to.0) result arrays.new }
{
    let condition = s.condition;
    if !condition.acts() {
        return Stepped::moves(s.nexts().with_condition(Condition::Absent));
    }
    let depth = s.depth;
    if Sequence::STACK <= depth {
        return Stepped::stop_for(Fault::StackFull, s);
    }
    let top = depth as usize;
    arrays.returns[top] = s.address.0 + 1;
    arrays.counters[top] = s.counter;
    let mut deeper = s;
    deeper.depth = depth + 1;
    Stepped::moves(deeper.goes(to).with_condition(Condition::Absent))
}

// H5, and 32.
pub fn ret(arrays: &mut Arrays, s: Core) -> Stepped
    requires { CanReturn s }
    ensures { DoneIn (return_of (state_in s arrays.old)) result arrays.new }
{
    let condition = s.condition;
    if !condition.acts() {
        return Stepped::moves(s.nexts().with_condition(Condition::Absent));
    }
    let depth = s.depth;
    if depth == 0 {
        return Stepped::stop_for(Fault::StackEmpty, s);
    }
    let less = depth - 1;
    let top = less as usize;
    let to = arrays.returns[top];
    let mut back = s;
    back.counter = arrays.counters[top];
    back.depth = less;
    arrays.returns[top] = 0;
    arrays.counters[top] = 0;
    Stepped::moves(back.goes(WordAddress(to)).with_condition(Condition::Absent))
}

// LOAD_CMP, and 42.
pub fn message(messages: &[u8], s: Core) -> Stepped
    requires { Counts s }
    ensures { (arrays : Arrays) → DoneIn (message_of messages.now (state_in s arrays)) result arrays }
{
    let used = s.used;
    let next = used as usize;
    if messages.len() <= next {
        return Stepped::stop_for(Halt::MessageAwaited, s);
    }
    Stepped::moves(s.takes(Instruction::wide(messages[next]), used + 1))
}
