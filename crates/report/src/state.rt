// All that a run left, by name: a line for each number of its state,
// with the entries of the stack and the counts of the engines set in.
use dispatch::Engines;
use jumps::{Condition, State};
use std::fmt;

// The names of the engines, in the order of their counts.
pub const ENGINES: [&str; Engines::COUNT] = [
    "waveform",
    "marker 0",
    "marker 1",
    "marker 2",
    "marker 3",
    "modulator",
];

#[derive(Clone, Copy)]
pub struct ConditionName(pub Condition);

// An entry of the stack, at its depth.
#[derive(Clone, Copy)]
pub struct Entry {
    pub depth: usize,
    pub returns: u64,
    pub counter: u64,
}

// One count for each engine.
#[derive(Clone, Copy)]
struct Counts<'a>(&'a [u64; Engines::COUNT]);

// All that a run left.
#[derive(Clone, Copy)]
pub struct Left<'a>(pub &'a State);

impl fmt::Display for ConditionName {
    fn fmt<W: fmt::Write>(&self, f: &mut fmt::Formatter<W>) -> fmt::Result {
        f.write_str(match self.0 {
            Condition::Absent => "none",
            Condition::Fails => "false",
            Condition::Holds => "true",
        })
    }
}

impl fmt::Display for Entry {
    fn fmt<W: fmt::Write>(&self, f: &mut fmt::Formatter<W>) -> fmt::Result {
        let Entry {
            depth,
            returns,
            counter,
        } = self;
        writeln!(
            f,
            "\tentry {depth}\treturns to {returns}\tcounter\t{counter}"
        )
    }
}

impl fmt::Display for Counts<'_> {
    fn fmt<W: fmt::Write>(&self, f: &mut fmt::Formatter<W>) -> fmt::Result {
        let counts = self.0;
        for (engine, count) in ENGINES.iter().zip(counts.iter()) {
            writeln!(f, "\t{engine}\t{count}")?;
        }
        Ok(())
    }
}

impl Left<'_> {
    fn fmt_core<W: fmt::Write>(&self, f: &mut fmt::Formatter<W>) -> fmt::Result {
        let core = self.0.core;
        writeln!(f, "address\t{}", core.address.0)?;
        writeln!(f, "steps\t{}", core.steps)?;
        writeln!(f, "messages used\t{}", core.used)?;
        writeln!(f, "trace length\t{}", core.sent)?;
        writeln!(f, "repeat counter\t{}", core.counter)?;
        writeln!(f, "register\t{}", core.register)?;
        writeln!(f, "condition\t{}", ConditionName(core.condition))?;
        writeln!(f, "held\t{}", core.held)?;
        writeln!(f, "stack depth\t{}", core.depth)
    }

    fn fmt_stack<W: fmt::Write>(&self, f: &mut fmt::Formatter<W>) -> fmt::Result {
        let entries = self.0.returns.iter().zip(self.0.counters.iter());
        for (depth, (returns, counter)) in entries.enumerate().take(self.0.core.depth as usize) {
            let entry = Entry {
                depth,
                returns: *returns,
                counter: *counter,
            };
            write!(f, "{entry}")?;
        }
        Ok(())
    }
}

impl fmt::Display for Left<'_> {
    fn fmt<W: fmt::Write>(&self, f: &mut fmt::Formatter<W>) -> fmt::Result {
        self.fmt_core(f)?;
        self.fmt_stack(f)?;
        let waits = Counts(&self.0.waits);
        let totals = Counts(&self.0.totals);
        write!(f, "trigger waits\n{waits}quad-samples\n{totals}")
    }
}
