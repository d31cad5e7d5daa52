// What changed from one state of a run to another: a line for each number that did, and none for the others.
// Where the run is and how many steps it took is told beside it.
use crate::state::{ConditionName, ENGINES, Entry};
use dispatch::Engines;
use jumps::State;
use sequence::Sequence;
use std::fmt;

// A number by its name, at two times.
#[derive(Clone, Copy)]
pub struct Change<'a> {
    pub name: &'a str,
    pub before: u64,
    pub after: u64,
}

// The counts of all engines, likewise.
#[derive(Clone, Copy)]
struct Counted<'a> {
    name: &'a str,
    before: &'a [u64; Engines::COUNT],
    after: &'a [u64; Engines::COUNT],
}

#[derive(Clone, Copy)]
pub struct Changes<'a> {
    pub before: &'a State,
    pub after: &'a State,
}

impl fmt::Display for Change<'_> {
    fn fmt<W: fmt::Write>(&self, f: &mut fmt::Formatter<W>) -> fmt::Result {
        let Change {
            name,
            before,
            after,
        } = self;
        if before == after {
            return Ok(());
        }
        writeln!(f, "{name}\t{before} -> {after}")
    }
}

// Whether the counts are alike, so that one line tells them all.
fn are_alike(counts: &[u64; Engines::COUNT]) -> bool {
    counts.iter().all(|count| *count == counts[0])
}

impl fmt::Display for Counted<'_> {
    fn fmt<W: fmt::Write>(&self, f: &mut fmt::Formatter<W>) -> fmt::Result {
        let Counted {
            name,
            before,
            after,
        } = *self;
        if are_alike(before) && are_alike(after) {
            if before[0] != after[0] {
                writeln!(f, "\t{name}, all\t{} -> {}", before[0], after[0])?;
            }
            return Ok(());
        }
        for (engine, (before, after)) in ENGINES.iter().zip(before.iter().zip(after.iter())) {
            if before != after {
                writeln!(f, "\t{name}, {engine}\t{before} -> {after}")?;
            }
        }
        Ok(())
    }
}

impl Changes<'_> {
    fn fmt_core<W: fmt::Write>(&self, f: &mut fmt::Formatter<W>) -> fmt::Result {
        let was = self.before.core;
        let is = self.after.core;
        let numbers = [
            ("\tmessages used", was.used, is.used),
            ("\ttrace length", was.sent, is.sent),
            ("\trepeat counter", was.counter, is.counter),
            ("\tregister", was.register, is.register),
            ("\theld", was.held, is.held),
            ("\tstack depth", was.depth, is.depth),
        ];
        for (name, before, after) in numbers {
            let change = Change {
                name,
                before,
                after,
            };
            write!(f, "{change}")?;
        }
        if was.condition != is.condition {
            writeln!(f, "\tcondition\t{}", ConditionName(is.condition))?;
        }
        Ok(())
    }

    // The entry that is on top of the stack, where there is one more than before.
    fn fmt_pushed<W: fmt::Write>(&self, f: &mut fmt::Formatter<W>) -> fmt::Result {
        let before = self.before.core.depth;
        if before < self.after.core.depth && before < Sequence::STACK {
            let depth = before as usize;
            let returns = self.after.returns[depth];
            let counter = self.after.counters[depth];
            let entry = Entry {
                depth,
                returns,
                counter,
            };
            write!(f, "{entry}")?;
        }
        Ok(())
    }
}

impl fmt::Display for Changes<'_> {
    fn fmt<W: fmt::Write>(&self, f: &mut fmt::Formatter<W>) -> fmt::Result {
        self.fmt_core(f)?;
        self.fmt_pushed(f)?;
        let waits = Counted {
            name: "trigger waits",
            before: &self.before.waits,
            after: &self.after.waits,
        };
        let totals = Counted {
            name: "quad-samples",
            before: &self.before.totals,
            after: &self.after.totals,
        };
        write!(f, "{waits}{totals}")
    }
}
