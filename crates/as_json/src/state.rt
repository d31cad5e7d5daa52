// All that a run left, by name.
// Each is a member of the object, behind others.
use dispatch::Engines;
use jumps::State;
use report::state::ConditionName;
use std::fmt;

// One count for each engine.
#[derive(Clone, Copy)]
struct Counts<'a>(&'a [u64; Engines::COUNT]);

// All that a run left.
#[derive(Clone, Copy)]
pub struct Left<'a>(pub &'a State);

impl fmt::Display for Counts<'_> {
    fn fmt<W: fmt::Write>(&self, f: &mut fmt::Formatter<W>) -> fmt::Result {
        let [waveform, marker_0, marker_1, marker_2, marker_3, modulator] = *self.0;
        write!(
            f,
            r#"{{"waveform":{waveform},"marker_0":{marker_0},"marker_1":{marker_1}"#
        )?;
        write!(
            f,
            r#","marker_2":{marker_2},"marker_3":{marker_3},"modulator":{modulator}}}"#
        )
    }
}

impl Left<'_> {
    fn fmt_core<W: fmt::Write>(&self, f: &mut fmt::Formatter<W>) -> fmt::Result {
        let core = self.0.core;
        write!(f, r#","address":{}"#, core.address.0)?;
        write!(f, r#","steps":{}"#, core.steps)?;
        write!(f, r#","messages_used":{}"#, core.used)?;
        write!(f, r#","trace_length":{}"#, core.sent)?;
        write!(f, r#","repeat_counter":{}"#, core.counter)?;
        write!(f, r#","register":{}"#, core.register)?;
        write!(f, r#","condition":"{}""#, ConditionName(core.condition))?;
        write!(f, r#","held":{}"#, core.held)?;
        write!(f, r#","stack_depth":{}"#, core.depth)
    }

    fn fmt_stack<W: fmt::Write>(&self, f: &mut fmt::Formatter<W>) -> fmt::Result {
        let entries = self.0.returns.iter().zip(self.0.counters.iter());
        for (depth, (returns, counter)) in entries.enumerate().take(self.0.core.depth as usize) {
            let comma = if depth == 0 { "" } else { "," };
            write!(
                f,
                r#"{comma}{{"returns_to":{returns},"counter":{counter}}}"#
            )?;
        }
        Ok(())
    }
}

impl fmt::Display for Left<'_> {
    fn fmt<W: fmt::Write>(&self, f: &mut fmt::Formatter<W>) -> fmt::Result {
        self.fmt_core(f)?;
        write!(f, r#","stack":["#)?;
        self.fmt_stack(f)?;
        let waits = Counts(&self.0.waits);
        let totals = Counts(&self.0.totals);
        write!(f, r#"],"trigger_waits":{waits},"quad_samples":{totals}"#)
    }
}
