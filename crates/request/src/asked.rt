// What is asked: the command, its file and its options.
// Each argument is understood in turn; one that is not is said at once.
ghost use Rattle.std.specs.Prelude.{◌<◌};

use crate::command::Command;
use crate::draft::Draft;
use crate::option::{Setting, is_option};
use instruction::{QuadSamples, Rules};
use sequence::Sequence;
use system::System;

// A file is told by its place among the arguments.
#[derive(Clone, Copy)]
pub struct Options {
    pub messages: Option<usize>,
    pub trace: Option<usize>,
    pub out: Option<usize>,
    pub hex: bool,
    pub json: bool,
    pub labelled: bool,
    pub rules: Rules,
    pub triggers: u32,
    pub budget: u64,
    pub room: usize,
}

impl Options {
    // What holds where none is given.
    pub(crate) const NONE: Options = Options {
        messages: None,
        trace: None,
        out: None,
        hex: false,
        json: false,
        labelled: false,
        rules: Rules::CURRENT,
        triggers: 0,
        budget: Sequence::BUDGET,
        room: Asked::ROOM as usize,
    };
}

// Of several files, `file` is the first.
#[derive(Clone, Copy)]
pub struct Asked {
    pub command: Command,
    pub file: usize,
    pub several: bool,
    pub wave: QuadSamples,
    pub options: Options,
}

impl Asked {
    // The words of a trace that there is room for, unless more are asked for.
    pub const ROOM: u64 = Sequence::WORDS;

    // The words of a trace that there can be room for.
    pub const MOST_ROOM: u64 = 8 * Sequence::WORDS;
}

// One more argument; behind one that was not understood, only what is too long is still said.
fn with_argument(system: System, draft: Option<Draft>, i: usize) -> Option<Draft> {
    let mut room = io::large_buffer();
    let Some(text) = system.argument(i, &mut room) else {
        eprintln!(system; "aps2: an argument is too long");
        return None;
    };
    draft?.with_argument(system, text, i)
}

// All arguments after the command.
fn after(system: System, command: Command) -> Option<Asked> {
    let draft = (2..system.argument_count()).fold(Some(Draft::of(command)), |draft, i| {
        with_argument(system, draft, i)
    });
    match draft?.whole(system) {
        Ok(asked) => Some(asked),
        Err(missing) => {
            eprintln!(system; "aps2: {missing}");
            None
        }
    }
}

// All that is asked for, where it can be understood.
#[inline(never)]
pub fn read(system: System) -> Option<Asked> {
    let mut room = [0u8; 16];
    match Command::named(system.name(1, &mut room)) {
        Some(command) => after(system, command),
        None => {
            eprintln!(system; "aps2: no such command; ./aps2 --help tells which there are");
            None
        }
    }
}

// Whether the argument at i is a file, where all were understood: no option, and not the value of the one before it.
pub fn is_file(system: System, i: usize) -> bool
    requires { 0 < i }
{
    let mut room = io::large_buffer();
    let before = Setting::named(system.name(i - 1, &mut room));
    before.is_none() && !is_option(system.name(i, &mut room))
}
