// The commands by their names, and which options each has.
// What a command makes and needs decides that.
use crate::option::{OptionName, Setting, Switch};

#[derive(Clone, Copy, PartialEq, Eq)]
pub enum Command {
    List,
    Check,
    Run,
    Step,
    Words,
    Block,
    Labels,
    Addresses,
}

impl Command {
    pub(crate) fn named(text: &[u8]) -> Option<Command> {
        match text {
            b"list" => Some(Command::List),
            b"check" => Some(Command::Check),
            b"run" => Some(Command::Run),
            b"step" => Some(Command::Step),
            b"words" => Some(Command::Words),
            b"block" => Some(Command::Block),
            b"labels" => Some(Command::Labels),
            b"addresses" => Some(Command::Addresses),
            _ => None,
        }
    }

    // Whether it takes the steps of a run.
    fn steps(self) -> bool {
        matches!(self, Command::Run | Command::Step)
    }

    pub(crate) fn needs_wave(self) -> bool {
        self.steps() || matches!(self, Command::Check | Command::Block)
    }

    // Whether it makes words of a text.
    fn makes_words(self) -> bool {
        matches!(self, Command::Words | Command::Block)
    }

    // Whether it moves a listing from one edition to the other.
    fn moves(self) -> bool {
        matches!(self, Command::Labels | Command::Addresses)
    }

    // Whether its answer may go to a file.
    fn goes_out(self) -> bool {
        self.makes_words() || self.moves()
    }

    // Words that are made and listings that are moved may go to a file, and every other command reads words in two ways and, but for a run
    // that is stepped, has two ways to tell its answer. The list alone is told with labels.
    fn has_switch(self, switch: Switch) -> bool {
        match switch {
            Switch::Labels => self == Command::List,
            Switch::Hex => !self.goes_out(),
            Switch::Json => !self.goes_out() && self != Command::Step,
        }
    }

    // Words are read for a firmware but from a block, some commands need a waveform memory, a run that is stepped writes no trace, and the rest
    // are of a run.
    fn has_setting(self, setting: Setting) -> bool {
        match setting {
            Setting::Firmware => self != Command::Block && !self.moves(),
            Setting::Wave => self.needs_wave(),
            Setting::Out => self.goes_out(),
            Setting::Trace => self == Command::Run,
            Setting::Messages | Setting::Triggers | Setting::Budget | Setting::Room => self.steps(),
        }
    }

    pub(crate) fn has(self, option: OptionName) -> bool {
        match option {
            OptionName::Switch(switch) => self.has_switch(switch),
            OptionName::Setting(setting) => self.has_setting(setting),
        }
    }
}
