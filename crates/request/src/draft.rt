// What was asked so far, while arguments are still to come.
// What is not understood is said at once; then there is no draft any more.
use crate::asked::{Asked, Options};
use crate::command::Command;
use crate::option::{OptionName, Setting, Switch, is_option};
use instruction::{QuadSamples, Rules};
use sequence::Sequence;
use std::fmt;
use system::System;
use typed::{AmountError, number};

// An option that waits for its value is `pending`.
#[derive(Clone, Copy)]
pub struct Draft {
    command: Command,
    pending: Option<Setting>,
    file: Option<usize>,
    several: bool,
    wave: Option<QuadSamples>,
    options: Options,
}

// What is still missing, or too much, when there are no more arguments.
#[derive(Clone, Copy)]
pub enum Missing {
    Value(Setting),
    File,
    Wave,
    // Words that do not come from standard input.
    Words,
    // One of two answers.
    Choice,
}

impl fmt::Display for Missing {
    fn fmt<W: fmt::Write>(&self, f: &mut fmt::Formatter<W>) -> fmt::Result {
        match self {
            Missing::Value(setting) => write!(f, "{setting} needs a value after it"),
            Missing::File => write!(f, "which file? A name, or - for standard input"),
            Missing::Wave => write!(
                f,
                "how long is the waveform memory? --wave and a number of quad-samples"
            ),
            Missing::Words => write!(
                f,
                "a lesson is heard from standard input, so its words must come from a file"
            ),
            Missing::Choice => write!(
                f,
                "--labels or --json, not both: JSON tells the addresses of jumps"
            ),
        }
    }
}

// What is wrong with the value of an option.
fn complain_of_value(system: System, setting: Setting, text: &[u8], why: impl fmt::Display + Drop) {
    eprint!(system; "aps2: {setting} ");
    system.eprint_bytes(text);
    eprintln!(system; " {why}");
}

// The number after an option.
fn counted(system: System, setting: Setting, text: &[u8], most: u32) -> Option<u64> {
    match number(text, most) {
        Ok(n) => return Some(n),
        Err(AmountError::NoNumber) => {
            let why = "is no number; write it in decimal digits";
            complain_of_value(system, setting, text, why);
        }
        Err(AmountError::TooLarge) => {
            let why = format_args!("is too large: {most} is the most");
            complain_of_value(system, setting, text, why);
        }
    }
    None
}

// The rules of the firmware after its option.
fn rules_named(system: System, text: &[u8]) -> Option<Rules> {
    match text {
        b"older" => Some(Rules::OLDER),
        b"current" => Some(Rules::CURRENT),
        _ => {
            let why = "is neither older nor current; firmware 2.5 to 2.33 is older";
            complain_of_value(system, Setting::Firmware, text, why);
            None
        }
    }
}

// Whether an argument names standard input.
fn is_input(system: System, argument: usize) -> bool {
    let mut room = io::large_buffer();
    system.name(argument, &mut room) == b"-".as_slice()
}

impl Draft {
    pub fn of(command: Command) -> Draft {
        Draft {
            command,
            pending: None,
            file: None,
            several: false,
            wave: None,
            options: Options::NONE,
        }
    }

    // A word that is no option and no value: a file. The check takes several.
    fn with_file(self, system: System, text: &[u8], i: usize) -> Option<Draft> {
        if self.file.is_none() {
            return Some(Draft {
                file: Some(i),
                ..self
            });
        }
        if self.command == Command::Check {
            return Some(Draft {
                several: true,
                ..self
            });
        }
        eprint!(system; "aps2: one file at a time, and ");
        system.eprint_bytes(text);
        eprintln!(system; " is one more; check takes several");
        None
    }

    fn with_switch(mut self, switch: Switch) -> Draft {
        match switch {
            Switch::Hex => self.options.hex = true,
            Switch::Json => self.options.json = true,
            Switch::Labels => self.options.labelled = true,
        }
        self
    }

    fn with_option(self, system: System, text: &[u8]) -> Option<Draft> {
        match OptionName::named(text).filter(|option| self.command.has(*option)) {
            Some(OptionName::Switch(switch)) => Some(self.with_switch(switch)),
            Some(OptionName::Setting(setting)) => Some(Draft {
                pending: Some(setting),
                ..self
            }),
            None => {
                eprint!(system; "aps2: ");
                system.eprint_bytes(text);
                eprintln!(system;
                    " is no option of this command; --help after the command tells which there are"
                );
                None
            }
        }
    }

    // The value after an option, the argument at i.
    fn with_value(
        mut self,
        system: System,
        setting: Setting,
        text: &[u8],
        i: usize,
    ) -> Option<Draft> {
        let up_to = |most: u32| counted(system, setting, text, most);
        self.pending = None;
        match setting {
            Setting::Messages => self.options.messages = Some(i),
            Setting::Trace => self.options.trace = Some(i),
            Setting::Out => self.options.out = Some(i),
            Setting::Firmware => self.options.rules = rules_named(system, text)?,
            Setting::Wave => self.wave = Some(QuadSamples(up_to(Sequence::WAVE.0 as u32)?)),
            Setting::Triggers => self.options.triggers = (up_to(u32::MAX)? & 0xffff_ffff) as u32,
            Setting::Budget => self.options.budget = up_to(Sequence::BUDGET as u32)?,
            Setting::Room => self.options.room = up_to(Asked::MOST_ROOM as u32)? as usize,
        }
        Some(self)
    }

    pub fn with_argument(self, system: System, text: &[u8], i: usize) -> Option<Draft> {
        if let Some(setting) = self.pending {
            return self.with_value(system, setting, text, i);
        }
        if is_option(text) {
            return self.with_option(system, text);
        }
        self.with_file(system, text, i)
    }

    // All that is asked for, when there are no more arguments.
    pub fn whole(self, system: System) -> Result<Asked, Missing> {
        if let Some(setting) = self.pending {
            return Err(Missing::Value(setting));
        }
        let file = self.file.ok_or(Missing::File)?;
        if self.command.needs_wave() && self.wave.is_none() {
            return Err(Missing::Wave);
        }
        if self.command == Command::Step && is_input(system, file) {
            return Err(Missing::Words);
        }
        if self.options.labelled && self.options.json {
            return Err(Missing::Choice);
        }
        Ok(Asked {
            command: self.command,
            file,
            several: self.several,
            wave: self.wave.unwrap_or(Sequence::WAVE),
            options: self.options,
        })
    }
}
