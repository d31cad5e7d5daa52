// The options by their names: switches, which stand alone, and settings, which have a value after them.
// What begins like an option is none of the files.
use std::fmt;

#[derive(Clone, Copy, PartialEq, Eq)]
pub enum Switch {
    Hex,
    Json,
    Labels,
}

#[derive(Clone, Copy, PartialEq, Eq)]
pub enum Setting {
    Messages,
    Trace,
    Out,
    Firmware,
    Wave,
    Triggers,
    Budget,
    Room,
}

#[derive(Clone, Copy, PartialEq, Eq)]
pub enum OptionName {
    Switch(Switch),
    Setting(Setting),
}

impl Switch {
    fn named(text: &[u8]) -> Option<Switch> {
        match text {
            b"--hex" => Some(Switch::Hex),
            b"--json" => Some(Switch::Json),
            b"--labels" => Some(Switch::Labels),
            _ => None,
        }
    }
}

impl Setting {
    pub fn named(text: &[u8]) -> Option<Setting> {
        match text {
            b"--messages" => Some(Setting::Messages),
            b"--trace" => Some(Setting::Trace),
            b"--out" => Some(Setting::Out),
            b"--firmware" => Some(Setting::Firmware),
            b"--wave" => Some(Setting::Wave),
            b"--triggers" => Some(Setting::Triggers),
            b"--budget" => Some(Setting::Budget),
            b"--room" => Some(Setting::Room),
            _ => None,
        }
    }
}

impl fmt::Display for Setting {
    fn fmt<W: fmt::Write>(&self, f: &mut fmt::Formatter<W>) -> fmt::Result {
        f.write_str(match self {
            Setting::Messages => "--messages",
            Setting::Trace => "--trace",
            Setting::Out => "--out",
            Setting::Firmware => "--firmware",
            Setting::Wave => "--wave",
            Setting::Triggers => "--triggers",
            Setting::Budget => "--budget",
            Setting::Room => "--room",
        })
    }
}

impl OptionName {
    pub fn named(text: &[u8]) -> Option<OptionName> {
        match Switch::named(text) {
            Some(switch) => Some(OptionName::Switch(switch)),
            None => Setting::named(text).map(OptionName::Setting),
        }
    }
}

// A single "-" is the name of standard input.
pub fn is_option(text: &[u8]) -> bool {
    matches!(text, [b'-', _, ..])
}
