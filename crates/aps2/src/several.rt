// The check of several files, and of any number of them as JSON: a line for each, whatever became of those before it.
// Nothing is kept between files but how many were accepted.
use crate::answer::{Question, say_bad_text, say_bad_text_by_name};
use crate::ending::Ending;
use crate::space;
use as_json::file;
use as_json::file::Firmware;
use files::input::words_of;
use files::texts::Rooms;
use files::trouble::{BadText, Trouble};
use report::words::Bit;
use request::asked;
use request::asked::{Asked, Options};
use std::fmt;
use system::System;
use told::Status;
use verdict::Verdict;

// How many files were accepted, refused, and had no answer.
#[derive(Clone, Copy)]
struct Tally {
    accepted: u64,
    refused: u64,
    missing: u64,
}

impl Tally {
    fn count(&mut self, status: Status) {
        match status {
            Status::Accepted => self.accepted = self.accepted.wrapping_add(1),
            Status::Refused => self.refused = self.refused.wrapping_add(1),
            Status::NoAnswer => self.missing = self.missing.wrapping_add(1),
        }
    }

    // Accepted only where all were.
    fn status(self) -> Status {
        if self.missing != 0 {
            Status::NoAnswer
        } else if self.refused != 0 {
            Status::Refused
        } else {
            Status::Accepted
        }
    }
}

impl fmt::Display for Tally {
    fn fmt<W: fmt::Write>(&self, f: &mut fmt::Formatter<W>) -> fmt::Result {
        let Tally {
            accepted,
            refused,
            missing,
        } = *self;
        write!(f, "{accepted} accepted, {refused} refused")?;
        if missing != 0 {
            write!(f, ", {missing} without an answer")?;
        }
        Ok(())
    }
}

// The name of the file, as it was given.
#[inline(never)]
fn say_name(system: System, asked: Asked) {
    let mut buffer = io::large_buffer();
    system.print_bytes(system.name(asked.file, &mut buffer));
}

fn say_no_answer(system: System, asked: Asked) {
    if asked.options.json {
        file::begin(system, asked.file, Status::NoAnswer.number());
        file::end(system);
        return;
    }
    say_name(system, asked);
    println!(system; ": no answer");
}

// A text that is refused.
fn say_refused_text(system: System, bad: BadText<'_>, asked: Asked) {
    if asked.options.json {
        say_bad_text_by_name(system, bad, asked.file);
        return;
    }
    say_name(system, asked);
    print!(system; ": ");
    say_bad_text(system, bad);
}

fn say_verdict(question: Question<'_>, verdict: Verdict) {
    let Question { system, source, .. } = question;
    let number = verdict.refusal.number;
    let n = source.words.len();
    if number == 0 {
        println!(system; ": accepted: {n} words");
        return;
    }
    print!(system; ": refused: {number}");
    if n != 0 {
        print!(system; " at word {}{}", verdict.place.0, Bit(verdict.refusal));
        if let Some(line) = source.line_of(verdict.place) {
            print!(system; ", line {line}");
        }
    }
    println!(system);
}

// The line is that of the word, 0 beside 0.
fn say_verdict_by_name(question: Question<'_>, verdict: Verdict) {
    let Question {
        system,
        source,
        asked,
    } = question;
    let number = verdict.refusal.number;
    let place = verdict.place.0;
    let bit = verdict.refusal.bit;
    print!(system; r#","number":{number},"place":{place},"bit":{bit}"#);
    if let Some(line) = source.line_of(verdict.place) {
        let line = if number == 0 { 0 } else { line };
        print!(system; r#","line":{line}"#);
    }
    let words = source.words.len();
    let wave = asked.wave.0;
    let firmware = Firmware(asked.options.rules);
    print!(system; r#","words":{words},"wave":{wave},"firmware":{firmware}"#);
    file::end(system);
}

#[inline(never)]
fn judge(question: Question<'_>) -> Status {
    let Question {
        system,
        source,
        asked,
    } = question;
    let mut marks = space::for_words();
    let verdict = verdict::check(source.words, asked.wave, asked.options.rules, &mut marks);
    let status = if verdict.refusal.number == 0 {
        Status::Accepted
    } else {
        Status::Refused
    };
    if asked.options.json {
        file::begin(system, asked.file, status.number());
        say_verdict_by_name(question, verdict);
    } else {
        say_name(system, asked);
        say_verdict(question, verdict);
    }
    status
}

// One file, and its exit status if it were alone.
#[inline(never)]
fn check_file(system: System, asked: Asked) -> Status {
    let Asked {
        file,
        wave,
        options,
        ..
    } = asked;
    let Options { hex, rules, .. } = options;
    let mut words = space::for_words();
    let mut lines = space::for_lines();
    let mut line = io::buffer();
    let rooms = Rooms {
        words: &mut words,
        lines: &mut lines,
        line: &mut line,
    };
    match words_of(system, file, hex, rules, wave, rooms) {
        Ok(source) => judge(Question {
            system,
            source,
            asked,
        }),
        Err(Trouble::Refused(bad)) => {
            say_refused_text(system, bad, asked);
            Status::Refused
        }
        Err(Trouble::Said) => {
            say_no_answer(system, asked);
            Status::NoAnswer
        }
    }
}

pub fn check(system: System, asked: Asked) -> Ending {
    let mut tally = Tally {
        accepted: 0,
        refused: 0,
        missing: 0,
    };
    for file in 2..system.argument_count() {
        if asked::is_file(system, file) {
            tally.count(check_file(system, Asked { file, ..asked }));
        }
    }
    if asked.several && !asked.options.json {
        println!(system; "{tally}");
    }
    Ending::of(tally.status())
}
