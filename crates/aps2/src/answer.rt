// The answers: the listing; the verdict with the word that it is about; how a run ended, and all that it left; the words of a listing or
// block; a listing moved. Each comes as text for a person or as an object for a script.
use crate::ending::Ending;
use crate::space;
use as_json::file;
use as_json::file::Firmware;
use as_json::words::{Digits, Words};
use files::messages::messages_of;
use files::out;
use files::out::save;
use files::room::front;
use files::trouble::BadText;
use instruction::{QuadSamples, Rules};
use rehearsal::Answer;
use report::end::End;
use report::source::Source;
use report::state::Left;
use report::words::{Hexadecimal, Place, Trace, Typed, WholeListing};
use request::asked::{Asked, Options};
use std::fmt;
use system::System;
use told::{Said, Status};

// What is asked of the words that were read.
#[derive(Clone, Copy)]
pub struct Question<'a> {
    pub system: System,
    pub source: Source<'a>,
    pub asked: Asked,
}

// Words that were accepted.
#[derive(Clone, Copy)]
struct Accepted {
    words: usize,
    wave: QuadSamples,
    rules: Rules,
}

impl fmt::Display for Accepted {
    fn fmt<W: fmt::Write>(&self, f: &mut fmt::Formatter<W>) -> fmt::Result {
        let firmware = self.rules.firmware;
        let older = if firmware.is_older() {
            ", older firmware"
        } else {
            ""
        };
        let Accepted { words, wave, .. } = self;
        let wave = wave.0;
        write!(
            f,
            "accepted: {words} words, {wave} quad-samples of waveform memory{older}"
        )
    }
}

impl Question<'_> {
    pub fn list(self) -> Ending {
        let Options { json, rules, .. } = self.asked.options;
        let words = self.source.words;
        if json {
            file::begin(self.system, self.asked.file, Status::Accepted.number());
            let firmware = Firmware(rules);
            let listing = Words { words, rules };
            print!(self.system; r#","firmware":{firmware},"listing":{listing}"#);
            file::end(self.system);
        } else {
            print!(self.system; "{}", WholeListing { words, rules });
        }
        Ending::ACCEPTED
    }

    #[inline(never)]
    pub fn check(self) -> Ending {
        let Asked { wave, options, .. } = self.asked;
        let rules = options.rules;
        let words = self.source.words;
        let mut marks = space::for_words();
        let verdict = verdict::check(words, wave, rules, &mut marks);
        let number = verdict.refusal.number;
        if number == 0 {
            let words = words.len();
            println!(self.system; "{}", Accepted { words, wave, rules });
            return Ending::ACCEPTED;
        }
        let place = Place {
            source: self.source,
            refusal: verdict.refusal,
            place: verdict.place,
            rules,
        };
        print!(self.system; "refused: {number}{place}");
        Ending::refused(number)
    }

    fn say_run(self, answer: Answer, trace: &[u64]) {
        let rules = self.asked.options.rules;
        let place = Place {
            source: self.source,
            refusal: answer.end,
            place: answer.state.core.address,
            rules,
        };
        let trace = Trace {
            words: trace,
            rules,
        };
        print!(self.system; "{}{place}{}{trace}", End(answer.end), Left(&answer.state));
    }

    fn say_run_by_name(self, answer: Answer, trace: &[u64]) {
        let system = self.system;
        let Asked { wave, options, .. } = self.asked;
        let words = self.source.words.len();
        file::begin(system, self.asked.file, End(answer.end).status().number());
        print!(system; r#","end":{},"bit":{}"#, answer.end.number, answer.end.bit);
        if let Some(line) = self.source.line_of(answer.state.core.address) {
            print!(system; r#","line":{line}"#);
        }
        let firmware = Firmware(options.rules);
        let left = as_json::state::Left(&answer.state);
        print!(system;
            r#","words":{words},"wave":{},"firmware":{firmware}{left},"trace":{}"#,
            wave.0,
            Digits(trace)
        );
        file::end(system);
    }

    // What a run is told that has come to its end. The trace goes to its file first, so that there is no answer without it.
    fn tell(self, answer: Answer, trace: &[u64]) -> Result<Ending, Said> {
        let status = End(answer.end).status();
        if let Some(argument) = self.asked.options.trace {
            save(self.system, argument, out::Answer::Words(trace))?;
        }
        if self.asked.options.json {
            self.say_run_by_name(answer, trace);
            return Ok(Ending::of(status));
        }
        self.say_run(answer, trace);
        Ok(Ending {
            status,
            number: answer.end.number,
        })
    }

    // A rehearsal with these messages, and as much room as is asked for.
    #[inline(never)]
    fn rehearse(self, messages: &[u8]) -> Result<Ending, Said> {
        let Options {
            rules,
            triggers,
            budget,
            room,
            ..
        } = self.asked.options;
        let mut space = space::for_trace();
        let room = space.len().min(room);
        let trace = &mut space[..room];
        let words = self.source.words;
        let wave = self.asked.wave;
        let answer = rehearsal::run(words, wave, rules, messages, triggers, trace, budget);
        self.tell(answer, front(trace, answer.state.core.sent))
    }

    #[inline(never)]
    pub fn run(self) -> Result<Ending, Said> {
        let mut messages = io::large_buffer();
        let mut numbers = space::for_words();
        let told = self.asked.options.messages;
        let n = messages_of(self.system, told, &mut numbers, &mut messages)?;
        self.rehearse(&messages[..n])
    }

    // The words of a listing or block: as text, or raw into a file.
    pub fn words(self) -> Result<Ending, Said> {
        let words = self.source.words;
        match self.asked.options.out {
            None => print!(self.system; "{}", Hexadecimal(words)),
            Some(argument) => {
                save(self.system, argument, out::Answer::Words(words))?;
                println!(self.system; "{} words", words.len());
            }
        }
        Ok(Ending::ACCEPTED)
    }
}

// A listing that was moved: as it is, or into a file.
pub fn text(system: System, text: &[u8], out: Option<usize>) -> Result<Ending, Said> {
    match out {
        None => system.print_bytes(text),
        Some(argument) => {
            save(system, argument, out::Answer::Text(text))?;
            println!(system; "{} bytes", text.len());
        }
    }
    Ok(Ending::ACCEPTED)
}

// A text that is refused: its number, and the line where it has one.
pub fn say_bad_text(system: System, bad: BadText<'_>) {
    match bad.line {
        None => println!(system; "refused: {}", bad.number),
        Some(line) => println!(system; "refused: {} at line {line}", bad.number),
    }
}

// The same by name, for the file that an argument names.
pub fn say_bad_text_by_name(system: System, bad: BadText<'_>, argument: usize) {
    file::begin(system, argument, Status::Refused.number());
    let line = bad.line.unwrap_or(0);
    print!(system; r#","number":{},"line":{line}"#, bad.number);
    file::end(system);
}

// And what stands in that line.
pub fn refused_text(system: System, bad: BadText<'_>, asked: Asked) -> Ending {
    if asked.options.json {
        say_bad_text_by_name(system, bad, asked.file);
        return Ending::of(Status::Refused);
    }
    say_bad_text(system, bad);
    if bad.line.is_some() {
        print!(system; "{}", Typed(bad.shown));
    }
    Ending::refused(bad.number)
}
