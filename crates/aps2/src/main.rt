// aps2: lists, checks, rehearses and steps the words of a file, reads listings back, moves them and translates blocks, for the script of the same name.
// What is worth a proof stands in the libraries; here what is asked for is answered.
#![tactic(auto)]

mod answer;
mod ending;
mod moving;
mod several;
mod space;
mod stepping;

use answer::Question;
use ending::Ending;
use files::input::words_of;
use files::moves::Way;
use files::texts::{Rooms, Written, words_in_text};
use files::trouble::Trouble;
use report::source::Source;
use request::asked;
use request::asked::{Asked, Options};
use request::command::Command;
use system::System;
use told::{Said, Status};

// What `words` reads is a listing, and what `block` reads a block, whatever its name.
fn find<'a>(system: System, asked: Asked, rooms: Rooms<'a>) -> Result<Source<'a>, Trouble<'a>> {
    let Options { hex, rules, .. } = asked.options;
    let Asked { file, wave, .. } = asked;
    match asked.command {
        Command::Words => words_in_text(system, file, Written::Listing(rules), rooms),
        Command::Block => words_in_text(system, file, Written::Block(wave), rooms),
        _ => words_of(system, file, hex, rules, wave, rooms),
    }
}

fn without_words(system: System, asked: Asked) {
    if asked.options.json {
        as_json::file::begin(system, asked.file, Status::NoAnswer.number());
        as_json::file::end(system);
    }
}

// The words of the file are read, and then answered for.
#[inline(never)]
fn with_words<F: FnOnce(Question<'_>) -> Result<Ending, Said>>(
    system: System,
    asked: Asked,
    answer: F,
) -> Result<Ending, Said>
    requires { F.IsAlwaysCallable answer }
{
    let mut words = space::for_words();
    let mut lines = space::for_lines();
    let mut line = io::buffer();
    let rooms = Rooms {
        words: &mut words,
        lines: &mut lines,
        line: &mut line,
    };
    match find(system, asked, rooms) {
        Ok(source) => answer(Question {
            system,
            source,
            asked,
        }),
        Err(Trouble::Refused(bad)) => Ok(answer::refused_text(system, bad, asked)),
        Err(Trouble::Said) => {
            without_words(system, asked);
            Err(Said)
        }
    }
}

fn serve(system: System, asked: Asked) -> Result<Ending, Said> {
    let Options { json, labelled, .. } = asked.options;
    match asked.command {
        Command::List if labelled => with_words(system, asked, |question| {
            moving::list(system, question.source.words, asked)
        }),
        Command::List => with_words(system, asked, |question| Ok(question.list())),
        Command::Check if asked.several || json => Ok(several::check(system, asked)),
        Command::Check => with_words(system, asked, |question| Ok(question.check())),
        Command::Run => with_words(system, asked, |question| question.run()),
        Command::Step => with_words(system, asked, stepping::step),
        Command::Words | Command::Block => with_words(system, asked, |question| question.words()),
        Command::Labels => moving::serve(system, Way::ToLabels, asked),
        Command::Addresses => moving::serve(system, Way::ToAddresses, asked),
    }
}

fn main(rt: HostRuntime) {
    let system = System::of(rt);
    let ending = match asked::read(system) {
        Some(asked) => serve(system, asked).unwrap_or_else(Ending::from),
        None => Ending::from(Said),
    };
    ending.tell();
}
