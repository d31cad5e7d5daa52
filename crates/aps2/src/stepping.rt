// A run that is stepped: its words come from a file and the lesson from standard input.
// What it is refused for before its first step is told as everywhere.
ghost use Rattle.std.specs.Prelude.{◌≤◌, length};

use crate::answer::Question;
use crate::ending::Ending;
use crate::space;
use files::messages::messages_of;
use lesson::{Lesson, Messages};
use request::asked::Options;
use told::Said;

// With the first n messages, and as much room as is asked for.
#[inline(never)]
fn teach(question: Question<'_>, messages: &mut [u8], n: usize) -> Ending
    requires { n ≤ length messages.old }
{
    let Options {
        rules,
        triggers,
        budget,
        room,
        ..
    } = question.asked.options;
    let asked = paused::Asked {
        wave: question.asked.wave,
        rules,
        triggers,
        budget,
    };
    let mut trace = space::for_trace();
    let room = trace.len().min(room);
    let mut lesson = Lesson::start(
        question.system,
        question.source,
        asked,
        Messages::of(messages, n),
        &mut trace[..room],
    );
    match lesson.teach() {
        Ok(()) => Ending::ACCEPTED,
        Err(number) => {
            println!(question.system; "refused: {number}");
            Ending::refused(number)
        }
    }
}

#[inline(never)]
pub fn step(question: Question<'_>) -> Result<Ending, Said> {
    let mut messages = io::large_buffer();
    let mut numbers = space::for_words();
    let told = question.asked.options.messages;
    let n = messages_of(question.system, told, &mut numbers, &mut messages)?;
    Ok(teach(question, &mut messages, n))
}
