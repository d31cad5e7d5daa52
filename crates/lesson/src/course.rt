// The course of a lesson: each line is heard, done and told, until it is enough.
// A step back is a run from the fresh state with one step less, which comes to the same.
use crate::heard::hear;
use crate::messages::Messages;
use crate::wish::{Wish, wish_in};
use instruction::{Refusal, WordAddress};
use jumps::Halt;
use paused::{Asked, Paused, gone_on, stepped};
use rehearsal::Answer;
use report::changes::{Change, Changes};
use report::end::End;
use report::source::Source;
use report::state::Left;
use report::words::{Place, WordAt};
use std::fmt;
use system::System;

// What a lesson has come to: the run, and all that was given so far.
#[derive(Drop)]
pub struct Lesson<'s, 'm, 't> {
    system: System,
    source: Source<'s>,
    asked: Asked,
    messages: Messages<'m>,
    trace: &'t mut [u64],
    paused: Paused,
}

// What a lesson can do about an end.
#[derive(Clone, Copy)]
struct Remedy(Refusal);

impl fmt::Display for Remedy {
    fn fmt<W: fmt::Write>(&self, f: &mut fmt::Formatter<W>) -> fmt::Result {
        f.write_str(match Halt::told_by(self.0.number) {
            Some(Halt::BudgetSpent) => "the budget is spent",
            Some(Halt::TriggerAwaited) => "a trigger is awaited: trigger gives one more",
            Some(Halt::MessageAwaited) => {
                "a message is awaited: message and a number gives one more"
            }
            Some(Halt::TraceFull) => "the trace is full; --room gives more",
            None => "nothing comes after this; back takes the last step back",
        })
    }
}

// The number of a run that is refused before its first step.
fn refused(words: &[u64], trace: &mut [u64], asked: Asked) -> Option<u64> {
    let none = Asked { budget: 0, ..asked };
    let moved = gone_on(words, b"", trace, Paused::fresh(), none);
    match moved.end.number {
        Answer::BUDGET_SPENT => None,
        number => Some(number),
    }
}

impl<'s, 'm, 't> Lesson<'s, 'm, 't> {
    pub fn start(
        system: System,
        source: Source<'s>,
        asked: Asked,
        messages: Messages<'m>,
        trace: &'t mut [u64],
    ) -> Self {
        Lesson {
            system,
            source,
            asked,
            messages,
            trace,
            paused: Paused::fresh(),
        }
    }

    fn word_at(&self, place: WordAddress) -> WordAt<'_> {
        WordAt {
            words: self.source.words,
            place,
            rules: self.asked.rules,
        }
    }

    // The word that comes next, or that none does.
    fn say_next(&self) {
        print!(self.system; "next: {}", self.word_at(self.paused.state.core.address));
    }

    fn say_stop(&self, end: Refusal) {
        let place = Place {
            source: self.source,
            refusal: end,
            place: self.paused.state.core.address,
            rules: self.asked.rules,
        };
        println!(self.system; "{}{place}{}", End(end), Remedy(end));
    }

    // A step that is done is told: its number, its word, and what it changed; of one that is not, why. Tells which.
    fn one_step(&mut self) -> bool {
        let before = self.paused.state;
        let moved = stepped(
            self.source.words,
            self.messages.given(),
            self.trace,
            self.paused,
            self.asked,
        );
        self.paused = moved.paused;
        if moved.end.number != 0 {
            self.say_stop(moved.end);
            return false;
        }
        let word = self.word_at(before.core.address);
        let after = &self.paused.state;
        let changes = Changes {
            before: &before,
            after,
        };
        print!(self.system; "step {}: {word}{changes}", after.core.steps);
        true
    }

    fn many_steps(&mut self, steps: u64) -> bool {
        for _ in 0..steps {
            if !self.one_step() {
                return false;
            }
        }
        true
    }

    // To the end, whatever it is.
    fn to_the_end(&mut self) {
        let before = self.paused.state;
        let moved = gone_on(
            self.source.words,
            self.messages.given(),
            self.trace,
            self.paused,
            self.asked,
        );
        self.paused = moved.paused;
        let after = &self.paused.state;
        let steps = Change {
            name: "steps",
            before: before.core.steps,
            after: after.core.steps,
        };
        let changes = Changes {
            before: &before,
            after,
        };
        print!(self.system; "{steps}{changes}");
        self.say_stop(moved.end);
    }

    // From the fresh state, with one step less; whether there was one.
    fn one_back(&mut self) -> bool {
        let before = self.paused.state;
        let Some(budget) = before.core.steps.checked_sub(1) else {
            println!(self.system; "there is no step to take back");
            return false;
        };
        let moved = gone_on(
            self.source.words,
            self.messages.given(),
            self.trace,
            Paused::fresh(),
            Asked {
                budget,
                ..self.asked
            },
        );
        self.paused = moved.paused;
        let changes = Changes {
            before: &before,
            after: &self.paused.state,
        };
        print!(self.system; "back from step {}\n{changes}", before.core.steps);
        true
    }

    // As many as a run can be given.
    fn more_triggers(&mut self, n: u32) {
        match self.asked.triggers.checked_add(n) {
            Some(all) => {
                self.asked.triggers = all;
                println!(self.system; "triggers\t{all}");
            }
            None => println!(self.system; "no run is given more than 4294967295 triggers"),
        }
    }

    fn one_message(&mut self, message: u8) {
        match self.messages.push(message) {
            Some(n) => println!(self.system; "messages\t{n}"),
            None => println!(self.system; "no lesson takes more messages"),
        }
    }

    fn say_all(&self) {
        let Asked {
            triggers,
            budget,
            ..
        } = self.asked;
        let left = Left(&self.paused.state);
        let messages = self.messages.given().len();
        print!(self.system;
            "{left}triggers given\t{triggers}\nmessages given\t{messages}\nbudget\t{budget}\n"
        );
    }

    fn say_help(&self) {
        println!(self.system;
            "Enter does one step, and a number that many; go goes on to the end; back takes the last step back"
        );
        println!(self.system;
            "trigger gives one more trigger, and trigger 3 three; message 7 gives the message 7"
        );
        println!(self.system; "state shows all that the run has come to; quit leaves");
    }

    // What was asked for is done; whether the lesson goes on. The word that comes next is told behind steps, unless it was told why none does.
    fn heeds(&mut self, wish: Wish) -> bool {
        match wish {
            Wish::Steps(n) => if self.many_steps(n) {
                self.say_next();
            },
            Wish::Back => if self.one_back() {
                self.say_next();
            },
            Wish::Go => self.to_the_end(),
            Wish::Triggers(n) => self.more_triggers(n),
            Wish::Message(message) => self.one_message(message),
            Wish::State => self.say_all(),
            Wish::Help => self.say_help(),
            Wish::Quit => return false,
        }
        true
    }

    // One line: it is heard, and done; whether the lesson goes on. It ends where its lines do.
    fn one_line(&mut self) -> bool {
        let mut room = io::buffer();
        let Some(line) = hear(self.system, &mut room) else {
            return false;
        };
        match wish_in(line) {
            Ok(wish) => self.heeds(wish),
            Err(unclear) => {
                println!(self.system; "{unclear}");
                true
            }
        }
    }

    // The whole lesson, or what it was refused for. A proved loop has to end, and nothing says that an input does; so it takes no more turns than
    // a number that no lesson uses up.
    pub fn teach(&mut self) -> Result<(), u64> {
        if let Some(number) = refused(self.source.words, self.trace, self.asked) {
            return Err(number);
        }
        self.say_next();
        for _ in 0..u64::MAX {
            if !self.one_line() {
                break;
            }
        }
        Ok(())
    }
}
