// Writing: every instruction asked for is a word, or has one number and word zero.
// What is written with number 0 reads back as the instruction asked for.
#![tactic(auto)]

ghost use Rattle.std.specs.Prelude.{◌≡◌};
ghost use Rattle.writer.specs.Writing.{asked_of, written_of};

use instruction::{Instruction, Refusal, Rules, told};
use laid::widths::fits;
use laid::word::word_of;

#[derive(Clone, Copy)]
pub struct Written {
    pub number: u64,
    pub word: u64,
}

// 23 first, then the form number, or 0.
fn asked(i: Instruction, rules: Rules) -> u64
    ensures { result ≡ asked_of rules i }
{
    if !fits(i) {
        return Refusal::TOO_WIDE;
    }
    told(i.form(rules))
}

pub fn write(i: Instruction, rules: Rules) -> Written
    ensures { result ≡ written_of rules i }
{
    let number = asked(i, rules);
    let word = word_of(i);
    if number == 0 {
        Written { number, word }
    } else {
        Written { number, word: 0 }
    }
}
