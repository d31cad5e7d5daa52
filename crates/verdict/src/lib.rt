// The whole check: the input, then each word where it stands, then flow.
// A fault at a word is read off its mark; what lies past the last word is asked for once, at the end.
#![tactic(auto)]

ghost use Rattle.std.specs.Prelude.{◌≡◌, ◌<◌, ◌-◌, length, drop};
ghost use Rattle.instruction.specs.Form.{told};
ghost use Rattle.sequence.specs.Numbers.{input_number, place_number};
ghost use Rattle.sequence.specs.Bounds.{group_size};
ghost use Rattle.verdict.specs.Flow.{FlowIs, CanJudge};
ghost use Rattle.verdict.specs.Words.{is_engine_word, is_high, closes, left_open, stands_refused, word_refusal};
ghost use Rattle.verdict.specs.Check.{check_input_refused, WordsAre, CheckIs};

use flow::{Move, Moves};
use instruction::{Instruction, Numbered, QuadSamples, Refusal, Rules, WordAddress, told};
use look::fault_of;
use reader::{coarse_of, finer, instruction_in};
use sequence::{BadInput, Fault, Misplaced, Sequence};
use walk::Seen;

// A refusal and its place; number 0 at place 0 is accepted.
#[derive(Clone, Copy)]
pub struct Verdict {
    pub refusal: Refusal,
    pub place: WordAddress,
}

// The verdict, of marks that are exact and of what the walk has seen.
fn judge(words: &[u64], marks: &[u64], seen: Seen, limit: u64) -> Verdict
    requires { CanJudge limit words.now marks.now seen.back seen.faulty.0 }
    ensures { FlowIs limit words.now result }
{
    let n = words.len();
    let a = seen.faulty.0 as usize;
    if a < n {
        return Verdict {
            refusal: Refusal::numbered(told(fault_of(Move::at(words[a]), marks[a], limit))),
            place: WordAddress(a as u64),
        };
    }
    let e = n - 1;
    let f = Moves::of(Move::at(words[e]), marks[e], seen.back, limit);
    let x = f.next;
    if x != 0 {
        return Verdict {
            refusal: Refusal::numbered(Fault::PastTheEnd.number()),
            place: WordAddress(n as u64),
        };
    }
    Verdict {
        refusal: Refusal::numbered(0),
        place: WordAddress(0),
    }
}

fn is_engine_word(word: u64) -> bool
    ensures { result ≡ is_engine_word word }
{
    let i = Instruction::spelled_by(word);
    let body = i.body;
    Sequence::is_engine(body)
}

fn is_high(word: u64) -> bool
    ensures { result ≡ is_high word }
{
    let i = Instruction::spelled_by(word);
    i.write != 0
}

// Whether a group that is open is sent by one of the words above, in time.
fn closes(above: &[u64]) -> bool
    ensures { result ≡ closes (group_size - 1) above.now }
{
    let near = &above[..above.len().min(Sequence::GROUP as usize - 1)];
    for word in near {
        if !is_engine_word(*word) {
            return false;
        }
        if is_high(*word) {
            return true;
        }
    }
    false
}

// 22: a low word that no word sends.
fn left_open(above: &[u64], i: Instruction) -> bool
    ensures { result ≡ left_open i above.now }
{
    let body = i.body;
    let write = i.write;
    if !Sequence::is_engine(body) {
        return false;
    }
    if write != 0 {
        return false;
    }
    !closes(above)
}

// 20, 21 or 22, of an instruction of n words, with the words above it.
#[tactic(auto, unfolding(crate::specs::Words::stands_refused))]
fn stands_refused(n: u64, wave: QuadSamples, above: &[u64], i: Instruction) -> Result<(), Misplaced>
    ensures { told place_number result ≡ stands_refused wave.0 n above.now i }
{
    Sequence::placing(wave, n, i.body)?;
    if left_open(above, i) {
        return Err(Misplaced::BrokenGroup);
    }
    Ok(())
}

// The refusal of the word at an address; number 0 passes.
fn word_refusal(words: &[u64], wave: QuadSamples, rules: Rules, a: usize) -> Refusal
    requires { a < length words.now }
    ensures { result ≡ word_refusal rules wave.0 words.now a }
{
    let word = words[a];
    let coarse = coarse_of(word, rules);
    if coarse != 0 {
        return finer(word, coarse);
    }
    let stands = stands_refused(
        words.len() as u64,
        wave,
        &words[a + 1..],
        instruction_in(word),
    );
    Refusal::numbered(told(stands))
}

// The first word that is refused. Compiled by itself, so that it takes no register from the walk: measured.
#[inline(never)]
fn judge_words(words: &[u64], wave: QuadSamples, rules: Rules) -> Verdict
    ensures { WordsAre rules wave.0 words.now result }
{
    for a in 0..words.len() {
        let refusal = word_refusal(words, wave, rules, a);
        if refusal.number != 0 {
            return Verdict {
                refusal,
                place: WordAddress(a as u64),
            };
        }
    }
    Verdict {
        refusal: Refusal::numbered(0),
        place: WordAddress(0),
    }
}

// 1 to 4, for n words, a waveform memory and room for marks.
#[tactic(auto, unfolding(crate::specs::Check::check_input_refused))]
fn input_refused(n: u64, wave: QuadSamples, room: u64) -> Result<(), BadInput>
    ensures { told input_number result ≡ check_input_refused n wave.0 room }
{
    Sequence::lengths_refused(n, wave)?;
    if room < n {
        return Err(BadInput::ShortMarks);
    }
    Ok(())
}

// Check.
pub fn check(words: &[u64], wave: QuadSamples, rules: Rules, marks: &mut [u64]) -> Verdict
    ensures { CheckIs rules wave.0 words.now marks.old result marks.new }
{
    if let Err(bad) = input_refused(words.len() as u64, wave, marks.len() as u64) {
        return Verdict {
            refusal: Refusal::numbered(bad.number()),
            place: WordAddress(0),
        };
    }
    let v = judge_words(words, wave, rules);
    if v.refusal.number != 0 {
        return v;
    }
    let seen = walk::walk(words, marks, Sequence::STACK);
    judge(words, marks, seen, Sequence::STACK)
}
