// Reading: every 64-bit word is one instruction or has one form number.
// The word is judged by all its bits, never by its header alone.
#![tactic(auto)]

ghost use Rattle.std.specs.Prelude.{◌≡◌, true, false, ◌<◌};
ghost use Rattle.instruction.specs.Bits.{held};
ghost use Rattle.instruction.specs.Table.{word_bits, engine_select, write_flag};
ghost use Rattle.instruction.specs.Form.{numbered};
ghost use Rattle.instruction.specs.Word.{spelled_by};
ghost use Rattle.instruction.specs.declared.Rules.{Rules};
ghost use Rattle.reader.specs.Masks.{has_unnamed, coarse_in, coarse_of, finer, judged_by, IsWaveform, IsMarker, IsModulator, IsFlow, IsCode};
ghost use Rattle.reader.specs.Reading.{kind_of, highest_stray, not_its_op, form_in, refused_with, instruction_in, judged, reading_of};

use instruction::{
    Body, Comparison, EngineOp, Ignored, Instruction, MarkerFields, ModulatorFields, QuadSamples,
    Refusal, Repeats, Rules, WaveformFields, WordAddress, told,
};
use named::{named_bits, payload_bits};

// What stands for every bit that is not named, until the bit is looked for.
const UNNAMED: u64 = Refusal::RESERVED_BIT;

// Of a word's coarse number and the instruction that it spells: that, unless the number is not 0.
pub fn judged_by(word: u64, coarse: u64, i: Instruction) -> Result<Instruction, Refusal>
    ensures { result ≡ judged_by word coarse i }
{
    if coarse != 0 {
        return Err(finer(word, coarse));
    }
    Ok(i)
}

fn has_unnamed(word: u64) -> bool
    ensures { result ≡ has_unnamed word }
{
    word & named_bits(Instruction::code_in(word)) != word
}

fn not_its_op(word: u64) -> bool
    ensures { result ≡ not_its_op word }
{
    let code = Instruction::code_in(word);
    let op = EngineOp::held_in(word);
    (code == Body::WAIT) & (op != EngineOp::WAIT_TRIGGER)
        | (code == Body::SYNC) & (op != EngineOp::WAIT_SYNC)
}

// The highest bit that is set and not named, or 0.
fn highest_stray(word: u64) -> u64
    ensures { result ≡ highest_stray word }
{
    let stray = word - (word & named_bits(Instruction::code_in(word)));
    if stray == 0 {
        return 0;
    }
    let above = u64::leading_zeros(stray) as u64;
    Instruction::BITS - 1 - above
}

// 111, 112 or 113, of a bit that is not named.
fn kind_of(code: u64, bit: u64) -> u64
    requires { (code < 16) × (bit < word_bits) }
    ensures { result ≡ kind_of code bit }
{
    if bit == Instruction::RESERVED.low {
        return Refusal::RESERVED_BIT;
    }
    if payload_bits(code) >> bit == 0 {
        return Refusal::BIT_ABOVE;
    }
    Refusal::BIT_IN_GAP
}

// The coarse number of a MARKER.
fn marker_form(word: u64, rules: Rules) -> u64
    requires { IsMarker word }
    ensures { result ≡ coarse_in rules word }
{
    if has_unnamed(word) {
        UNNAMED
    } else {
        told(MarkerFields::spelled_by(word).form(rules))
    }
}

// The coarse number of a MODULATOR.
fn modulator_form(word: u64) -> u64
    requires { IsModulator word }
    ensures { (rules : Rules) → result ≡ coarse_in rules word }
{
    if has_unnamed(word) {
        UNNAMED
    } else {
        told(ModulatorFields::spelled_by(word).form())
    }
}

// The coarse number of a word that is not NOOP, the first that is given, or 0; engine words first, which are met more than others.
fn form_in(word: u64, rules: Rules) -> u64
    ensures { result ≡ coarse_in rules word }
{
    let code = Instruction::code_in(word);
    if code == Body::MARKER {
        return marker_form(word, rules);
    }
    if code == Body::MODULATOR {
        return modulator_form(word);
    }
    if Body::PREFETCH < code {
        return Refusal::NO_SUCH_CODE;
    }
    if has_unnamed(word) {
        return UNNAMED;
    }
    if not_its_op(word) {
        return Refusal::NOT_ITS_OP;
    }
    told(Instruction::form_in(word, rules))
}

// A play with nothing wrong.
fn plays_well(word: u64) -> bool
    requires { IsWaveform word }
    ensures { (rules : Rules) → result ≡ true → form_in rules word ≡ 0 }
{
    let f = WaveformFields::spelled_by(word);
    !has_unnamed(word) & (f.op == EngineOp::PLAY) & (QuadSamples::SHORTEST <= f.count.0)
}

// The coarse number of a WAVEFORM.
fn waveform_form(word: u64, rules: Rules) -> u64
    requires { IsWaveform word }
    ensures { result ≡ coarse_in rules word }
{
    if plays_well(word) {
        return 0;
    }
    form_in(word, rules)
}

// The coarse number of LOAD_REPEAT to RETURN: nothing but a bit that is not named can be wrong.
fn flow_form(word: u64) -> u64
    requires { IsFlow word }
    ensures { (rules : Rules) → result ≡ coarse_in rules word }
{
    if has_unnamed(word) { UNNAMED } else { 0 }
}

// The coarse number of a word that is not NOOP; the words that are met most are judged at once, and the others by a call.
fn form_of(word: u64, rules: Rules) -> u64
    ensures { result ≡ coarse_in rules word }
{
    let code = Instruction::code_in(word);
    if code == Body::WAVEFORM {
        return waveform_form(word, rules);
    }
    if (Body::LOAD_REPEAT <= code) & (code <= Body::RETURN) {
        return flow_form(word);
    }
    form_in(word, rules)
}

// The coarse number of a word, 0 where it is accepted: one for every bit that is not named, so that only a bad word is looked through for its bit.
// A number and no Result of an enum: measured, the check of a straight sequence is at 1.75 of the second program with that, and at 0.97 without.
pub fn coarse_of(word: u64, rules: Rules) -> u64
    ensures { result ≡ coarse_of rules word }
{
    if word != Instruction::NOOP {
        return form_of(word, rules);
    }
    0
}

// The refusal that a word's coarse number stands for.
pub fn finer(word: u64, coarse: u64) -> Refusal
    ensures { result ≡ finer word coarse }
{
    if coarse != UNNAMED {
        return Refusal {
            number: coarse,
            bit: 0,
        };
    }
    let bit = highest_stray(word);
    Refusal {
        number: kind_of(Instruction::code_in(word), bit),
        bit,
    }
}

// What a word reads as that is accepted.
pub fn instruction_in(word: u64) -> Instruction
    ensures { result ≡ instruction_in word }
{
    if word == Instruction::NOOP {
        return Instruction {
            engine: 0,
            write: 0,
            body: Body::Noop,
        };
    }
    Instruction::spelled_by(word)
}

// What a word that is not NOOP and whose bits are named reads as, of its number and the body that it spells.
fn judge(number: u64, word: u64, body: Body) -> Result<Instruction, Refusal>
    ensures { result ≡ judged (numbered number) (record { engine = held word engine_select; write = held word write_flag; body = body }) }
{
    if number != 0 {
        return Err(Refusal { number, bit: 0 });
    }
    Ok(Instruction {
        engine: Instruction::engine_in(word),
        write: Instruction::write_in(word),
        body,
    })
}

// A word whose bits are named, by its op code.
fn read_named(word: u64, rules: Rules) -> Result<Instruction, Refusal>
    requires { IsCode word × (has_unnamed word ≡ false) }
    ensures { result ≡ judged (refused_with word (form_in rules word)) (spelled_by word) }
{
    match Instruction::code_in(word) {
        Body::WAVEFORM => {
            let f = WaveformFields::spelled_by(word);
            judge(told(f.form()), word, Body::Waveform(f))
        }
        Body::MARKER => {
            let f = MarkerFields::spelled_by(word);
            judge(told(f.form(rules)), word, Body::Marker(f))
        }
        Body::WAIT => judge(form_in(word, rules), word, Body::Wait),
        Body::LOAD_REPEAT => judge(0, word, Body::LoadRepeat(Repeats::spelled_by(word))),
        Body::REPEAT => judge(0, word, Body::Repeat(WordAddress::spelled_by(word))),
        Body::CMP => judge(0, word, Body::Cmp(Comparison::spelled_by(word))),
        Body::GOTO => judge(0, word, Body::Goto(WordAddress::spelled_by(word))),
        Body::CALL => judge(0, word, Body::Call(WordAddress::spelled_by(word))),
        Body::RETURN => judge(0, word, Body::Return(Ignored(0))),
        Body::SYNC => judge(form_in(word, rules), word, Body::Sync),
        Body::MODULATOR => {
            let f = ModulatorFields::spelled_by(word);
            judge(told(f.form()), word, Body::Modulator(f))
        }
        Body::LOAD_CMP => judge(0, word, Body::LoadCmp(Ignored(0))),
        _ => judge(
            form_in(word, rules),
            word,
            Body::Prefetch(WordAddress::spelled_by(word)),
        ),
    }
}

// What a word reads as. A caller that reads many kinds of words in one place puts the reading together instead (`judged_by`).
pub fn read(word: u64, rules: Rules) -> Result<Instruction, Refusal>
    ensures { result ≡ reading_of rules word }
{
    if word == Instruction::NOOP {
        return Ok(Instruction {
            engine: 0,
            write: 0,
            body: Body::Noop,
        });
    }
    if Body::PREFETCH < Instruction::code_in(word) {
        return Err(Refusal {
            number: Refusal::NO_SUCH_CODE,
            bit: 0,
        });
    }
    if has_unnamed(word) {
        return Err(finer(word, UNNAMED));
    }
    read_named(word, rules)
}
