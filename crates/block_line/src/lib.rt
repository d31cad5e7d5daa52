// A line of a block text: what it says, and its number where it stands.
// The judge asks for the number before anything is written; the translator needs only what a line says.
#![tactic(auto)]

ghost use Rattle.std.specs.Prelude.{◌≡◌, [], ◌∷◌, true, ℕ, ◌≤◌, ◌<◌, length, drop, Some};
ghost use Rattle.text.specs.Cut.{starts_with};
ghost use Rattle.nest.specs.Block.{nest_limit, pulse_number};
ghost use Rattle.block_line.specs.Line.{pulse_of, line_number, level_after};
ghost use Rattle.block_line.specs.Taking.{taken, taken_at, held_in, repeat_name};

use instruction::{Body, EngineOp, QuadSamples, Refusal, WaveformFields, told};
use laid::widths::waveform_fits;
use nest::{Line, Nest};
use sequence::Sequence;
use text::{number_then, starts_with};

// A line, and where the next one starts.
#[derive(Clone, Copy)]
pub struct Taken {
    pub line: Line,
    pub next: usize,
}

impl Taken {
    // How many bytes a name and the byte behind it have.
    const PULSE: usize = 5;

    const REPEAT: usize = 7;

    const END: usize = 4;

    // T/A of a play and of a hold.
    const PLAYED: u64 = 0;

    const HELD: u64 = 1;

    // A line without a shape: nothing is read behind it.
    fn unshaped(text: &[u8]) -> Taken
        ensures { result ≡ taken Line.Unshaped (length text.now) }
    {
        Taken {
            line: Line::Unshaped,
            next: text.len(),
        }
    }
}

fn pulse(ta: u64, address: u64, count: u64) -> Line
    ensures { result ≡ Line.Pulse (pulse_of ta (address ∷ count ∷ [])) }
{
    Line::Pulse(WaveformFields {
        op: EngineOp::PLAY,
        ta,
        count: QuadSamples(count),
        address: QuadSamples(address),
    })
}

// T/A, where the name of a play or hold stands at a place.
fn held_at(text: &[u8], at: usize) -> Option<u64>
    requires { at ≤ length text.now }
    ensures { result ≡ held_in (drop at text.now) }
{
    if starts_with(text, at, b"play\t") {
        return Some(Taken::PLAYED);
    }
    if starts_with(text, at, b"hold\t") {
        return Some(Taken::HELD);
    }
    None
}

// A play or hold whose name stands at a place.
fn take_pulse(text: &[u8], at: usize, ta: u64) -> Taken
    requires { Some ta ≡ held_in (drop at text.now) }
    ensures { result ≡ taken_at text.now at }
{
    let Some(address) = number_then(text, at + Taken::PULSE, b'\t') else {
        return Taken::unshaped(text);
    };
    let Some(count) = number_then(text, address.end, b'\n') else {
        return Taken::unshaped(text);
    };
    let line = pulse(ta, address.value, count.value);
    Taken {
        line,
        next: count.end,
    }
}

// A repeat whose name stands at a place.
fn take_repeat(text: &[u8], at: usize) -> Taken
    requires { starts_with repeat_name (drop at text.now) ≡ true }
    ensures { result ≡ taken_at text.now at }
{
    match number_then(text, at + Taken::REPEAT, b'\n') {
        Some(count) => Taken {
            line: Line::Repeat(count.value),
            next: count.end,
        },
        None => Taken::unshaped(text),
    }
}

// The line at a place before the text's end.
pub fn take_line(text: &[u8], at: usize) -> Taken
    requires { at < length text.now }
    ensures { result ≡ taken_at text.now at }
{
    if let Some(ta) = held_at(text, at) {
        return take_pulse(text, at, ta);
    }
    if starts_with(text, at, b"repeat\t") {
        return take_repeat(text, at);
    }
    if starts_with(text, at, b"end\n") {
        return Taken {
            line: Line::End,
            next: at + Taken::END,
        };
    }
    Taken::unshaped(text)
}

// 23, 16, 20 or 0, of a play or hold.
fn pulse_number(f: WaveformFields, wave: QuadSamples) -> u64
    ensures { result ≡ pulse_number wave.0 f }
{
    if !waveform_fits(f) {
        return Refusal::TOO_WIDE;
    }
    let form = told(f.form());
    if form != 0 {
        return form;
    }
    told(Sequence::placing(wave, 0, Body::Waveform(f)))
}

// 51, 53 or 0, with so many repeats open.
fn repeat_number(n: u64, level: usize) -> u64
    ensures { (wave : ℕ) → result ≡ line_number wave level (Line.Repeat n) }
{
    if !((1 <= n) & (n <= Nest::REPEATS)) {
        return Nest::NO_COUNT;
    }
    if Nest::DEEPEST <= level {
        return Nest::TOO_DEEP;
    }
    0
}

// The number of a line with so many repeats open, 0 where nothing is wrong with it.
pub fn line_number(line: Line, level: usize, wave: QuadSamples) -> u64
    ensures { result ≡ line_number wave.0 level line }
{
    match line {
        Line::Pulse(f) => pulse_number(f, wave),
        Line::Repeat(n) => repeat_number(n, level),
        Line::End => {
            if level == 0 {
                return Nest::UNPAIRED;
            }
            0
        }
        Line::Unshaped => Nest::UNSHAPED,
    }
}

// How many repeats are open behind a line.
pub fn level_after(line: Line, level: usize) -> usize
    requires { level ≤ nest_limit }
    ensures { result ≡ level_after line level }
{
    match line {
        Line::Pulse(_) => level,
        Line::Repeat(_) => level + 1,
        Line::End => level.saturating_sub(1),
        Line::Unshaped => level,
    }
}
