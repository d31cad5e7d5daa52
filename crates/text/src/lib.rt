// Text that people write, as bytes: where a line or a field ends, whether two texts are the same, and what a field says as a number.
// A text is cut into lines at line feeds and a line into fields at tabs; what the fields mean is for its readers to say.
#![tactic(auto)]

ghost use Rattle.std.specs.Prelude.{◌≡◌, true, false, ◌≤◌, ◌<◌, ◌+◌, ◌*◌, ◌-◌, length, drop, MatchOption};
ghost use Rattle.text.specs.Cut.{place_of, same_text, starts_with, half, stride};
ghost use Rattle.text.specs.Number.{is_digit, numbers, counted_to, counted_then, counted_at, Led};

// Why a text is refused: the number of what is wrong, and the line that has it, from 1; 0 where no line has.
#[derive(Clone, Copy, PartialEq, Eq)]
pub struct Refused {
    pub number: u64,
    pub line: u64,
}

// How many bytes are passed over at a time.
const STRIDE: usize = 8;

// How many of them are compared in one go.
const HALF: usize = 4;

// Whether the bytes of half a stride are all others.
fn are_others(text: &[u8], i: usize, x: u8) -> bool
    requires { i + half ≤ length text.now }
    ensures { result ≡ true → place_of x (i + half) text.now ≡ place_of x i text.now }
{
    (text[i] != x) & (text[i + 1] != x) & (text[i + 2] != x) & (text[i + 3] != x)
}

// Whether the bytes of a stride are.
fn may_stride(text: &[u8], i: usize, x: u8) -> bool
    requires { i + stride ≤ length text.now }
    ensures { result ≡ true → place_of x (i + stride) text.now ≡ place_of x i text.now }
{
    let front = are_others(text, i, x);
    let back = are_others(text, i + HALF, x);
    front & back
}

// A place to look for a byte from in another's stead: the strides before it are all others.
fn stride_over(text: &[u8], from: usize, x: u8) -> usize
    ensures { place_of x result text.now ≡ place_of x from text.now }
{
    if text.len() < STRIDE {
        return from;
    }
    let last = text.len() - STRIDE;
    // A `while`: the place behind the last stride is told, which a `step_by` would not have.
    let mut i = from;
    while i <= last {
        if !may_stride(text, i, x) {
            return i;
        }
        i += STRIDE;
    }
    i
}

// Where the first of a byte stands from a place on; the text's end where there is none.
pub fn find(text: &[u8], from: usize, x: u8) -> usize
    ensures { result ≡ place_of x from text.now }
{
    let near = stride_over(text, from, x);
    for i in near..text.len() {
        if text[i] == x {
            return i;
        }
    }
    near.max(text.len())
}

// Whether two texts are the same.
pub fn same(a: &[u8], b: &[u8]) -> bool
    ensures { result ≡ same_text a.now b.now }
{
    a == b
}

// Whether another text stands at a place.
pub fn starts_with(text: &[u8], at: usize, name: &[u8]) -> bool
    requires { at ≤ length text.now }
    ensures { result ≡ starts_with name.now (drop at text.now) }
{
    text[at..].starts_with(name)
}

// What a digit stands for; nothing where the byte is none.
fn digit(b: u8) -> Option<u64>
    ensures { MatchOption result (is_digit b ≡ false) (λ d. (is_digit b ≡ true) × (d ≡ b - 48) × (d < 10)) }
{
    match b {
        b'0'..=b'9' => Some(u64::from(b - b'0')),
        _ => None,
    }
}

// A number in plain decimal that stands in a text, and the place behind it.
#[derive(Clone, Copy)]
pub struct Counted {
    pub value: u64,
    pub end: usize,
}

impl Counted {
    pub const BASE: u64 = 10;

    // A "0", which stands alone.
    fn zero(text: &[u8], from: usize, x: u8) -> Option<Counted>
        requires { Led x from 0 text.now }
        ensures { result ≡ counted_to x from text.now }
    {
        let end = from + 1;
        if end < text.len() && text[end] != x {
            return None;
        }
        Some(Counted { value: 0, end })
    }
}

// A number with one more digit; nothing where that is not below 2^64. Most are far below, which is asked first: measured, a digit takes one test less.
fn grown(value: u64, digit: u64) -> Option<u64>
    requires { digit < 10 }
    ensures { MatchOption result (numbers ≤ value * 10 + digit) (λ v. (v ≡ value * 10 + digit) × (v < numbers)) }
{
    if value < u64::MAX / Counted::BASE {
        return Some(value * Counted::BASE + digit);
    }
    value.checked_mul(Counted::BASE)?.checked_add(digit)
}

// Digit by digit behind the first, which is no "0".
fn number_on(text: &[u8], from: usize, first: u64, x: u8) -> Option<Counted>
    requires { (Led x from first text.now) × (first ≡ 0 → ⊥) }
    ensures { result ≡ counted_to x from text.now }
{
    let mut value = first;
    for i in from + 1..text.len() {
        let b = text[i];
        if !b.is_ascii_digit() {
            return (b == x).then_some(Counted { value, end: i });
        }
        let d = u64::from(b - b'0');
        value = grown(value, d)?;
    }
    Some(Counted {
        value,
        end: text.len(),
    })
}

// What stands from a place on, up to a byte that is no digit or the text's end, as a number.
fn number_until(text: &[u8], from: usize, x: u8) -> Option<Counted>
    requires { (from ≤ length text.now) × (is_digit x ≡ false) }
    ensures { result ≡ counted_to x from text.now }
{
    if text.len() <= from {
        return None;
    }
    let first = digit(text[from])?;
    if first == 0 {
        return Counted::zero(text, from, x);
    }
    number_on(text, from, first, x)
}

// The field from a place on, up to a tab or the text's end, as a number.
pub fn number_from(text: &[u8], from: usize) -> Option<Counted>
    requires { from ≤ length text.now }
    ensures { result ≡ counted_at from text.now }
{
    number_until(text, from, b'\t')
}

// The number from a place on that has a byte behind it, and the place behind that.
pub fn number_then(text: &[u8], from: usize, x: u8) -> Option<Counted>
    requires { (from ≤ length text.now) × (is_digit x ≡ false) }
    ensures { result ≡ counted_then x from text.now }
{
    let field = number_until(text, from, x)?;
    if text.len() <= field.end {
        return None;
    }
    Some(Counted {
        value: field.value,
        end: field.end + 1,
    })
}
