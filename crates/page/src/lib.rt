// Text on a page: numbers in decimal, names, and the last numbers of a line.
// Whoever writes lines has made room on the page before, so that no byte asks for it.
#![tactic(auto)]

ghost use Rattle.std.specs.Prelude.{◌≡◌, [], ◌∷◌, ◌%◌, ◌<◌, length, map};
ghost use Rattle.buffer.specs.Put.{Fits, Put};
ghost use Rattle.text.specs.Cut.{tab};
ghost use Rattle.text.specs.Line.{number, digit, decimal, rest_text};

use buffer::lay;

// Digits that are counted at a time, and the least number that has more.
const STEP: usize = 4;

const PAST_STEP: u64 = 10000;

// How many digits a number of at most four has.
fn few_digits(n: u64) -> usize
    requires { n < 10000 }
    ensures { result ≡ length (decimal n) }
{
    match n {
        0..=9 => 1,
        10..=99 => 2,
        100..=999 => 3,
        _ => STEP,
    }
}

// Four digits at a time.
pub fn digit_count(n: u64) -> usize
    ensures { result ≡ length (decimal n) }
{
    let mut rest = n;
    let mut count: usize = 0;
    // No index is counted: the number grows shorter.
    while PAST_STEP <= rest {
        rest = rest / PAST_STEP;
        count += STEP;
    }
    count + few_digits(rest)
}

fn last_digit(n: u64) -> u8
    ensures { result ≡ digit (n % 10) }
{
    let d = n % 10;
    b'0' + d as u8
}

// The same of a number of one digit.
fn one_digit(n: u64) -> u8
    requires { n < 10 }
    ensures { result ≡ digit n }
{
    b'0' + n as u8
}

// A number in decimal, from its last digit to its first, which is all that is left then.
pub fn put_number(page: &mut [u8], at: usize, n: u64) -> usize
    requires { Fits (decimal n) page.old at }
    ensures { Put (decimal n) page.old at page.new result }
{
    let end = at + digit_count(n);
    let mut rest = n;
    for i in (at + 1..end).rev() {
        page[i] = last_digit(rest);
        rest /= 10;
    }
    page[at] = one_digit(rest);
    end
}

pub fn put_byte(page: &mut [u8], at: usize, b: u8) -> usize
    requires { Fits (b ∷ []) page.old at }
    ensures { Put (b ∷ []) page.old at page.new result }
{
    page[at] = b;
    at + 1
}

pub fn put_end(page: &mut [u8], at: usize) -> usize
    requires { Fits (rest_text []) page.old at }
    ensures { Put (rest_text []) page.old at page.new result }
{
    put_byte(page, at, b'\n')
}

// A name, after a tab.
pub fn put_word(page: &mut [u8], at: usize, text: &[u8]) -> usize
    requires { Fits (tab ∷ text.now) page.old at }
    ensures { Put (tab ∷ text.now) page.old at page.new result }
{
    let from = put_byte(page, at, b'\t');
    lay(page, from, text)
}

// A number, after a tab.
pub fn put_value(page: &mut [u8], at: usize, n: u64) -> usize
    requires { Fits (tab ∷ decimal n) page.old at }
    ensures { Put (tab ∷ decimal n) page.old at page.new result }
{
    let from = put_byte(page, at, b'\t');
    put_number(page, from, n)
}

// The last numbers of a line.
#[inline(always)]
pub fn put_numbers(page: &mut [u8], at: usize, numbers: &[u64]) -> usize
    requires { Fits (rest_text (map number numbers.now)) page.old at }
    ensures { Put (rest_text (map number numbers.now)) page.old at page.new result }
{
    let mut end = at;
    for n in numbers {
        end = put_value(page, end, *n);
    }
    put_end(page, end)
}
