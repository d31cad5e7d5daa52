// The messages of a run, as they are typed: numbers of a byte in decimal, parted by commas.
// What they say is `typed`'s; here they become bytes.
ghost use Rattle.std.specs.Prelude.{◌≤◌, length, IfOk, IfSome};

use crate::room::front;
use system::System;
use told::Said;
use typed::{Spelling, Taken};

// The numbers of a text that is not empty: the last has its comma here.
fn numbers_in<'a>(text: &[u8], room: &'a mut [u64]) -> Option<&'a [u64]> {
    let last = typed::take(room, Taken::start(), Spelling::Decimal, text);
    let all = typed::take(room, last, Spelling::Decimal, b",");
    if all.trouble_in(Spelling::Decimal).is_some() {
        return None;
    }
    Some(front(room, all.count))
}

// As many bytes as numbers, where there is room for them; how many.
fn lay_bytes(numbers: &[u64], out: &mut [u8]) -> Option<usize>
    ensures { IfSome result (λ n. n ≤ length out.new) }
{
    let n = numbers.len();
    if out.len() < n {
        return None;
    }
    for (byte, number) in out.iter_mut().zip(numbers) {
        *byte = (*number & 0xff) as u8;
    }
    Some(n)
}

// How many messages an argument tells, laid at the start of a buffer; none where there is no such argument, or an empty one. The numbers are
// lent for the way.
pub fn messages_of(
    system: System,
    argument: Option<usize>,
    numbers: &mut [u64],
    out: &mut [u8],
) -> Result<usize, Said>
    ensures { IfOk result (λ n. n ≤ length out.new) }
{
    let Some(argument) = argument else {
        return Ok(0);
    };
    let mut buffer = io::large_buffer();
    let text = system.name(argument, &mut buffer);
    if text.is_empty() {
        return Ok(0);
    }
    if let Some(numbers) = numbers_in(text, numbers) {
        if let Some(n) = lay_bytes(numbers, out) {
            return Ok(n);
        }
    }
    eprintln!(system;
        "aps2: --messages: numbers from 0 to 255, parted by commas and nothing else, as 7,0,255"
    );
    Err(Said)
}
