// aps2_listing: reads raw words from standard input to its end and writes their listing. All that matters is in the library.
// Of an input that is too long the first bytes are kept and the others only counted, as far as the listing depends on them.
#![tactic(auto)]

ghost use Rattle.std.specs.Prelude.{◌<◌, IfOk};
ghost use Rattle.instruction.specs.Word.{word_bytes};
ghost use Rattle.listing.specs.Listing.{heard_size};

use instruction::Rules;
use listing::{Listing, heard, list};
use std::io::{Error, ErrorKind, Read, Result};
use system::{System, fill};
use told::{Status, complain_of_file};

// How many bytes are left over beside whole words in what is still to be read. A proved loop has to end, and nothing says that an
// input does; so it takes no more turns than a number that no run uses up.
fn left_over(system: System) -> Result<usize>
    ensures { IfOk result (λ n. n < word_bytes) }
{
    let mut input = system.input();
    let mut part = io::buffer();
    let mut over = 0;
    for _ in 0..u64::MAX {
        let n = input.read(&mut part)?;
        if n == 0 {
            return Ok(over);
        }
        over = (over + n % Listing::WORD_BYTES) % Listing::WORD_BYTES;
    }
    Err(Error::from(ErrorKind::Other))
}

// How many bytes of the input to list, laid at the start of a buffer for as many as are heard.
fn hear(system: System, bytes: &mut [u8; Listing::HEARD]) -> Result<usize>
    ensures { IfOk result (λ n. n < heard_size) }
{
    let n = fill(&mut system.input(), bytes)?;
    if n < Listing::HEARD {
        return Ok(n);
    }
    let over = left_over(system)?;
    Ok(heard(n + over))
}

fn show(system: System, input: &[u8]) {
    let mut out = [0u8; Listing::PAGE];
    let n = list(input, Rules::CURRENT, &mut out);
    if let Some(listing) = out.get(..n) {
        system.print_bytes(listing);
        told::ends(Status::Accepted.number(), 0);
    }
}

fn main(rt: HostRuntime) {
    let system = System::of(rt);
    let mut bytes = [0u8; Listing::HEARD];
    match hear(system, &mut bytes) {
        Ok(n) => show(system, &bytes[..n]),
        Err(error) => {
            complain_of_file(system, b"standard input", error);
            told::ends(Status::NoAnswer.number(), 0);
        }
    }
}
