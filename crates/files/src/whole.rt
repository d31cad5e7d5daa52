// All bytes of a file or of standard input, as far as there is room for them.
// They come in pieces of any size.
ghost use Rattle.std.specs.Prelude.{◌≤◌, length, IfOk};
ghost use Rattle.files.specs.Kept.{kept_length};

use std::io::Read;
use system::{Input, System, fill};
use told::{Said, complain_of_file};

// A text that was read to its end, or the part of one that there is room for.
#[derive(Clone, Copy)]
pub enum Kept<'a> {
    Whole(&'a [u8]),
    Part(&'a [u8]),
}

// Whether anything follows.
fn has_more(input: &mut impl Read) -> bool {
    let mut next = [0u8; 1];
    input.read(&mut next).is_ok_and(|n| 0 < n)
}

fn text_in<'a>(input: &mut impl Read, room: &'a mut [u8]) -> std::io::Result<Kept<'a>>
    ensures { IfOk result (λ kept. kept_length kept ≤ length room.old) }
{
    let n = fill(input, room)?;
    let is_part = n == room.len() && has_more(input);
    let text = &room[..n];
    Ok(if is_part {
        Kept::Part(text)
    } else {
        Kept::Whole(text)
    })
}

fn text_named<'a>(system: System, name: &[u8], room: &'a mut [u8]) -> std::io::Result<Kept<'a>>
    ensures { IfOk result (λ kept. kept_length kept ≤ length room.old) }
{
    let mut input = Input::named(system, name)?;
    text_in(&mut input, room)
}

// The text of the file that an argument names. What cannot be read is said.
pub fn text_of<'a>(system: System, argument: usize, room: &'a mut [u8]) -> Result<Kept<'a>, Said>
    ensures { IfOk result (λ kept. kept_length kept ≤ length room.old) }
{
    let mut buffer = io::large_buffer();
    let name = system.name(argument, &mut buffer);
    text_named(system, name, room).map_err(|error| complain_of_file(
        system,
        Input::shown(name),
        error,
    ))
}

// The name by which a person knows the file that an argument names.
pub fn complain_by_name(system: System, argument: usize) {
    let mut buffer = io::large_buffer();
    let name = system.name(argument, &mut buffer);
    system.eprint_bytes(Input::shown(name));
}
