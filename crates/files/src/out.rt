// Where an answer goes that has a file of its own: raw words, as a trace or what a listing says, or a text.
// It is written beside its place, under its name and `.part`, and takes its place when it is whole.
use std::fs::File;
use std::io::Write;
use system::System;
use told::{Said, complain_of_file};
use typed::raw;

const PART: &[u8] = b".part";

#[derive(Clone, Copy)]
pub enum Answer<'a> {
    Words(&'a [u64]),
    Text(&'a [u8]),
}

impl Answer<'_> {
    // It is there only where the system says so at the end.
    fn write_to(self, mut file: File) -> std::io::Result<()> {
        match self {
            Answer::Words(words) => for word in words {
                file.write_all(&raw(*word))?;
            },
            Answer::Text(text) => file.write_all(text)?,
        }
        file.sync_all()
    }
}

// Puts `.part` behind a name, in a buffer; the system takes no name so long that it does not fit.
fn named_part<'a>(name: &'a [u8], buffer: &'a mut [u8]) -> &'a [u8] {
    let n = name.len();
    let end = n.saturating_add(PART.len());
    if buffer.len() < end {
        return name;
    }
    buffer[..n].copy_from_slice(name);
    buffer[n..end].copy_from_slice(PART);
    &buffer[..end]
}

// Fills the new file, which then takes its place.
fn write_beside(
    system: System,
    name: &[u8],
    part: &[u8],
    file: File,
    answer: Answer<'_>,
) -> Result<(), Said> {
    answer
        .write_to(file)
        .map_err(|error| complain_of_file(system, part, error))?;
    system::rename(system, part, name).map_err(|error| complain_of_file(system, name, error))
}

// Writes to the file that an argument names. A file that is not whole, or cannot take its place, goes away again.
pub fn save(system: System, argument: usize, answer: Answer<'_>) -> Result<(), Said> {
    let mut buffer = io::large_buffer();
    let name = system.name(argument, &mut buffer);
    let mut beside = io::large_buffer();
    let part = named_part(name, &mut beside);
    let file = system::create(system, part).map_err(|error| complain_of_file(system, part, error))?;
    let written = write_beside(system, name, part, file, answer);
    if written.is_err() {
        let _ = system::remove(system, part);
    }
    written
}
