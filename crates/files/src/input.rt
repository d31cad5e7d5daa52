// The words of a file or of standard input, as text, raw, as a listing or as a block.
// They come in pieces of any size; what is wrong with them is told with its place.
use crate::texts::{Rooms, Written, words_in_text};
use crate::trouble::Trouble;
use instruction::{QuadSamples, Rules};
use report::source::Source;
use sequence::Sequence;
use std::io::Read;
use system::{Input, System};
use told::{Said, complain_of_file};
use typed::{Place, Spelling, Taken};

// A proved loop has to end, and nothing says that an input does; so it takes no more turns than a number that no run uses up.
fn read_all(
    input: &mut impl Read,
    words: &mut [u64],
    spelling: Spelling,
) -> std::io::Result<Taken> {
    let mut part = io::buffer();
    let mut taken = Taken::start();
    for _ in 0..u64::MAX {
        let n = input.read(&mut part)?;
        taken = typed::take(words, taken, spelling, &part[..n]);
        if n == 0 || taken.trouble.is_some() {
            break;
        }
    }
    Ok(taken)
}

fn read_named(
    system: System,
    name: &[u8],
    words: &mut [u64],
    spelling: Spelling,
) -> std::io::Result<Taken> {
    let mut input = Input::named(system, name)?;
    read_all(&mut input, words, spelling)
}

fn complain_of_words(system: System, name: &[u8], taken: Taken, trouble: typed::Trouble) -> Said {
    let Taken {
        count,
        digits,
        place,
        ..
    } = taken;
    let Place { line, column } = place;
    eprint!(system; "aps2: ");
    system.eprint_bytes(name);
    match trouble {
        typed::Trouble::ManyWords => eprintln!(system;
            ": more than {} words, and no sequence has so many (number 2)",
            Sequence::WORDS
        ),
        typed::Trouble::NotWhole => eprintln!(system;
            ": {count} words and {digits} bytes more, but a word has eight bytes; --hex is for text"
        ),
        typed::Trouble::NoDigit => eprintln!(system;
            ", line {line}, column {column}: this is no hexadecimal digit"
        ),
        typed::Trouble::FewDigits => eprintln!(system;
            ", line {line}, column {column}: a word has sixteen digits, and here are fewer"
        ),
        typed::Trouble::ManyDigits => eprintln!(system;
            ", line {line}, column {column}: a word has sixteen digits, and here are more"
        ),
    }
    Said
}

fn spelling_of(name: &[u8], hex: bool) -> Spelling {
    if hex || name.ends_with(b".hex") {
        Spelling::Hex
    } else {
        Spelling::Raw
    }
}

// The words of the file that has this name.
fn words_named<'a>(
    system: System,
    name: &[u8],
    hex: bool,
    words: &'a mut [u64],
) -> Result<&'a [u64], Said> {
    let spelling = spelling_of(name, hex);
    let shown = Input::shown(name);
    match read_named(system, name, words, spelling) {
        Ok(taken) => match taken.trouble_in(spelling) {
            None => Ok(crate::room::front(words, taken.count)),
            Some(trouble) => Err(complain_of_words(system, shown, taken, trouble)),
        },
        Err(error) => Err(complain_of_file(system, shown, error)),
    }
}

// What a name tells of a file: one that ends in .lst has a listing, and one in .block a block, but not where it is to be read as digits.
fn written_in(name: &[u8], hex: bool, rules: Rules, wave: QuadSamples) -> Option<Written> {
    if hex {
        None
    } else if name.ends_with(b".lst") {
        Some(Written::Listing(rules))
    } else if name.ends_with(b".block") {
        Some(Written::Block(wave))
    } else {
        None
    }
}

// The words of the file that an argument names, and the lines that they stand in where it is a listing.
pub fn words_of<'a>(
    system: System,
    argument: usize,
    hex: bool,
    rules: Rules,
    wave: QuadSamples,
    rooms: Rooms<'a>,
) -> Result<Source<'a>, Trouble<'a>> {
    let mut buffer = io::large_buffer();
    let name = system.name(argument, &mut buffer);
    if let Some(written) = written_in(name, hex, rules, wave) {
        return words_in_text(system, argument, written, rooms);
    }
    let words = words_named(system, name, hex, rooms.words)?;
    Ok(Source { words, lines: &[] })
}
