// A line of standard input. It comes byte by byte, so that nothing is taken that belongs to the next line.
// What is longer than there is room for is cut.
ghost use Rattle.std.specs.Prelude.{◌≤◌, length, IfSome};

use system::System;

// None at the end of the input, or where it cannot be read.
fn next_byte(system: System) -> Option<u8> {
    let mut one = [0u8; 1];
    match system.read(&mut one) {
        Ok(0) | Err(_) => None,
        Ok(_) => Some(one[0]),
    }
}

// A proved loop has to end, and nothing says that an input does; so it takes no more turns than a number that no lesson uses up.
fn next_line(system: System, room: &mut [u8]) -> Option<&[u8]>
    ensures { IfSome result (λ line. length line.now ≤ length room.old) }
{
    let mut byte = next_byte(system)?;
    let mut n = 0;
    for _ in 0..u64::MAX {
        if byte == b'\n' {
            break;
        }
        if n < room.len() {
            room[n] = byte;
            n += 1;
        }
        match next_byte(system) {
            Some(next) => byte = next,
            None => break,
        }
    }
    Some(&room[..n])
}

// The next line, asked for; none where the input has ended before it. One that does not come from a keyboard is said again, so that what is
// answered stands below it.
pub fn hear(system: System, room: &mut [u8]) -> Option<&[u8]>
    ensures { IfSome result (λ line. length line.now ≤ length room.old) }
{
    print!(system; "> ");
    let Some(line) = next_line(system, room) else {
        println!(system);
        return None;
    };
    if !system.is_keyboard() {
        system.print_bytes(line);
        println!(system);
    }
    Some(line)
}
