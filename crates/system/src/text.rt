// What the system says of an error, without the number that `std` puts behind it.
// A text of the system's that is no UTF-8 is as an empty one.
use std::fmt;
use std::io::{Error, Write};
use std::str::from_utf8;

// More than any text of the system's and its number have.
const ROOM: usize = 256;

// What stands before the number of an error.
const NUMBER: &str = " (os error ";

fn without_number(said: &str) -> &str {
    match said.split_once(NUMBER) {
        Some((text, _)) => text,
        None => said,
    }
}

// Why the system did not do what it was asked for.
#[derive(Clone, Copy)]
pub struct Reason(pub Error);

impl fmt::Display for Reason {
    fn fmt<W: fmt::Write>(&self, f: &mut fmt::Formatter<W>) -> fmt::Result {
        let mut room = [0u8; ROOM];
        let mut rest: &mut [u8] = &mut room;
        let error = self.0;
        let _ = write!(rest, "{error}");
        let n = ROOM.saturating_sub(rest.len());
        let said = from_utf8(&room[..n]).unwrap_or("");
        f.write_str(without_number(said))
    }
}

#[cfg(test)]
mod tests {
    use super::*;
    use std::test::Fail;

    #[test]
    fn the_number_is_left_out(rt: HostRuntime) -> Result<(), Fail> {
        let error = Error::from_raw_os_error(2);
        let said = format!(in rt.alloc(); "{}", Reason(error))?;
        assert_eq!(rt; said.as_str(), "No such file or directory");
        assert_eq!(rt; without_number("not read"), "not read");
        Ok(())
    }
}
