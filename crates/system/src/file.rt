// Files by name. A name that is no UTF-8 names no file here, and the error is the system's own for such bytes.
use crate::System;
use std::fs::{File, OpenOptions};
use std::io::Error;
use std::str::from_utf8;
use std::{fs, io};

// Linux's EILSEQ.
const NO_TEXT: i32 = 84;

fn path(name: &[u8]) -> io::Result<&str> {
    from_utf8(name).map_err(|_| Error::from_raw_os_error(NO_TEXT))
}

// For reading.
pub fn open(system: System, name: &[u8]) -> io::Result<File> {
    fs::open(&system.host, path(name)?)
}

// For writing, where there is none of this name.
pub fn create(system: System, name: &[u8]) -> io::Result<File> {
    OpenOptions::new()
        .write(true)
        .create_new(true)
        .open(&system.host, path(name)?)
}

pub fn rename(system: System, from: &[u8], to: &[u8]) -> io::Result<()> {
    fs::rename(&system.host, path(from)?, path(to)?)
}

pub fn remove(system: System, name: &[u8]) -> io::Result<()> {
    fs::remove_file(&system.host, path(name)?)
}

#[cfg(test)]
mod tests {
    use super::*;
    use std::io::{Read, Write};
    use std::test::Fail;

    #[test]
    fn a_file_comes_and_goes(rt: HostRuntime) -> Result<(), Fail> {
        let system = System::of(rt);
        let mut made = create(system, b"made")?;
        made.write_all(b"here")?;
        assert!(rt; create(system, b"made").is_err());
        rename(system, b"made", b"kept")?;
        let mut text = [0u8; 8];
        let n = open(system, b"kept")?.read(&mut text)?;
        assert_eq!(rt; n, 4);
        assert_eq!(rt; &text[..4], b"here".as_slice());
        remove(system, b"kept")?;
        assert!(rt; open(system, b"kept").is_err());
        Ok(())
    }

    #[test]
    fn a_name_is_text(rt: HostRuntime) -> Result<(), Fail> {
        let why = open(System::of(rt), b"\xff").err().ok_or("opened")?;
        assert_eq!(rt; why.raw_os_error(), Some(NO_TEXT));
        Ok(())
    }
}
