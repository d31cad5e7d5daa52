// Why there is no answer, on standard error.
// Each sentence begins with the name of the command, so that it stands apart where others write there too.
use std::io::Error;
use system::{Reason, System};

// The error of what has said on standard error why there is no answer.
#[derive(Clone, Copy, Debug)]
pub struct Said;

// What the system says of a file that cannot be opened, read or written.
pub fn complain_of_file(system: System, path: &[u8], error: Error) -> Said {
    eprint!(system; "aps2: ");
    system.eprint_bytes(path);
    eprintln!(system; ": {}", Reason(error));
    Said
}
