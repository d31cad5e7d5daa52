// How the program ends: its exit status, and the number that it is about, or 0 where the answer tells it.
// An answer that cannot be given was said to be none.
use told::{Said, Status};

#[derive(Clone, Copy)]
pub struct Ending {
    pub status: Status,
    pub number: u64,
}

impl Ending {
    pub const ACCEPTED: Ending = Ending {
        status: Status::Accepted,
        number: 0,
    };

    // An answer that tells its number itself.
    pub fn of(status: Status) -> Ending {
        Ending { status, number: 0 }
    }

    pub fn refused(number: u64) -> Ending {
        Ending {
            status: Status::Refused,
            number,
        }
    }

    pub fn tell(self) {
        told::ends(self.status.number(), self.number);
    }
}

impl From<Said> for Ending {
    fn from(_said: Said) -> Self {
        Ending::of(Status::NoAnswer)
    }
}
