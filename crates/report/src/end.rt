// How a run ended: refused, a fault, or an end that is none.
// The number tells which it is.
use instruction::Refusal;
use jumps::Halt;
use sequence::Fault;
use std::fmt;
use told::Status;

#[derive(Clone, Copy)]
pub struct End(pub Refusal);

// What an end is.
#[derive(Clone, Copy, PartialEq, Eq)]
enum Kind {
    Refused,
    Faulted,
    Ended,
}

impl End {
    // Refused is input, or a word; the numbers that tell a bit stand above all others.
    fn kind(self) -> Kind {
        let Refusal { number, .. } = self.0;
        if number < Fault::FIRST || self.0.tells_bit() {
            Kind::Refused
        } else if number < Halt::FIRST {
            Kind::Faulted
        } else {
            Kind::Ended
        }
    }

    pub fn status(self) -> Status {
        match self.kind() {
            Kind::Refused | Kind::Faulted => Status::Refused,
            Kind::Ended => Status::Accepted,
        }
    }
}

impl fmt::Display for End {
    fn fmt<W: fmt::Write>(&self, f: &mut fmt::Formatter<W>) -> fmt::Result {
        let number = self.0.number;
        match self.kind() {
            Kind::Refused => write!(f, "refused: {number}"),
            Kind::Faulted => write!(f, "faulted: {number}"),
            Kind::Ended => write!(f, "ended: {number}"),
        }
    }
}
