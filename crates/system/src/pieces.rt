// Text on its way out, in few writes of which none cuts a piece: what is told in one, as a line of the listing, stays whole.
// What one write cannot bring out is lost, and what follows is tried all the same.
use crate::System;
use std::fmt;

// Longer than any line of the listing.
const ROOM: usize = 1024;

#[derive(Clone, Copy)]
pub enum To {
    Output,
    Error,
}

#[derive(Drop)]
pub struct Pieces {
    system: System,
    to: To,
    room: [u8; ROOM],
    laid: usize,
}

impl To {
    fn put(self, system: System, bytes: &[u8]) {
        match self {
            To::Output => system.print_bytes(bytes),
            To::Error => system.eprint_bytes(bytes),
        }
    }
}

impl Pieces {
    pub fn of(system: System, to: To) -> Pieces {
        Pieces {
            system,
            to,
            room: [0; ROOM],
            laid: 0,
        }
    }

    // Whether there was room for a piece.
    fn lay(&mut self, piece: &[u8]) -> bool {
        let end = self.laid.saturating_add(piece.len());
        if ROOM < end {
            return false;
        }
        self.room[self.laid..end].copy_from_slice(piece);
        self.laid = end;
        true
    }

    // What is laid goes out.
    pub fn send(&mut self) {
        if let Some(laid) = self.room.get(..self.laid) {
            self.to.put(self.system, laid);
        }
        self.laid = 0;
    }
}

impl fmt::Write for Pieces {
    fn write_str(&mut self, text: &str) -> fmt::Result {
        let piece = text.as_bytes();
        if !self.lay(piece) {
            self.send();
            if !self.lay(piece) {
                self.to.put(self.system, piece);
            }
        }
        Ok(())
    }
}
