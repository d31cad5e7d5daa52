// The messages that a run was given so far, and room for more.
// They stand at the start of a buffer that is lent.
ghost use Rattle.std.specs.Prelude.{◌≤◌, length};

#[derive(Drop)]
pub struct Messages<'a> {
    room: &'a mut [u8],
    count: usize,
    ghost within: { count ≤ length room.now },
}

impl<'a> Messages<'a> {
    // Where the first ones stand in the buffer already.
    pub fn of(room: &'a mut [u8], count: usize) -> Messages<'a>
        requires { count ≤ length room.old }
    {
        Messages { room, count }
    }

    pub fn given(&self) -> &[u8] {
        let room = &*self.room;
        &room[..self.count]
    }

    // One more, where there is room for it; how many there are then.
    pub fn push(&mut self, message: u8) -> Option<usize> {
        let n = self.count;
        if self.room.len() <= n {
            return None;
        }
        self.room[n] = message;
        self.count = n + 1;
        Some(n + 1)
    }
}
