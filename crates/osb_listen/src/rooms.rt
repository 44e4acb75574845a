//! The rooms of what comes from clients.

use osb_frames::{MOST_BODY, MOST_HEAD};
use std::alloc::{AllocError, Global};

/// The bytes of a small room, which has the largest head.
pub(crate) const SMALL: usize = MOST_HEAD;

/// The bytes of a large one, which has the largest request.
pub(crate) const LARGE: usize = MOST_HEAD + MOST_BODY;

/// How many clients have a large room at the same time. With 1,024 clients no more than 17.3 MB is taken.
const MOST_LARGE: usize = 32;

/// Rooms for the bytes of clients, none of which is larger than it is made. A large one is made at the start: so
/// there always is one or somebody has it, also where memory is refused.
#[derive(Drop)]
pub(crate) struct Rooms {
    alloc: Global,
    /// A large one that nobody has.
    spare: Option<Vec<u8>>,
    /// How many clients have a large one.
    large: usize,
}

impl Rooms {
    pub(crate) fn new(alloc: Global) -> Result<Rooms, AllocError> {
        let spare = Vec::with_capacity(alloc, LARGE)?;
        Ok(Rooms {
            alloc,
            spare: Some(spare),
            large: 0,
        })
    }

    /// No room, which every client has first.
    pub(crate) fn nothing(&self) -> Vec<u8> {
        Vec::new(self.alloc)
    }

    /// A small room; a large one if memory is refused for that.
    pub(crate) fn take_small(&mut self) -> Option<Vec<u8>> {
        match Vec::with_capacity(self.alloc, SMALL) {
            Ok(room) => Some(room),
            Err(_) => self.take_spare(),
        }
    }

    /// A large room.
    pub(crate) fn take_large(&mut self) -> Option<Vec<u8>> {
        if self.large >= MOST_LARGE {
            return None;
        }
        if self.spare.is_some() {
            return self.take_spare();
        }
        match Vec::with_capacity(self.alloc, LARGE) {
            Ok(room) => {
                self.large = self.large.saturating_add(1);
                Some(room)
            }
            Err(_) => None,
        }
    }

    fn take_spare(&mut self) -> Option<Vec<u8>> {
        let room = self.spare.take()?;
        self.large = self.large.saturating_add(1);
        Some(room)
    }

    /// Takes a room back from a client.
    pub(crate) fn give_back(&mut self, mut room: Vec<u8>) {
        if room.capacity() < LARGE {
            return;
        }
        self.large = self.large.saturating_sub(1);
        if self.spare.is_none() {
            room.clear();
            self.spare = Some(room);
        }
    }
}
