//! What has come of a client.

use crate::peer::Peer;
use crate::rooms::{LARGE, Rooms, SMALL};
use osb_frames::{Limits, LineRoom, Step, next_at_once};
use std::alloc::Global;
use std::io::{self, ErrorKind, Read};
use std::mem;

/// Whether a client can be served.
#[derive(Clone, Copy, Debug, PartialEq, Eq)]
pub(crate) enum Readiness {
    /// There is a request or a framing fault, or nothing more comes.
    Ready,
    /// More has to come.
    NotYet,
    /// There is no room for more now.
    NoRoom,
}

/// What has come of a client. Its next request is read as if it came now: behind it is the end
/// where the client has ended and nothing else came, and otherwise a failure.
#[derive(Drop)]
pub struct Received {
    /// Which client it is.
    number: u64,
    /// How many of its requests were answered.
    answered: u32,
    /// What has come since then.
    bytes: Vec<u8>,
    /// How many of these are the next request; all of them where there is no whole one.
    next: usize,
    /// How many were read.
    read: usize,
    /// Whether no more come.
    ended: bool,
}

impl Received {
    pub(crate) fn nothing(alloc: Global, number: u64) -> Received {
        Received {
            number,
            answered: 0,
            bytes: Vec::new(alloc),
            next: 0,
            read: 0,
            ended: false,
        }
    }

    pub(crate) fn number(&self) -> u64 {
        self.number
    }

    pub(crate) fn answered(&self) -> u32 {
        self.answered
    }

    /// Whether a request was answered, and nothing has come since then.
    pub(crate) fn is_idle(&self) -> bool {
        self.answered > 0 && self.bytes.is_empty()
    }

    /// Whether it has a large room.
    pub(crate) fn has_large_room(&self) -> bool {
        self.bytes.capacity() > SMALL
    }

    /// Whether its room is full.
    pub(crate) fn is_full(&self) -> bool {
        !self.bytes.is_empty() && self.bytes.len() == self.bytes.capacity()
    }

    /// Gives up its room.
    pub(crate) fn into_room(self) -> Vec<u8> {
        self.bytes
    }

    /// Has no more come, and forgets what did.
    pub(crate) fn end(&mut self) {
        self.bytes.truncate(0);
        self.next = 0;
        self.ended = true;
    }

    /// Has the next request answered, so that what came behind it is first. Where nothing did, its
    /// room is given back.
    pub(crate) fn pass(&mut self, rooms: &mut Rooms) {
        let length = self.bytes.len();
        let next = self.next.min(length);
        self.bytes.as_mut_slice().copy_within(next..length, 0);
        self.bytes.truncate(length - next);
        self.next = 0;
        self.read = 0;
        self.answered = self.answered.saturating_add(1);
        if self.bytes.is_empty() {
            self.give_back(rooms);
        }
    }

    fn give_back(&mut self, rooms: &mut Rooms) {
        let nothing = rooms.nothing();
        rooms.give_back(mem::replace(&mut self.bytes, nothing));
    }

    /// Looks for the next request. Whether the client can be served.
    pub(crate) fn look(&mut self, lines: &mut LineRoom) -> Readiness {
        self.next = match next_at_once(&self.bytes, self.ended, &Limits::STANDARD, lines) {
            Step::More => return Readiness::NotYet,
            Step::Whole(_, used) => used,
            Step::Stop(_) | Step::Ended => self.bytes.len(),
        };
        Readiness::Ready
    }

    /// Has room for more bytes from now on. Whether there is some.
    fn make_room(&mut self, rooms: &mut Rooms) -> bool {
        if self.bytes.len() < self.bytes.capacity() || self.bytes.capacity() >= LARGE {
            return true;
        }
        let found = if self.bytes.is_empty() {
            rooms.take_small()
        } else {
            rooms.take_large()
        };
        let Some(mut room) = found else {
            return false;
        };
        let copied = room.extend_from_slice(&self.bytes).is_ok();
        rooms.give_back(mem::replace(&mut self.bytes, room));
        copied
    }

    /// Takes in what lies there. Whether anything did.
    fn take_piece(&mut self, peer: &mut Peer, piece: &mut [u8]) -> io::Result<bool> {
        let free = self.bytes.capacity().saturating_sub(self.bytes.len());
        let free = free.min(piece.len());
        let Some(count) = peer.read(&mut piece[..free])? else {
            return Ok(false);
        };
        self.bytes.extend_from_slice(&piece[..count])?;
        self.ended = count == 0;
        Ok(true)
    }

    /// Takes in what lies there. Whether the client can be served then. One whose connection is broken can: it is
    /// served as one whose read failed, or if it was idle as one who ended. One who sent nothing has no room.
    pub(crate) fn take_in(
        &mut self,
        peer: &mut Peer,
        rooms: &mut Rooms,
        piece: &mut [u8],
        lines: &mut LineRoom,
    ) -> Readiness {
        if !self.make_room(rooms) {
            return Readiness::NoRoom;
        }
        let taken = self.take_piece(peer, piece);
        if self.bytes.is_empty() {
            self.give_back(rooms);
        }
        match taken {
            Ok(true) => self.look(lines),
            Ok(false) => Readiness::NotYet,
            Err(_) => {
                self.ended = self.is_idle();
                self.next = self.bytes.len();
                Readiness::Ready
            }
        }
    }
}

impl Read for Received {
    fn read(&mut self, buf: &mut [u8]) -> io::Result<usize> {
        let rest = self.bytes.get(self.read..self.next).unwrap_or(&[]);
        let count = rest.len().min(buf.len());
        let is_over = self.ended && self.next == self.bytes.len();
        if count == 0 && !is_over && !buf.is_empty() {
            return Err(ErrorKind::TimedOut.into());
        }
        buf[..count].copy_from_slice(&rest[..count]);
        self.read = self.read.saturating_add(count);
        Ok(count)
    }
}
