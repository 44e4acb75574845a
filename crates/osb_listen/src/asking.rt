//! A client whose request isn't whole yet.

use crate::peer::Peer;
use crate::received::{Readiness, Received};
use crate::reply::Reply;
use crate::rooms::Rooms;
use osb_frames::LineRoom;
use std::alloc::Global;

/// A client whose request isn't whole yet: its connection, and what has come there. Nothing else comes to be
/// the bytes of a client, and its reply goes nowhere else.
#[derive(Drop)]
pub(crate) struct Asking {
    peer: Peer,
    received: Received,
    /// Whether it waits for room.
    lacks_room: bool,
}

impl Asking {
    /// A client of whom this has come.
    pub(crate) fn new(peer: Peer, received: Received) -> Asking {
        Asking {
            peer,
            received,
            lacks_room: false,
        }
    }

    pub(crate) fn peer(&self) -> &Peer {
        &self.peer
    }

    pub(crate) fn peer_mut(&mut self) -> &mut Peer {
        &mut self.peer
    }

    /// Whether it waits for room.
    pub(crate) fn lacks_room(&self) -> bool {
        self.lacks_room
    }

    /// Whether it has a large room.
    pub(crate) fn has_large_room(&self) -> bool {
        self.received.has_large_room()
    }

    /// Whether a request of it was answered, and nothing has come since then.
    pub(crate) fn is_idle(&self) -> bool {
        self.received.is_idle() && !self.lacks_room
    }

    /// Has no more come, where it is idle.
    pub(crate) fn end_idle(&mut self) {
        if self.is_idle() {
            self.received.end();
        }
    }

    /// Looks for a request in what has come. Whether the client can be served.
    pub(crate) fn look(&mut self, lines: &mut LineRoom) -> Readiness {
        self.received.look(lines)
    }

    /// Takes in what has come. Whether the client can be served then.
    pub(crate) fn hear(
        &mut self,
        rooms: &mut Rooms,
        piece: &mut [u8],
        lines: &mut LineRoom,
    ) -> Readiness {
        let mut found = self.received.take_in(&mut self.peer, rooms, piece, lines);
        if found == Readiness::NotYet && self.received.is_full() {
            found = self.received.take_in(&mut self.peer, rooms, piece, lines);
        }
        self.lacks_room = found == Readiness::NoRoom;
        found
    }

    /// What has come of the client, and where its reply goes.
    pub(crate) fn into_ends(self, alloc: Global) -> (Received, Reply) {
        let Asking {
            peer,
            received,
            lacks_room: _,
        } = self;
        (received, Reply::to(alloc, peer))
    }
}
