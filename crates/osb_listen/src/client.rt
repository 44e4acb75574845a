//! A client that is connected and isn't served now.

use crate::asking::Asking;
use crate::peer::Peer;
use crate::received::Received;
use crate::reply::Reply;
use mio::Interest;

/// Of which clients one is looked for.
#[derive(Clone, Copy, Debug, PartialEq, Eq)]
pub(crate) enum Kind {
    /// Those whose request isn't whole.
    Asks,
    /// Those of them that have a large room.
    HasLargeRoom,
    /// Those of them that wait for room.
    LacksRoom,
    /// Those of them that were answered and have sent nothing since then.
    Idle,
    /// Those that were served.
    WasServed,
}

/// What becomes of a client that has its reply.
#[derive(Drop)]
pub(crate) enum Then {
    /// It is let go. One that met a framing fault may be sending still.
    Ends { met_fault: bool },
    /// Its next request is waited for, of which this has come.
    GoesOn(Received),
}

/// A client that is connected, by what is waited for.
#[derive(Drop)]
pub(crate) enum Client {
    /// That its next request is whole.
    Asks(Asking),
    /// That it takes the rest of its reply.
    Takes(Reply, Then),
    /// That it ends, where it may be sending still, and how many of its bytes are read until then.
    Lingers(Peer, usize),
}

impl Client {
    pub(crate) fn peer(&self) -> &Peer {
        match self {
            Client::Asks(asking) => asking.peer(),
            Client::Takes(reply, _) => reply.peer(),
            Client::Lingers(peer, _) => peer,
        }
    }

    pub(crate) fn peer_mut(&mut self) -> &mut Peer {
        match self {
            Client::Asks(asking) => asking.peer_mut(),
            Client::Takes(reply, _) => reply.peer_mut(),
            Client::Lingers(peer, _) => peer,
        }
    }

    /// Of what has to be heard.
    pub(crate) fn interest(&self) -> Interest {
        match self {
            Client::Takes(_, _) => Interest::WRITABLE,
            _ => Interest::READABLE,
        }
    }

    /// Whether it is of a kind.
    pub(crate) fn is(&self, kind: Kind) -> bool {
        match (self, kind) {
            (Client::Asks(_), Kind::Asks) => true,
            (Client::Asks(asking), Kind::HasLargeRoom) => asking.has_large_room(),
            (Client::Asks(asking), Kind::LacksRoom) => asking.lacks_room(),
            (Client::Asks(asking), Kind::Idle) => asking.is_idle(),
            (Client::Asks(_), Kind::WasServed) => false,
            (_, kind) => kind == Kind::WasServed,
        }
    }
}
