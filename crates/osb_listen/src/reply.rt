//! Where the reply to a client goes.

use crate::peer::Peer;
use std::alloc::Global;
use std::io::{self, Write};

/// How far a reply is.
#[derive(Clone, Copy, Debug, PartialEq, Eq)]
pub(crate) enum Sent {
    /// The system has all of it.
    All,
    /// Its client has to take some of it first.
    NotYet,
    /// The rest can't be sent any more.
    Never,
}

/// Where the reply to a client goes: to the client as long as the system takes bytes at once. The rest is
/// kept.
#[derive(Drop)]
pub struct Reply {
    peer: Peer,
    kept: Vec<u8>,
    /// How many of the bytes that were kept are sent.
    sent: usize,
}

impl Reply {
    pub(crate) fn to(alloc: Global, peer: Peer) -> Reply {
        Reply {
            peer,
            kept: Vec::new(alloc),
            sent: 0,
        }
    }

    pub(crate) fn peer(&self) -> &Peer {
        &self.peer
    }

    pub(crate) fn peer_mut(&mut self) -> &mut Peer {
        &mut self.peer
    }

    pub(crate) fn into_peer(self) -> Peer {
        let Reply {
            peer,
            kept,
            sent: _,
        } = self;
        drop(kept);
        peer
    }

    /// Sends of what is kept as much as is taken at once.
    pub(crate) fn send(&mut self) -> Sent {
        let rest = self.kept.get(self.sent..).unwrap_or(&[]);
        if rest.is_empty() {
            return Sent::All;
        }
        match self.peer.write(rest) {
            Ok(Some(0)) | Err(_) => Sent::Never,
            Ok(Some(count)) => {
                let all = count == rest.len();
                self.sent = self.sent.saturating_add(count);
                if all { Sent::All } else { Sent::NotYet }
            }
            Ok(None) => Sent::NotYet,
        }
    }
}

impl Write for Reply {
    fn write(&mut self, buf: &[u8]) -> io::Result<usize> {
        if self.kept.is_empty() {
            if let Some(count) = self.peer.write(buf)? {
                return Ok(count);
            }
        }
        self.kept.extend_from_slice(buf)?;
        Ok(buf.len())
    }

    fn flush(&mut self) -> io::Result<()> {
        Ok(())
    }
}
