//! Where clients that are many come in.

use mio::net::{TcpListener, TcpStream};
use mio::{Interest, Registry, Token};
use std::io::{self, ErrorKind};
use std::net::SocketAddr;
use std::time::{Duration, Instant};

/// How often in a row it is tried to take a connection.
const MOST_TRIES: u32 = 100;

/// How long is waited for a descriptor: ten seconds in a row at most.
const PAUSE_MILLISECONDS: u64 = 100;

/// The numbers of the system's errors that mean no free descriptor: `ENFILE`, where the whole
/// system has none, and `EMFILE`, where the process may have no more.
const NONE_IN_SYSTEM: i32 = 23;

const NONE_IN_PROCESS: i32 = 24;

/// The token of the listener. No place has it.
pub(crate) const DOOR: Token = Token(usize::MAX);

/// Whether the error means that no descriptor is free.
fn lacks_descriptors(error: &io::Error) -> bool {
    matches!(error.raw_os_error(), Some(NONE_IN_SYSTEM | NONE_IN_PROCESS))
}

/// Who wants to come in.
#[derive(Drop)]
pub(crate) enum Arrival {
    Client(TcpStream),
    Nobody,
    /// Nobody can, since no descriptor is free.
    NoDescriptor,
}

/// Where clients come in. No call on it waits.
#[derive(Drop)]
pub(crate) struct Door {
    listener: TcpListener,
    /// Who came in while there was no place.
    waits: Option<TcpStream>,
    /// Whether others may be in the system's queue.
    may_come: bool,
    /// How often in a row nobody could be let in.
    failures: u32,
    /// Until when it isn't tried again.
    rests: Option<Instant>,
}

impl Door {
    /// A door at an address, of which news is reported.
    pub(crate) fn open(
        rt: &HostRuntime,
        address: SocketAddr,
        registry: &Registry,
    ) -> io::Result<Door> {
        let mut listener = TcpListener::bind(rt, address)?;
        registry.register(&mut listener, DOOR, Interest::READABLE)?;
        Ok(Door {
            listener,
            waits: None,
            may_come: true,
            failures: 0,
            rests: None,
        })
    }

    /// Hears that somebody came.
    pub(crate) fn hear(&mut self) {
        self.may_come = true;
    }

    /// Has the system report who comes next, also who is in its queue already. Until then nobody is
    /// looked for.
    pub(crate) fn listen(&mut self, registry: &Registry) {
        let watched = registry.reregister(&mut self.listener, DOOR, Interest::READABLE);
        self.may_come = watched.is_err();
    }

    /// Keeps who came in until there is a place.
    pub(crate) fn keep(&mut self, stream: TcpStream) {
        self.waits = Some(stream);
    }

    /// Hears that a descriptor may be free again.
    pub(crate) fn try_again(&mut self) {
        self.rests = None;
    }

    /// Whether somebody may come in now.
    pub(crate) fn may_open(&self) -> bool {
        self.waits.is_some() || (self.may_come && self.rests.is_none())
    }

    /// Whether somebody came in for whom there was no place.
    pub(crate) fn has_waiting(&self) -> bool {
        self.waits.is_some()
    }

    /// Whether it was tried too often in a row to let somebody in.
    pub(crate) fn is_broken(&self) -> bool {
        self.failures >= MOST_TRIES
    }

    /// Until when it isn't tried to let somebody in.
    pub(crate) fn rests(&self) -> Option<Instant> {
        self.rests
    }

    /// What it means that nobody could be let in.
    fn fail(&mut self, now: Instant, error: &io::Error) {
        if error.kind() == ErrorKind::WouldBlock {
            self.may_come = false;
            return;
        }
        self.failures = self.failures.saturating_add(1);
        if lacks_descriptors(error) {
            self.rests = now.checked_add(Duration::from_millis(PAUSE_MILLISECONDS));
        }
    }

    /// The next client, where one wants to come in.
    pub(crate) fn next(&mut self, now: Instant) -> Arrival {
        if let Some(stream) = self.waits.take() {
            return Arrival::Client(stream);
        }
        let rests = self.rests;
        if matches!(rests, Some(end) if end <= now) {
            self.rests = None;
        }
        for _ in 0..MOST_TRIES {
            if !self.may_open() {
                return Arrival::Nobody;
            }
            match self.listener.accept() {
                Ok((stream, _)) => {
                    self.failures = 0;
                    return Arrival::Client(stream);
                }
                Err(error) => self.fail(now, &error),
            }
            if self.rests.is_some() {
                return Arrival::NoDescriptor;
            }
        }
        Arrival::Nobody
    }
}
