//! A connection on which no call waits.

ghost use Rattle.std.specs.Prelude.{◌≤◌, length, IfOk, IfSome};

use mio::net::TcpStream;
use mio::{Interest, Registry, Token};
use std::io::{self, ErrorKind, Read, Write};
use std::net::Shutdown;
use std::time::Instant;

/// A connection among others. No call on it waits.
#[derive(Drop)]
pub struct Peer {
    stream: TcpStream,
    /// The number of its place among the others.
    pub(crate) place: usize,
    pub(crate) since: Instant,
    /// When its time is over.
    pub(crate) until: Instant,
    /// Of what news is reported.
    watched: Option<Interest>,
    /// Whether all that lay there was read, so that there is news of whatever comes.
    is_drained: bool,
}

/// Whether the call would have waited.
fn is_later(error: &io::Error) -> bool {
    error.kind() == ErrorKind::WouldBlock
}

impl Peer {
    pub(crate) fn new(stream: TcpStream, place: usize, since: Instant, until: Instant) -> Peer {
        Peer {
            stream,
            place,
            since,
            until,
            watched: None,
            is_drained: false,
        }
    }

    /// Reads what lies there: nothing where nothing does, and no byte where the client has ended.
    pub(crate) fn read(&mut self, buf: &mut [u8]) -> io::Result<Option<usize>>
        ensures { IfOk result (λ read. IfSome read (λ n. n ≤ length buf.new)) }
    {
        let read = (&mut &self.stream).read(buf);
        self.is_drained = !matches!(read, Ok(n) if n == buf.len());
        match read {
            Ok(n) => Ok(Some(n)),
            Err(error) if is_later(&error) => Ok(None),
            Err(error) => Err(error),
        }
    }

    /// Has what lies there be news, although it may have been reported.
    pub(crate) fn look_again(&mut self) {
        self.is_drained = false;
    }

    /// Writes what is taken at once: nothing where nothing is.
    pub(crate) fn write(&self, buf: &[u8]) -> io::Result<Option<usize>>
        ensures { IfOk result (λ written. IfSome written (λ n. n ≤ length buf.now)) }
    {
        match (&mut &self.stream).write(buf) {
            Ok(n) => Ok(Some(n)),
            Err(error) if is_later(&error) => Ok(None),
            Err(error) => Err(error),
        }
    }

    /// Has the system hold back no bytes for more to come, from now on.
    pub(crate) fn hurry(&self) {
        let _ = self.stream.set_nodelay(true);
    }

    /// Sends no more, and what the system held back for more to come. Whether the client was there for that.
    pub(crate) fn shut(&self) -> bool {
        self.stream.shutdown(Shutdown::Write).is_ok()
    }

    /// Whether bytes of the client lie unread.
    pub(crate) fn has_unread(&self) -> bool {
        matches!(self.stream.peek(&mut [0]), Ok(1))
    }

    /// Has news of it reported under the number of its place, also of what lies there already.
    pub(crate) fn watch(&mut self, registry: &Registry, interest: Interest) -> io::Result<()> {
        let token = Token(self.place);
        let before = self.watched.replace(interest);
        if before.is_none() {
            return registry.register(&mut self.stream, token, interest);
        }
        if self.is_drained && interest == Interest::READABLE && before == Some(interest) {
            return Ok(());
        }
        registry.reregister(&mut self.stream, token, interest)
    }
}
