//! Waits for clients that are connected at the same time.

use crate::client::Then;
use crate::clients::Clients;
use crate::listen::ListenOptions;
use crate::received::Received;
use crate::reply::Reply;
use mio::{Events, Poll};
use std::io;
use std::net::SocketAddr;
use std::time::{Duration, Instant};

/// How much news is heard at once.
const EVENTS: usize = 256;

/// Clients that are connected at the same time, of whom each is read from without waiting until it can be
/// served.
#[derive(Drop)]
pub(crate) struct ManyClients<'a> {
    rt: &'a HostRuntime,
    poll: Poll,
    events: Events,
    clients: Clients<'a>,
    /// How many are handed on before there is a look for news again.
    round: usize,
}

impl<'a> ManyClients<'a> {
    /// Clients of an address, within these limits.
    pub(crate) fn at(
        rt: &'a HostRuntime,
        address: SocketAddr,
        place: &ListenOptions<'_>,
    ) -> io::Result<ManyClients<'a>> {
        let poll = Poll::new(rt)?;
        let registry = poll.registry().try_clone()?;
        Ok(ManyClients {
            rt,
            poll,
            events: Events::with_capacity(rt.alloc(), EVENTS)?,
            clients: Clients::at(rt, address, place, registry)?,
            round: 0,
        })
    }

    /// Waits for news until a moment, where none is there. Whether it waited.
    fn wait(&mut self, now: Instant, until: Option<Instant>) -> io::Result<bool> {
        self.poll.poll(&mut self.events, Some(Duration::ZERO))?;
        let patience = match until {
            Some(until) => Some(until.saturating_duration_since(now)),
            None => None,
        };
        if !self.events.is_empty() || patience == Some(Duration::ZERO) {
            return Ok(false);
        }
        self.poll.poll(&mut self.events, patience)?;
        Ok(true)
    }

    /// Goes on with all the news. The moment after that.
    fn attend(&mut self) -> io::Result<Instant> {
        for event in &self.events {
            self.clients.hear(event.token(), event.is_read_closed());
        }
        let now = Instant::now(self.rt)?;
        self.clients.end_late(now);
        self.clients.end_for_room(now);
        Ok(now)
    }

    /// Waits for news, and lets in who wants to come.
    fn turn(&mut self) -> io::Result<()> {
        let now = Instant::now(self.rt)?;
        let until = self.clients.alarm(now);
        let waited = self.wait(now, until)?;
        let later = self.attend()?;
        self.clients.let_in(later, waited);
        self.round = self.clients.count_ready();
        Ok(())
    }

    /// The next client that can be served: what has come of it, and where its reply goes. Nothing where
    /// none can come any more.
    pub(crate) fn next(&mut self) -> Option<(Received, Reply)> {
        for _ in 0..u64::MAX {
            if let Some(found) = self.next_ready() {
                return Some(found);
            }
            if !self.clients.can_come() || self.turn().is_err() {
                return None;
            }
        }
        None
    }

    /// Another client that can be served now. Those who became ready since there was a look for
    /// news come behind the next one: so a client that sends many requests at once keeps nobody
    /// out.
    pub(crate) fn next_ready(&mut self) -> Option<(Received, Reply)> {
        if self.round == 0 {
            return None;
        }
        self.round -= 1;
        self.clients.next_ready()
    }

    /// Takes back the room of what came of a client that was served.
    pub(crate) fn take_back(&mut self, received: Received) {
        self.clients.take_back(received);
    }

    /// Has a client that was served take its reply. Nobody waits for that.
    pub(crate) fn let_go(&mut self, reply: Reply, met_fault: bool) {
        self.clients.send(reply, Then::Ends { met_fault });
    }

    /// Has a client that was answered take its reply, and waits for its next request.
    pub(crate) fn go_on(&mut self, received: Received, reply: Reply) {
        self.clients.go_on(received, reply);
    }

    /// Waits for those who were served, and lets in nobody.
    pub(crate) fn finish(&mut self) {
        for _ in 0..u64::MAX {
            if !self.clients.has_served() || self.wait_for_served().is_err() {
                return;
            }
        }
    }

    fn wait_for_served(&mut self) -> io::Result<()> {
        let now = Instant::now(self.rt)?;
        let until = self.clients.next_end();
        self.wait(now, until)?;
        self.attend()?;
        Ok(())
    }
}
