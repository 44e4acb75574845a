//! The places of clients that are connected.

use crate::client::{Client, Kind};
use std::alloc::{AllocError, Global};
use std::mem;
use std::time::Instant;

/// The earlier of two moments.
pub(crate) fn earlier(one: Option<Instant>, other: Option<Instant>) -> Option<Instant> {
    match (one, other) {
        (Some(one), Some(other)) => Some(if other < one { other } else { one }),
        (None, other) => other,
        (one, None) => one,
    }
}

/// Places for so many clients, of which some are free. The place of a client that is ready, or is served,
/// is empty and isn't free.
#[derive(Drop)]
pub(crate) struct Places {
    clients: Vec<Option<Client>>,
    /// Of whom there was news while nobody waited for it.
    news: Vec<bool>,
    /// The numbers of the free places.
    free: Vec<usize>,
    /// The next moment at which somebody's time may be over.
    alarm: Option<Instant>,
}

impl Places {
    /// So many places, which are free.
    pub(crate) fn new(alloc: Global, count: usize) -> Result<Places, AllocError> {
        let mut clients = Vec::with_capacity(alloc, count)?;
        let mut news = Vec::with_capacity(alloc, count)?;
        let mut free = Vec::with_capacity(alloc, count)?;
        for place in 0..count {
            clients.push(None)?;
            news.push(false)?;
            free.push(place)?;
        }
        Ok(Places {
            clients,
            news,
            free,
            alarm: None,
        })
    }

    pub(crate) fn count(&self) -> usize {
        self.clients.len()
    }

    /// The number of a place that was free.
    pub(crate) fn occupy(&mut self) -> Option<usize> {
        self.free.pop()
    }

    /// Has a place free again.
    pub(crate) fn release(&mut self, place: usize) {
        let _ = self.free.push(place);
    }

    pub(crate) fn has_free(&self) -> bool {
        !self.free.is_empty()
    }

    /// Has a client wait at its place.
    pub(crate) fn put(&mut self, client: Client) {
        let place = client.peer().place;
        self.wake_by(client.peer().until);
        if let Some(at) = self.clients.get_mut(place) {
            *at = Some(client);
        }
    }

    /// Notes whether there is news that nobody has looked at of the one at a place. Whether there was some before.
    pub(crate) fn note_news(&mut self, place: usize, is_there: bool) -> bool {
        match self.news.get_mut(place) {
            Some(noted) => mem::replace(noted, is_there),
            None => false,
        }
    }

    /// The client that waits at a place.
    pub(crate) fn take(&mut self, place: usize) -> Option<Client> {
        self.clients.get_mut(place)?.take()
    }

    fn at(&self, place: usize) -> Option<&Client> {
        self.clients.get(place)?.as_ref()
    }

    /// Whether somebody waits at a place whose time is over. If it isn't, the alarm is for it too.
    pub(crate) fn is_late(&mut self, place: usize, now: Instant) -> bool {
        let Some(client) = self.at(place) else {
            return false;
        };
        let until = client.peer().until;
        if now < until {
            self.wake_by(until);
            return false;
        }
        true
    }

    pub(crate) fn alarm(&self) -> Option<Instant> {
        self.alarm
    }

    pub(crate) fn wake_by(&mut self, moment: Instant) {
        self.alarm = earlier(self.alarm, Some(moment));
    }

    /// Whether somebody's time may be over. It is asked once.
    pub(crate) fn rings(&mut self, now: Instant) -> bool {
        let alarm = self.alarm;
        let rings = matches!(alarm, Some(moment) if moment <= now);
        if rings {
            self.alarm = None;
        }
        rings
    }

    /// Whether somebody who was served waits.
    pub(crate) fn has_served(&self) -> bool {
        for client in &self.clients {
            if let Some(client) = client {
                if client.is(Kind::WasServed) {
                    return true;
                }
            }
        }
        false
    }

    /// The place of the one of a kind who has waited longest, and since when.
    pub(crate) fn longest(&self, kind: Kind) -> Option<(usize, Instant)> {
        let mut found: Option<(usize, Instant)> = None;
        for client in &self.clients {
            if let Some(client) = client {
                let peer = client.peer();
                if client.is(kind) && !matches!(found, Some((_, since)) if since <= peer.since) {
                    found = Some((peer.place, peer.since));
                }
            }
        }
        found
    }
}
