//! Clients that are connected at the same time.

use crate::asking::Asking;
use crate::client::{Client, Kind, Then};
use crate::door::{Arrival, DOOR, Door};
use crate::listen::ListenOptions;
use crate::peer::Peer;
use crate::places::{Places, earlier};
use crate::received::{Readiness, Received};
use crate::reply::{Reply, Sent};
use crate::rooms::Rooms;
use mio::net::TcpStream;
use mio::{Registry, Token};
use osb_frames::{LineRoom, NO_LINES};
use std::collections::VecDeque;
use std::io;
use std::net::SocketAddr;
use std::time::{Duration, Instant};

/// How many bytes of a client are read at once.
const PIECE: usize = 65_536;

/// How long a client keeps its place, or its room, although another one wants it.
const GRACE_MILLISECONDS: u64 = 1000;

/// How long a client that may be sending still is read from, and how many of its bytes are read.
const LINGER_MILLISECONDS: u64 = 300;

const LINGER_BYTES: usize = 1_048_576;

/// Clients that are connected at the same time. No call on one of them waits.
#[derive(Drop)]
pub(crate) struct Clients<'a> {
    rt: &'a HostRuntime,
    time_limit: Duration,
    idle_limit: Duration,
    /// How many have come.
    came: u64,
    /// Who is listened to.
    registry: Registry,
    door: Door,
    places: Places,
    /// Those who can be served, in the order in which they became ready.
    ready: VecDeque<Asking>,
    rooms: Rooms,
    /// Whether somebody may wait for room.
    lacks_room: bool,
    /// Where a client's bytes are read to first.
    piece: Vec<u8>,
    /// Where the field lines of a head are.
    lines: LineRoom,
}

impl<'a> Clients<'a> {
    /// Clients of an address, within these limits.
    pub(crate) fn at(
        rt: &'a HostRuntime,
        address: SocketAddr,
        place: &ListenOptions<'_>,
        registry: Registry,
    ) -> io::Result<Clients<'a>> {
        let door = Door::open(rt, address, &registry)?;
        let count = place.together as usize;
        Ok(Clients {
            rt,
            time_limit: place.time_limit,
            idle_limit: place.idle_limit,
            came: 0,
            registry,
            door,
            places: Places::new(rt.alloc(), count)?,
            ready: VecDeque::with_capacity(rt.alloc(), count)?,
            rooms: Rooms::new(rt.alloc())?,
            lacks_room: false,
            piece: Vec::from_elem(rt.alloc(), 0, PIECE)?,
            lines: NO_LINES,
        })
    }

    /// The next one who can be served.
    pub(crate) fn next_ready(&mut self) -> Option<(Received, Reply)> {
        let asking = self.ready.pop_front()?;
        Some(asking.into_ends(self.rt.alloc()))
    }

    /// How many can be served.
    pub(crate) fn count_ready(&self) -> usize {
        self.ready.len()
    }

    /// Whether clients can come still.
    pub(crate) fn can_come(&self) -> bool {
        !self.door.is_broken()
    }

    /// Whether somebody who was served is waited for.
    pub(crate) fn has_served(&self) -> bool {
        self.places.has_served()
    }

    /// When something has to be done though there is no news.
    pub(crate) fn alarm(&self, now: Instant) -> Option<Instant> {
        let may_come = self.places.has_free() || !self.door.has_waiting();
        if !self.ready.is_empty() || (self.door.may_open() && may_come) {
            return Some(now);
        }
        earlier(self.places.alarm(), self.door.rests())
    }

    /// When somebody's time may be over.
    pub(crate) fn next_end(&self) -> Option<Instant> {
        self.places.alarm()
    }

    /// Goes on with whom there is news of. That of one who is served, or that no more comes, is noted
    /// until it is waited for news again.
    pub(crate) fn hear(&mut self, token: Token, has_ended: bool) {
        if token == DOOR {
            self.door.hear();
            return;
        }
        let client = self.places.take(token.0);
        if has_ended || client.is_none() {
            self.places.note_news(token.0, true);
        }
        if let Some(client) = client {
            self.hear_from(client);
        }
    }

    /// Goes on with a client of which there is news.
    fn hear_from(&mut self, client: Client) {
        match client {
            Client::Asks(asking) => self.read(asking),
            Client::Takes(reply, then) => self.send(reply, then),
            Client::Lingers(peer, room) => self.linger(peer, room),
        }
    }

    /// Lets in who wants to come, as far as there are places. Where the first of them was waited for,
    /// hardly anybody is behind it: that is left to the system, which costs less than to look.
    pub(crate) fn let_in(&mut self, now: Instant, waited: bool) {
        for _ in 0..=self.places.count() {
            match self.door.next(now) {
                Arrival::Client(stream) => {
                    if !self.greet(stream, now) {
                        return;
                    }
                    if waited {
                        self.door.listen(&self.registry);
                    }
                }
                Arrival::NoDescriptor => {
                    self.end_longest(now);
                    return;
                }
                Arrival::Nobody => return,
            }
        }
    }

    /// Has a client at a free place from now on. Whether there was one: otherwise it waits for that of
    /// another client, which is ended.
    fn greet(&mut self, stream: TcpStream, now: Instant) -> bool {
        let Some(place) = self.places.occupy() else {
            self.door.keep(stream);
            self.end_longest(now);
            return false;
        };
        let until = now.checked_add(self.time_limit).unwrap_or(now);
        self.places.note_news(place, false);
        let peer = Peer::new(stream, place, now, until);
        self.came = self.came.saturating_add(1);
        let received = Received::nothing(self.rt.alloc(), self.came);
        self.read(Asking::new(peer, received));
        true
    }

    /// Ends the one of a kind who has waited longest, once that is long enough. Whether one was ended.
    fn end_longest_of(&mut self, kind: Kind, now: Instant) -> bool {
        let Some((place, since)) = self.places.longest(kind) else {
            return false;
        };
        let grace = Duration::from_millis(GRACE_MILLISECONDS);
        let end = since.checked_add(grace).unwrap_or(now);
        if now < end {
            self.places.wake_by(end);
            return false;
        }
        self.end_at(place);
        true
    }

    /// Ends the one who has been idle longest, at once. Whether there was one.
    fn end_idle(&mut self) -> bool {
        let Some((place, _)) = self.places.longest(Kind::Idle) else {
            return false;
        };
        self.end_at(place);
        true
    }

    /// Ends the one who has waited longest: one who is idle, one whose request isn't whole, or else
    /// one who was served. Where some are ready, these are served first.
    fn end_longest(&mut self, now: Instant) {
        if !self.ready.is_empty() {
            self.places.wake_by(now);
            return;
        }
        if !self.end_idle() && !self.end_longest_of(Kind::Asks, now) {
            self.end_longest_of(Kind::WasServed, now);
        }
    }

    /// Where somebody waits for room, ends the one who has waited longest among those that have a large one.
    pub(crate) fn end_for_room(&mut self, now: Instant) {
        self.lacks_room = self.lacks_room && self.places.longest(Kind::LacksRoom).is_some();
        if self.lacks_room && self.ready.is_empty() {
            self.end_longest_of(Kind::HasLargeRoom, now);
        }
    }

    /// Takes the room of one who was served back.
    pub(crate) fn take_back(&mut self, received: Received) {
        self.rooms.give_back(received.into_room());
        self.use_room();
    }

    /// Reads again from the one who has waited longest for room.
    fn use_room(&mut self) {
        if !self.lacks_room {
            return;
        }
        if let Some((place, _)) = self.places.longest(Kind::LacksRoom) {
            self.hear(Token(place), false);
        }
    }

    /// Ends whose time is over.
    pub(crate) fn end_late(&mut self, now: Instant) {
        if !self.places.rings(now) {
            return;
        }
        for place in 0..self.places.count() {
            if self.places.is_late(place, now) {
                self.end_at(place);
            }
        }
    }

    /// Ends the one at a place. One that was idle up to now isn't ended where something has come.
    fn end_at(&mut self, place: usize) {
        let Some(client) = self.places.take(place) else {
            return;
        };
        if client.is(Kind::Idle) && client.peer().has_unread() {
            self.hear_from(client);
        } else {
            self.end(client);
        }
    }

    /// Ends one who isn't done. One whose request isn't whole is served: as one whose read failed.
    /// One whose next request is waited for, of which nothing has come, is served as one who ended.
    fn end(&mut self, client: Client) {
        match client {
            Client::Asks(mut asking) => {
                asking.end_idle();
                self.make_ready(asking);
            }
            Client::Takes(reply, then) => self.end_with(reply.into_peer(), then),
            Client::Lingers(peer, _) => self.forget(peer),
        }
    }

    /// Ends one who doesn't take the rest of its reply, and is sent nothing more. One who might stay
    /// is served as one who ended.
    fn end_with(&mut self, peer: Peer, then: Then) {
        match then {
            Then::Ends { met_fault: _ } => self.forget(peer),
            Then::GoesOn(mut received) => {
                received.end();
                self.make_ready(Asking::new(peer, received));
            }
        }
    }

    /// Closes a connection.
    fn forget(&mut self, peer: Peer) {
        self.places.release(peer.place);
        drop(peer);
        self.door.try_again();
    }

    /// Has one be served.
    fn make_ready(&mut self, asking: Asking) {
        let _ = self.ready.push_back(asking);
    }

    /// Waits for news of one.
    fn wait_for(&mut self, mut client: Client) {
        let interest = client.interest();
        let peer = client.peer_mut();
        if self.places.note_news(peer.place, false) {
            peer.look_again();
        }
        match peer.watch(&self.registry, interest) {
            Ok(()) => self.places.put(client),
            Err(_) => self.end(client),
        }
    }

    /// Has one have so much time from now on.
    fn give_time(&self, peer: &mut Peer, limit: Duration) {
        let now = Instant::now(self.rt).unwrap_or(peer.since);
        peer.since = now;
        peer.until = now.checked_add(limit).unwrap_or(now);
    }

    /// Reads what one has sent. One that was idle has the time of a request from then on.
    fn read(&mut self, mut asking: Asking) {
        let was_idle = asking.is_idle();
        let readiness = asking.hear(&mut self.rooms, &mut self.piece, &mut self.lines);
        if was_idle && !asking.is_idle() {
            self.give_time(asking.peer_mut(), self.time_limit);
        }
        match readiness {
            Readiness::Ready => self.make_ready(asking),
            Readiness::NotYet => self.wait_for(Client::Asks(asking)),
            Readiness::NoRoom => {
                self.lacks_room = true;
                self.places.put(Client::Asks(asking));
            }
        }
    }

    /// Sends one who was served the rest of the reply. Then it goes on, or is let go.
    pub(crate) fn send(&mut self, mut reply: Reply, then: Then) {
        match reply.send() {
            Sent::NotYet => self.wait_for(Client::Takes(reply, then)),
            Sent::Never => self.end_with(reply.into_peer(), then),
            Sent::All => match then {
                Then::Ends { met_fault } => self.let_go(reply.into_peer(), met_fault),
                Then::GoesOn(received) => self.ask_again(reply.into_peer(), received),
            },
        }
    }

    /// Ends a connection so that its reply can be read: where bytes of the client lie unread as it
    /// is closed, the system takes the reply back. One who met a framing fault may be sending
    /// still, though nothing lies there yet.
    fn let_go(&mut self, peer: Peer, met_fault: bool) {
        if (met_fault || peer.has_unread()) && peer.shut() {
            self.begin_to_linger(peer);
        } else {
            self.forget(peer);
        }
    }

    /// Has one who was answered go on once it has the reply.
    pub(crate) fn go_on(&mut self, mut received: Received, reply: Reply) {
        received.pass(&mut self.rooms);
        if received.answered() == 1 {
            reply.peer().hurry();
        }
        self.send(reply, Then::GoesOn(received));
        self.use_room();
    }

    /// Waits for the next request of one who was answered, where it isn't there yet.
    fn ask_again(&mut self, mut peer: Peer, received: Received) {
        let limit = if received.is_idle() {
            self.idle_limit
        } else {
            self.time_limit
        };
        self.give_time(&mut peer, limit);
        let mut asking = Asking::new(peer, received);
        match asking.look(&mut self.lines) {
            Readiness::Ready => self.make_ready(asking),
            _ => self.wait_for(Client::Asks(asking)),
        }
    }

    /// Reads from now on what one sends still.
    fn begin_to_linger(&mut self, mut peer: Peer) {
        let now = Instant::now(self.rt).unwrap_or(peer.since);
        let end = now.checked_add(Duration::from_millis(LINGER_MILLISECONDS));
        peer.until = end.unwrap_or(now);
        self.linger(peer, LINGER_BYTES);
    }

    /// Reads what one sends still, up to so many bytes.
    fn linger(&mut self, mut peer: Peer, room: usize) {
        match peer.read(&mut self.piece) {
            Ok(Some(0)) | Err(_) => self.forget(peer),
            Ok(Some(count)) if room <= count => self.forget(peer),
            Ok(Some(count)) => self.wait_for(Client::Lingers(peer, room - count)),
            Ok(None) => self.wait_for(Client::Lingers(peer, room)),
        }
    }
}
