//! Clients in memory, one after the other.

ghost use Rattle.std.specs.Prelude.{◌≡◌, ◌++◌, ℕ, [], ◌∷◌, true, false, map};
ghost use Rattle.osb_frames.specs.Calls.{all_bytes, failed_or_empty_count};
ghost use Rattle.osb_frames.specs.Counted.{calls_of};
ghost use Rattle.osb_listen.specs.Exchanges.{exchange_of};

use http_server::Log;
use osb_file::WatchedFile;
use osb_frames::Counted;
use osb_listen::{Entrance, ListenFault, ListenOptions, TakenClient};
use std::alloc::Global;
use std::io::{self, Read, Write};
use std::net::SocketAddr;
use std::test::Fail;

/// A client: what it sends, and how many bytes of that a read gives at most.
#[derive(Clone, Copy)]
pub(crate) struct Client<'a> {
    pub(crate) bytes: &'a [u8],
    pub(crate) piece: usize,
}

/// What a client sends.
#[derive(Drop)]
pub(crate) struct Sending {
    bytes: Vec<u8>,
    piece: usize,
    /// How many of the bytes were read.
    read: usize,
}

impl Read for Sending {
    fn read(&mut self, buf: &mut [u8]) -> io::Result<usize> {
        let rest = self.bytes.get(self.read..).unwrap_or(&[]);
        let n = rest.len().min(buf.len()).min(self.piece);
        buf[..n].copy_from_slice(&rest[..n]);
        self.read = self.read.saturating_add(n);
        Ok(n)
    }
}

/// What a client takes.
#[derive(Drop)]
pub(crate) struct Taking {
    taken: Vec<u8>,
}

impl Write for Taking {
    fn write(&mut self, bytes: &[u8]) -> io::Result<usize> {
        self.taken.extend_from_slice(bytes)?;
        Ok(bytes.len())
    }

    fn flush(&mut self) -> io::Result<()> {
        Ok(())
    }
}

/// What was written to a client, and what else is noted of an exchange with it.
#[derive(Drop)]
pub(crate) struct Said {
    number: u64,
    before: u32,
    stays: bool,
    output: Counted<Taking>,
    met_fault: bool,
}

/// Clients, one after the other, and what each was sent, exchange by exchange.
#[derive(Drop)]
pub(crate) struct Queue<'a> {
    alloc: Global,
    clients: &'a [Client<'a>],
    /// Which is the next one.
    next: usize,
    /// One that was answered and goes on: its number, how many of its requests were answered, and what it sends.
    again: Option<(u64, u32, Sending)>,
    /// What was sent in each exchange.
    sent: Vec<Vec<u8>>,
    /// Whether memory was refused for one of these.
    lost: bool,
    had: Log<Counted<Sending>, Said>,
}

impl<'a> Queue<'a> {
    pub(crate) fn of(alloc: Global, clients: &'a [Client<'a>]) -> Queue<'a> {
        Queue {
            alloc,
            clients,
            next: 0,
            again: None,
            sent: Vec::new(alloc),
            lost: false,
            had: Log::new(),
        }
    }

    /// The next client: one that goes on, or else another one, if there is memory for its bytes.
    fn next_client(&mut self) -> Option<(u64, u32, Sending)>
        ensures { self.new.had ≡ self.old.had }
    {
        if let Some(again) = self.again.take() {
            return Some(again);
        }
        let client = self.clients.get(self.next)?;
        self.next = self.next.saturating_add(1);
        let sending = Sending {
            bytes: client.bytes.to_vec(self.alloc).ok()?,
            piece: client.piece,
            read: 0,
        };
        Some((self.next as u64, 0, sending))
    }

    /// What was sent to those who were let go. Fails where memory was refused for one of these.
    pub(crate) fn into_sent(self) -> Result<Vec<Vec<u8>>, Fail> {
        if self.lost {
            return Err("memory was refused")?;
        }
        Ok(self.sent)
    }

    /// Notes what was sent.
    fn note(&mut self, output: Counted<Taking>)
        ensures { self.new.had ≡ self.old.had }
    {
        if self.sent.push(output.into_inner().taken).is_err() {
            self.lost = true;
        }
    }
}

impl<'a> Entrance for Queue<'a> {
    type In = Counted<Sending>;

    type Out = Counted<Taking>;

    ghost journal = { λ q. map (λ had. exchange_of had.1.number had.1.before had.1.stays
        (calls_of had.0) (all_bytes (calls_of had.1.output))
        (failed_or_empty_count (calls_of had.1.output)) had.1.met_fault) q.had.items };

    ghost missed = { λ _. 0 };

    fn listen(&mut self, place: &ListenOptions<'_>) -> Result<(), ListenFault> {
        match place.address.parse::<SocketAddr>() {
            Ok(_) => Ok(()),
            Err(_) => Err(ListenFault::CannotListen),
        }
    }

    fn take(
        &mut self,
        _file: &WatchedFile<'_>,
        per_connection: u32,
    ) -> Result<TakenClient<Self::In, Self::Out>, ListenFault> {
        let Some((number, before, sending)) = self.next_client() else {
            return Err(ListenFault::CannotAccept);
        };
        let taking = Taking {
            taken: Vec::new(self.alloc),
        };
        Ok(TakenClient {
            number,
            before: before.min(per_connection - 1),
            input: Counted::new(sending),
            output: Counted::new(taking),
        })
    }

    fn take_ready(&mut self, _per_connection: u32) -> Option<TakenClient<Self::In, Self::Out>> {
        None
    }

    fn stay(&mut self, client: TakenClient<Self::In, Self::Out>)
        ensures missed { ◌≡◌ {A = ℕ} 0 0 }
        ensures journal { map (λ had. exchange_of had.1.number had.1.before had.1.stays
            (calls_of had.0) (all_bytes (calls_of had.1.output))
            (failed_or_empty_count (calls_of had.1.output)) had.1.met_fault) self.new.had.items
            ≡ map (λ had. exchange_of had.1.number had.1.before had.1.stays
            (calls_of had.0) (all_bytes (calls_of had.1.output))
            (failed_or_empty_count (calls_of had.1.output)) had.1.met_fault) self.old.had.items
            ++ exchange_of client.number client.before true (calls_of client.input)
            (all_bytes (calls_of client.output))
            (failed_or_empty_count (calls_of client.output)) false ∷ [] }
    {
        let TakenClient {
            number,
            before,
            input,
            output,
        } = client;
        let said = Said {
            number,
            before,
            stays: true,
            output,
            met_fault: false,
        };
        self.had = self.had.and(&input, &said);
        self.again = Some((number, before.saturating_add(1), input.into_inner()));
        self.note(said.output);
    }

    fn leave(&mut self, client: TakenClient<Self::In, Self::Out>, met_fault: bool)
        ensures missed { ◌≡◌ {A = ℕ} 0 0 }
        ensures journal { map (λ had. exchange_of had.1.number had.1.before had.1.stays
            (calls_of had.0) (all_bytes (calls_of had.1.output))
            (failed_or_empty_count (calls_of had.1.output)) had.1.met_fault) self.new.had.items
            ≡ map (λ had. exchange_of had.1.number had.1.before had.1.stays
            (calls_of had.0) (all_bytes (calls_of had.1.output))
            (failed_or_empty_count (calls_of had.1.output)) had.1.met_fault) self.old.had.items
            ++ exchange_of client.number client.before false (calls_of client.input)
            (all_bytes (calls_of client.output))
            (failed_or_empty_count (calls_of client.output)) met_fault ∷ [] }
    {
        let TakenClient {
            number,
            before,
            input,
            output,
        } = client;
        let said = Said {
            number,
            before,
            stays: false,
            output,
            met_fault,
        };
        self.had = self.had.and(&input, &said);
        drop(input);
        self.note(said.output);
    }
}
