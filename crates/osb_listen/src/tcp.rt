//! Clients that come over TCP.

ghost use Rattle.std.specs.Prelude.{◌≡◌, ◌<◌, ◌++◌, [], ◌∷◌, true, false, map, length, OnOk, IsOkUnless};
ghost use Rattle.osb_frames.specs.Calls.{all_bytes, failed_or_empty_count};
ghost use Rattle.osb_frames.specs.Counted.{calls_of};
ghost use Rattle.osb_listen.specs.declared.fault.ListenFault.TheVariants.{CannotListen};
ghost use Rattle.osb_listen.specs.Exchanges.{exchange_of};
ghost use Rattle.osb_listen.specs.Listen.{IsAddress};
ghost use Rattle.osb_listen.specs.Tcp.{exchange_with};

use crate::entrance::{Entrance, TakenClient};
use crate::fault::ListenFault;
use crate::listen::ListenOptions;
use crate::many::ManyClients;
use crate::received::Received;
use crate::reply::Reply;
use http_server::Log;
use osb_file::WatchedFile;
use osb_frames::Counted;
use std::net::SocketAddr;

/// Where clients come from over TCP, many at the same time. A client that isn't done within the time limit is one whose
/// read or write failed.
#[derive(Drop)]
pub struct TcpEntrance<'a> {
    rt: &'a HostRuntime,
    /// Those who are connected, once it listens.
    clients: Option<ManyClients<'a>>,
    /// The exchanges that were had, for contracts.
    had: Log<Counted<Received>, Said>,
    /// Each time that the database file was missed, for contracts.
    misses: Log<(), ()>,
}

impl<'a> TcpEntrance<'a> {
    ghost use Rattle.osb_listen.specs.Tcp.{misses_of, had_by};

    /// An entrance that doesn't listen yet.
    pub fn new(rt: &'a HostRuntime) -> TcpEntrance<'a>
        ensures journal { had_by result ≡ [] }
        ensures missed { misses_of result ≡ [] }
    {
        TcpEntrance {
            rt,
            clients: None,
            had: Log::new(),
            misses: Log::new(),
        }
    }

    /// Waits until those who were served have their replies, or their time is over.
    pub fn finish(&mut self) {
        if let Some(clients) = &mut self.clients {
            clients.finish();
        }
    }
}

/// The clients of an address.
fn clients_at<'a>(
    rt: &'a HostRuntime,
    place: &ListenOptions<'_>,
) -> Result<ManyClients<'a>, ListenFault>
    ensures address { OnOk result (IsAddress place.now.address.now) }
    ensures fault { IsOkUnless result CannotListen }
{
    let Ok(parsed) = place.address.parse::<SocketAddr>() else {
        return Err(ListenFault::CannotListen);
    };
    match ManyClients::at(rt, parsed, place) {
        Ok(clients) => Ok(clients),
        Err(_) => Err(ListenFault::CannotListen),
    }
}

/// What was written to a client, and what else is noted of an exchange with it.
#[derive(Drop)]
pub struct Said {
    number: u64,
    before: u32,
    stays: bool,
    output: Counted<Reply>,
    met_fault: bool,
}

/// A client whose reads and writes are counted. Fewer of its requests than so many were answered
/// before.
fn counted(
    received: Received,
    reply: Reply,
    per_connection: u32,
) -> TakenClient<Counted<Received>, Counted<Reply>>
    requires { 0 < per_connection }
    ensures before { result.before < per_connection }
    ensures calls { calls_of result.input ≡ [] }
    ensures sent { calls_of result.output ≡ [] }
{
    TakenClient {
        number: received.number(),
        before: received.answered().min(per_connection - 1),
        input: Counted::new(received),
        output: Counted::new(reply),
    }
}

/// What is noted of an exchange with a client.
fn said_with(
    client: TakenClient<Counted<Received>, Counted<Reply>>,
    stays: bool,
    met_fault: bool,
) -> (Counted<Received>, Said)
    ensures { exchange_with result ≡ exchange_of client.number client.before stays
        (calls_of client.input) (all_bytes (calls_of client.output))
        (failed_or_empty_count (calls_of client.output)) met_fault }
{
    let TakenClient {
        number,
        before,
        input,
        output,
    } = client;
    let said = Said {
        number,
        before,
        stays,
        output,
        met_fault,
    };
    (input, said)
}

impl<'a> Entrance for TcpEntrance<'a> {
    type In = Counted<Received>;

    type Out = Counted<Reply>;

    ghost use Rattle.osb_listen.specs.Tcp.{exchange_with, had_by, misses_of};

    ghost journal = { λ e. map exchange_with (had_by e) };

    ghost missed = { λ e. length (misses_of e) };

    fn listen(&mut self, place: &ListenOptions<'_>) -> Result<(), ListenFault> {
        self.clients = Some(clients_at(self.rt, place)?);
        Ok(())
    }

    fn take(
        &mut self,
        file: &WatchedFile<'_>,
        per_connection: u32,
    ) -> Result<TakenClient<Self::In, Self::Out>, ListenFault> {
        let Some(clients) = &mut self.clients else {
            return Err(ListenFault::CannotAccept);
        };
        let Some((received, reply)) = clients.next() else {
            return Err(ListenFault::CannotAccept);
        };
        if !file.is_there(self.rt) {
            self.misses = self.misses.and(&(), &());
            return Err(ListenFault::FileTaken);
        }
        Ok(counted(received, reply, per_connection))
    }

    fn take_ready(&mut self, per_connection: u32) -> Option<TakenClient<Self::In, Self::Out>> {
        let clients = self.clients.as_mut()?;
        let (received, reply) = clients.next_ready()?;
        Some(counted(received, reply, per_connection))
    }

    fn stay(&mut self, client: TakenClient<Self::In, Self::Out>)
        ensures missed { length (misses_of self.new) ≡ length (misses_of self.old) }
        ensures journal { map exchange_with (had_by self.new)
            ≡ map exchange_with (had_by self.old) ++ exchange_of
            client.number client.before true
            (calls_of client.input) (all_bytes (calls_of client.output))
            (failed_or_empty_count (calls_of client.output)) false ∷ [] }
    {
        let (input, said) = said_with(client, true, false);
        self.had = self.had.and(&input, &said);
        if let Some(clients) = &mut self.clients {
            clients.go_on(input.into_inner(), said.output.into_inner());
        }
    }

    fn leave(&mut self, client: TakenClient<Self::In, Self::Out>, met_fault: bool)
        ensures missed { length (misses_of self.new) ≡ length (misses_of self.old) }
        ensures journal { map exchange_with (had_by self.new)
            ≡ map exchange_with (had_by self.old) ++ exchange_of
            client.number client.before false
            (calls_of client.input) (all_bytes (calls_of client.output))
            (failed_or_empty_count (calls_of client.output)) met_fault ∷ [] }
    {
        let (input, said) = said_with(client, false, met_fault);
        self.had = self.had.and(&input, &said);
        if let Some(clients) = &mut self.clients {
            clients.take_back(input.into_inner());
            clients.let_go(said.output.into_inner(), met_fault);
        }
    }
}
