//! An address, and the clients that are served at it.

ghost use Rattle.std.specs.Prelude.{◌≡◌, ◌<◌, ◌++◌, List, IfOk, IfErr, OnOk, OnErr, IsOkUnless, IsTrue};
ghost use Rattle.sqlite.specs.State.{HasCleanDisk, Survives};
ghost use Rattle.osb_frames.specs.declared.limits.Limits.{Limits};
ghost use Rattle.osb_broker.specs.BrokerState.{Works, most_of, rules_in, store_of};
ghost use Rattle.osb_broker.specs.Exchanges.{Exchange};
ghost use Rattle.osb_broker.specs.Room.{limits_of};
ghost use Rattle.osb_broker.specs.Served.{AreStandard};
ghost use Rattle.osb_listen.specs.declared.fault.ListenFault.TheVariants.{CannotWrite};
ghost use Rattle.osb_listen.specs.Exchanges.{AreAsMany, MissesFile, Serves};
ghost use Rattle.osb_listen.specs.Lines.{IsWrittenInPart};
ghost use Rattle.osb_listen.specs.Listen.{listening_line, IsAddress, WroteLine};
ghost use Rattle.osb_listen.specs.Inside.{IsOfAddress};

use crate::entrance::Entrance;
use crate::fault::ListenFault;
use crate::serving::serve_listener;
use osb_broker::{Broker, Buffer};
use osb_file::DatabaseFile;
use osb_frames::{Limits, Sink, send_all};
use sqlite::Alter;
use std::alloc::{AllocError, Global};
use std::time::Duration;

/// Where orders are kept and clients are taken, how many of these, and for how long each.
#[derive(Clone, Copy, Debug)]
pub struct ListenOptions<'a> {
    /// The name of the database file.
    pub database: &'a str,
    /// Whether a database has to be there, so that none is begun.
    pub existing: bool,
    /// An IP address and a port.
    pub address: &'a str,
    /// How many clients are taken, of whom each may make a number of requests.
    pub connections: u32,
    /// How long a client may take, from when it is taken, or from the first byte of a later
    /// request, to its reply.
    pub time_limit: Duration,
    /// How long a client that was answered may send nothing.
    pub idle_limit: Duration,
    /// How many clients may be connected at the same time.
    pub together: u32,
}

/// Writes a piece of a line.
#[tactic(auto, using(crate::proofs::PartLemmas::sent_in_part))]
fn write_piece<W: Sink>(piece: &str, output: &mut W) -> Result<(), ListenFault>
    ensures ok { OnOk result (W.taken output.new ≡ W.taken output.old ++ piece.now) }
    ensures quiet { OnOk result (W.failed_or_empty output.new ≡ W.failed_or_empty output.old) }
    ensures fault { IsOkUnless result CannotWrite }
    ensures part { OnErr result (IsWrittenInPart piece.now
        (W.taken output.old) (W.taken output.new)) }
    ensures cause { OnErr result (W.failed_or_empty output.old < W.failed_or_empty output.new) }
{
    match send_all(output, piece.as_bytes()) {
        Ok(()) => Ok(()),
        Err(_) => Err(ListenFault::CannotWrite),
    }
}

/// Writes that connections are taken.
fn write_listening_line<W: Sink>(address: &str, output: &mut W) -> Result<(), ListenFault>
    ensures ok { OnOk result
        (W.taken output.new ≡ W.taken output.old ++ listening_line address.now) }
    ensures fault { IsOkUnless result CannotWrite }
    ensures part { OnErr result (IsWrittenInPart (listening_line address.now)
        (W.taken output.old) (W.taken output.new)) }
    ensures cause { OnErr result (W.failed_or_empty output.old < W.failed_or_empty output.new) }
{
    write_piece("listening on ", output)?;
    write_piece(address, output)?;
    write_piece("\n", output)
}

/// Room for connections within the standard limits.
fn standard_buffer(alloc: Global) -> Result<Buffer, AllocError>
    ensures { IfOk result (λ buffer. AreStandard (limits_of buffer)) }
{
    Buffer::new(alloc, &Limits::STANDARD)
}

/// Listens at an address, reports it, and serves clients.
pub(crate) fn serve_at<S: Alter, L: Entrance, W: Sink, E: Sink>(
    rt: &HostRuntime,
    broker: &mut Broker<'_, S>,
    file: &DatabaseFile<'_>,
    place: &ListenOptions<'_>,
    entrance: &mut L,
    output: &mut W,
    errors: &mut E,
) -> Result<(), ListenFault>
    ensures served { (limits : Limits) × AreStandard limits × (exchanges : List Exchange)
        × AreAsMany result place.now.connections (most_of broker.old) exchanges
        × Serves (rules_in broker.old) limits (most_of broker.old) exchanges
        (store_of S.Store broker.old) (store_of S.Store broker.new)
        (L.journal entrance.old) (L.journal entrance.new) (E.taken errors.old) (E.taken errors.new)
        (E.failed_or_empty errors.old) (E.failed_or_empty errors.new) }
    ensures missed { MissesFile result (L.missed entrance.old) (L.missed entrance.new) }
    ensures crash { Survives (store_of S.Store broker.old) (store_of S.Store broker.new)
        (λ _. IsTrue (store_of S.Store broker.old).is_open) }
    ensures works { Works (store_of S.Store broker.new) → Works (store_of S.Store broker.old) }
    ensures clean { HasCleanDisk (store_of S.Store broker.new) →
        HasCleanDisk (store_of S.Store broker.old) }
    ensures address { OnOk result (IsAddress place.now.address.now) }
    ensures fault { IfErr result IsOfAddress }
    ensures told { OnOk result
        (W.taken output.new ≡ W.taken output.old ++ listening_line place.now.address.now) }
    ensures told_before { IfErr result (λ fault. WroteLine fault
        (listening_line place.now.address.now) (W.taken output.old) (W.taken output.new)) }
    ensures cause { IfErr result (λ fault. fault ≡ CannotWrite →
        W.failed_or_empty output.old < W.failed_or_empty output.new) }
{
    broker.lives_are_whole();
    let mut buffer = standard_buffer(rt.alloc())?;
    entrance.listen(place)?;
    write_listening_line(place.address, output)?;
    let watched = file.watched(rt);
    serve_listener(
        rt,
        broker,
        &mut buffer,
        entrance,
        &watched,
        place.connections,
        errors,
    )
}
