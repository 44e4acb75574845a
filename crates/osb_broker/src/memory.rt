//! The broker over records in memory, where no disk fails and the store stays open: what it says
//! holds without a premise.

ghost use Rattle.std.specs.Prelude.{◌≡◌, ◌≤◌, ◌<◌, ◌+◌, ◌⊎◌, true, false, List, length, map, vec_items, IfOk, IfErr, OnOk, OnErr, IfSome, IsTrue};
ghost use Rattle.sqlite.specs.Held.{state};
ghost use Rattle.sqlite.specs.Steps.{over_memory};
ghost use Rattle.osb_frames.specs.declared.limits.Limits.{Limits};
ghost use Rattle.osb_frames.specs.Calls.{Call};
ghost use Rattle.osb_frames.specs.Steps.{message};
ghost use Rattle.osb_frames.specs.Writers.{WritesNothing};
ghost use Rattle.osb_replies.specs.Parts.{parts, refused};
ghost use Rattle.osb_replies.specs.Text.{reply_text};
ghost use Rattle.osb_catalog.specs.Rules as catalog;
ghost use Rattle.osb_asks.specs.Asks.{ask_of};
ghost use Rattle.osb_audit.specs.Plans.{plans_in_use};
ghost use Rattle.osb_statements.specs.Steps.{stored};
ghost use Rattle.osb_laws.specs.Failures.{is_500};
ghost use Rattle.osb_broker.specs.BrokerState.{lives_of, most_of, records_of, rules_in};
ghost use Rattle.osb_broker.specs.Machine.{Handled};
ghost use Rattle.osb_broker.specs.Once.{ServedOnce};
ghost use Rattle.osb_broker.specs.PerConnection.{IsPerConnection};
ghost use Rattle.osb_broker.specs.Plans.{first_lacking, NamesLacking, OffersInUse, ReportsLacking};
ghost use Rattle.osb_broker.specs.Room.{limits_of, met_fault};
ghost use Rattle.osb_broker.specs.Served.{Served, AreStandard, RunServed};
ghost use Rattle.osb_broker.specs.Serving.{HasCause, EachWasNeeded, EndsAtFault, ReadsMade, EndsAs, ReadsOf, WritesOf};
ghost use Rattle.osb_broker.specs.Steps.{machine, capped, needs_lives};

use crate::broker::Broker;
use crate::buffer::Buffer;
use crate::fault::{NewFault, ServeFault};
use crate::rooms::Room;
use osb_catalog::Settings;
use osb_frames::{Request, Sink, Source};
use osb_records::Records;
use osb_replies::Reply;
use sqlite::MemStore;
use std::alloc::{AllocError, Global};

/// As [`Broker::new`].
pub fn new(
    alloc: Global,
    settings: &Settings,
    records: Records<MemStore>,
    per_connection: u32,
) -> Result<Broker<'_, MemStore>, (NewFault, Records<MemStore>)>
    requires per_connection { IsPerConnection per_connection }
    ensures lives { IfOk result (λ broker.
        lives_of over_memory broker ≡ stored (state over_memory records)) }
    ensures most { IfOk result (λ broker. most_of broker ≡ per_connection) }
    ensures rules { IfOk result (λ broker. rules_in broker ≡ catalog.rules_of settings.now) }
    ensures offered { IfOk result (λ broker.
        OffersInUse (catalog.rules_of settings.now) (stored (state over_memory records))) }
    ensures in_use { IfErr result (λ fault.
        ReportsLacking fault.0 (first_lacking (catalog.rules_of settings.now)
        (plans_in_use (stored (state over_memory records))))) }
    ensures lacks { IfErr result (λ fault. NamesLacking (catalog.rules_of settings.now) fault.0) }
    ensures err { IfErr result (λ fault.
        stored (state over_memory fault.1) ≡ stored (state over_memory records)) }
{
    Broker::new(alloc, settings, records, per_connection)
}

/// As [`Broker::handle`].
pub fn handle<'s: 'a, 'a>(
    broker: &mut Broker<'s, MemStore>,
    request: &Request<'a>,
    last: bool,
) -> Reply<'a>
    ensures handled { Handled (machine (rules_in broker.old)) (message request.now) last
        (lives_of over_memory broker.old) (parts result) (lives_of over_memory broker.new) }
    ensures stays { is_500 (parts result).status ≡ true →
        lives_of over_memory broker.new ≡ lives_of over_memory broker.old }
    ensures untouched { needs_lives (ask_of (rules_in broker.old) (message request.now)) ≡ false →
        records_of broker.new ≡ records_of broker.old }
    ensures most { most_of broker.new ≡ most_of broker.old }
    ensures rules { rules_in broker.new ≡ rules_in broker.old }
{
    broker.handle(request, last)
}

/// As [`Broker::answer`].
pub fn answer<'s: 'a, 'a, W: Room>(
    broker: &mut Broker<'s, MemStore>,
    request: &Request<'a>,
    last: bool,
    room: &mut W,
) -> Reply<'a>
    ensures handled { Handled (capped (rules_in broker.old)) (message request.now) last
        (lives_of over_memory broker.old) (parts result) (lives_of over_memory broker.new) }
    ensures stays { is_500 (parts result).status ≡ true →
        lives_of over_memory broker.new ≡ lives_of over_memory broker.old }
    ensures untouched { needs_lives (ask_of (rules_in broker.old) (message request.now)) ≡ false →
        records_of broker.new ≡ records_of broker.old }
    ensures room { (parts result ≡ refused)
        ⊎ (length (reply_text (parts result)) ≤ W.room room.new) }
    ensures unwritten { WritesNothing W.Sink room.old room.new }
    ensures most { most_of broker.new ≡ most_of broker.old }
    ensures rules { rules_in broker.new ≡ rules_in broker.old }
{
    broker.answer(request, last, room)
}

/// As [`Broker::serve`].
pub fn serve<R: Source, W: Sink>(
    broker: &mut Broker<'_, MemStore>,
    buffer: &mut Buffer,
    source: &mut R,
    sink: &mut W,
) -> Result<(), ServeFault>
    ensures most { most_of broker.new ≡ most_of broker.old }
    ensures rules { rules_in broker.new ≡ rules_in broker.old }
    ensures limits { limits_of buffer.new ≡ limits_of buffer.old }
    ensures met_fault { OnOk result (IsTrue (met_fault buffer.new) →
        EndsAtFault (W.taken sink.new)) }
    ensures ok { OnOk result (IfSome (R.rest source.old) (λ all.
        Served (machine (rules_in broker.old)) (limits_of buffer.old) (most_of broker.old)
        (lives_of over_memory broker.old) all (W.taken sink.old) (W.taken sink.new)
        (lives_of over_memory broker.new))) }
    ensures cause { HasCause result (R.failures source.old < R.failures source.new)
        (W.failed_or_empty sink.old < W.failed_or_empty sink.new) }
    ensures wrote { WritesOf result (W.failed_or_empty sink.old) (W.failed_or_empty sink.new) }
    ensures outcome { (calls : List Call)
        × ReadsMade (R.calls source.old) (R.calls source.new) (R.rest source.old)
        (R.rest source.new) calls
        × ReadsOf result calls
        × EachWasNeeded (limits_of buffer.old) (most_of broker.old)
        ((limits_of buffer.old).head + (limits_of buffer.old).body) calls
        × EndsAs result (machine (rules_in broker.old)) (limits_of buffer.old) (most_of broker.old)
        (lives_of over_memory broker.old) calls (met_fault buffer.new) (W.taken sink.old)
        (W.taken sink.new) (lives_of over_memory broker.new) }
{
    broker.serve(buffer, source, sink)
}

/// As [`Broker::serve_all`].
pub fn serve_all(
    broker: &mut Broker<'_, MemStore>,
    connections: &[Vec<u8>],
) -> Result<Vec<Vec<u8>>, AllocError>
    ensures ok { IfOk result (λ outputs.
        (limits : Limits) × AreStandard limits
        × RunServed (capped (rules_in broker.old)) limits (most_of broker.old)
        (lives_of over_memory broker.old) (map vec_items connections.now)
        (map vec_items outputs.items) (lives_of over_memory broker.new)) }
    ensures once { most_of broker.old ≡ 1 → IfOk result (λ outputs.
        (limits : Limits) × AreStandard limits
        × ServedOnce (rules_in broker.old) limits (lives_of over_memory broker.old)
        (map vec_items connections.now) (map vec_items outputs.items)
        (lives_of over_memory broker.new)) }
    ensures err { OnErr result (lives_of over_memory broker.new ≡ lives_of over_memory broker.old) }
    ensures most { most_of broker.new ≡ most_of broker.old }
    ensures rules { rules_in broker.new ≡ rules_in broker.old }
{
    broker.serve_all(connections)
}
