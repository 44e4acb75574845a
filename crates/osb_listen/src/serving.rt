//! Clients of an entrance that are served, one or several at a time.

ghost use Rattle.std.specs.Prelude.{◌≡◌, ◌<◌, ◌≤◌, ◌+◌, List, [], ◌∷◌, length, IfOk, IfErr, OnOk, OnErr, IsTrue};
ghost use Rattle.sqlite.specs.State.{HasCleanDisk, Survives};
ghost use Rattle.osb_broker.specs.BrokerState.{Works, most_of, rules_in, store_of};
ghost use Rattle.osb_broker.specs.Exchanges.{Exchange};
ghost use Rattle.osb_broker.specs.Inside.{Worked};
ghost use Rattle.osb_broker.specs.Room.{limits_of};
ghost use Rattle.osb_listen.specs.Exchanges.{ended_in, HasServedAll, MissesFile, Serves};
ghost use Rattle.osb_listen.specs.Groups.{count_of, IsTurn};
ghost use Rattle.osb_listen.specs.Listen.{IsOfServing};

use crate::client_end::report_end;
use crate::entrance::{Entrance, TakenClient};
use crate::fault::ListenFault;
use crate::group::serve_group;
use crate::refused::{Reported, report_rest};
use osb_broker::{Begun, Broker, Buffer};
use osb_file::WatchedFile;
use osb_frames::Sink;
use sqlite::Alter;
use std::alloc::Global;

/// How many clients are taken at a time, at most.
const MOST: u32 = 64;

/// How many clients were taken at a time, each for one exchange, and how many of them were let go.
#[derive(Clone, Copy, Debug)]
pub(crate) struct Turn {
    pub(crate) taken: u32,
    pub(crate) ended: u32,
}

/// How many of so many requests of a client may come still, behind those that were answered before.
pub(crate) fn left_of(per_connection: u32, before: u32) -> u32
    requires { before < per_connection }
    ensures { before + result ≡ per_connection }
{
    per_connection - before
}

/// Answers the next request of a client at once. The client is let go unless another may come.
/// Whether it was.
pub(crate) fn serve_client<S: Alter, L: Entrance, E: Sink>(
    broker: &mut Broker<'_, S>,
    buffer: &mut Buffer,
    entrance: &mut L,
    client: TakenClient<L::In, L::Out>,
    errors: &mut E,
) -> bool
    requires unread { L.In.calls client.input ≡ [] }
    requires unsent { L.Out.taken client.output ≡ [] }
    requires unfailed { L.Out.failed_or_empty client.output ≡ 0 }
    requires before { client.before < most_of broker.old }
    ensures served { (one : Exchange) × (ended_in (one ∷ []) ≡ count_of result) × Serves
        (rules_in broker.old) (limits_of buffer.old) (most_of broker.old) (one ∷ [])
        (store_of S.Store broker.old) (store_of S.Store broker.new)
        (L.journal entrance.old) (L.journal entrance.new) (E.taken errors.old) (E.taken errors.new)
        (E.failed_or_empty errors.old) (E.failed_or_empty errors.new) }
    ensures missed { L.missed entrance.new ≡ L.missed entrance.old }
    ensures worked { Worked (store_of S.Store broker.old) (store_of S.Store broker.new) }
    ensures most { most_of broker.new ≡ most_of broker.old }
    ensures rules { rules_in broker.new ≡ rules_in broker.old }
    ensures limits { limits_of buffer.new ≡ limits_of buffer.old }
{
    let mut client = client;
    let left = left_of(broker.per_connection(), client.before);
    match broker.answer_next(buffer, left, &mut client.input, &mut client.output) {
        Begun::Ended(ended) => {
            report_end(ended, errors);
            entrance.leave(client, buffer.met_fault());
            true
        }
        Begun::Stays | Begun::Waits | Begun::MayStay => {
            entrance.stay(client);
            false
        }
    }
}

/// Takes a client, with those who are ready then, up to so many, and answers the next request of
/// each.
fn serve_next<S: Alter, L: Entrance, E: Sink>(
    alloc: Global,
    broker: &mut Broker<'_, S>,
    buffer: &mut Buffer,
    entrance: &mut L,
    file: &WatchedFile<'_>,
    most: u32,
    errors: &mut E,
) -> Result<Turn, ListenFault>
    requires { 0 < most }
    ensures served { IfOk result (λ turn. (0 < turn.taken) × (turn.taken ≤ most)
        × (exchanges : List Exchange) × IsTurn turn.taken turn.ended exchanges × Serves
        (rules_in broker.old) (limits_of buffer.old) (most_of broker.old) exchanges
        (store_of S.Store broker.old) (store_of S.Store broker.new)
        (L.journal entrance.old) (L.journal entrance.new) (E.taken errors.old) (E.taken errors.new)
        (E.failed_or_empty errors.old) (E.failed_or_empty errors.new)) }
    ensures none { OnErr result (L.journal entrance.new ≡ L.journal entrance.old) }
    ensures same { OnErr result (broker.new ≡ broker.old) }
    ensures quiet { OnErr result (errors.new ≡ errors.old) }
    ensures fault { IfErr result IsOfServing }
    ensures missed { MissesFile result (L.missed entrance.old) (L.missed entrance.new) }
    ensures worked { Worked (store_of S.Store broker.old) (store_of S.Store broker.new) }
    ensures most { most_of broker.new ≡ most_of broker.old }
    ensures rules { rules_in broker.new ≡ rules_in broker.old }
    ensures limits { limits_of buffer.new ≡ limits_of buffer.old }
{
    let per_connection = broker.per_connection();
    let first = entrance.take(file, per_connection)?;
    if most > 1 {
        if let Some(second) = entrance.take_ready(per_connection) {
            return Ok(serve_group(alloc, broker, buffer, entrance, first, second, most, errors));
        }
    }
    let has_ended = serve_client(broker, buffer, entrance, first, errors);
    Ok(Turn {
        taken: 1,
        ended: u32::from(has_ended),
    })
}

/// Serves so many clients of an entrance, until they have ended, or until as many requests were had
/// as these may make. Those who are ready at the same time are answered together, with one
/// transaction for the changes of several. A read or a write of a client that fails is a line on
/// `errors`, `connection: read` or `connection: write`. The next client is served as ever. Requests
/// that are answered by the fixed 500 have a line too, as `request: 500 no memory, 3 times`, at
/// most one a second for each cause.
///
/// It ends before that with `CannotAccept` where the entrance can take no client, and with `FileTaken`
/// where the database file or its log isn't there any more as one is taken, which then isn't answered.
pub fn serve_listener<S: Alter, L: Entrance, E: Sink>(
    rt: &HostRuntime,
    broker: &mut Broker<'_, S>,
    buffer: &mut Buffer,
    entrance: &mut L,
    file: &WatchedFile<'_>,
    connections: u32,
    errors: &mut E,
) -> Result<(), ListenFault>
    ensures served { (exchanges : List Exchange)
        × OnOk result (HasServedAll connections (most_of broker.old) exchanges)
        × OnErr result (ended_in exchanges < connections)
        × Serves (rules_in broker.old) (limits_of buffer.old) (most_of broker.old) exchanges
        (store_of S.Store broker.old) (store_of S.Store broker.new)
        (L.journal entrance.old) (L.journal entrance.new) (E.taken errors.old) (E.taken errors.new)
        (E.failed_or_empty errors.old) (E.failed_or_empty errors.new) }
    ensures fault { IfErr result IsOfServing }
    ensures missed { MissesFile result (L.missed entrance.old) (L.missed entrance.new) }
    ensures crash { Survives (store_of S.Store broker.old) (store_of S.Store broker.new)
        (λ _. IsTrue (store_of S.Store broker.old).is_open) }
    ensures works { Works (store_of S.Store broker.new) → Works (store_of S.Store broker.old) }
    ensures clean { HasCleanDisk (store_of S.Store broker.new) →
        HasCleanDisk (store_of S.Store broker.old) }
    ensures most { most_of broker.new ≡ most_of broker.old }
    ensures rules { rules_in broker.new ≡ rules_in broker.old }
    ensures limits { limits_of buffer.new ≡ limits_of buffer.old }
{
    broker.lives_are_whole();
    let mut reported = Reported::never(rt);
    let mut left = connections;
    let mut requests = u64::from(connections) * u64::from(broker.per_connection());
    while left > 0 && requests > 0 {
        let most = left.min(MOST);
        match serve_next(rt.alloc(), broker, buffer, entrance, file, most, errors) {
            Ok(turn) => {
                reported.report(broker, errors);
                requests = requests.saturating_sub(u64::from(turn.taken));
                left -= turn.ended;
            }
            Err(fault) => {
                report_rest(broker, errors);
                return Err(fault);
            }
        }
    }
    report_rest(broker, errors);
    Ok(())
}
