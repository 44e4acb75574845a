//! Clients that are taken together. Those whose requests need the lives wait, and are answered together.

ghost use Rattle.std.specs.Prelude.{◌≡◌, ◌≢◌, ◌⊎◌, ◌<◌, ◌≤◌, ◌+◌, ◌^◌, ◌++◌, not, Bool, true, false, ℕ, List, [], ◌∷◌, length, map, take, vec_items, vec_capacity, is_ok, Ok, OnOk, OnErr, IsOkUnless};
ghost use Rattle.std.specs.List.{AllByRecursion};
ghost use Rattle.osb_replies.specs.Parts.{refused};
ghost use Rattle.osb_replies.specs.Text.{reply_text};
ghost use Rattle.osb_broker.specs.declared.fault.ServeFault.TheVariants.{Write};
ghost use Rattle.osb_broker.specs.BrokerState.{most_of, rules_in, store_of};
ghost use Rattle.osb_broker.specs.Exchanges.{Exchange};
ghost use Rattle.osb_broker.specs.Inside.{Worked};
ghost use Rattle.osb_broker.specs.Room.{limits_of};
ghost use Rattle.osb_listen.specs.Exchanges.{ended_in, lines_of, Serves};
ghost use Rattle.osb_listen.specs.Groups.{AreKept, AreTaken, HasBegun, IsLast, IsOpen, IsSent, count_of, IsTurn, Unanswered, WereSent};
ghost use Rattle.osb_listen.specs.Lines.{Says};

use crate::client_end::report_end;
use crate::entrance::{Entrance, TakenClient};
use crate::serving::{Turn, left_of, serve_client};
use osb_broker::refuse::is_fixed_500;
use osb_broker::{Begun, Broker, Buffer, ServeFault, Waiting, exchanges, together};
use osb_frames::{Sink, send_all};
use sqlite::Alter;
use std::alloc::Global;

/// Clients whose requests wait, and these requests.
struct Kept<I, O> {
    /// Those of whom no other request is answered.
    last: Vec<TakenClient<I, O>>,
    waiting: Waiting,
    /// Those that may stay.
    others: Vec<TakenClient<I, O>>,
    staying: Waiting,
}

/// Takes the next request of a client. Where it waits the client is kept, with its bytes. Otherwise
/// it is answered, and the client is let go unless another may come. Whether it was let go.
fn begin_client<S: Alter, L: Entrance, E: Sink>(
    broker: &mut Broker<'_, S>,
    buffer: &mut Buffer,
    entrance: &mut L,
    client: TakenClient<L::In, L::Out>,
    kept: &mut Kept<L::In, L::Out>,
    errors: &mut E,
) -> bool
    requires room { (length kept.old.last.items < vec_capacity kept.old.last)
        × (length kept.old.others.items < vec_capacity kept.old.others) }
    requires unread { L.In.calls client.input ≡ [] }
    requires unsent { L.Out.taken client.output ≡ [] }
    requires unfailed { L.Out.failed_or_empty client.output ≡ 0 }
    requires before { client.before < most_of broker.old }
    ensures begun { (exchanges : List Exchange)
        × HasBegun L.In.calls L.Out.taken L.Out.failed_or_empty (rules_in broker.old)
        (limits_of buffer.old) (most_of broker.old) kept.old.last.items kept.new.last.items
        kept.old.others.items kept.new.others.items kept.old.waiting kept.new.waiting
        kept.old.staying kept.new.staying exchanges
        × (ended_in exchanges ≡ count_of result)
        × Serves (rules_in broker.old) (limits_of buffer.old) (most_of broker.old) exchanges
        (store_of S.Store broker.old) (store_of S.Store broker.new)
        (L.journal entrance.old) (L.journal entrance.new) (E.taken errors.old) (E.taken errors.new)
        (E.failed_or_empty errors.old) (E.failed_or_empty errors.new) }
    ensures capacity { (vec_capacity kept.new.last ≡ vec_capacity kept.old.last)
        × (vec_capacity kept.new.others ≡ vec_capacity kept.old.others) }
    ensures missed { L.missed entrance.new ≡ L.missed entrance.old }
    ensures worked { Worked (store_of S.Store broker.old) (store_of S.Store broker.new) }
    ensures most { most_of broker.new ≡ most_of broker.old }
    ensures rules { rules_in broker.new ≡ rules_in broker.old }
    ensures limits { limits_of buffer.new ≡ limits_of buffer.old }
{
    broker.lives_are_whole();
    let mut client = client;
    let left = left_of(broker.per_connection(), client.before);
    match broker.begin(
        buffer,
        left,
        &mut kept.waiting,
        &mut kept.staying,
        &mut client.input,
        &mut client.output,
    ) {
        Begun::Ended(ended) => {
            report_end(ended, errors);
            entrance.leave(client, buffer.met_fault());
            return true;
        }
        Begun::Stays => entrance.stay(client),
        Begun::Waits => kept.last.push_reserved(client),
        Begun::MayStay => kept.others.push_reserved(client),
    }
    false
}

/// Sends a reply.
fn send_reply<W: Sink>(output: &mut W, reply: &[u8]) -> Result<(), ServeFault>
    ensures ok { OnOk result ((W.taken output.new ≡ W.taken output.old ++ reply.now)
        × (W.failed_or_empty output.new ≡ W.failed_or_empty output.old)) }
    ensures err { OnErr result ((count : ℕ) × (count ≤ length reply.now)
        × (W.taken output.new ≡ W.taken output.old ++ take count reply.now)
        × (W.failed_or_empty output.old < W.failed_or_empty output.new)) }
    ensures fault { IsOkUnless result Write }
{
    match send_all(output, reply) {
        Ok(()) => Ok(()),
        Err(_) => Err(ServeFault::Write),
    }
}

/// Whether a client goes on that was sent its reply, or its first bytes.
fn goes_on(may_stay: bool, ended: &Result<(), ServeFault>, reply: &[u8]) -> bool
    ensures yes { result ≡ true → (may_stay ≡ true) × (reply.now ≢ reply_text refused)
        × (is_ok ended.now ≡ true) }
    ensures no { result ≡ false → (may_stay ≡ false) ⊎ ((reply.now ≡ reply_text refused)
        ⊎ (is_ok ended.now ≡ false)) }
{
    may_stay && ended.is_ok() && !is_fixed_500(reply)
}

/// Sends a client its reply, and lets it go unless it may stay. It doesn't if the reply is the
/// fixed 500 or a write fails. Whether it was let go.
fn answer_client<L: Entrance, E: Sink>(
    entrance: &mut L,
    client: TakenClient<L::In, L::Out>,
    reply: &[u8],
    may_stay: bool,
    errors: &mut E,
) -> bool
    requires { Unanswered L.In.calls L.Out.taken L.Out.failed_or_empty client }
    ensures answered { (one : Exchange) × IsSent L.In.calls may_stay client reply.now one
        × (ended_in (one ∷ []) ≡ count_of result)
        × (L.journal entrance.new ≡ L.journal entrance.old ++ one ∷ [])
        × Says (lines_of (one ∷ [])) (E.taken errors.old) (E.taken errors.new)
        (E.failed_or_empty errors.old) (E.failed_or_empty errors.new) }
    ensures missed { L.missed entrance.new ≡ L.missed entrance.old }
{
    let mut client = client;
    let ended = send_reply(&mut client.output, reply);
    let stays = goes_on(may_stay, &ended, reply);
    report_end(ended, errors);
    if stays {
        entrance.stay(client);
        return false;
    }
    entrance.leave(client, false);
    true
}

/// Sends each client its reply, and lets it go unless it may stay. How many were let go.
fn answer_each<L: Entrance, E: Sink>(
    entrance: &mut L,
    clients: Vec<TakenClient<L::In, L::Out>>,
    replies: Vec<Vec<u8>>,
    may_stay: bool,
    errors: &mut E,
) -> u32
    requires unanswered { AllByRecursion
        (Unanswered L.In.calls L.Out.taken L.Out.failed_or_empty) clients.items }
    requires count { length clients.items ≡ length replies.items }
    requires few { length clients.items < 2 ^ 32 }
    ensures sent { (exchanges : List Exchange)
        × WereSent L.In.calls may_stay clients.items (map vec_items replies.items) exchanges
        × (ended_in exchanges ≡ result)
        × (L.journal entrance.new ≡ L.journal entrance.old ++ exchanges)
        × Says (lines_of exchanges) (E.taken errors.old) (E.taken errors.new)
        (E.failed_or_empty errors.old) (E.failed_or_empty errors.new) }
    ensures missed { L.missed entrance.new ≡ L.missed entrance.old }
{
    let mut ended = 0;
    let mut left = clients.into_iter();
    let mut rest = replies.into_iter();
    while let Some(reply) = rest.next() {
        if let Some(client) = left.next() {
            ended += u32::from(answer_client(entrance, client, &reply, may_stay, errors));
        }
    }
    left.destroy_empty();
    ended
}

/// Answers clients of whom no other request is answered, with these requests, and lets them go. How
/// many they were.
fn answer_last<S: Alter, L: Entrance, E: Sink>(
    broker: &mut Broker<'_, S>,
    buffer: &Buffer,
    entrance: &mut L,
    clients: Vec<TakenClient<L::In, L::Out>>,
    requests: Waiting,
    errors: &mut E,
) -> u32
    requires kept { AreKept (IsLast L.In.calls L.Out.taken L.Out.failed_or_empty
        (rules_in broker.old) (limits_of buffer.now) (most_of broker.old)) clients.items requests }
    requires few { length clients.items < 2 ^ 32 }
    ensures served { (exchanges : List Exchange)
        × IsTurn (length clients.items) result exchanges
        × Serves (rules_in broker.old) (limits_of buffer.now) (most_of broker.old) exchanges
        (store_of S.Store broker.old) (store_of S.Store broker.new)
        (L.journal entrance.old) (L.journal entrance.new) (E.taken errors.old) (E.taken errors.new)
        (E.failed_or_empty errors.old) (E.failed_or_empty errors.new) }
    ensures missed { L.missed entrance.new ≡ L.missed entrance.old }
    ensures worked { Worked (store_of S.Store broker.old) (store_of S.Store broker.new) }
    ensures most { most_of broker.new ≡ most_of broker.old }
    ensures rules { rules_in broker.new ≡ rules_in broker.old }
{
    together();
    let replies = broker.answer_waiting(buffer, requests);
    answer_each(entrance, clients, replies, false, errors)
}

/// Answers clients that may stay, with these requests. How many of them were let go.
fn answer_open<S: Alter, L: Entrance, E: Sink>(
    broker: &mut Broker<'_, S>,
    buffer: &Buffer,
    entrance: &mut L,
    clients: Vec<TakenClient<L::In, L::Out>>,
    requests: Waiting,
    errors: &mut E,
) -> u32
    requires kept { AreKept (IsOpen L.In.calls L.Out.taken L.Out.failed_or_empty
        (rules_in broker.old) (limits_of buffer.now) (most_of broker.old)) clients.items requests }
    requires few { length clients.items < 2 ^ 32 }
    ensures served { (exchanges : List Exchange)
        × IsTurn (length clients.items) result exchanges
        × Serves (rules_in broker.old) (limits_of buffer.now) (most_of broker.old) exchanges
        (store_of S.Store broker.old) (store_of S.Store broker.new)
        (L.journal entrance.old) (L.journal entrance.new) (E.taken errors.old) (E.taken errors.new)
        (E.failed_or_empty errors.old) (E.failed_or_empty errors.new) }
    ensures missed { L.missed entrance.new ≡ L.missed entrance.old }
    ensures worked { Worked (store_of S.Store broker.old) (store_of S.Store broker.new) }
    ensures most { most_of broker.new ≡ most_of broker.old }
    ensures rules { rules_in broker.new ≡ rules_in broker.old }
{
    exchanges();
    let replies = broker.answer_staying(buffer, requests);
    answer_each(entrance, clients, replies, true, errors)
}

/// Takes two clients, and with them those who are ready, up to so many. How many they are, and how
/// many were let go.
fn take_group<S: Alter, L: Entrance, E: Sink>(
    broker: &mut Broker<'_, S>,
    buffer: &mut Buffer,
    entrance: &mut L,
    first: TakenClient<L::In, L::Out>,
    second: TakenClient<L::In, L::Out>,
    most: u32,
    kept: &mut Kept<L::In, L::Out>,
    errors: &mut E,
) -> Turn
    requires two { 2 ≤ most }
    requires room { (most ≤ vec_capacity kept.old.last) × (most ≤ vec_capacity kept.old.others) }
    requires nobody { (kept.old.last.items ≡ []) × (kept.old.others.items ≡ []) }
    requires none { (kept.old.waiting ≡ []) × (kept.old.staying ≡ []) }
    requires unread { (L.In.calls first.input ≡ []) × (L.In.calls second.input ≡ []) }
    requires unsent { (L.Out.taken first.output ≡ []) × (L.Out.taken second.output ≡ []) }
    requires unfailed { (L.Out.failed_or_empty first.output ≡ 0)
        × (L.Out.failed_or_empty second.output ≡ 0) }
    requires before { (first.before < most_of broker.old) × (second.before < most_of broker.old) }
    ensures some { (0 < result.taken) × (result.taken ≤ most) }
    ensures taken { AreTaken L.In.calls L.Out.taken L.Out.failed_or_empty (rules_in broker.old)
        (limits_of buffer.old) (most_of broker.old) result.taken result.ended
        kept.new.last.items kept.new.waiting kept.new.others.items kept.new.staying
        (store_of S.Store broker.old) (store_of S.Store broker.new)
        (L.journal entrance.old) (L.journal entrance.new) (E.taken errors.old) (E.taken errors.new)
        (E.failed_or_empty errors.old) (E.failed_or_empty errors.new) }
    ensures missed { L.missed entrance.new ≡ L.missed entrance.old }
    ensures worked { Worked (store_of S.Store broker.old) (store_of S.Store broker.new) }
    ensures most { most_of broker.new ≡ most_of broker.old }
    ensures rules { rules_in broker.new ≡ rules_in broker.old }
    ensures limits { limits_of buffer.new ≡ limits_of buffer.old }
{
    broker.lives_are_whole();
    let per_connection = broker.per_connection();
    let one = begin_client(broker, buffer, entrance, first, kept, errors);
    let two = begin_client(broker, buffer, entrance, second, kept, errors);
    let mut turn = Turn {
        taken: 2,
        ended: u32::from(one) + u32::from(two),
    };
    while turn.taken < most {
        let Some(client) = entrance.take_ready(per_connection) else {
            break;
        };
        let more = begin_client(broker, buffer, entrance, client, kept, errors);
        turn.taken += 1;
        turn.ended += u32::from(more);
    }
    turn
}

/// Answers the next requests of two clients at once, one after the other.
fn serve_both<S: Alter, L: Entrance, E: Sink>(
    broker: &mut Broker<'_, S>,
    buffer: &mut Buffer,
    entrance: &mut L,
    first: TakenClient<L::In, L::Out>,
    second: TakenClient<L::In, L::Out>,
    errors: &mut E,
) -> Turn
    requires unread { (L.In.calls first.input ≡ []) × (L.In.calls second.input ≡ []) }
    requires unsent { (L.Out.taken first.output ≡ []) × (L.Out.taken second.output ≡ []) }
    requires unfailed { (L.Out.failed_or_empty first.output ≡ 0)
        × (L.Out.failed_or_empty second.output ≡ 0) }
    requires before { (first.before < most_of broker.old) × (second.before < most_of broker.old) }
    ensures two { result.taken ≡ 2 }
    ensures served { (exchanges : List Exchange) × IsTurn 2 result.ended exchanges × Serves
        (rules_in broker.old) (limits_of buffer.old) (most_of broker.old) exchanges
        (store_of S.Store broker.old) (store_of S.Store broker.new)
        (L.journal entrance.old) (L.journal entrance.new) (E.taken errors.old) (E.taken errors.new)
        (E.failed_or_empty errors.old) (E.failed_or_empty errors.new) }
    ensures missed { L.missed entrance.new ≡ L.missed entrance.old }
    ensures worked { Worked (store_of S.Store broker.old) (store_of S.Store broker.new) }
    ensures most { most_of broker.new ≡ most_of broker.old }
    ensures rules { rules_in broker.new ≡ rules_in broker.old }
    ensures limits { limits_of buffer.new ≡ limits_of buffer.old }
{
    let one = serve_client(broker, buffer, entrance, first, errors);
    let two = serve_client(broker, buffer, entrance, second, errors);
    Turn {
        taken: 2,
        ended: u32::from(one) + u32::from(two),
    }
}

/// Answers the next requests of two clients, and with them of those who are ready, up to so many.
pub(crate) fn serve_group<S: Alter, L: Entrance, E: Sink>(
    alloc: Global,
    broker: &mut Broker<'_, S>,
    buffer: &mut Buffer,
    entrance: &mut L,
    first: TakenClient<L::In, L::Out>,
    second: TakenClient<L::In, L::Out>,
    most: u32,
    errors: &mut E,
) -> Turn
    requires two { 2 ≤ most }
    requires unread { (L.In.calls first.input ≡ []) × (L.In.calls second.input ≡ []) }
    requires unsent { (L.Out.taken first.output ≡ []) × (L.Out.taken second.output ≡ []) }
    requires unfailed { (L.Out.failed_or_empty first.output ≡ 0)
        × (L.Out.failed_or_empty second.output ≡ 0) }
    requires before { (first.before < most_of broker.old) × (second.before < most_of broker.old) }
    ensures some { (0 < result.taken) × (result.taken ≤ most) }
    ensures served { (exchanges : List Exchange)
        × IsTurn result.taken result.ended exchanges × Serves
        (rules_in broker.old) (limits_of buffer.old) (most_of broker.old) exchanges
        (store_of S.Store broker.old) (store_of S.Store broker.new)
        (L.journal entrance.old) (L.journal entrance.new) (E.taken errors.old) (E.taken errors.new)
        (E.failed_or_empty errors.old) (E.failed_or_empty errors.new) }
    ensures missed { L.missed entrance.new ≡ L.missed entrance.old }
    ensures worked { Worked (store_of S.Store broker.old) (store_of S.Store broker.new) }
    ensures most { most_of broker.new ≡ most_of broker.old }
    ensures rules { rules_in broker.new ≡ rules_in broker.old }
    ensures limits { limits_of buffer.new ≡ limits_of buffer.old }
{
    let Ok(last) = Vec::with_capacity(alloc, most as usize) else {
        return serve_both(broker, buffer, entrance, first, second, errors);
    };
    let Ok(others) = Vec::with_capacity(alloc, most as usize) else {
        last.destroy_empty();
        return serve_both(broker, buffer, entrance, first, second, errors);
    };
    let mut kept = Kept {
        last,
        waiting: Waiting::nobody(alloc),
        others,
        staying: Waiting::nobody(alloc),
    };
    let turn = take_group(
        broker, buffer, entrance, first, second, most, &mut kept, errors,
    );
    let Kept {
        last,
        waiting,
        others,
        staying,
    } = kept;
    let ended = answer_last(broker, buffer, entrance, last, waiting, errors);
    let more = answer_open(broker, buffer, entrance, others, staying, errors);
    Turn {
        taken: turn.taken,
        ended: turn.ended + ended + more,
    }
}
