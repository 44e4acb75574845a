//! Requests of clients that are taken one after the other, and answered together.

ghost use Rattle.std.specs.Prelude.{◌≡◌, ◌==◌, ◌||◌, nat_lt, ◌<◌, ◌≤◌, ◌+◌, ◌++◌, [], ◌∷◌, ℕ, Bool, true, false, List, length, map, vec_items, Result, Ok};
ghost use Rattle.sqlite.specs.Held.{state};
ghost use Rattle.sqlite.specs.State.{HasCleanDisk};
ghost use Rattle.osb_frames.specs.Calls.{Call};
ghost use Rattle.osb_frames.specs.Cuts.{closes};
ghost use Rattle.osb_frames.specs.Steps.{message};
ghost use Rattle.osb_replies.specs.declared.write.WriteFault.{WriteFault};
ghost use Rattle.osb_asks.specs.Asks.{ask_of, is_early};
ghost use Rattle.osb_orders.specs.Lives.{Lives};
ghost use Rattle.osb_statements.specs.Steps.{stored};
ghost use Rattle.osb_broker.specs.Begun.{AnswersOpen, EndsOrBreaks, EndsOrBreaksOrLost, IsWaiting, MatchBegun, MayStay};
ghost use Rattle.osb_broker.specs.Crashes.{EndsAsOrLost, LeavesLives, RunOrLost};
ghost use Rattle.osb_broker.specs.Served.{RunServed};
ghost use Rattle.osb_broker.specs.Steps.{capped};
ghost use Rattle.osb_broker.specs.Serving.{EachWasNeeded, EndsAs, ReadsMade, ReadsOf, WritesOf};

use crate::broker::Broker;
use crate::buffer::Buffer;
use crate::fault::ServeFault;
use crate::filling::fill;
use crate::per_connection::PerConnection;
use crate::refuse::refuse;
use crate::setup::Setup;
use crate::waiting::Waiting;
use osb_asks::{Ask, read_ask};
use osb_frames::{Limits, NO_LINES, Request, Sink, Source, Step, next_at_once};
use osb_records::Records;
use sqlite::Alter;

/// What became of a client of whom a request was taken.
#[derive(Debug)]
pub enum Begun {
    /// It was answered, and ended so.
    Ended(Result<(), ServeFault>),
    /// It was answered, and another request of it may come.
    Stays,
    /// Its request waits, the last one. Nothing was sent.
    Waits,
    /// Its request waits, behind which another may come. Nothing was sent.
    MayStay,
}

/// Whether no other request is answered behind this one, which has so many of the bytes that were
/// read: none may come, the client ended, more was read, or the request closes.
fn is_last(request: &Request<'_>, used: usize, held: usize, left: u32, ended: bool) -> bool
    ensures { result ≡ ((left == 1) || (ended || (nat_lt used held
        || closes (message request.now)))) }
{
    left == 1 || ended || used < held || request.closes()
}

impl Setup<'_> {
    ghost use Rattle.osb_broker.specs.BrokerState.{LivesGo, Works};
    ghost use Rattle.osb_broker.specs.Steps.{machine};
    ghost use Rattle.osb_broker.specs.Inside.{given_rules, EndsBy, IsRepliedTo, Worked};

    /// Keeps a request that needs the lives, where there is memory for its bytes. Whether it was kept.
    fn keep(&self, request: &Request<'_>, bytes: &[u8], waiting: &mut Waiting) -> bool
        ensures kept { result ≡ true → waiting.new ≡ waiting.old ++ bytes.now ∷ [] }
        ensures same { result ≡ false → waiting.new ≡ waiting.old }
        ensures late { result ≡ true →
            is_early (ask_of (given_rules self.now) (message request.now)) ≡ false }
    {
        match read_ask(self.alloc, request, self.settings) {
            Ok(Ask::Catalog) | Err(_) => false,
            Ok(ask) => {
                drop(ask);
                waiting.keep(self.alloc, bytes)
            }
        }
    }

    /// The same: among those that wait if it is the last one of its client, and else among those
    /// whose clients may stay.
    fn keep_among(
        &self,
        request: &Request<'_>,
        bytes: &[u8],
        last: bool,
        waiting: &mut Waiting,
        staying: &mut Waiting,
    ) -> bool
        ensures last { result ≡ true → last ≡ true →
            (waiting.new ≡ waiting.old ++ bytes.now ∷ []) × (staying.new ≡ staying.old) }
        ensures more { result ≡ true → last ≡ false →
            (waiting.new ≡ waiting.old) × (staying.new ≡ staying.old ++ bytes.now ∷ []) }
        ensures same { result ≡ false →
            (waiting.new ≡ waiting.old) × (staying.new ≡ staying.old) }
        ensures late { result ≡ true →
            is_early (ask_of (given_rules self.now) (message request.now)) ≡ false }
    {
        if last {
            self.keep(request, bytes, waiting)
        } else {
            self.keep(request, bytes, staying)
        }
    }

    /// Keeps a request that is at the front of what is held, or answers it at once: as the last one
    /// of its client, or as one behind which another may come.
    fn keep_or_answer<S: Alter, W: Sink>(
        &self,
        records: &mut Records<S>,
        request: &Request<'_>,
        held: &[u8],
        last: bool,
        may_wait: bool,
        waiting: &mut Waiting,
        staying: &mut Waiting,
        sink: &mut W,
    ) -> Begun
        ensures begun { MatchBegun result
            (λ ended. (waiting.new ≡ waiting.old) × (staying.new ≡ staying.old)
            × (written : Result Bool WriteFault) × EndsBy ended written
            × IsRepliedTo S.Store (given_rules self.now) (message request.now) last
            records.old records.new (W.taken sink.old) (W.failed_or_empty sink.old)
            (W.taken sink.new) (W.failed_or_empty sink.new) written)
            ((waiting.new ≡ waiting.old) × (staying.new ≡ staying.old)
            × IsRepliedTo S.Store (given_rules self.now) (message request.now) last
            records.old records.new (W.taken sink.old) (W.failed_or_empty sink.old)
            (W.taken sink.new) (W.failed_or_empty sink.new) (Ok false))
            ((may_wait ≡ true) × (last ≡ true) × (waiting.new ≡ waiting.old ++ held.now ∷ [])
            × (staying.new ≡ staying.old)
            × (is_early (ask_of (given_rules self.now) (message request.now)) ≡ false)
            × (sink.new ≡ sink.old) × (records.new ≡ records.old))
            ((may_wait ≡ true) × (last ≡ false) × (waiting.new ≡ waiting.old)
            × (staying.new ≡ staying.old ++ held.now ∷ [])
            × (is_early (ask_of (given_rules self.now) (message request.now)) ≡ false)
            × (sink.new ≡ sink.old) × (records.new ≡ records.old)) }
        ensures worked { Worked (state S.Store records.old) (state S.Store records.new) }
    {
        if may_wait && self.keep_among(request, held, last, waiting, staying) {
            return if last { Begun::Waits } else { Begun::MayStay };
        }
        match self.handle_and_write(records, request, last, sink) {
            Ok(true) => Begun::Ended(Ok(())),
            Ok(false) => Begun::Stays,
            Err(_) => Begun::Ended(Err(ServeFault::Write)),
        }
    }

    /// Takes a request of a client of whom so many may come, in a room for a head and a body. One
    /// that needs the lives waits, where there is memory for its bytes: behind its reply another
    /// may come if it was all that was read, and doesn't close. Any other is answered at once.
    fn begin_in<S: Alter, R: Source, W: Sink>(
        &self,
        records: &mut Records<S>,
        room: &mut [u8],
        limits: &Limits,
        met_fault: &mut bool,
        left: u32,
        may_wait: bool,
        waiting: &mut Waiting,
        staying: &mut Waiting,
        source: &mut R,
        sink: &mut W,
    ) -> Begun
        requires room { limits.now.head + limits.now.body ≤ length room.old }
        requires left { 0 < left }
        ensures begun { (calls : List Call)
            × ReadsMade (R.calls source.old) (R.calls source.new) (R.rest source.old)
            (R.rest source.new) calls
            × EachWasNeeded limits.now 1 (length room.old) calls
            × MatchBegun result
            (λ ended. (waiting.new ≡ waiting.old) × (staying.new ≡ staying.old)
            × ReadsOf ended calls
            × WritesOf ended (W.failed_or_empty sink.old) (W.failed_or_empty sink.new)
            × ((before after : Lives) →
            LivesGo (state S.Store records.old) (state S.Store records.new) before after →
            EndsOrBreaks ended (given_rules self.now) limits.now left before calls met_fault.new
            (W.taken sink.old) (W.failed_or_empty sink.old)
            (W.taken sink.new) (W.failed_or_empty sink.new) after)
            × (Works (state S.Store records.old) → HasCleanDisk (state S.Store records.new) →
            LeavesLives (state S.Store records.new) (λ lives. EndsOrBreaksOrLost ended
            (given_rules self.now) limits.now left (stored (state S.Store records.old)) calls
            met_fault.new (W.taken sink.old) (W.failed_or_empty sink.old)
            (W.taken sink.new) (W.failed_or_empty sink.new) lives)))
            ((waiting.new ≡ waiting.old) × (staying.new ≡ staying.old) × ReadsOf (Ok tt) calls
            × WritesOf (Ok tt) (W.failed_or_empty sink.old) (W.failed_or_empty sink.new)
            × (met_fault.new ≡ false)
            × ((before after : Lives) →
            LivesGo (state S.Store records.old) (state S.Store records.new) before after →
            AnswersOpen (given_rules self.now) limits.now left before calls
            (W.taken sink.old) (W.failed_or_empty sink.old)
            (W.taken sink.new) (W.failed_or_empty sink.new) (Ok tt) after)
            × (Works (state S.Store records.old) → HasCleanDisk (state S.Store records.new) →
            LeavesLives (state S.Store records.new) (λ lives. AnswersOpen (given_rules self.now)
            limits.now left (stored (state S.Store records.old)) calls
            (W.taken sink.old) (W.failed_or_empty sink.old)
            (W.taken sink.new) (W.failed_or_empty sink.new) (Ok tt) lives)))
            ((bytes : List ℕ) × (may_wait ≡ true) × (waiting.new ≡ waiting.old ++ bytes ∷ [])
            × (staying.new ≡ staying.old)
            × IsWaiting (given_rules self.now) limits.now calls bytes
            × (sink.new ≡ sink.old) × (records.new ≡ records.old) × (met_fault.new ≡ false))
            ((bytes : List ℕ) × (may_wait ≡ true) × (waiting.new ≡ waiting.old)
            × (staying.new ≡ staying.old ++ bytes ∷ [])
            × MayStay (given_rules self.now) limits.now left calls bytes
            × (sink.new ≡ sink.old) × (records.new ≡ records.old) × (met_fault.new ≡ false)) }
        ensures worked { Worked (state S.Store records.old) (state S.Store records.new) }
    {
        records.lives_are_whole();
        *met_fault = false;
        let mut filled = 0;
        let mut ended = false;
        let mut lines = NO_LINES;
        loop {
            let held = &room[..filled];
            match next_at_once(held, ended, limits, &mut lines) {
                Step::Whole(request, used) => {
                    let last = is_last(&request, used, filled, left, ended);
                    return self.keep_or_answer(
                        records, &request, held, last, may_wait, waiting, staying, sink,
                    );
                }
                Step::Stop(kind) => {
                    *met_fault = true;
                    return match refuse(sink, kind) {
                        Ok(()) => Begun::Ended(Ok(())),
                        Err(_) => Begun::Ended(Err(ServeFault::Write)),
                    };
                }
                Step::Ended => return Begun::Ended(Ok(())),
                Step::More => match fill(source, room, filled) {
                    Ok(n) => {
                        ended = n == 0;
                        filled += n;
                    }
                    Err(_) => return Begun::Ended(Err(ServeFault::Read)),
                },
            }
        }
    }
}

impl<S: Alter> Broker<'_, S> {
    ghost use Rattle.osb_broker.specs.BrokerState.{LivesGo, Works, lives_of, most_of, rules_in, store_of};
    ghost use Rattle.osb_broker.specs.Inside.{Worked};
    ghost use Rattle.osb_broker.specs.Room.{limits_of, met_fault};
    ghost use Rattle.osb_broker.specs.Steps.{machine};

    /// Takes the next request of a client of whom so many may come. One that needs the lives waits,
    /// if there is memory for its bytes: among those that wait, of whose clients no other is
    /// answered ([`Broker::answer_waiting`]), or among those whose clients may stay
    /// ([`Broker::answer_staying`]). Any other is answered at once.
    ///
    /// Another may come behind it if it is all that was read, doesn't close, and isn't the last of
    /// so many.
    #[tactic(auto, unfolding(crate::specs::BrokerState::lives_of))]
    pub fn begin<R: Source, W: Sink>(
        &mut self,
        buffer: &mut Buffer,
        left: u32,
        waiting: &mut Waiting,
        staying: &mut Waiting,
        source: &mut R,
        sink: &mut W,
    ) -> Begun
        requires { 0 < left }
        ensures most { most_of self.new ≡ most_of self.old }
        ensures rules { rules_in self.new ≡ rules_in self.old }
        ensures limits { limits_of buffer.new ≡ limits_of buffer.old }
        ensures begun { (calls : List Call)
            × ReadsMade (R.calls source.old) (R.calls source.new) (R.rest source.old)
            (R.rest source.new) calls
            × EachWasNeeded (limits_of buffer.old) 1
            ((limits_of buffer.old).head + (limits_of buffer.old).body) calls
            × MatchBegun result
            (λ ended. (waiting.new ≡ waiting.old) × (staying.new ≡ staying.old)
            × ReadsOf ended calls
            × WritesOf ended (W.failed_or_empty sink.old) (W.failed_or_empty sink.new)
            × ((before after : Lives) →
            LivesGo (store_of S.Store self.old) (store_of S.Store self.new) before after →
            EndsOrBreaks ended (rules_in self.old) (limits_of buffer.old) left before calls
            (met_fault buffer.new) (W.taken sink.old) (W.failed_or_empty sink.old)
            (W.taken sink.new) (W.failed_or_empty sink.new) after)
            × (Works (store_of S.Store self.old) → HasCleanDisk (store_of S.Store self.new) →
            LeavesLives (store_of S.Store self.new) (λ lives. EndsOrBreaksOrLost ended
            (rules_in self.old) (limits_of buffer.old) left (lives_of S.Store self.old) calls
            (met_fault buffer.new) (W.taken sink.old) (W.failed_or_empty sink.old)
            (W.taken sink.new) (W.failed_or_empty sink.new) lives)))
            ((waiting.new ≡ waiting.old) × (staying.new ≡ staying.old) × ReadsOf (Ok tt) calls
            × WritesOf (Ok tt) (W.failed_or_empty sink.old) (W.failed_or_empty sink.new)
            × (met_fault buffer.new ≡ false)
            × ((before after : Lives) →
            LivesGo (store_of S.Store self.old) (store_of S.Store self.new) before after →
            AnswersOpen (rules_in self.old) (limits_of buffer.old) left before calls
            (W.taken sink.old) (W.failed_or_empty sink.old)
            (W.taken sink.new) (W.failed_or_empty sink.new) (Ok tt) after)
            × (Works (store_of S.Store self.old) → HasCleanDisk (store_of S.Store self.new) →
            LeavesLives (store_of S.Store self.new) (λ lives. AnswersOpen (rules_in self.old)
            (limits_of buffer.old) left (lives_of S.Store self.old) calls
            (W.taken sink.old) (W.failed_or_empty sink.old)
            (W.taken sink.new) (W.failed_or_empty sink.new) (Ok tt) lives)))
            ((bytes : List ℕ) × (waiting.new ≡ waiting.old ++ bytes ∷ [])
            × (staying.new ≡ staying.old)
            × IsWaiting (rules_in self.old) (limits_of buffer.old) calls bytes
            × (sink.new ≡ sink.old) × (self.new ≡ self.old) × (met_fault buffer.new ≡ false))
            ((bytes : List ℕ) × (waiting.new ≡ waiting.old)
            × (staying.new ≡ staying.old ++ bytes ∷ [])
            × MayStay (rules_in self.old) (limits_of buffer.old) left calls bytes
            × (sink.new ≡ sink.old) × (self.new ≡ self.old) × (met_fault buffer.new ≡ false)) }
        ensures worked { Worked (store_of S.Store self.old) (store_of S.Store self.new) }
    {
        let limits = buffer.limits;
        let mut met_fault = false;
        let begun = self.setup.begin_in(
            &mut self.records,
            buffer.room.as_mut_slice(),
            &limits,
            &mut met_fault,
            left,
            true,
            waiting,
            staying,
            source,
            sink,
        );
        buffer.met_fault = met_fault;
        begun
    }

    /// Takes the next request of a client of whom so many may come, and answers it at once. It
    /// takes no memory of its own.
    #[tactic(auto, unfolding(crate::specs::BrokerState::lives_of))]
    pub fn answer_next<R: Source, W: Sink>(
        &mut self,
        buffer: &mut Buffer,
        left: u32,
        source: &mut R,
        sink: &mut W,
    ) -> Begun
        requires { 0 < left }
        ensures most { most_of self.new ≡ most_of self.old }
        ensures rules { rules_in self.new ≡ rules_in self.old }
        ensures limits { limits_of buffer.new ≡ limits_of buffer.old }
        ensures begun { (calls : List Call)
            × ReadsMade (R.calls source.old) (R.calls source.new) (R.rest source.old)
            (R.rest source.new) calls
            × EachWasNeeded (limits_of buffer.old) 1
            ((limits_of buffer.old).head + (limits_of buffer.old).body) calls
            × MatchBegun result
            (λ ended. ReadsOf ended calls
            × WritesOf ended (W.failed_or_empty sink.old) (W.failed_or_empty sink.new)
            × ((before after : Lives) →
            LivesGo (store_of S.Store self.old) (store_of S.Store self.new) before after →
            EndsOrBreaks ended (rules_in self.old) (limits_of buffer.old) left before calls
            (met_fault buffer.new) (W.taken sink.old) (W.failed_or_empty sink.old)
            (W.taken sink.new) (W.failed_or_empty sink.new) after)
            × (Works (store_of S.Store self.old) → HasCleanDisk (store_of S.Store self.new) →
            LeavesLives (store_of S.Store self.new) (λ lives. EndsOrBreaksOrLost ended
            (rules_in self.old) (limits_of buffer.old) left (lives_of S.Store self.old) calls
            (met_fault buffer.new) (W.taken sink.old) (W.failed_or_empty sink.old)
            (W.taken sink.new) (W.failed_or_empty sink.new) lives)))
            (ReadsOf (Ok tt) calls
            × WritesOf (Ok tt) (W.failed_or_empty sink.old) (W.failed_or_empty sink.new)
            × (met_fault buffer.new ≡ false)
            × ((before after : Lives) →
            LivesGo (store_of S.Store self.old) (store_of S.Store self.new) before after →
            AnswersOpen (rules_in self.old) (limits_of buffer.old) left before calls
            (W.taken sink.old) (W.failed_or_empty sink.old)
            (W.taken sink.new) (W.failed_or_empty sink.new) (Ok tt) after)
            × (Works (store_of S.Store self.old) → HasCleanDisk (store_of S.Store self.new) →
            LeavesLives (store_of S.Store self.new) (λ lives. AnswersOpen (rules_in self.old)
            (limits_of buffer.old) left (lives_of S.Store self.old) calls
            (W.taken sink.old) (W.failed_or_empty sink.old)
            (W.taken sink.new) (W.failed_or_empty sink.new) (Ok tt) lives)))
            ⊥ ⊥ }
        ensures worked { Worked (store_of S.Store self.old) (store_of S.Store self.new) }
    {
        let limits = buffer.limits;
        let mut met_fault = false;
        let mut waiting = Waiting::nobody(self.setup.alloc);
        let mut staying = Waiting::nobody(self.setup.alloc);
        let begun = self.setup.begin_in(
            &mut self.records,
            buffer.room.as_mut_slice(),
            &limits,
            &mut met_fault,
            left,
            false,
            &mut waiting,
            &mut staying,
            source,
            sink,
        );
        buffer.met_fault = met_fault;
        begun
    }

    /// Answers these requests, in their order, each as on a connection on which so many may come:
    /// the output of each.
    #[tactic(auto, unfolding(crate::specs::BrokerState::lives_of))]
    fn answer_as(&mut self, buffer: &Buffer, most: PerConnection, waiting: Waiting) -> Vec<Vec<u8>>
        ensures count { length result.items ≡ length waiting }
        ensures served { (before after : Lives) →
            LivesGo (store_of S.Store self.old) (store_of S.Store self.new) before after →
            RunServed (capped (rules_in self.old)) (limits_of buffer.now) most.number before
            waiting (map vec_items result.items) after }
        ensures leaves { Works (store_of S.Store self.old) →
            HasCleanDisk (store_of S.Store self.new) →
            LeavesLives (store_of S.Store self.new) (λ lives. RunOrLost
            (capped (rules_in self.old)) (limits_of buffer.now) most.number
            (lives_of S.Store self.old) waiting (map vec_items result.items) lives) }
        ensures worked { Worked (store_of S.Store self.old) (store_of S.Store self.new) }
        ensures most { most_of self.new ≡ most_of self.old }
        ensures rules { rules_in self.new ≡ rules_in self.old }
    {
        let Waiting {
            requests,
            mut blanks,
            mut outputs,
        } = waiting;
        self.setup.serve_groups(
            &mut self.records,
            &buffer.limits,
            most,
            &requests,
            &mut blanks,
            &mut outputs,
        );
        outputs
    }

    /// Answers those that wait, in their order: the output of each, which closes. The changes of
    /// several are made in one transaction, as [`Broker::serve_all`] does. There is room for each
    /// output, and no error: a reply for which memory is refused is the fixed 500.
    #[tactic(auto, unfolding(crate::specs::BrokerState::lives_of))]
    pub fn answer_waiting(&mut self, buffer: &Buffer, waiting: Waiting) -> Vec<Vec<u8>>
        ensures count { length result.items ≡ length waiting }
        ensures served { (before after : Lives) →
            LivesGo (store_of S.Store self.old) (store_of S.Store self.new) before after →
            RunServed (capped (rules_in self.old)) (limits_of buffer.now) 1 before
            waiting (map vec_items result.items) after }
        ensures leaves { Works (store_of S.Store self.old) →
            HasCleanDisk (store_of S.Store self.new) →
            LeavesLives (store_of S.Store self.new) (λ lives. RunOrLost
            (capped (rules_in self.old)) (limits_of buffer.now) 1
            (lives_of S.Store self.old) waiting (map vec_items result.items) lives) }
        ensures worked { Worked (store_of S.Store self.old) (store_of S.Store self.new) }
        ensures most { most_of self.new ≡ most_of self.old }
        ensures rules { rules_in self.new ≡ rules_in self.old }
    {
        self.answer_as(buffer, PerConnection { number: 1 }, waiting)
    }

    /// The same of those behind which others may come: the output of each as on a connection on
    /// which two may. It closes only where it is the fixed 500.
    #[tactic(auto, unfolding(crate::specs::BrokerState::lives_of))]
    pub fn answer_staying(&mut self, buffer: &Buffer, staying: Waiting) -> Vec<Vec<u8>>
        ensures count { length result.items ≡ length staying }
        ensures served { (before after : Lives) →
            LivesGo (store_of S.Store self.old) (store_of S.Store self.new) before after →
            RunServed (capped (rules_in self.old)) (limits_of buffer.now) 2 before
            staying (map vec_items result.items) after }
        ensures leaves { Works (store_of S.Store self.old) →
            HasCleanDisk (store_of S.Store self.new) →
            LeavesLives (store_of S.Store self.new) (λ lives. RunOrLost
            (capped (rules_in self.old)) (limits_of buffer.now) 2
            (lives_of S.Store self.old) staying (map vec_items result.items) lives) }
        ensures worked { Worked (store_of S.Store self.old) (store_of S.Store self.new) }
        ensures most { most_of self.new ≡ most_of self.old }
        ensures rules { rules_in self.new ≡ rules_in self.old }
    {
        self.answer_as(buffer, PerConnection { number: 2 }, staying)
    }
}
