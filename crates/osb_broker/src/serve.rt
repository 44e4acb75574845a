//! One connection after another, each read in pieces.

ghost use Rattle.std.specs.Prelude.{◌≡◌, ◌<◌, ◌≤◌, ◌+◌, List, length, false, IfOk, OnOk, OnErr, IfSome, IsTrue};
ghost use Rattle.sqlite.specs.Held.{state};
ghost use Rattle.sqlite.specs.State.{HasCleanDisk, Survives};
ghost use Rattle.osb_frames.specs.Calls.{Call};
ghost use Rattle.osb_frames.specs.Cuts.{closes};
ghost use Rattle.osb_frames.specs.Steps.{message};
ghost use Rattle.osb_orders.specs.Lives.{Lives};
ghost use Rattle.osb_statements.specs.Steps.{stored};
ghost use Rattle.osb_broker.specs.Steps.{machine};
ghost use Rattle.osb_broker.specs.Answering.{Answers, AnswersOrLost};
ghost use Rattle.osb_broker.specs.Crashes.{EndsAsOrLost, LeavesLives};
ghost use Rattle.osb_broker.specs.Served.{Served};
ghost use Rattle.osb_broker.specs.Serving.{HasCause, EachWasNeeded, EndsAtFault, ReadsMade, EndsAs, ReadsOf, WritesOf};

use crate::broker::Broker;
use crate::buffer::Buffer;
use crate::fault::ServeFault;
use crate::filling::{fill, shift};
use crate::laws::never_fails;
use crate::refuse::refuse;
use crate::setup::Setup;
use osb_frames::{Limits, NO_LINES, Request, Sink, Source, Step, next_at_once};
use osb_records::Records;
use osb_replies::{WriteFault, write_reply};
use sqlite::Alter;

impl Setup<'_> {
    ghost use Rattle.osb_broker.specs.BrokerState.{LivesGo, Works};
    ghost use Rattle.osb_broker.specs.Inside.{given_most, given_rules, Worked};

    /// Handles a request and writes its reply. Whether the connection closes.
    pub(crate) fn handle_and_write<S: Alter, W: Sink>(
        &self,
        records: &mut Records<S>,
        request: &Request<'_>,
        last: bool,
        sink: &mut W,
    ) -> Result<bool, WriteFault>
        ensures answers { (before after : Lives) →
            LivesGo (state S.Store records.old) (state S.Store records.new) before after →
            Answers (machine (given_rules self.now)) (message request.now) last before after
            (W.taken sink.old) (W.failed_or_empty sink.old)
            (W.taken sink.new) (W.failed_or_empty sink.new)
            result }
        ensures worked { Worked (state S.Store records.old) (state S.Store records.new) }
        ensures leaves { Works (state S.Store records.old) →
            HasCleanDisk (state S.Store records.new) →
            LeavesLives (state S.Store records.new) (λ lives.
            AnswersOrLost (machine (given_rules self.now)) (message request.now) last
            (stored (state S.Store records.old)) lives
            (W.taken sink.old) (W.failed_or_empty sink.old)
            (W.taken sink.new) (W.failed_or_empty sink.new) result) }
        ensures ok { OnOk result (W.failed_or_empty sink.new ≡ W.failed_or_empty sink.old) }
        ensures err { OnErr result (W.failed_or_empty sink.old < W.failed_or_empty sink.new) }
        ensures closes { IfOk result (λ close. close ≡ false →
            closes (message request.now) ≡ false) }
    {
        never_fails();
        records.lives_are_whole();
        let reply = self.handled(records, request, last);
        let close = reply.close;
        write_reply(sink, &reply)?;
        Ok(close)
    }

    /// Serves a connection in a room for a head and a body, and says whether it ended at a framing fault.
    fn serve_in<S: Alter, R: Source, W: Sink>(
        &self,
        records: &mut Records<S>,
        room: &mut [u8],
        limits: &Limits,
        met_fault: &mut bool,
        source: &mut R,
        sink: &mut W,
    ) -> Result<(), ServeFault>
        requires { limits.now.head + limits.now.body ≤ length room.old }
        ensures met_fault { OnOk result (IsTrue met_fault.new → EndsAtFault (W.taken sink.new)) }
        ensures cause { HasCause result (R.failures source.old < R.failures source.new)
            (W.failed_or_empty sink.old < W.failed_or_empty sink.new) }
        ensures worked { Worked (state S.Store records.old) (state S.Store records.new) }
        ensures wrote { WritesOf result (W.failed_or_empty sink.old) (W.failed_or_empty sink.new) }
        ensures outcome { (calls : List Call) ×
            ReadsMade (R.calls source.old) (R.calls source.new) (R.rest source.old)
            (R.rest source.new) calls
            × ReadsOf result calls
            × EachWasNeeded limits.now (given_most self.now) (length room.old) calls
            × ((before after : Lives) →
            LivesGo (state S.Store records.old) (state S.Store records.new) before after →
            EndsAs result (machine (given_rules self.now)) limits.now (given_most self.now) before
            calls met_fault.new (W.taken sink.old) (W.taken sink.new) after)
            × (Works (state S.Store records.old) → HasCleanDisk (state S.Store records.new) →
            LeavesLives (state S.Store records.new) (λ lives. EndsAsOrLost result
            (machine (given_rules self.now)) limits.now (given_most self.now)
            (stored (state S.Store records.old)) calls met_fault.new (W.taken sink.old)
            (W.taken sink.new) lives)) }
    {
        records.lives_are_whole();
        *met_fault = false;
        let mut filled = 0;
        let mut ended = false;
        let mut left = self.per_connection.number;
        let mut lines = NO_LINES;
        while left > 0 {
            match next_at_once(&room[..filled], ended, limits, &mut lines) {
                Step::Whole(request, used) => {
                    left -= 1;
                    match self.handle_and_write(records, &request, left == 0, sink) {
                        Ok(true) => return Ok(()),
                        Ok(false) => {}
                        Err(_) => return Err(ServeFault::Write),
                    }
                    shift(room, used, filled);
                    filled -= used;
                }
                Step::Stop(kind) => {
                    *met_fault = true;
                    return match refuse(sink, kind) {
                        Ok(()) => Ok(()),
                        Err(_) => Err(ServeFault::Write),
                    };
                }
                Step::Ended => return Ok(()),
                Step::More => match fill(source, room, filled) {
                    Ok(n) => {
                        if n == 0 {
                            ended = true;
                        }
                        filled += n;
                    }
                    Err(_) => return Err(ServeFault::Read),
                },
            }
        }
        Ok(())
    }
}

impl<S: Alter> Broker<'_, S> {
    ghost use Rattle.osb_broker.specs.BrokerState.{LivesGo, Works, lives_of, most_of, rules_in, store_of};
    ghost use Rattle.osb_broker.specs.Room.{limits_of, met_fault};

    /// Serves one connection, in pieces as they come: a request is answered as soon as it is
    /// whole, and no more is read than the buffer has room for. At most `per_connection` requests
    /// are taken, and none after a reply that closes.
    ///
    /// It takes no memory of its own. After a fault of the sink the text of one reply may have been
    /// written in part; the lives are those after that request. Where a fault of the disk had shut the
    /// store before the call, what needs the lives is answered by the fixed 500, and the rest as ever.
    ///
    /// Whatever a crash leaves then holds the lives that the texts show, or those after one request more:
    /// the last, which was carried out though its client got the 500, or the first bytes of it.
    #[tactic(auto, unfolding(crate::specs::BrokerState::lives_of))]
    pub fn serve<R: Source, W: Sink>(
        &mut self,
        buffer: &mut Buffer,
        source: &mut R,
        sink: &mut W,
    ) -> Result<(), ServeFault>
        ensures most { most_of self.new ≡ most_of self.old }
        ensures rules { rules_in self.new ≡ rules_in self.old }
        ensures limits { limits_of buffer.new ≡ limits_of buffer.old }
        ensures met_fault { OnOk result (IsTrue (met_fault buffer.new) →
            EndsAtFault (W.taken sink.new)) }

        // What is written is the texts of the connection, whatever pieces it came in.
        ensures ok { Works (store_of S.Store self.new) →
            OnOk result (IfSome (R.rest source.old) (λ all.
            Served (machine (rules_in self.old)) (limits_of buffer.old) (most_of self.old)
            (lives_of S.Store self.old) all (W.taken sink.old) (W.taken sink.new)
            (lives_of S.Store self.new))) }
        ensures works { Works (store_of S.Store self.new) → Works (store_of S.Store self.old) }
        ensures clean { HasCleanDisk (store_of S.Store self.new) →
            HasCleanDisk (store_of S.Store self.old) }

        // A fault has its cause in this call, and leaves a prefix.
        ensures cause { HasCause result (R.failures source.old < R.failures source.new)
            (W.failed_or_empty sink.old < W.failed_or_empty sink.new) }
        ensures wrote { WritesOf result (W.failed_or_empty sink.old) (W.failed_or_empty sink.new) }

        // A read that fails or finds the end is the last one, and each was made where more was needed.
        ensures outcome { (calls : List Call)
            × ReadsMade (R.calls source.old) (R.calls source.new) (R.rest source.old)
            (R.rest source.new) calls
            × ReadsOf result calls
            × EachWasNeeded (limits_of buffer.old) (most_of self.old)
            ((limits_of buffer.old).head + (limits_of buffer.old).body) calls
            × ((before after : Lives) →
            LivesGo (store_of S.Store self.old) (store_of S.Store self.new) before after →
            EndsAs result (machine (rules_in self.old)) (limits_of buffer.old)
            (most_of self.old) before calls (met_fault buffer.new) (W.taken sink.old)
            (W.taken sink.new) after)
            × (Works (store_of S.Store self.old) → HasCleanDisk (store_of S.Store self.new) →
            LeavesLives (store_of S.Store self.new) (λ lives. EndsAsOrLost result
            (machine (rules_in self.old)) (limits_of buffer.old) (most_of self.old)
            (lives_of S.Store self.old) calls (met_fault buffer.new) (W.taken sink.old)
            (W.taken sink.new) lives)) }

        // A crash leaves what it left before, or lives that the conversation leads to (`outcome`).
        ensures crash { Survives (store_of S.Store self.old) (store_of S.Store self.new)
            (λ _. IsTrue (store_of S.Store self.old).is_open) }
    {
        let limits = buffer.limits;
        let mut met_fault = false;
        let served = self.setup.serve_in(
            &mut self.records,
            buffer.room.as_mut_slice(),
            &limits,
            &mut met_fault,
            source,
            sink,
        );
        buffer.met_fault = met_fault;
        served
    }
}
