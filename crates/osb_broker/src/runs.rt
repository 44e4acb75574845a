//! Lists of connections, served from memory into memory.

ghost use Rattle.std.specs.Prelude.{◌≡◌, ◌≤◌, ◌<◌, ◌+◌, [], ◌∷◌, ◌++◌, false, length, map, take, vec_items, vec_len, vec_capacity, IfOk, IsTrue, MatchResult, OnErr};
ghost use Rattle.std.specs.List.{AllByRecursion};
ghost use Rattle.sqlite.specs.Held.{state};
ghost use Rattle.sqlite.specs.State.{HasCleanDisk, Survives};
ghost use Rattle.osb_frames.specs.InMemory.{bytes_of, room_of};
ghost use Rattle.osb_frames.specs.Steps.{message};
ghost use Rattle.osb_replies.specs.Text.{reply_text};
ghost use Rattle.osb_orders.specs.Lives.{Lives};
ghost use Rattle.osb_statements.specs.Steps.{stored};
ghost use Rattle.osb_broker.specs.Machine.{fault_reply};
ghost use Rattle.osb_broker.specs.Steps.{capped};
ghost use Rattle.osb_broker.specs.Answering.{AnswersWhole, AnswersWholeOrLost};
ghost use Rattle.osb_broker.specs.Crashes.{LeavesLives, RunOrLost, ServedOrLost};
ghost use Rattle.osb_broker.specs.Served.{Served, AreStandard, RunServed};
ghost use Rattle.osb_broker.specs.Inside.{IsBlank, ServesMore};

use crate::broker::Broker;
use crate::laws::never_fails;
use crate::per_connection::PerConnection;
use crate::refuse::refuse;
use crate::setup::Setup;
use osb_asks::laws::valid_texts;
use osb_frames::{InMemory, Limits, NO_LINES, Request, Step, StopKind, next};
use osb_records::Records;
use osb_replies::write_reply;
use sqlite::Alter;
use std::alloc::{AllocError, Global};

/// The room in which each fixed reply fits: the largest has 145 bytes.
const RESERVE: usize = 512;

/// An output with nothing in it yet, in which there is room for a fixed reply.
pub(crate) fn blank_output(alloc: Global) -> Result<Vec<u8>, AllocError>
    ensures { IfOk result IsBlank }
{
    Vec::with_capacity(alloc, RESERVE)
}

/// Outputs with nothing in them yet. In each there is room for a fixed reply.
fn blank_outputs(alloc: Global, count: usize) -> Result<Vec<Vec<u8>>, AllocError>
    ensures count { IfOk result (λ outputs. length outputs.items ≡ count) }
    ensures blank { IfOk result (λ outputs. AllByRecursion IsBlank outputs.items) }
{
    let mut outputs = Vec::with_capacity(alloc, count)?;
    for _ in 0..count {
        outputs.push(blank_output(alloc)?)?;
    }
    Ok(outputs)
}

/// Writes the fixed reply to a framing fault. There is room for it.
fn refuse_into(output: &mut InMemory, kind: StopKind)
    requires { 512 ≤ room_of output.old }
    ensures { bytes_of output.new ≡ bytes_of output.old ++ reply_text (fault_reply kind) }
{
    let _ = refuse(output, kind);
}

impl Setup<'_> {
    ghost use Rattle.osb_broker.specs.BrokerState.{LivesGo, Works};
    ghost use Rattle.osb_broker.specs.Inside.{given_most, given_rules, ServesEach, Worked};

    /// Answers a request into an output that has room for a fixed reply. Whether the connection
    /// closes; where it doesn't, there still is that room.
    fn reply_into<S: Alter>(
        &self,
        records: &mut Records<S>,
        request: &Request<'_>,
        last: bool,
        output: &mut InMemory,
    ) -> bool
        requires { 512 ≤ room_of output.old }
        ensures answers { (before after : Lives) →
            LivesGo (state S.Store records.old) (state S.Store records.new) before after →
            AnswersWhole (capped (given_rules self.now)) (message request.now) last before after
            (bytes_of output.old) (bytes_of output.new) result }
        ensures room { result ≡ false → 512 ≤ room_of output.new }
        ensures worked { Worked (state S.Store records.old) (state S.Store records.new) }
        ensures leaves { Works (state S.Store records.old) →
            HasCleanDisk (state S.Store records.new) →
            LeavesLives (state S.Store records.new) (λ lives.
            AnswersWholeOrLost (capped (given_rules self.now)) (message request.now) last
            (stored (state S.Store records.old)) lives
            (bytes_of output.old) (bytes_of output.new) result) }
    {
        never_fails();
        records.lives_are_whole();
        let reply = self.answer_in(records, request, last, output, RESERVE);
        let _ = write_reply(output, &reply);
        reply.close
    }

    /// Serves a connection whose bytes are all there.
    fn serve_into<S: Alter>(
        &self,
        records: &mut Records<S>,
        limits: &Limits,
        most: PerConnection,
        bytes: &[u8],
        output: &mut InMemory,
    )
        requires { 512 ≤ room_of output.old }
        ensures served { (before after : Lives) →
            LivesGo (state S.Store records.old) (state S.Store records.new) before after →
            Served (capped (given_rules self.now)) limits.now most.number before
            bytes.now
            (bytes_of output.old) (bytes_of output.new) after }
        ensures worked { Worked (state S.Store records.old) (state S.Store records.new) }
        ensures leaves { Works (state S.Store records.old) →
            HasCleanDisk (state S.Store records.new) →
            LeavesLives (state S.Store records.new) (λ lives.
            ServedOrLost (capped (given_rules self.now)) limits.now most.number
            (stored (state S.Store records.old)) bytes.now
            (bytes_of output.old) (bytes_of output.new) lives) }
    {
        records.lives_are_whole();
        let mut rest = bytes;
        let mut left = most.number;
        let mut lines = NO_LINES;
        while left > 0 {
            match next(rest, true, limits, &mut lines) {
                Step::Whole(request, used) => {
                    left -= 1;
                    if self.reply_into(records, &request, left == 0, output) {
                        return;
                    }
                    rest = &rest[used..];
                }
                Step::Stop(kind) => {
                    refuse_into(output, kind);
                    return;
                }
                // The input has ended, so no more of it is asked for.
                Step::Ended => return,
                Step::More => return,
            }
        }
    }

    /// The output of a connection whose bytes are all there, in an output that was blank.
    fn output_of<S: Alter>(
        &self,
        records: &mut Records<S>,
        limits: &Limits,
        most: PerConnection,
        bytes: &[u8],
        blank: Vec<u8>,
    ) -> Vec<u8>
        requires { IsBlank blank }
        ensures served { (before after : Lives) →
            LivesGo (state S.Store records.old) (state S.Store records.new) before after →
            Served (capped (given_rules self.now)) limits.now most.number before
            bytes.now
            [] result.items after }
        ensures worked { Worked (state S.Store records.old) (state S.Store records.new) }
        ensures leaves { Works (state S.Store records.old) →
            HasCleanDisk (state S.Store records.new) →
            LeavesLives (state S.Store records.new) (λ lives.
            ServedOrLost (capped (given_rules self.now)) limits.now most.number
            (stored (state S.Store records.old)) bytes.now [] result.items lives) }
    {
        let mut output = InMemory::new(blank);
        self.serve_into(records, limits, most, bytes, &mut output);
        output.into_bytes()
    }

    /// Serves a connection into one of the blank outputs, of which there is one, and keeps it where there is
    /// room for it.
    fn serve_alone<S: Alter>(
        &self,
        records: &mut Records<S>,
        limits: &Limits,
        most: PerConnection,
        connection: &[u8],
        blanks: &mut Vec<Vec<u8>>,
        outputs: &mut Vec<Vec<u8>>,
    )
        requires blank { AllByRecursion IsBlank blanks.old.items }
        requires some { 0 < length blanks.old.items }
        requires room { vec_len outputs.old < vec_capacity outputs.old }
        ensures blank { AllByRecursion IsBlank blanks.new.items }
        ensures fewer { length blanks.new.items + 1 ≡ length blanks.old.items }
        ensures count { vec_len outputs.new ≡ vec_len outputs.old + 1 }
        ensures room { vec_capacity outputs.old ≤ vec_capacity outputs.new }
        ensures serves { ServesMore S.Store (capped (given_rules self.now)) limits.now
            most.number (connection.now ∷ []) outputs.old.items outputs.new.items
            records.old records.new }
    {
        if let Some(blank) = blanks.pop() {
            let output = self.output_of(records, limits, most, connection, blank);
            let _ = outputs.push(output);
        }
    }

    /// Serves connections one after the other, each with its own transaction.
    fn serve_singly<S: Alter>(
        &self,
        records: &mut Records<S>,
        limits: &Limits,
        most: PerConnection,
        connections: &[Vec<u8>],
        blanks: &mut Vec<Vec<u8>>,
        outputs: &mut Vec<Vec<u8>>,
    )
        requires blank { AllByRecursion IsBlank blanks.old.items }
        requires enough { length connections.now ≤ length blanks.old.items }
        requires room { vec_len outputs.old + length connections.now ≤ vec_capacity outputs.old }
        ensures blank { AllByRecursion IsBlank blanks.new.items }
        ensures fewer { length blanks.new.items + length connections.now ≡
            length blanks.old.items }
        ensures count { vec_len outputs.new ≡ vec_len outputs.old + length connections.now }
        ensures room { vec_capacity outputs.old ≤ vec_capacity outputs.new }
        ensures serves { ServesMore S.Store (capped (given_rules self.now)) limits.now
            most.number (map vec_items connections.now)
            outputs.old.items outputs.new.items records.old records.new }
    {
        records.lives_are_whole();
        for connection in connections {
            self.serve_alone(records, limits, most, connection, blanks, outputs);
        }
    }

    /// Serves the first so many connections, of which there is at least one: as a group, or one after the
    /// other where they can't be a group.
    fn serve_some<S: Alter>(
        &self,
        records: &mut Records<S>,
        limits: &Limits,
        most: PerConnection,
        connections: &[Vec<u8>],
        blanks: &mut Vec<Vec<u8>>,
        outputs: &mut Vec<Vec<u8>>,
    ) -> usize
        requires some { 0 < length connections.now }
        requires blank { AllByRecursion IsBlank blanks.old.items }
        requires enough { length connections.now ≤ length blanks.old.items }
        requires room { vec_len outputs.old + length connections.now ≤ vec_capacity outputs.old }
        ensures some { 0 < result }
        ensures inside { result ≤ length connections.now }
        ensures blank { AllByRecursion IsBlank blanks.new.items }
        ensures fewer { length blanks.old.items ≤ length blanks.new.items + result }
        ensures count { vec_len outputs.new ≡ vec_len outputs.old + result }
        ensures room { vec_capacity outputs.old ≤ vec_capacity outputs.new }
        ensures serves { ServesMore S.Store (capped (given_rules self.now)) limits.now most.number
            (map vec_items (take result connections.now))
            outputs.old.items outputs.new.items records.old records.new }
    {
        records.lives_are_whole();
        match self.serve_group(records, limits, most, connections) {
            Ok(mut made) => {
                let count = made.len();
                let _ = outputs.append(&mut made);
                count
            }
            Err(count) => {
                self.serve_singly(
                    records,
                    limits,
                    most,
                    &connections[..count],
                    blanks,
                    outputs,
                );
                count
            }
        }
    }

    /// Serves connections, those of one request that can be as groups, into outputs that have room
    /// for them, and for a fixed reply to each.
    pub(crate) fn serve_groups<S: Alter>(
        &self,
        records: &mut Records<S>,
        limits: &Limits,
        most: PerConnection,
        connections: &[Vec<u8>],
        blanks: &mut Vec<Vec<u8>>,
        outputs: &mut Vec<Vec<u8>>,
    )
        requires blank { AllByRecursion IsBlank blanks.old.items }
        requires enough { length connections.now ≤ length blanks.old.items }
        requires room { vec_len outputs.old + length connections.now ≤ vec_capacity outputs.old }
        ensures count { vec_len outputs.new ≡ vec_len outputs.old + length connections.now }
        ensures serves { ServesMore S.Store (capped (given_rules self.now)) limits.now most.number
            (map vec_items connections.now)
            outputs.old.items outputs.new.items records.old records.new }
    {
        records.lives_are_whole();
        let mut rest = connections;
        while !rest.is_empty() {
            let count = self.serve_some(records, limits, most, rest, blanks, outputs);
            (_, rest) = rest.split_at(count);
        }
    }

    /// As `serve_all`, within any limits.
    fn serve_each<S: Alter>(
        &self,
        records: &mut Records<S>,
        limits: &Limits,
        connections: &[Vec<u8>],
    ) -> Result<Vec<Vec<u8>>, AllocError>
        ensures ok { IfOk result (λ outputs. ServesEach S.Store (capped (given_rules self.now))
            limits.now (given_most self.now) (map vec_items connections.now)
            (map vec_items outputs.items) records.old records.new) }
        ensures err { OnErr result (records.new ≡ records.old) }
        ensures worked { Worked (state S.Store records.old) (state S.Store records.new) }
        ensures kept { Works (state S.Store records.old) →
            LeavesLives (state S.Store records.old)
            (λ lives. lives ≡ stored (state S.Store records.old)) }
    {
        records.lives_are_whole();
        let mut blanks = blank_outputs(self.alloc, connections.len())?;
        let mut outputs = Vec::with_capacity(self.alloc, connections.len())?;
        self.serve_groups(
            records,
            limits,
            self.per_connection,
            connections,
            &mut blanks,
            &mut outputs,
        );
        Ok(outputs)
    }
}

impl<S: Alter> Broker<'_, S> {
    ghost use Rattle.osb_broker.specs.BrokerState.{IsShut, Works, lives_of, most_of, rules_in, store_of};
    ghost use Rattle.osb_broker.specs.Once.{ServedOnce};

    /// Serves connections whose bytes are all there, one after the other and within
    /// [`Limits::STANDARD`], and gives the output of each.
    ///
    /// Where a connection has one request, the changes of several are made in one transaction.
    ///
    /// What is said of outputs and lives is said where the store works still. Where a fault of the disk
    /// had shut it before the call, the outputs are as from any lives, and the lives stay (`shut`).
    ///
    /// Each output first gets room for a fixed reply, and only there a refusal of memory is an error,
    /// with nothing changed. Later each reply asks for its room before its change is made; where
    /// that is refused it is the fixed 500, whatever the request is, and the connection ends.
    ///
    /// Whatever a crash leaves then holds lives that these connections lead to; of each connection the last
    /// request may have been carried out though its output ends with the 500 (`leaves`).
    ///
    /// Where a connection has one request, a request that is sent again acts once, whatever is refused,
    /// and what is asked about one instance doesn't touch another (`once`).
    #[tactic(auto, unfolding(crate::specs::BrokerState::lives_of))]
    pub fn serve_all(&mut self, connections: &[Vec<u8>]) -> Result<Vec<Vec<u8>>, AllocError>
        ensures ok { Works (store_of S.Store self.new) → IfOk result (λ outputs.
            (limits : Limits) × AreStandard limits
            × RunServed (capped (rules_in self.old)) limits (most_of self.old)
            (lives_of S.Store self.old) (map vec_items connections.now)
            (map vec_items outputs.items) (lives_of S.Store self.new)) }
        ensures once { Works (store_of S.Store self.new) → most_of self.old ≡ 1 →
            IfOk result (λ outputs.
            (limits : Limits) × AreStandard limits
            × ServedOnce (rules_in self.old) limits (lives_of S.Store self.old)
            (map vec_items connections.now) (map vec_items outputs.items)
            (lives_of S.Store self.new)) }
        ensures shut { HasCleanDisk (store_of S.Store self.new) →
            IsShut (store_of S.Store self.old) → (lives : Lives) → IfOk result (λ outputs.
            (limits : Limits) × AreStandard limits
            × RunServed (capped (rules_in self.old)) limits (most_of self.old) lives
            (map vec_items connections.now) (map vec_items outputs.items) lives) }
        ensures err { Works (store_of S.Store self.new) →
            OnErr result (lives_of S.Store self.new ≡ lives_of S.Store self.old) }
        ensures leaves { Works (store_of S.Store self.old) →
            HasCleanDisk (store_of S.Store self.new) →
            LeavesLives (store_of S.Store self.new) (λ lives. MatchResult result
            (λ outputs. (limits : Limits) × AreStandard limits
            × RunOrLost (capped (rules_in self.old)) limits (most_of self.old)
            (lives_of S.Store self.old) (map vec_items connections.now)
            (map vec_items outputs.items) lives)
            (λ _. lives ≡ lives_of S.Store self.old)) }
        ensures crash { Survives (store_of S.Store self.old) (store_of S.Store self.new)
            (λ _. IsTrue (store_of S.Store self.old).is_open) }
        ensures works { Works (store_of S.Store self.new) → Works (store_of S.Store self.old) }
        ensures most { most_of self.new ≡ most_of self.old }
        ensures rules { rules_in self.new ≡ rules_in self.old }
    {
        valid_texts();
        self.setup.is_sound();
        self.lives_are_whole();
        self.setup
            .serve_each(&mut self.records, &Limits::STANDARD, connections)
    }
}
