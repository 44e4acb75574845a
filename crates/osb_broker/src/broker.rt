//! The broker and its public calls, each a short call of what `Setup` does to the records.

ghost use Rattle.std.specs.Prelude.{◌≡◌, ◌≢◌, ◌<◌, ◌≤◌, ◌⊎◌, length, true, false, IfOk, IfErr};
ghost use Rattle.sqlite.specs.Held.{state};
ghost use Rattle.sqlite.specs.State.{HasCleanDisk, Survives};
ghost use Rattle.osb_frames.specs.Cuts.{closes};
ghost use Rattle.osb_frames.specs.Steps.{message};
ghost use Rattle.osb_frames.specs.Writers.{WritesNothing};
ghost use Rattle.osb_replies.specs.Parts.{parts, refused};
ghost use Rattle.osb_replies.specs.Text.{reply_text};
ghost use Rattle.osb_catalog.specs.Rules as catalog;
ghost use Rattle.osb_asks.specs.Asks.{ask_of};
ghost use Rattle.osb_orders.specs.Lives.{Lives};
ghost use Rattle.osb_orders.specs.IsLife.{IsLives};
ghost use Rattle.osb_audit.specs.Plans.{plans_in_use};
ghost use Rattle.osb_records.specs.Commit.{Commits};
ghost use Rattle.osb_records.specs.CrashLeaves.{KeepsLives};
ghost use Rattle.osb_statements.specs.Steps.{LeavesOnly, stored};
ghost use Rattle.osb_laws.specs.Failures.{is_500};
ghost use Rattle.osb_broker.specs.Machine.{Handled, MayReply};
ghost use Rattle.osb_broker.specs.PerConnection.{IsPerConnection};
ghost use Rattle.osb_broker.specs.Plans.{first_lacking, NamesLacking, OffersInUse, ReportsLacking};
ghost use Rattle.osb_broker.specs.Steps.{lives_after, machine, capped, needs_lives};

use crate::fault::NewFault;
use crate::per_connection::PerConnection;
use crate::plans::find_plans;
use crate::rooms::Room;
use crate::setup::Setup;
use osb_catalog::Settings;
use osb_frames::Request;
use osb_records::{Records, Refusals};
use osb_replies::Reply;
use sqlite::Alter;
use std::alloc::Global;

/// The broker: what it was given and can't change, and the records of all instances.
#[derive(Drop)]
pub struct Broker<'s, S: Alter> {
    pub(crate) setup: Setup<'s>,
    pub(crate) records: Records<S>,
}

impl<'s, S: Alter> Broker<'s, S> {
    ghost use Rattle.osb_broker.specs.BrokerState.{IsShut, Works, lives_of, most_of, records_of, rules_in, store_of};

    /// A broker over these settings and records, which takes up to `per_connection` requests of a
    /// connection. Where the catalog lacks a plan that is in use, or the records can't be read, the
    /// records come back, with their lives.
    #[tactic(auto, unfolding(crate::specs::BrokerState::lives_of))]
    pub fn new(
        alloc: Global,
        settings: &'s Settings,
        mut records: Records<S>,
        per_connection: u32,
    ) -> Result<Broker<'s, S>, (NewFault, Records<S>)>
        requires per_connection { IsPerConnection per_connection }
        ensures lives { IfOk result (λ broker. Works (store_of S.Store broker) →
            lives_of S.Store broker ≡ stored (state S.Store records)) }
        ensures works { IfOk result (λ broker. Works (store_of S.Store broker) →
            Works (state S.Store records)) }
        ensures most { IfOk result (λ broker. most_of broker ≡ per_connection) }
        ensures rules { IfOk result (λ broker. rules_in broker ≡ catalog.rules_of settings.now) }
        ensures offered { IfOk result (λ broker. HasCleanDisk (store_of S.Store broker) →
            OffersInUse (catalog.rules_of settings.now) (stored (state S.Store records))) }
        ensures in_use { IfErr result (λ fault. HasCleanDisk (state S.Store fault.1) →
            ReportsLacking fault.0 (first_lacking (catalog.rules_of settings.now)
            (plans_in_use (stored (state S.Store records))))) }
        ensures lacks { IfErr result (λ fault.
            NamesLacking (catalog.rules_of settings.now) fault.0) }
        ensures err { IfErr result (λ fault. Works (state S.Store fault.1) →
            stored (state S.Store fault.1) ≡ stored (state S.Store records)) }
        ensures fault_works { IfErr result (λ fault. Works (state S.Store fault.1) →
            Works (state S.Store records)) }
        ensures crash { IfOk result (λ broker.
            Survives (state S.Store records) (store_of S.Store broker) (λ _. ⊥)) }
        ensures fault_crash { IfErr result (λ fault.
            Survives (state S.Store records) (state S.Store fault.1) (λ _. ⊥)) }
    {
        match find_plans(&mut records, alloc, settings) {
            Ok(()) => {
                let per_connection = PerConnection {
                    number: per_connection,
                };
                let setup = Setup {
                    alloc,
                    settings,
                    per_connection,
                };
                Ok(Broker { setup, records })
            }
            Err(fault) => Err((fault, records)),
        }
    }

    /// The records, as the last reply left them. It takes no memory.
    #[tactic(auto, unfolding(crate::specs::BrokerState::lives_of))]
    pub fn into_records(self) -> Records<S>
        ensures same { result ≡ records_of self.entry }
        ensures lives { stored (state S.Store result) ≡ lives_of S.Store self.entry }
        ensures works { Works (state S.Store result) → Works (store_of S.Store self.entry) }
        ensures crash { Survives (store_of S.Store self.entry) (state S.Store result) (λ _. ⊥) }
    {
        self.records
    }

    /// How many requests of a connection are answered at most.
    pub fn per_connection(&self) -> u32
        ensures most { result ≡ most_of self.now }
        ensures some { 0 < result }
    {
        self.setup.per_connection.number
    }

    /// How many requests were answered by the fixed 500 since this was last called, for each cause.
    pub fn take_refusals(&mut self) -> Refusals
        ensures { self.new ≡ self.old }
    {
        self.records.take_refusals()
    }

    /// What a store that works has: well-formed lives, of which a crash now leaves a database and
    /// nothing else. It does nothing when it runs.
    #[tactic(auto, unfolding(crate::specs::BrokerState::lives_of))]
    pub fn lives_are_whole(&self)
        ensures whole { Works (store_of S.Store self.now) → IsLives (lives_of S.Store self.now) }
        ensures kept { Works (store_of S.Store self.now) →
            KeepsLives (store_of S.Store self.now) (lives_of S.Store self.now) }
    {
        self.records.lives_are_whole();
    }

    /// Answers a request, by one step of the machine. `last` says that no further request of its
    /// connection is taken. Where memory is refused the reply is the fixed 500 and the lives
    /// stay; no other reply has the status 500. What leads to no door, lacks the login or the version,
    /// has no route, or asks for the catalog takes no memory.
    #[tactic(auto, unfolding(crate::specs::BrokerState::lives_of))]
    pub fn handle<'a>(&mut self, request: &Request<'a>, last: bool) -> Reply<'a>
    where
        's: 'a,
        ensures handled { Works (store_of S.Store self.new) →
            Handled (machine (rules_in self.old)) (message request.now) last
            (lives_of S.Store self.old) (parts result) (lives_of S.Store self.new) }
        ensures told { Works (store_of S.Store self.old) →
            HasCleanDisk (store_of S.Store self.new) → MayReply (machine (rules_in self.old))
            (message request.now) last (lives_of S.Store self.old) (parts result) }
        ensures stays { Works (store_of S.Store self.new) → is_500 (parts result).status ≡ true →
            lives_of S.Store self.new ≡ lives_of S.Store self.old }
        ensures closes { closes (message request.now) ≡ true → (parts result).close ≡ true }
        ensures plain { needs_lives (ask_of (rules_in self.old) (message request.now)) ≡ false →
            (lives : Lives) → Handled (machine (rules_in self.old)) (message request.now) last lives
            (parts result) lives }
        ensures shut { HasCleanDisk (store_of S.Store self.new) →
            IsShut (store_of S.Store self.old) →
            needs_lives (ask_of (rules_in self.old) (message request.now)) ≡ true →
            parts result ≡ refused }
        ensures untouched { needs_lives (ask_of (rules_in self.old) (message request.now)) ≡ false →
            records_of self.new ≡ records_of self.old }
        ensures works { Works (store_of S.Store self.new) → Works (store_of S.Store self.old) }
        ensures crash { Survives (store_of S.Store self.old) (store_of S.Store self.new)
            (Commits (store_of S.Store self.old) (lives_after (rules_in self.old)
            (lives_of S.Store self.old) (message request.now))) }
        ensures durable { Works (store_of S.Store self.old) →
            HasCleanDisk (store_of S.Store self.new) → parts result ≢ refused →
            LeavesOnly (store_of S.Store self.new) (lives_after (rules_in self.old)
            (lives_of S.Store self.old) (message request.now)) }
        ensures most { most_of self.new ≡ most_of self.old }
        ensures rules { rules_in self.new ≡ rules_in self.old }
    {
        self.setup.handled(&mut self.records, request, last)
    }

    /// Answers a request as [`Broker::handle`] does, once there is room for the reply: it is asked
    /// for before the change is made, and nothing after the change can be refused. Where there is
    /// no room the reply is the fixed 500 and the lives stay, whatever the request is. The reply
    /// isn't written.
    #[tactic(auto, unfolding(crate::specs::BrokerState::lives_of))]
    pub fn answer<'a, W: Room>(
        &mut self,
        request: &Request<'a>,
        last: bool,
        room: &mut W,
    ) -> Reply<'a>
    where
        's: 'a,
        ensures handled { Works (store_of S.Store self.new) →
            Handled (capped (rules_in self.old)) (message request.now) last
            (lives_of S.Store self.old) (parts result) (lives_of S.Store self.new) }
        ensures told { Works (store_of S.Store self.old) →
            HasCleanDisk (store_of S.Store self.new) → MayReply (capped (rules_in self.old))
            (message request.now) last (lives_of S.Store self.old) (parts result) }
        ensures stays { Works (store_of S.Store self.new) → is_500 (parts result).status ≡ true →
            lives_of S.Store self.new ≡ lives_of S.Store self.old }
        ensures plain { needs_lives (ask_of (rules_in self.old) (message request.now)) ≡ false →
            (lives : Lives) → Handled (capped (rules_in self.old)) (message request.now) last lives
            (parts result) lives }
        ensures untouched { needs_lives (ask_of (rules_in self.old) (message request.now)) ≡ false →
            records_of self.new ≡ records_of self.old }
        ensures shut { HasCleanDisk (store_of S.Store self.new) →
            IsShut (store_of S.Store self.old) →
            needs_lives (ask_of (rules_in self.old) (message request.now)) ≡ true →
            parts result ≡ refused }
        ensures works { Works (store_of S.Store self.new) → Works (store_of S.Store self.old) }
        ensures crash { Survives (store_of S.Store self.old) (store_of S.Store self.new)
            (Commits (store_of S.Store self.old) (lives_after (rules_in self.old)
            (lives_of S.Store self.old) (message request.now))) }
        ensures durable { Works (store_of S.Store self.old) →
            HasCleanDisk (store_of S.Store self.new) → parts result ≢ refused →
            LeavesOnly (store_of S.Store self.new) (lives_after (rules_in self.old)
            (lives_of S.Store self.old) (message request.now)) }
        ensures room { (parts result ≡ refused)
            ⊎ (length (reply_text (parts result)) ≤ W.room room.new) }
        ensures unwritten { WritesNothing W.Sink room.old room.new }
        ensures most { most_of self.new ≡ most_of self.old }
        ensures rules { rules_in self.new ≡ rules_in self.old }
    {
        self.setup
            .answer_in(&mut self.records, request, last, room, 0)
    }
}
