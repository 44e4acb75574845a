//! A request handled, up to its reply, over records that are lent.

ghost use Rattle.std.specs.Prelude.{◌≡◌, ◌≤◌, ◌+◌, ◌⊎◌, length, true, false, IsTrue, IfOk, OnOk, OnErr, Ok};
ghost use Rattle.sqlite.specs.Held.{state};
ghost use Rattle.sqlite.specs.State.{HasCleanDisk};
ghost use Rattle.osb_frames.specs.Cuts.{closes};
ghost use Rattle.osb_frames.specs.Steps.{message};
ghost use Rattle.osb_frames.specs.Writers.{WritesNothing};
ghost use Rattle.osb_replies.specs.Parts.{parts, refused};
ghost use Rattle.osb_replies.specs.Text.{reply_text};
ghost use Rattle.osb_catalog.specs.Rules as catalog;
ghost use Rattle.osb_asks.specs.Asks.{ask_of, is_catalog, is_early};
ghost use Rattle.osb_asks.specs.ValidTexts.{AskHasValidTexts};
ghost use Rattle.osb_orders.specs.Lives.{Lives};
ghost use Rattle.osb_orders.specs.IsLife.{IsLives};
ghost use Rattle.osb_orders.specs.ViewData.{data_in, view_of};
ghost use Rattle.osb_records.specs.CrashLeaves.{KeepsLives};
ghost use Rattle.osb_statements.specs.Steps.{stored};
ghost use Rattle.osb_machine.specs.Machine.{answer_to};
ghost use Rattle.osb_machine.specs.Steps.{decision};
ghost use Rattle.osb_broker.specs.Steps.{capped, machine, step_of};
ghost use Rattle.osb_broker.specs.Prepared.{Prepares};

use crate::answer::{fault_answer, reply_to};
use crate::applying::{apply_pending, apply_pending_within};
use crate::laws::never_fails;
use crate::prepared::{Prepared, pending_for};
use crate::refused::Refused;
use crate::rooms::Room;
use crate::setup::Setup;
use osb_asks::{Ask, AskFault, read_ask};
use osb_catalog::Settings;
use osb_frames::Request;
use osb_machine::{Answer, AnswerAndChange, decide};
use osb_orders::View;
use osb_records::Records;
use osb_replies::{Body, REFUSED, Reply, Status};
use sqlite::Alter;
use std::alloc::{AllocError, Global};

/// What the table has for an ask by the facts of a view, for all lives that have it.
fn decide_by<'s>(
    alloc: Global,
    settings: &'s Settings,
    view: View,
    ask: &Ask,
) -> Result<AnswerAndChange<'s>, AllocError>
    ensures { IfOk result (λ step. (lives : Lives) → data_in view ≡ view_of lives ask.now →
        decision step ≡ answer_to (catalog.rules_of settings.now) lives ask.now) }
{
    let step = decide(alloc, settings, &view, ask);
    drop(view);
    step
}

impl<'s> Setup<'s> {
    ghost use Rattle.osb_broker.specs.BrokerState.{Works};
    ghost use Rattle.osb_broker.specs.Inside.{AreAnsweredAlike, given_rules, GivesPrepared, GivesReply, Handles, IsOfInstance, LivesStay};

    /// The facts that an ask needs.
    fn view<S: Alter>(&self, records: &mut Records<S>, ask: &Ask) -> Result<View, Refused>
        ensures ok { HasCleanDisk (state S.Store records.new) →
            IfOk result (λ view.
            data_in view ≡ view_of (stored (state S.Store records.old)) ask.now) }
        ensures was_open { HasCleanDisk (state S.Store records.new) → is_catalog ask.now ≡ false →
            OnOk result (IsTrue (state S.Store records.old).is_open) }
        ensures stays { LivesStay (state S.Store records.old) (state S.Store records.new) }
    {
        Ok(records.view(self.alloc, ask)?)
    }

    /// What the table has for an ask.
    fn decided<S: Alter>(
        &self,
        records: &mut Records<S>,
        ask: &Ask,
    ) -> Result<AnswerAndChange<'s>, Refused>
        ensures ok { HasCleanDisk (state S.Store records.new) →
            IfOk result (λ step. decision step ≡
            answer_to (given_rules self.now) (stored (state S.Store records.old)) ask.now) }
        ensures was_open { HasCleanDisk (state S.Store records.new) → is_catalog ask.now ≡ false →
            OnOk result (IsTrue (state S.Store records.old).is_open) }
        ensures stays { LivesStay (state S.Store records.old) (state S.Store records.new) }
    {
        let view = self.view(records, ask)?;
        Ok(decide_by(self.alloc, self.settings, view, ask)?)
    }

    /// The machine's step for an ask, up to its change.
    fn step<S: Alter>(&self, records: &mut Records<S>, ask: &Ask) -> Result<Prepared<'s>, Refused>
        requires { AskHasValidTexts ask.now }
        ensures alike { Works (state S.Store records.old) →
            HasCleanDisk (state S.Store records.new) → IfOk result (λ prepared. (lives : Lives) →
            IsLives lives → AreAnsweredAlike (given_rules self.now) (Ok ask.now)
            (stored (state S.Store records.old)) lives →
            Prepares lives prepared (step_of (given_rules self.now) lives ask.now)) }
        ensures whole { Works (state S.Store records.old) →
            IsLives (stored (state S.Store records.old)) }
        ensures names { IfOk result (λ prepared. IsOfInstance (Ok ask.now) prepared.pending) }
        ensures was_open { HasCleanDisk (state S.Store records.new) → is_catalog ask.now ≡ false →
            OnOk result (IsTrue (state S.Store records.old).is_open) }
        ensures stays { LivesStay (state S.Store records.old) (state S.Store records.new) }
    {
        self.is_sound();
        records.lives_are_whole();
        let AnswerAndChange { answer, change } = self.decided(records, ask)?;
        let pending = pending_for(ask, change)?;
        Ok(Prepared { answer, pending })
    }

    /// The answer to an ask, up to its change. The catalog takes no memory and no view.
    fn asked<S: Alter>(&self, records: &mut Records<S>, ask: &Ask) -> Result<Prepared<'s>, Refused>
        requires { AskHasValidTexts ask.now }
        ensures { GivesPrepared S.Store (given_rules self.now) (Ok ask.now)
            records.old records.new result }
    {
        match ask {
            Ask::Catalog => Ok(Prepared::quiet(Answer {
                status: Status::Ok,
                body: Body::Lent(self.settings.catalog_text()),
            })),
            Ask::Provision(_)
            | Ask::Fetch(_)
            | Ask::Update(_)
            | Ask::Deprovision(_)
            | Ask::InstanceOp(_)
            | Ask::Bind(_)
            | Ask::FetchBinding(_)
            | Ask::Unbind(_)
            | Ask::BindingOp(_)
            | Ask::Orders(_)
            | Ask::Report(_) => self.step(records, ask),
        }
    }

    /// The answer to a request, to its ask or to the fault for which it has none, up to its change.
    pub(crate) fn prepared<S: Alter>(
        &self,
        records: &mut Records<S>,
        request: &Request<'_>,
    ) -> Result<Prepared<'s>, Refused>
        ensures gives { GivesPrepared S.Store (given_rules self.now)
            (ask_of (given_rules self.now) (message request.now)) records.old records.new result }
        ensures kept { Works (state S.Store records.old) →
            KeepsLives (state S.Store records.old) (stored (state S.Store records.old)) }
    {
        records.lives_are_whole();
        match read_ask(self.alloc, request, self.settings) {
            Ok(ask) => {
                let prepared = self.asked(records, &ask);
                drop(ask);
                prepared
            }
            Err(AskFault::Memory) => Err(AllocError.into()),
            Err(fault) => Ok(Prepared::quiet(fault_answer(fault))),
        }
    }

    /// The reply to a request, once its change is made.
    fn replied<'a, S: Alter>(
        &self,
        records: &mut Records<S>,
        request: &Request<'a>,
        last: bool,
    ) -> Result<Reply<'a>, Refused>
    where
        's: 'a,
        ensures gives { GivesReply S.Store (given_rules self.now) (message request.now) last
            records.old records.new result }
        ensures late { OnErr result
            (is_early (ask_of (given_rules self.now) (message request.now)) ≡ false) }
    {
        let Prepared { answer, pending } = self.prepared(records, request)?;
        let reply = reply_to(request, last, answer);
        match apply_pending(records, &pending) {
            Ok(()) => {
                drop(pending);
                Ok(reply)
            }
            Err(refused) => {
                drop(pending);
                drop(reply);
                Err(refused)
            }
        }
    }

    /// Answers a request, by one step of the machine.
    pub(crate) fn handled<'a, S: Alter>(
        &self,
        records: &mut Records<S>,
        request: &Request<'a>,
        last: bool,
    ) -> Reply<'a>
    where
        's: 'a,
        ensures handles { Handles S.Store (machine (given_rules self.now)) (given_rules self.now)
            (message request.now) last records.old records.new (parts result) }
        ensures closes { closes (message request.now) ≡ true → (parts result).close ≡ true }
    {
        never_fails();
        match self.replied(records, request, last) {
            Ok(reply) => reply,
            Err(refused) => {
                records.note_refusal(refused.cause);
                REFUSED
            }
        }
    }

    /// The reply to a request, once there is room for it and `spare` bytes, and its change is made.
    fn replied_in<'a, S: Alter, W: Room>(
        &self,
        records: &mut Records<S>,
        request: &Request<'a>,
        last: bool,
        room: &mut W,
        spare: usize,
    ) -> Result<Reply<'a>, Refused>
    where
        's: 'a,
        ensures gives { GivesReply S.Store (given_rules self.now) (message request.now) last
            records.old records.new result }
        ensures room { IfOk result (λ reply.
            length (reply_text (parts reply)) + spare ≤ W.room room.new) }
        ensures spare { OnErr result (spare ≤ W.room room.old → spare ≤ W.room room.new) }
        ensures unwritten { WritesNothing W.Sink room.old room.new }
    {
        let Prepared { answer, pending } = self.prepared(records, request)?;
        let reply = reply_to(request, last, answer);
        match apply_pending_within(records, &pending, &reply, room, spare) {
            Ok(()) => {
                drop(pending);
                Ok(reply)
            }
            Err(refused) => {
                drop(pending);
                drop(reply);
                Err(refused)
            }
        }
    }

    /// Answers a request once there is room for the reply and `spare` bytes more. Where those were
    /// there, they are there still.
    pub(crate) fn answer_in<'a, S: Alter, W: Room>(
        &self,
        records: &mut Records<S>,
        request: &Request<'a>,
        last: bool,
        room: &mut W,
        spare: usize,
    ) -> Reply<'a>
    where
        's: 'a,
        ensures handles { Handles S.Store (capped (given_rules self.now)) (given_rules self.now)
            (message request.now) last records.old records.new (parts result) }
        ensures room { (parts result ≡ refused)
            ⊎ (length (reply_text (parts result)) + spare ≤ W.room room.new) }
        ensures spare { spare ≤ W.room room.old → spare ≤ W.room room.new }
        ensures unwritten { WritesNothing W.Sink room.old room.new }
    {
        never_fails();
        match self.replied_in(records, request, last, room, spare) {
            Ok(reply) => reply,
            Err(refused) => {
                records.note_refusal(refused.cause);
                REFUSED
            }
        }
    }
}
