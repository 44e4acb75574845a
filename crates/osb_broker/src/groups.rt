//! Requests that are decided one after the other and answered once their changes are made, all in one
//! transaction.

ghost use Rattle.std.specs.Prelude.{◌≡◌, ◌≢◌, ◌≤◌, ◌<◌, ◌+◌, ◌++◌, [], ◌∷◌, true, false, not, bytes_eq, length, map, take, vec_items, vec_len, vec_capacity, IsTrue, IfOk, IfErr, IfSome, OnOk, OnErr, OnSome, MatchResult};
ghost use Rattle.std.specs.List.{list_all, AllByRecursion};
ghost use Rattle.sqlite.specs.Held.{state};
ghost use Rattle.sqlite.specs.State.{HasCleanDisk, Survives};
ghost use Rattle.osb_frames.specs.Steps.{message};
ghost use Rattle.osb_replies.specs.Parts.{parts};
ghost use Rattle.osb_replies.specs.Text.{reply_text};
ghost use Rattle.osb_orders.specs.declared.order.Change.TheVariants.{Nothing};
ghost use Rattle.osb_records.specs.Changes.{all_changed, AllCanBeMade, ChangesSomething};
ghost use Rattle.osb_records.specs.Commit.{Commits};
ghost use Rattle.osb_statements.specs.Steps.{LeavesOnly, stored};
ghost use Rattle.osb_broker.specs.BrokerState.{Works};
ghost use Rattle.osb_broker.specs.Groups.{Decides, HasAll, IsGroup, IsOfAnother, Joins};

use crate::answer::reply_to;
use crate::per_connection::PerConnection;
use crate::prepared::Prepared;
use crate::setup::Setup;
use osb_asks::Id;
use osb_frames::{InMemory, Limits, NO_LINES, Request, Step, next};
use osb_orders::Change;
use osb_records::{LifeChange, Records, StoreFault};
use osb_replies::{Reply, write_reply};
use sqlite::Alter;
use std::alloc::{AllocError, Global};

/// Connections that are decided: what each is sent, and the changes that have to be made before.
#[derive(Drop)]
struct Group {
    outputs: Vec<Vec<u8>>,
    changes: Vec<LifeChange>,
}

impl Group {
    /// Takes one more, for which there is room. Where memory is refused for its change, it isn't taken.
    #[tactic(auto, using(crate::proofs::GroupLemmas::some_more))]
    fn add(&mut self, output: Vec<u8>, change: LifeChange) -> bool
        requires { vec_len self.old.outputs < vec_capacity self.old.outputs }
        ensures outputs { result ≡ true →
            self.new.outputs.items ≡ self.old.outputs.items ++ output ∷ [] }
        ensures count { result ≡ true →
            vec_len self.new.outputs ≡ vec_len self.old.outputs + 1 }
        ensures none { result ≡ true → change.change ≡ Nothing →
            self.new.changes.items ≡ self.old.changes.items }
        ensures some { result ≡ true → change.change ≢ Nothing →
            self.new.changes.items ≡ self.old.changes.items ++ change ∷ [] }
        ensures same { result ≡ false → (vec_len self.new.outputs ≡ vec_len self.old.outputs)
            × (self.new.outputs.items ≡ self.old.outputs.items)
            × (self.new.changes.items ≡ self.old.changes.items) }
        ensures changes { AllByRecursion ChangesSomething self.old.changes.items →
            AllByRecursion ChangesSomething self.new.changes.items }
        ensures room { vec_capacity self.old.outputs ≤ vec_capacity self.new.outputs }
    {
        match change.change {
            Change::Nothing => drop(change),
            _ => {
                if self.changes.push(change).is_err() {
                    return false;
                }
            }
        }
        self.outputs.push(output).is_ok()
    }
}

/// Whether each of these changes is of another instance.
fn are_of_others(changes: &[LifeChange], instance: &Id) -> bool
    ensures { result ≡ list_all (λ one. not (bytes_eq one.instance instance.now)) changes.now }
{
    changes
        .iter()
        .all(|one| one.instance.as_str() != instance.as_str())
}

/// The text of a reply.
fn text_of(alloc: Global, reply: &Reply<'_>) -> Result<Vec<u8>, AllocError>
    ensures { IfOk result (λ text. text.items ≡ reply_text (parts reply.now)) }
{
    let mut output = InMemory::new(Vec::with_capacity(alloc, reply.length())?);
    match write_reply(&mut output, reply) {
        Ok(()) => Ok(output.into_bytes()),
        Err(_) => Err(AllocError),
    }
}

/// Makes the changes in one transaction.
fn make_all<S: Alter>(records: &mut Records<S>, changes: &[LifeChange]) -> Result<(), StoreFault>
    requires some { AllByRecursion ChangesSomething changes.now }
    requires made { Works (state S.Store records.old) →
        AllCanBeMade changes.now (stored (state S.Store records.old)) }
    ensures ok { HasCleanDisk (state S.Store records.new) →
        OnOk result (stored (state S.Store records.new) ≡
        all_changed changes.now (stored (state S.Store records.old))) }
    ensures open { HasCleanDisk (state S.Store records.new) → changes.now ≢ [] →
        OnOk result (IsTrue (state S.Store records.old).is_open) }
    ensures err { Works (state S.Store records.new) →
        OnErr result (stored (state S.Store records.new) ≡ stored (state S.Store records.old)) }
    ensures works { Works (state S.Store records.new) → Works (state S.Store records.old) }
    ensures crash { Survives (state S.Store records.old) (state S.Store records.new) (Commits
        (state S.Store records.old)
        (all_changed changes.now (stored (state S.Store records.old)))) }
    ensures none { changes.now ≡ [] → records.new ≡ records.old }
    ensures durable { HasCleanDisk (state S.Store records.new) → changes.now ≢ [] →
        OnOk result (LeavesOnly (state S.Store records.new) (stored (state S.Store records.new))) }
{
    if changes.is_empty() {
        return Ok(());
    }
    records.commit_all(changes)
}

impl Setup<'_> {
    ghost use Rattle.osb_broker.specs.Steps.{capped};
    ghost use Rattle.osb_broker.specs.Inside.{given_rules, LivesStay, ServesEach, Worked};

    /// What answers the request, and its change, where it names an instance that none of these changes is
    /// of, and nothing is refused.
    fn decided_apart<S: Alter>(
        &self,
        records: &mut Records<S>,
        request: &Request<'_>,
        last: bool,
        changes: &[LifeChange],
    ) -> Option<(Vec<u8>, LifeChange)>
        ensures decides { Works (state S.Store records.old) →
            HasCleanDisk (state S.Store records.new) → IfSome result (λ decided.
            Decides (given_rules self.now) (message request.now) last
            (stored (state S.Store records.old)) decided.0.items decided.1) }
        ensures apart { IfSome result (λ decided. IsOfAnother decided.1 changes.now) }
        ensures open { HasCleanDisk (state S.Store records.new) →
            OnSome result (IsTrue (state S.Store records.old).is_open) }
        ensures stays { LivesStay (state S.Store records.old) (state S.Store records.new) }
    {
        let Ok(Prepared { answer, pending }) = self.prepared(records, request) else {
            return None;
        };
        let Some(change) = pending else {
            return None;
        };
        if !are_of_others(changes, &change.instance) {
            return None;
        }
        match text_of(self.alloc, &reply_to(request, last, answer)) {
            Ok(output) => Some((output, change)),
            Err(_) => None,
        }
    }

    /// Decides the request of a connection on which no other can be answered, and takes it into a
    /// group that has room for it. Whether it was taken.
    fn join<S: Alter>(
        &self,
        records: &mut Records<S>,
        limits: &Limits,
        most: PerConnection,
        bytes: &[u8],
        group: &mut Group,
    ) -> bool
        requires { vec_len group.old.outputs < vec_capacity group.old.outputs }
        ensures joins { Works (state S.Store records.old) →
            HasCleanDisk (state S.Store records.new) → result ≡ true →
            Joins (given_rules self.now) limits.now most.number
            (stored (state S.Store records.old)) bytes.now group.old group.new }
        ensures count { result ≡ true →
            vec_len group.new.outputs ≡ vec_len group.old.outputs + 1 }
        ensures same { result ≡ false → (vec_len group.new.outputs ≡ vec_len group.old.outputs)
            × (group.new.outputs.items ≡ group.old.outputs.items)
            × (group.new.changes.items ≡ group.old.changes.items) }
        ensures changes { AllByRecursion ChangesSomething group.old.changes.items →
            AllByRecursion ChangesSomething group.new.changes.items }
        ensures room { vec_capacity group.old.outputs ≤ vec_capacity group.new.outputs }
        ensures open { HasCleanDisk (state S.Store records.new) → result ≡ true →
            IsTrue (state S.Store records.old).is_open }
        ensures stays { LivesStay (state S.Store records.old) (state S.Store records.new) }
    {
        let mut lines = NO_LINES;
        let Step::Whole(request, used) = next(bytes, true, limits, &mut lines) else {
            return false;
        };
        if most.number > 1 && used < bytes.len() {
            return false;
        }
        match self.decided_apart(records, &request, most.is_one(), &group.changes) {
            Some((output, change)) => group.add(output, change),
            None => false,
        }
    }

    /// Decides the first so many of these connections.
    fn decide_group<S: Alter>(
        &self,
        records: &mut Records<S>,
        limits: &Limits,
        most: PerConnection,
        connections: &[Vec<u8>],
    ) -> Result<Group, AllocError>
        ensures inside { IfOk result (λ group.
            vec_len group.outputs ≤ length connections.now) }
        ensures decided { Works (state S.Store records.old) →
            HasCleanDisk (state S.Store records.new) → IfOk result (λ group.
            IsGroup (given_rules self.now) limits.now most.number
            (stored (state S.Store records.old))
            (map vec_items (take (vec_len group.outputs) connections.now))
            (map vec_items group.outputs.items) group.changes.items) }
        ensures open { HasCleanDisk (state S.Store records.new) → IfOk result (λ group.
            0 < vec_len group.outputs → IsTrue (state S.Store records.old).is_open) }
        ensures some { IfOk result (λ group.
            AllByRecursion ChangesSomething group.changes.items) }
        ensures stays { LivesStay (state S.Store records.old) (state S.Store records.new) }
    {
        records.lives_are_whole();
        let mut group = Group {
            outputs: Vec::with_capacity(self.alloc, connections.len())?,
            changes: Vec::new(self.alloc),
        };
        for connection in connections {
            if !self.join(records, limits, most, connection, &mut group) {
                return Ok(group);
            }
        }
        Ok(group)
    }

    /// Serves the first so many of these connections, on each of which one request is answered, and
    /// makes all of their changes in one transaction. Otherwise the lives stay, and so many are to
    /// be served one after the other.
    pub(crate) fn serve_group<S: Alter>(
        &self,
        records: &mut Records<S>,
        limits: &Limits,
        most: PerConnection,
        connections: &[Vec<u8>],
    ) -> Result<Vec<Vec<u8>>, usize>
        requires { 0 < length connections.now }
        ensures some { MatchResult result (λ outputs. 0 < vec_len outputs) (λ count. 0 < count) }
        ensures inside { MatchResult result
            (λ outputs. vec_len outputs ≤ length connections.now)
            (λ count. count ≤ length connections.now) }
        ensures served { IfOk result (λ outputs. ServesEach S.Store (capped (given_rules self.now))
            limits.now most.number (map vec_items (take (vec_len outputs) connections.now))
            (map vec_items outputs.items) records.old records.new) }
        ensures undone { Works (state S.Store records.new) → OnErr result
            (stored (state S.Store records.new) ≡ stored (state S.Store records.old)) }
        ensures worked { Worked (state S.Store records.old) (state S.Store records.new) }
        ensures crash { IfErr result (λ count. Works (state S.Store records.old) →
            Survives (state S.Store records.old) (state S.Store records.new)
            (HasAll (given_rules self.now) limits.now most.number (state S.Store records.old)
            (map vec_items (take count connections.now)))) }
    {
        records.lives_are_whole();
        let Ok(Group { outputs, changes }) = self.decide_group(records, limits, most, connections)
        else {
            return Err(1);
        };
        let count = outputs.len();
        if count == 0 {
            return Err(1);
        }
        match make_all(records, &changes) {
            Ok(()) => Ok(outputs),
            Err(_) => Err(count),
        }
    }
}
