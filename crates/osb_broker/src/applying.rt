//! Makes the change of an answer that is ready.

ghost use Rattle.std.specs.Prelude.{◌≤◌, ◌+◌, ◌≢◌, length, None, Some, OnOk, OnErr};
ghost use Rattle.sqlite.specs.Held.{state};
ghost use Rattle.osb_frames.specs.Writers.{WritesNothing};
ghost use Rattle.osb_replies.specs.Parts.{parts};
ghost use Rattle.osb_replies.specs.Text.{reply_text};
ghost use Rattle.osb_statements.specs.Steps.{stored};
ghost use Rattle.osb_broker.specs.BrokerState.{Works};
ghost use Rattle.osb_broker.specs.Prepared.{IsApplicable};
ghost use Rattle.osb_broker.specs.Inside.{AppliesPending};

use crate::refused::Refused;
use crate::rooms::{Room, make_room};
use osb_records::{LifeChange, Records};
use osb_replies::Reply;
use sqlite::Alter;

/// Makes a change to the life of an instance.
fn commit<S: Alter>(records: &mut Records<S>, pending: &LifeChange) -> Result<(), Refused>
    requires { Works (state S.Store records.old) →
        IsApplicable (Some pending.now) (stored (state S.Store records.old)) }
    ensures { AppliesPending S.Store (Some pending.now) records.old records.new result }
{
    records.commit(pending.instance.as_str(), &pending.change)?;
    Ok(())
}

/// Makes the change that is pending. Where the records refuse it, the lives stay.
pub(crate) fn apply_pending<S: Alter>(
    records: &mut Records<S>,
    pending: &Option<LifeChange>,
) -> Result<(), Refused>
    requires { Works (state S.Store records.old) →
        IsApplicable pending.now (stored (state S.Store records.old)) }
    ensures applies { AppliesPending S.Store pending.now records.old records.new result }
    ensures some { OnErr result (pending.now ≢ None) }
{
    match pending {
        Some(pending) => commit(records, pending),
        None => Ok(()),
    }
}

/// Makes the change that is pending, once there is room for the reply and `spare` bytes.
pub(crate) fn apply_pending_within<S: Alter, W: Room>(
    records: &mut Records<S>,
    pending: &Option<LifeChange>,
    reply: &Reply<'_>,
    room: &mut W,
    spare: usize,
) -> Result<(), Refused>
    requires { Works (state S.Store records.old) →
        IsApplicable pending.now (stored (state S.Store records.old)) }
    ensures applies { AppliesPending S.Store pending.now records.old records.new result }
    ensures room { OnOk result (length (reply_text (parts reply.now)) + spare ≤ W.room room.new) }
    ensures spare { OnErr result (spare ≤ W.room room.old → spare ≤ W.room room.new) }
    ensures unwritten { WritesNothing W.Sink room.old room.new }
{
    make_room(room, reply, spare)?;
    apply_pending(records, pending)
}
