//! The contexts that a migration inserts, inside a transaction.

ghost use Rattle.std.specs.Prelude.{◌++◌, IsTrue};
ghost use Rattle.sqlite.specs.State.{HasCleanDisk};
ghost use Rattle.osb_joined.specs.Contexts.{AreRising};
ghost use Rattle.osb_contexts.specs.Steps.{contexts, ShowsContexts, ContextSteps};
ghost use Rattle.osb_contexts.specs.Reads.{behind, StaysInside, MayDo};

use crate::contexts::insert_context;
use osb_joined::ContextEntry;
use sqlite::{Alter, Error, Transaction};

/// Inserts these contexts, whose keys rise behind those that are there.
pub fn insert_contexts<S: Alter>(
    tx: &mut Transaction<'_, S>,
    entries: &[ContextEntry],
) -> Result<(), Error>
    requires tables { ShowsContexts (behind S.Store tx.old) }
    requires rising { HasCleanDisk (behind S.Store tx.old) →
        IsTrue (behind S.Store tx.old).is_open →
        AreRising (contexts (behind S.Store tx.old) ++ entries.now) }
    ensures ok { MayDo S.Store tx.old tx.new result (λ old new.
        ContextSteps old new (contexts old ++ entries.now)) }
    ensures inside { StaysInside S.Store tx.old tx.new }
{
    for entry in entries {
        insert_context(
            tx,
            entry.instance.as_str(),
            entry.number,
            entry.context.as_str(),
        )?;
    }
    Ok(())
}
