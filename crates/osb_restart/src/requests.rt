//! A request, a stop, and the next run.

ghost use Rattle.std.specs.Prelude.{◌≡◌, ◌≢◌, ◌⊎◌, ℕ, List, IfSome};
ghost use Rattle.sqlite.specs.Files.{file_state, over_files};
ghost use Rattle.osb_frames.specs.declared.limits.Limits.{Limits};
ghost use Rattle.osb_frames.specs.Cuts.{IsFront, whole};
ghost use Rattle.osb_frames.specs.Steps.{message};
ghost use Rattle.osb_replies.specs.declared.status.Status.TheVariants.{InternalServerError};
ghost use Rattle.osb_statements.specs.Steps.{stored};
ghost use Rattle.osb_broker.specs.ActsOnce.{IsAttempt};
ghost use Rattle.osb_broker.specs.BrokerState.{Works, lives_of, rules_in, store_of};
ghost use Rattle.osb_broker.specs.Steps.{lives_after};

use crate::restart::restarted;
use osb_broker::{Broker, histories};
use osb_frames::Request;
use osb_records::Records;
use osb_replies::Status;
use sqlite::{FileStore, Options};
use sqlite_disk::Crash;
use std::alloc::Global;

/// A request, a stop and the next run: the status that the request was answered with, and the records
/// that the next run takes over. Over a disk that stops at some call, the stop is at any moment of
/// the request. What was answered with anything but 500 is kept. So bytes with that request in front
/// are an attempt of a client, and what holds of histories of attempts ([`histories`]) holds of it.
pub fn handled_and_restarted<D: Crash + Drop>(
    alloc: Global,
    mut broker: Broker<'_, FileStore<D>>,
    request: &Request<'_>,
    last: bool,
    options: Options,
) -> Option<(Status, Records<FileStore<D>>)>
    ensures either { IfSome result (λ run. Works (store_of over_files broker.entry) → Works (file_state run.1)
        → ∥ (stored (file_state run.1) ≡ lives_of over_files broker.entry) ⊎ (stored (file_state run.1) ≡ lives_after (rules_in broker.entry) (lives_of over_files broker.entry) (message request.now)) ∥₁) }
    ensures answered { IfSome result (λ run. run.0 ≢ InternalServerError → Works (store_of over_files broker.entry) → Works (file_state run.1)
        → stored (file_state run.1) ≡ lives_after (rules_in broker.entry) (lives_of over_files broker.entry) (message request.now)) }
    ensures attempt { IfSome result (λ run. Works (store_of over_files broker.entry) → Works (file_state run.1)
        → (limits : Limits) (bytes : List ℕ) (n : ℕ) → IsFront limits bytes (whole (message request.now) n)
        → ∥ IsAttempt (rules_in broker.entry) limits (lives_of over_files broker.entry) bytes run.0 (stored (file_state run.1)) ∥₁) }
{
    histories();
    broker.lives_are_whole();
    let status = broker.handle(request, last).status;
    let again = restarted(alloc, broker.into_records(), options)?;
    Some((status, again))
}
