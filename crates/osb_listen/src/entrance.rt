//! Where clients come from, and what was said with each.

ghost use Rattle.std.specs.Prelude.{◌≡◌, ◌<◌, ◌++◌, ℕ, List, [], ◌∷◌, true, false, IfOk, IfErr, IfSome, OnOk, IsOkUnless};
ghost use Rattle.osb_broker.specs.Exchanges.{Exchange};
ghost use Rattle.osb_listen.specs.declared.fault.ListenFault.TheVariants.{CannotListen};
ghost use Rattle.osb_listen.specs.Exchanges.{exchange_of, MissesFile};
ghost use Rattle.osb_listen.specs.Listen.{IsAddress, IsOfServing};

use crate::fault::ListenFault;
use crate::listen::ListenOptions;
use osb_file::WatchedFile;
use osb_frames::{Sink, Source};

/// A client that was taken, so that its next request is answered.
#[derive(Drop)]
pub struct TakenClient<I, O> {
    /// Which client it is.
    pub number: u64,
    /// How many of its requests were answered before.
    pub before: u32,
    /// What it sends, of which nothing was read yet since its last answer.
    pub input: I,
    /// What it is sent.
    pub output: O,
}

/// Where clients come from. Nothing else makes a client, and nothing else lets one go.
///
/// Its journal has each exchange: a request of a client with its answer, or the client's end. No
/// clause says which client is taken next, or that one who connected first is taken first.
pub trait Entrance {
    /// What a client sends.
    type In: Source;

    /// What a client is sent.
    type Out: Sink;

    /// What was said with clients, the first exchange first.
    ghost journal: { Self → List Exchange };

    /// How often the database file, or its log, was missed.
    ghost missed: { Self → ℕ };

    /// Begins to listen at an address, with limits on clients.
    fn listen(&mut self, place: &ListenOptions<'_>) -> Result<(), ListenFault>
        ensures journal { journal self.new ≡ journal self.old }
        ensures missed { missed self.new ≡ missed self.old }
        ensures address { OnOk result (IsAddress place.now.address.now) }
        ensures fault { IsOkUnless result CannotListen };

    /// Takes a client that is ready, of whom nothing was read yet since its last answer, as long as
    /// the database file and its log are there. Another of so many requests may come of it.
    fn take(
        &mut self,
        file: &WatchedFile<'_>,
        per_connection: u32,
    ) -> Result<TakenClient<Self::In, Self::Out>, ListenFault>
        requires { 0 < per_connection }
        ensures journal { journal self.new ≡ journal self.old }
        ensures missed { MissesFile result (missed self.old) (missed self.new) }
        ensures before { IfOk result (λ client. client.before < per_connection) }
        ensures calls { IfOk result (λ client. Self.In.calls client.input ≡ []) }
        ensures sent { IfOk result (λ client. Self.Out.taken client.output ≡ []) }
        ensures failed { IfOk result (λ client. Self.Out.failed_or_empty client.output ≡ 0) }
        ensures fault { IfErr result IsOfServing };

    /// Takes another client that is ready in the same way, where there is one now. It waits for
    /// nobody.
    fn take_ready(&mut self, per_connection: u32) -> Option<TakenClient<Self::In, Self::Out>>
        requires { 0 < per_connection }
        ensures journal { journal self.new ≡ journal self.old }
        ensures missed { missed self.new ≡ missed self.old }
        ensures before { IfSome result (λ client. client.before < per_connection) }
        ensures calls { IfSome result (λ client. Self.In.calls client.input ≡ []) }
        ensures sent { IfSome result (λ client. Self.Out.taken client.output ≡ []) }
        ensures failed { IfSome result (λ client. Self.Out.failed_or_empty client.output ≡ 0) };

    /// Has a client that was answered stay: its next request may come.
    fn stay(&mut self, client: TakenClient<Self::In, Self::Out>)
        ensures missed { missed self.new ≡ missed self.old }
        ensures journal { journal self.new ≡ journal self.old ++ exchange_of
            client.number client.before true (Self.In.calls client.input)
            (Self.Out.taken client.output) (Self.Out.failed_or_empty client.output) false ∷ [] };

    /// Lets a client go. One that met a framing fault may be sending still.
    fn leave(&mut self, client: TakenClient<Self::In, Self::Out>, met_fault: bool)
        ensures missed { missed self.new ≡ missed self.old }
        ensures journal { journal self.new ≡ journal self.old ++ exchange_of
            client.number client.before false (Self.In.calls client.input)
            (Self.Out.taken client.output) (Self.Out.failed_or_empty client.output)
            met_fault ∷ [] };
}
