//! Reads the ask of a request: who is let in by which route, and then what that route asks.

ghost use Rattle.std.specs.Prelude.{◌≡◌, true, Ok, IfOk};
ghost use Rattle.osb_frames.specs.Steps.{message};
ghost use Rattle.osb_catalog.specs.Rules.{rules_of};
ghost use Rattle.osb_asks.specs.Asks as spec;
ghost use Rattle.osb_asks.specs.Reads.{Meets};
ghost use Rattle.osb_asks.specs.Routes as routes;
ghost use Rattle.osb_asks.specs.Seen.{seen_route};
ghost use Rattle.osb_asks.specs.ValidTexts.{AskHasValidTexts, IsOffered};

use crate::admission::admit;
use crate::ask::Ask;
use crate::ask_fault::AskFault;
use crate::backend::{orders, report};
use crate::bindings::{bind, binding_op, fetch_binding, unbind};
use crate::instances::{deprovision, fetch, instance_op, provision, update};
use crate::route::Route;
use crate::target::query_of;
use osb_catalog::Settings;
use osb_frames::Request;
use std::alloc::Global;

/// What is asked by that route.
fn ask_at(
    alloc: Global,
    route: Route<'_>,
    query: &[u8],
    body: &[u8],
    settings: &Settings,
) -> Result<Ask, AskFault>
    ensures reads { Meets result (spec.ask_at (rules_of settings.now) query.now body.now (seen_route route.entry)) }
    ensures catalog { seen_route route.entry ≡ routes.Catalog → result ≡ Ok Ask.Catalog }
{
    match route {
        Route::Catalog => Ok(Ask::Catalog),
        Route::Provision(id) => provision(alloc, settings, id, query, body),
        Route::Fetch(id) => fetch(alloc, id),
        Route::Update(id) => update(alloc, settings, id, query, body),
        Route::Deprovision(id) => deprovision(alloc, settings, id, query),
        Route::InstanceOp(id) => instance_op(alloc, id, query),
        Route::Bind(id, binding) => bind(alloc, settings, id, binding, query, body),
        Route::FetchBinding(id, binding) => fetch_binding(alloc, id, binding),
        Route::Unbind(id, binding) => unbind(alloc, settings, id, binding, query),
        Route::BindingOp(id, binding) => binding_op(alloc, id, binding, query),
        Route::Orders => orders(alloc, query),
        Route::Report(id, number) => report(alloc, id, number, body),
    }
}

/// What a request asks, or its first fault, in the order of `AskFault`.
///
/// Memory may take the place of whatever is found from the ids on; the faults before, and the ask
/// for the catalog, take none.
#[tactic(auto, using(crate::proofs::AskLemmas::early_is_catalog))]
pub fn read_ask(alloc: Global, request: &Request<'_>, settings: &Settings) -> Result<Ask, AskFault>
    ensures reads { Meets result (spec.ask_of (rules_of settings.now) (message request.now)) }
    ensures early { let found = spec.ask_of (rules_of settings.now) (message request.now) in
        spec.is_early found ≡ true → result ≡ found }
    ensures valid_texts { IfOk result AskHasValidTexts }
    ensures offered { IfOk result (IsOffered (rules_of settings.now)) }
{
    let route = admit(request, settings)?;
    ask_at(
        alloc,
        route,
        query_of(request.target),
        request.body,
        settings,
    )
}
