//! The answer table: each kind of ask is handed to the module that has its rules.

ghost use Rattle.std.specs.Prelude.{◌≡◌, ◌≢◌, IfOk, OnErr};
ghost use Rattle.osb_asks.specs.declared.ask.Ask.TheVariants.{Catalog};
ghost use Rattle.osb_catalog.specs.Rules.{rules_of};
ghost use Rattle.osb_orders.specs.ViewData.{data_in, view_of};
ghost use Rattle.osb_orders.specs.Lives.{Lives};
ghost use Rattle.osb_replies.specs.declared.status.Status.TheVariants.{Ok};
ghost use Rattle.osb_machine.specs.Decision.{says};
ghost use Rattle.osb_machine.specs.Answer.{answer};
ghost use Rattle.osb_machine.specs.Machine.{answer_to};
ghost use Rattle.osb_machine.specs.Steps.{decision};

use crate::answer_and_change::{Answer, AnswerAndChange};
use crate::bind::bind;
use crate::deprovision::deprovision;
use crate::fetch::fetch;
use crate::fetch_binding::fetch_binding;
use crate::listed::orders;
use crate::polls::poll;
use crate::provision::provision;
use crate::report::report;
use crate::unbind::unbind;
use crate::update::update;
use osb_asks::Ask;
use osb_catalog::Settings;
use osb_orders::{Change, OrderKind, View};
use osb_replies::{Body, Status};
use std::alloc::{AllocError, Global};

/// The answer to an ask and what it changes, from what the ask needs to know of the lives.
///
/// Nothing is asked of the view or the settings: where they don't fit each other, the table still
/// has an answer. An error comes only where memory is refused.
pub fn decide<'a>(
    alloc: Global,
    settings: &'a Settings,
    view: &View,
    ask: &Ask,
) -> Result<AnswerAndChange<'a>, AllocError>
    // The answer table, by what the view shows.
    ensures table { IfOk result (λ step. decision step ≡ answer (rules_of settings.now) (data_in view.now) ask.now) }
    // So it is the machine's step from all lives that have this view.
    ensures machine { (lives : Lives) → data_in view.now ≡ view_of lives ask.now →
        IfOk result (λ step. decision step ≡ answer_to (rules_of settings.now) lives ask.now) }
    // The catalog needs no memory.
    ensures sure { OnErr result (ask.now ≢ Catalog) }
{
    by_table(alloc, settings, view, ask)
}

fn by_table<'a>(
    alloc: Global,
    settings: &'a Settings,
    view: &View,
    ask: &Ask,
) -> Result<AnswerAndChange<'a>, AllocError>
    ensures table { IfOk result (λ step. decision step ≡ answer (rules_of settings.now) (data_in view.now) ask.now) }
    ensures sure { OnErr result (ask.now ≢ Catalog) }
{
    match ask {
        Ask::Catalog => Ok(catalog(settings)),
        Ask::Provision(ask) => provision(alloc, settings, view, ask),
        Ask::Fetch(_) => fetch(alloc, &view.standing),
        Ask::Update(ask) => update(alloc, settings, view, ask),
        Ask::Deprovision(ask) => deprovision(alloc, settings, view, ask),
        Ask::InstanceOp(ask) => poll(alloc, OrderKind::Delete, &ask.operation, view),
        Ask::Bind(ask) => bind(alloc, settings, view, ask),
        Ask::FetchBinding(_) => fetch_binding(alloc, &view.binding),
        Ask::Unbind(ask) => unbind(alloc, settings, view, ask),
        Ask::BindingOp(ask) => poll(alloc, OrderKind::Unbind, &ask.operation, view),
        Ask::Orders(_) => orders(alloc, &view.listing),
        Ask::Report(ask) => report(alloc, &view.named, ask),
    }
}

/// Lends the catalog's text: it takes no memory.
fn catalog<'a>(settings: &'a Settings) -> AnswerAndChange<'a>
    ensures { decision result ≡ says Ok (rules_of settings.now).catalog }
{
    AnswerAndChange {
        answer: Answer {
            status: Status::Ok,
            body: Body::Lent(settings.catalog_text()),
        },
        change: Change::Nothing,
    }
}
