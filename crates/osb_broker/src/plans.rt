//! The plans in use, held against the catalog.

ghost use Rattle.std.specs.Prelude.{◌≡◌, None, IsTrue, IfErr, IfSome, OnOk};
ghost use Rattle.sqlite.specs.Held.{state};
ghost use Rattle.sqlite.specs.State.{HasCleanDisk, Survives};
ghost use Rattle.osb_catalog.specs.Rules.{rules_of};
ghost use Rattle.osb_audit.specs.Plans.{plans_in_use};
ghost use Rattle.osb_statements.specs.Steps.{stored};
ghost use Rattle.osb_broker.specs.Plans.{first_lacking, offers, NamesLacking, OffersInUse, ReportsLacking};

use crate::fault::NewFault;
use osb_catalog::Settings;
use osb_records::Records;
use osb_text::Text;
use sqlite::Alter;
use std::alloc::Global;

/// Whether the catalog has the plan of the service.
fn offers(settings: &Settings, pair: &(Text, Text)) -> bool
    ensures { result ≡ offers (rules_of settings.now) pair.now }
{
    settings.plan(pair.0.as_str(), pair.1.as_str()).is_some()
}

/// The first of these pairs of service and plan that the catalog lacks. Over a database that has them in
/// use a start ends with that one.
pub fn first_lacking(settings: &Settings, plans: Vec<(Text, Text)>) -> Option<(Text, Text)>
    ensures first { result ≡ first_lacking (rules_of settings.now) plans.items }
    ensures lacks { IfSome result (λ pair. (rules_of settings.now).plan pair.0 pair.1 ≡ None) }
{
    plans.into_iter().find(|pair| !offers(settings, pair))
}

/// Nothing where the catalog has all plans that are in use, otherwise a fault that names the first
/// that it lacks.
pub(crate) fn find_plans<S: Alter>(
    records: &mut Records<S>,
    alloc: Global,
    settings: &Settings,
) -> Result<(), NewFault>
    ensures ok { HasCleanDisk (state S.Store records.new) →
        OnOk result (OffersInUse (rules_of settings.now) (stored (state S.Store records.old))) }
    ensures err { HasCleanDisk (state S.Store records.new) →
        IfErr result (λ fault. ReportsLacking fault (first_lacking (rules_of settings.now)
        (plans_in_use (stored (state S.Store records.old))))) }
    ensures lacks { IfErr result (NamesLacking (rules_of settings.now)) }
    ensures same { HasCleanDisk (state S.Store records.new) →
        IsTrue (state S.Store records.new).is_open →
        stored (state S.Store records.new) ≡ stored (state S.Store records.old) }
    ensures was_open { HasCleanDisk (state S.Store records.new) →
        IsTrue (state S.Store records.new).is_open → IsTrue (state S.Store records.old).is_open }
    ensures crash { Survives (state S.Store records.old) (state S.Store records.new) (λ _. ⊥) }
{
    let Ok(plans) = records.plans_in_use(alloc) else {
        return Err(NewFault::Refused);
    };
    match first_lacking(settings, plans) {
        Some((service, plan)) => Err(NewFault::PlanInUse(service, plan)),
        None => Ok(()),
    }
}
