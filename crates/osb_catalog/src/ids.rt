//! The ids of services and plans, and whether one of them is there twice.

ghost use Rattle.std.specs.Prelude.{◌≡◌, ◌++◌, ℕ, List, IfOk, OnOk};
ghost use Rattle.serde_json.specs.View.{view, items_view};
ghost use Rattle.osb_catalog.specs.Ids.{has_double, is_among, ids_of, plan_ids, has_double_id};
ghost use Rattle.osb_catalog.specs.IdSet.{has_id, texts};

use crate::field::Field;
use crate::member::{plans_of, services_of, text_at};
use serde_json::Value;
use std::alloc::{AllocError, Global};
use std::collections::BTreeSet;

/// Whether two services, or two plans of the catalog, have one id.
pub(crate) fn has_double_id(alloc: Global, file: &Value) -> Result<bool, AllocError>
    ensures { IfOk result (λ b. b ≡ has_double_id (view file.now)) }
{
    let service_ids = service_ids(alloc, services_of(file))?;
    if has_double(alloc, service_ids.as_slice())? {
        return Ok(true);
    }
    let plan_ids = plan_ids(alloc, services_of(file))?;
    has_double(alloc, plan_ids.as_slice())
}

pub(crate) fn service_ids(alloc: Global, services: &[Value]) -> Result<Vec<&str>, AllocError>
    ensures { IfOk result (λ ids. texts ids.items ≡ ids_of (items_view services.now)) }
{
    let mut ids = Vec::new(alloc);
    push_ids(&mut ids, services)?;
    Ok(ids)
}

/// The ids of the plans of all services.
pub(crate) fn plan_ids(alloc: Global, services: &[Value]) -> Result<Vec<&str>, AllocError>
    ensures { IfOk result (λ ids. texts ids.items ≡ plan_ids (items_view services.now)) }
{
    let mut ids = Vec::new(alloc);
    for service in services {
        push_ids(&mut ids, plans_of(service))?;
    }
    Ok(ids)
}

#[tactic(auto, using(crate::proofs::IdLemmas::texts_push))]
fn push_ids<'a>(ids: &mut Vec<&'a str>, items: &'a [Value]) -> Result<(), AllocError>
    ensures { OnOk result (texts ids.new.items ≡ texts ids.old.items ++ ids_of (items_view items.now)) }
{
    for item in items {
        ids.push(text_at(item, Field::Id))?;
    }
    Ok(())
}

/// Whether some id is there twice.
fn has_double(alloc: Global, ids: &[&str]) -> Result<bool, AllocError>
    ensures { IfOk result (λ b. b ≡ has_double (texts ids.now)) }
{
    let mut seen = BTreeSet::new(alloc);
    for id in ids {
        if !seen.insert(*id)? {
            return Ok(true);
        }
    }
    Ok(false)
}

/// The ids, to look them up.
pub(crate) fn id_set<'a>(alloc: Global, ids: &[&'a str]) -> Result<BTreeSet<&'a str>, AllocError>
    ensures { IfOk result (λ set. (id : List ℕ) → has_id set id ≡ is_among id (texts ids.now)) }
{
    let mut set = BTreeSet::new(alloc);
    for id in ids {
        set.insert(*id)?;
    }
    Ok(set)
}
