//! A catalog that lacks a plan in use.

use osb_broker::{Broker, NewFault, first_lacking};
use osb_catalog::Settings;
use osb_records::{Records, open_memory};
use osb_text::Text;
use sqlite::MemStore;
use std::alloc::{AllocError, Global};
use std::test::Fail;
use tests_support::asks::{ASYNC, POLL, PUT_LATER};
use tests_support::catalogs::built_in;
use tests_support::exchange::Exchange;
use tests_support::replies::{ACCEPTED, OK};
use tests_support::serving::after;

/// The built-in settings with only the plan `p-sync`.
const SYNC_ALONE: &str = r#"{"platform":{"user":"platform","password":"secret"},
 "backend":{"user":"backend","password":"worker"},
 "catalog":{"services":[{"name":"store","id":"svc","description":"Key store",
  "bindable":true,"bindings_retrievable":true,"plan_updateable":true,"plans":[
   {"name":"small","id":"p-sync","description":"At once"}]}]},
 "modes":{"p-sync":{"credentials":{"uri":"mem:1"}}}}"#;

const CREATION: Exchange = (PUT_LATER, ASYNC, ACCEPTED, r#"{"operation":"create-1"}"#);

const RUNNING: Exchange = (POLL, "", OK, r#"{"state":"in progress"}"#);

/// Why there is no broker over these records, which come back.
fn fault_over(
    alloc: Global,
    settings: &Settings,
    records: Records<MemStore>,
) -> Result<(NewFault, Records<MemStore>), Fail> {
    match Broker::new(alloc, settings, records, 1) {
        Ok(broker) => {
            drop(broker);
            Err("a broker")?
        }
        Err(fault) => Ok(fault),
    }
}

fn is_in_use(fault: &NewFault, service: &str, plan: &str) -> bool {
    match fault {
        NewFault::PlanInUse(lacking, of) => lacking.as_str() == service && of.as_str() == plan,
        NewFault::Refused => false,
    }
}

/// The same records, where these settings lack the plan that is in use.
fn refused_over(
    alloc: Global,
    settings: &Settings,
    records: Records<MemStore>,
) -> Result<Records<MemStore>, Fail> {
    let (fault, records) = fault_over(alloc, settings, records)?;
    let is_lacking = is_in_use(&fault, "svc", "p-async");
    drop(fault);
    if is_lacking {
        Ok(records)
    } else {
        Err("another fault")?
    }
}

/// The same where the settings have only `p-sync`.
fn refused(alloc: Global, records: Records<MemStore>) -> Result<Records<MemStore>, Fail> {
    let fewer = Settings::read(alloc, SYNC_ALONE.as_bytes())?;
    let records = refused_over(alloc, &fewer, records);
    drop(fewer);
    records
}

/// The records after both, which are as they were for a catalog that has the plan.
fn stay(alloc: Global, settings: &Settings) -> Result<Records<MemStore>, Fail> {
    let created = after(alloc, settings, open_memory(alloc)?, CREATION)?;
    let records = refused(alloc, created)?;
    after(alloc, settings, records, RUNNING)
}

#[test]
fn plan_in_use(rt: HostRuntime) -> Result<(), Fail> {
    let settings = built_in(rt.alloc())?;
    let records = stay(rt.alloc(), &settings);
    drop(settings);
    drop(records?);
    Ok(())
}

fn text_of(alloc: Global, text: &str) -> Result<Text, AllocError> {
    Ok(Text::from(String::from_str(alloc, text)?))
}

/// These plans of the service `svc`.
fn pairs_of(alloc: Global, plans: &[&str]) -> Result<Vec<(Text, Text)>, AllocError> {
    let mut pairs = Vec::new(alloc);
    for plan in plans {
        pairs.push((text_of(alloc, "svc")?, text_of(alloc, plan)?))?;
    }
    Ok(pairs)
}

/// Whether this is the plan which the settings lack of these plans.
fn lacks(
    alloc: Global,
    settings: &Settings,
    plans: &[&str],
    expected: Option<&str>,
) -> Result<bool, AllocError> {
    let lacking = first_lacking(settings, pairs_of(alloc, plans)?);
    Ok(match (lacking, expected) {
        (Some((_, plan)), Some(other)) => plan.as_str() == other,
        (None, None) => true,
        _ => false,
    })
}

#[test]
fn first_plan_that_lacks(rt: HostRuntime) -> Result<(), Fail> {
    let alloc = rt.alloc();
    let fewer = Settings::read(alloc, SYNC_ALONE.as_bytes())?;
    assert!(rt; lacks(alloc, &fewer, &["p-sync"], None)?);
    assert!(rt;
        lacks(
            alloc,
            &fewer,
            &["p-sync", "p-async", "other"],
            Some("p-async")
        )?
    );
    assert!(rt; lacks(alloc, &fewer, &[], None)?);
    Ok(())
}
