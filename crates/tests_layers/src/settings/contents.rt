use super::{Case, changed, changed_by};
use osb_catalog::{BUILT_IN, Settings};
use osb_text::Text;
use std::alloc::{AllocError, Global};
use std::process::Abort;
use std::test::Fail;

const BUILT_IN_CATALOG: &str =
    r#"{"services":[{"bindable":true,"bindings_retrievable":true,"description":"Key store","id":"svc","name":"store","plan_updateable":true,"plans":[{"description":"At once","id":"p-sync","name":"small"},{"description":"Later","id":"p-async","maintenance_info":{"version":"1.2.0"},"name":"large"}]}]}"#;

/// Whether that is the only token.
fn is_token(tokens: &[Text], expected: &str) -> bool {
    match tokens {
        [token] => token.as_str() == expected,
        _ => false,
    }
}

/// Whether these are the tokens: that of the login, and behind it that of `also`.
fn are_tokens(tokens: &[Text], expected: &str, also: &str) -> bool {
    match tokens {
        [first, second] => first.as_str() == expected && second.as_str() == also,
        _ => false,
    }
}

fn is_built_in(settings: &Settings) -> bool {
    settings.catalog_text().len() == 293
        && settings.catalog_text() == BUILT_IN_CATALOG.as_bytes()
        && is_token(settings.platform_tokens(), "cGxhdGZvcm06c2VjcmV0")
        && is_token(settings.backend_tokens(), "YmFja2VuZDp3b3JrZXI=")
        && settings.counts() == (1, 2)
}

#[test]
fn built_in_settings(rt: HostRuntime) -> Result<(), Fail> {
    let settings = Settings::read(rt.alloc(), BUILT_IN.as_bytes())?;
    let right = is_built_in(&settings);
    drop(settings);
    assert!(rt; right);
    Ok(())
}

fn has_its_service_alone(settings: &Settings) -> bool {
    settings.service("svc")
        && !settings.service("p-sync")
        && !settings.service("")
        && !settings.context_updates("svc")
        && !settings.context_updates("other")
}

#[test]
fn services_are_found(rt: HostRuntime) -> Result<(), Fail> {
    let settings = Settings::read(rt.alloc(), BUILT_IN.as_bytes())?;
    let right = has_its_service_alone(&settings);
    drop(settings);
    assert!(rt; right);
    Ok(())
}

/// The facts of the plan `p-async` of `svc`, then the modes of `p-async` and of `p-sync`, and the
/// limit of orders.
fn told(alloc: Global, settings: &Settings) -> Result<String, Fail> {
    let facts = settings.plan("svc", "p-async").ok_or("a plan")?;
    let mode = settings.mode("p-async").ok_or("a mode")?;
    let other = settings.mode("p-sync").ok_or("a mode")?;
    Ok(format!(in alloc;
        "{} {} {}; {:?} {:?} {}; {}; {}",
        facts.bindable,
        facts.plan_updateable,
        facts.version.as_str(),
        mode.instances,
        mode.bindings,
        mode.credentials.as_str(),
        other.credentials.as_str(),
        settings.order_limit()
    )?)
}

fn told_of(alloc: Global, file: &str) -> Result<String, Fail> {
    let settings = Settings::read(alloc, file.as_bytes())?;
    let told = told(alloc, &settings);
    drop(settings);
    told
}

/// What is reported of the built-in settings with `to` at the first place of `from`.
fn told_with(alloc: Global, from: &str, to: &str) -> Result<String, Fail> {
    let file = changed(alloc, BUILT_IN, from, to)?;
    told_of(alloc, file.as_str())
}

fn tells_contents(rt: &(impl Abort + AllocGlobal), cases: &[Case]) -> Result<(), Fail> {
    for (from, to, contents) in cases {
        let told = told_with(rt.alloc(), *from, *to)?;
        assert!(rt; told.as_str() == *contents, "{to}: {told}");
    }
    Ok(())
}

static CONTENTS: [Case; 17] = [
    (
        r#""bindable":true"#,
        r#""bindable":true"#,
        r#"true true 1.2.0; Asynchronous Asynchronous {}; {"uri":"mem:1"}; 1000000"#,
    ),
    (
        r#""id":"p-async""#,
        r#""id":"p-async","bindable":false"#,
        r#"false true 1.2.0; Asynchronous Asynchronous {}; {"uri":"mem:1"}; 1000000"#,
    ),
    (
        r#""id":"p-async""#,
        r#""id":"p-async","plan_updateable":false,"bindable":null"#,
        r#"true false 1.2.0; Asynchronous Asynchronous {}; {"uri":"mem:1"}; 1000000"#,
    ),
    (
        r#""bindable":true"#,
        r#""bindable":false"#,
        r#"false true 1.2.0; Asynchronous Asynchronous {}; {"uri":"mem:1"}; 1000000"#,
    ),
    (
        r#""plan_updateable":true,"#,
        "",
        r#"true false 1.2.0; Asynchronous Asynchronous {}; {"uri":"mem:1"}; 1000000"#,
    ),
    // The plan's word counts, also where it allows what its service doesn't.
    (
        r#""1.2.0"}}]"#,
        r#""1.2.0"},"bindable":true}],"bindable":false"#,
        r#"true true 1.2.0; Asynchronous Asynchronous {}; {"uri":"mem:1"}; 1000000"#,
    ),
    (
        r#""1.2.0"}}]"#,
        r#""1.2.0"},"plan_updateable":true}],"plan_updateable":false"#,
        r#"true true 1.2.0; Asynchronous Asynchronous {}; {"uri":"mem:1"}; 1000000"#,
    ),
    (
        r#","maintenance_info":{"version":"1.2.0"}"#,
        "",
        r#"true true ; Asynchronous Asynchronous {}; {"uri":"mem:1"}; 1000000"#,
    ),
    (
        r#""modes":"#,
        r#""unread":"#,
        "true true 1.2.0; Synchronous Synchronous {}; {}; 1000000",
    ),
    (
        r#""modes":"#,
        r#""modes":null,"unread":"#,
        "true true 1.2.0; Synchronous Synchronous {}; {}; 1000000",
    ),
    (
        r#""modes":"#,
        r#""modes":{"p-async":{}},"unread":"#,
        "true true 1.2.0; Synchronous Synchronous {}; {}; 1000000",
    ),
    (
        r#","bindings":"asynchronous""#,
        "",
        r#"true true 1.2.0; Asynchronous Synchronous {}; {"uri":"mem:1"}; 1000000"#,
    ),
    (
        r#""instances":"asynchronous","#,
        "",
        r#"true true 1.2.0; Synchronous Asynchronous {}; {"uri":"mem:1"}; 1000000"#,
    ),
    (
        r#"{"uri":"mem:1"}"#,
        r#"{ "b": 2, "a": [1, {"z": null}] }"#,
        r#"true true 1.2.0; Asynchronous Asynchronous {}; {"a":[1,{"z":null}],"b":2}; 1000000"#,
    ),
    (
        r#""catalog""#,
        r#""orders_per_instance":1,"catalog""#,
        r#"true true 1.2.0; Asynchronous Asynchronous {}; {"uri":"mem:1"}; 1"#,
    ),
    (
        r#""catalog""#,
        r#""orders_per_instance":1000000,"catalog""#,
        r#"true true 1.2.0; Asynchronous Asynchronous {}; {"uri":"mem:1"}; 1000000"#,
    ),
    (
        r#""catalog""#,
        r#""orders_per_instance":0,"orders_per_instance":7,"catalog""#,
        r#"true true 1.2.0; Asynchronous Asynchronous {}; {"uri":"mem:1"}; 7"#,
    ),
];

#[test]
fn contents(rt: HostRuntime) -> Result<(), Fail> {
    tells_contents(&rt, &CONTENTS)
}

const FULL_SERVICE: &str =
    r#""allow_context_updates":true,"instances_retrievable":false,"unread":[1],"requires":[],"binding_rotatable":false,"dashboard_client":null,"metadata":{"y":null,"x":[true]},"tags":["k\u0001","v"],"plans":["#;

const FULL_PLAN: &str =
    r#""schemas":null,"unread":{},"plan_updateable":false,"metadata":{},"maximum_polling_duration":18446744073709551615,"maintenance_info":{"version":"1.2.0-rc.1+b","unread":1,"description":""},"free":false,"binding_rotatable":false,"bindable":null"#;

const FULL_CATALOG: &str =
    r#"{"services":[{"allow_context_updates":true,"bindable":true,"bindings_retrievable":true,"description":"Key store","id":"svc","instances_retrievable":false,"metadata":{"x":[true],"y":null},"name":"store","plan_updateable":true,"plans":[{"bindable":false,"description":"At once","id":"p-sync","name":"small"},{"description":"Later","free":false,"id":"p-async","maintenance_info":{"description":"","version":"1.2.0-rc.1+b"},"maximum_polling_duration":18446744073709551615,"metadata":{},"name":"large","plan_updateable":false}],"tags":["k\u0001","v"]}]}"#;

static FULL: [(&str, &str); 3] = [
    (r#""plans":["#, FULL_SERVICE),
    (r#""maintenance_info":{"version":"1.2.0"}"#, FULL_PLAN),
    (r#""id":"p-sync""#, r#""id":"p-sync","bindable":false"#),
];

fn has_full_catalog(settings: &Settings) -> bool {
    settings.catalog_text() == FULL_CATALOG.as_bytes()
        && settings.context_updates("svc")
        && !settings.context_updates("p-sync")
}

/// The catalog shows the listed fields that the file gives, and no others.
#[test]
fn full_catalog(rt: HostRuntime) -> Result<(), Fail> {
    let file = changed_by(rt.alloc(), &FULL)?;
    let settings = Settings::read(rt.alloc(), file.as_bytes())?;
    let right = has_full_catalog(&settings);
    drop(settings);
    assert!(rt; right);
    Ok(())
}

const NO_SERVICE: &str =
    r#"{"platform":{"user":"p","password":":"},"backend":{"user":"b","password":"w"},"catalog":{"services":[]}}"#;

fn has_no_service(settings: &Settings) -> bool {
    settings.catalog_text() == r#"{"services":[]}"#.as_bytes()
        && settings.counts() == (0, 0)
        && is_token(settings.platform_tokens(), "cDo6")
}

#[test]
fn no_service(rt: HostRuntime) -> Result<(), Fail> {
    let settings = Settings::read(rt.alloc(), NO_SERVICE.as_bytes())?;
    let right = has_no_service(&settings);
    drop(settings);
    assert!(rt; right);
    Ok(())
}

const TWO_SERVICES: &str =
    r#""services":[{"id":"p-sync","name":"n","description":"d","bindable":false,"plans":[{"id":"svc","name":"n","description":"d"}]},"#;

fn has_two_services(settings: &Settings) -> bool {
    settings.counts() == (2, 3)
        && settings.plan("p-sync", "svc").is_some()
        && settings.plan("svc", "p-sync").is_some()
        && settings.plan("p-sync", "p-sync").is_none()
        && settings.plan("svc", "svc").is_none()
        && settings.mode("svc").is_some()
        && settings.mode("other").is_none()
}

/// A service and a plan may have one id.
#[test]
fn two_services(rt: HostRuntime) -> Result<(), Fail> {
    let file = changed(rt.alloc(), BUILT_IN, r#""services":["#, TWO_SERVICES)?;
    let settings = Settings::read(rt.alloc(), file.as_bytes())?;
    let right = has_two_services(&settings);
    drop(settings);
    assert!(rt; right);
    Ok(())
}

/// `start`, and that many plans after it.
fn many_plans_after(alloc: Global, start: &str, count: u32) -> Result<String, AllocError> {
    let mut plans = String::from_str(alloc, start)?;
    for i in 0..count {
        let plan = format!(in alloc; r#",{{"id":"plan-{i}","name":"n","description":"d"}}"#)?;
        plans.push_str(plan.as_str())?;
    }
    Ok(plans)
}

/// `start`, and the modes of that many plans after it.
fn many_modes_after(alloc: Global, start: &str, count: u32) -> Result<String, AllocError> {
    let mut modes = String::from_str(alloc, start)?;
    for i in 0..count {
        let mode = format!(in alloc; r#""plan-{i}":{{"bindings":"asynchronous"}},"#)?;
        modes.push_str(mode.as_str())?;
    }
    Ok(modes)
}

/// The built-in settings with that many more plans.
fn with_plans(alloc: Global, count: u32) -> Result<String, Fail> {
    let plans = many_plans_after(alloc, r#""description":"At once"}"#, count)?;
    changed(
        alloc,
        BUILT_IN,
        r#""description":"At once"}"#,
        plans.as_str(),
    )
}

/// The file with modes of that many plans.
fn with_modes(alloc: Global, file: &str, count: u32) -> Result<String, Fail> {
    let modes = many_modes_after(alloc, r#""modes":{"#, count)?;
    changed(alloc, file, r#""modes":{"#, modes.as_str())
}

/// The built-in settings with that many more plans, each with a mode.
fn large_file(alloc: Global, count: u32) -> Result<String, Fail> {
    let file = with_plans(alloc, count)?;
    with_modes(alloc, file.as_str(), count)
}

fn has_many_plans(settings: &Settings) -> bool {
    settings.counts() == (1, 20_002)
        && settings.plan("svc", "plan-19999").is_some()
        && settings.mode("plan-20000").is_none()
}

/// Were each plan looked for among all others, this would take minutes.
#[test]
fn many_plans(rt: HostRuntime) -> Result<(), Fail> {
    let file = large_file(rt.alloc(), 20_000)?;
    let settings = Settings::read(rt.alloc(), file.as_bytes())?;
    let right = has_many_plans(&settings);
    drop(settings);
    assert!(rt; right);
    Ok(())
}

/// The platform has two logins, and so has the backend. An `also` in an `also` is read past.
static ALSO: [(&str, &str); 2] = [
    (
        r#""password":"secret""#,
        r#""also":{"also":{"user":"u","password":"p"},"user":"platform","password":"new"},"password":"secret""#,
    ),
    (
        r#""password":"worker""#,
        r#""password":"worker","also":{"user":"other","password":":"}"#,
    ),
];

fn has_two_logins_a_door(settings: &Settings) -> bool {
    are_tokens(
        settings.platform_tokens(),
        "cGxhdGZvcm06c2VjcmV0",
        "cGxhdGZvcm06bmV3",
    ) && are_tokens(
        settings.backend_tokens(),
        "YmFja2VuZDp3b3JrZXI=",
        "b3RoZXI6Og==",
    )
}

#[test]
fn two_logins_a_door(rt: HostRuntime) -> Result<(), Fail> {
    let file = changed_by(rt.alloc(), &ALSO)?;
    let settings = Settings::read(rt.alloc(), file.as_bytes())?;
    let right = has_two_logins_a_door(&settings);
    drop(settings);
    assert!(rt; right);
    Ok(())
}

/// A null counts as absent, and outside of a login `also` is a name like any other.
static NO_ALSO: [(&str, &str); 2] = [
    (
        r#""password":"secret""#,
        r#""password":"secret","also":null"#,
    ),
    (
        r#""backend":"#,
        r#""also":{"user":"backend","password":"new"},"backend":"#,
    ),
];

#[test]
fn one_login_a_door(rt: HostRuntime) -> Result<(), Fail> {
    let file = changed_by(rt.alloc(), &NO_ALSO)?;
    let settings = Settings::read(rt.alloc(), file.as_bytes())?;
    let right = is_built_in(&settings);
    drop(settings);
    assert!(rt; right);
    Ok(())
}
