use super::{Case, filled, outcome_at_door, tells};
use std::alloc::Global;
use std::process::Abort;
use std::test::Fail;

/// For each route with ids and each of its ids, in the place of `@`: the request, and what is reported
/// of it where the id is usable.
static ROUTES_WITH_IDS: [Case; 14] = [
    (
        "PUT /v2/service_instances/@",
        r#"{"service_id":"svc","plan_id":"p-sync","organization_guid":"o","space_guid":"s"}"#,
        "Provision @ svc p-sync o s {} {} - false",
    ),
    ("GET /v2/service_instances/@", "", "Fetch @"),
    (
        "PATCH /v2/service_instances/@",
        r#"{"service_id":"svc"}"#,
        "Update @ svc - - - - false",
    ),
    (
        "DELETE /v2/service_instances/@?service_id=svc&plan_id=p-sync",
        "",
        "Deprovision @ svc p-sync false",
    ),
    (
        "GET /v2/service_instances/@/last_operation",
        "",
        "InstanceOp @ -",
    ),
    (
        "PUT /v2/service_instances/@/service_bindings/b",
        r#"{"service_id":"svc","plan_id":"p-sync"}"#,
        "Bind @ b svc p-sync - {} {} {} false",
    ),
    (
        "PUT /v2/service_instances/i/service_bindings/@",
        r#"{"service_id":"svc","plan_id":"p-sync"}"#,
        "Bind i @ svc p-sync - {} {} {} false",
    ),
    (
        "GET /v2/service_instances/@/service_bindings/b",
        "",
        "FetchBinding @ b",
    ),
    (
        "GET /v2/service_instances/i/service_bindings/@",
        "",
        "FetchBinding i @",
    ),
    (
        "DELETE /v2/service_instances/@/service_bindings/b?service_id=svc&plan_id=p-sync",
        "",
        "Unbind @ b svc p-sync false",
    ),
    (
        "DELETE /v2/service_instances/i/service_bindings/@?service_id=svc&plan_id=p-sync",
        "",
        "Unbind i @ svc p-sync false",
    ),
    (
        "GET /v2/service_instances/@/service_bindings/b/last_operation",
        "",
        "BindingOp @ b -",
    ),
    (
        "GET /v2/service_instances/i/service_bindings/@/last_operation",
        "",
        "BindingOp i @ -",
    ),
    (
        "PUT /backend/v1/orders/@/1",
        r#"{"state":"failed"}"#,
        "Report @ 1 failed  {}",
    ),
];

/// Segments, and the ids that they stand for.
static USABLE: [(&str, &str); 17] = [
    ("a", "a"),
    ("%61", "a"),
    ("%61b", "ab"),
    ("%61%62", "ab"),
    ("a%2Fb", "a/b"),
    ("a%2fb", "a/b"),
    ("a%20b", "a b"),
    ("a+b", "a+b"),
    ("%2561", "%61"),
    ("a%zz", "a%zz"),
    ("a%6", "a%6"),
    ("%", "%"),
    ("a&b=c", "a&b=c"),
    ("%C3%A4", "\u{E4}"),
    ("%C2%A0", "\u{A0}"),
    ("~aaaaaa", "~aaaaaa"),
    ("~%61%61%61%61%61%61", "~aaaaaa"),
];

/// Segments that are no ids: too long, with a control character, or no UTF-8.
static UNUSABLE: [&str; 12] = [
    "~aaaaaaa",
    "~aaaaa%C3%A4",
    "%00",
    "a%1Fb",
    "%0A",
    "%7F",
    "%C2%80",
    "a%C2%9F",
    "%FF",
    "a%C3",
    "%C3a",
    "%ED%A0%80",
];

fn with_id(alloc: Global, text: &str, id: &str) -> Result<String, Fail> {
    let id = filled(alloc, id)?;
    Ok(text.replacen(alloc, "@", id.as_str(), 1)?)
}

fn tells_id(
    rt: &(impl Abort + AllocGlobal),
    segment: &str,
    body: &str,
    line: &str,
    expected: &str,
) -> Result<(), Fail> {
    let line = with_id(rt.alloc(), line, segment)?;
    let told = outcome_at_door(rt.alloc(), line.as_str(), body)?;
    assert!(rt; told.as_str() == expected, "{line}: {told}");
    Ok(())
}

fn tells_usable(
    rt: &(impl Abort + AllocGlobal),
    case: &Case,
    usable: &[(&str, &str)],
) -> Result<(), Fail> {
    let (line, body, told) = *case;
    for (segment, id) in usable {
        let expected = with_id(rt.alloc(), told, *id)?;
        tells_id(rt, *segment, body, line, expected.as_str())?;
    }
    Ok(())
}

fn tells_unusable(
    rt: &(impl Abort + AllocGlobal),
    case: &Case,
    unusable: &[&str],
) -> Result<(), Fail> {
    for segment in unusable {
        tells_id(rt, *segment, case.1, case.0, "Id")?;
    }
    Ok(())
}

fn tells_ids(rt: &(impl Abort + AllocGlobal), cases: &[Case]) -> Result<(), Fail> {
    for case in cases {
        tells_usable(rt, case, &USABLE)?;
        tells_unusable(rt, case, &UNUSABLE)?;
        // An empty segment is no id, so no route has it.
        tells_id(rt, "", case.1, case.0, "NoRoute")?;
    }
    Ok(())
}

#[test]
fn ids_of_all_routes(rt: HostRuntime) -> Result<(), Fail> {
    tells_ids(&rt, &ROUTES_WITH_IDS)
}

static NUMBERS: [Case; 16] = [
    (
        "PUT /backend/v1/orders/i/1",
        r#"{"state":"failed"}"#,
        "Report i 1 failed  {}",
    ),
    (
        "PUT /backend/v1/orders/i/10",
        r#"{"state":"failed"}"#,
        "Report i 10 failed  {}",
    ),
    (
        "PUT /backend/v1/orders/i/9999999",
        r#"{"state":"failed"}"#,
        "Report i 9999999 failed  {}",
    ),
    (
        "PUT /backend/v1/orders/i/1234567?x=1",
        r#"{"state":"failed"}"#,
        "Report i 1234567 failed  {}",
    ),
    ("PUT /backend/v1/orders/i/0", r#"{"state":"failed"}"#, "Id"),
    ("PUT /backend/v1/orders/i/01", r#"{"state":"failed"}"#, "Id"),
    (
        "PUT /backend/v1/orders/i/10000000",
        r#"{"state":"failed"}"#,
        "Id",
    ),
    ("PUT /backend/v1/orders/i/", r#"{"state":"failed"}"#, "Id"),
    ("PUT /backend/v1/orders/i/?1", r#"{"state":"failed"}"#, "Id"),
    (
        "PUT /backend/v1/orders/i/%31",
        r#"{"state":"failed"}"#,
        "Id",
    ),
    ("PUT /backend/v1/orders/i/+1", r#"{"state":"failed"}"#, "Id"),
    ("PUT /backend/v1/orders/i/-1", r#"{"state":"failed"}"#, "Id"),
    ("PUT /backend/v1/orders/i/1a", r#"{"state":"failed"}"#, "Id"),
    ("PUT /backend/v1/orders/i/a1", r#"{"state":"failed"}"#, "Id"),
    (
        "PUT /backend/v1/orders/i/1.0",
        r#"{"state":"failed"}"#,
        "Id",
    ),
    ("PUT /backend/v1/orders/%FF/0", "{", "Id"),
];

#[test]
fn numbers_of_orders(rt: HostRuntime) -> Result<(), Fail> {
    tells(&rt, &NUMBERS)
}
