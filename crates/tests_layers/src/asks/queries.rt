use super::{Case, tells};
use std::test::Fail;

static FLAGS: [Case; 18] = [
    (
        "PATCH /v2/service_instances/i",
        r#"{"service_id":"svc"}"#,
        "Update i svc - - - - false",
    ),
    (
        "PATCH /v2/service_instances/i?accepts_incomplete=true",
        r#"{"service_id":"svc"}"#,
        "Update i svc - - - - true",
    ),
    (
        "PATCH /v2/service_instances/i?accepts_incomplete=false",
        r#"{"service_id":"svc"}"#,
        "Update i svc - - - - false",
    ),
    (
        "PATCH /v2/service_instances/i?accepts%5Fincomplete=tru%65",
        r#"{"service_id":"svc"}"#,
        "Update i svc - - - - true",
    ),
    (
        "PATCH /v2/service_instances/i?accepts_incomplete=true&accepts_incomplete=no",
        r#"{"service_id":"svc"}"#,
        "Update i svc - - - - true",
    ),
    (
        "PATCH /v2/service_instances/i?accepts_incomplete=no&accepts_incomplete=true",
        r#"{"service_id":"svc"}"#,
        "Query",
    ),
    (
        "PATCH /v2/service_instances/i?x=%FF&&accepts_incomplete=true",
        r#"{"service_id":"svc"}"#,
        "Update i svc - - - - true",
    ),
    (
        "PATCH /v2/service_instances/i??accepts_incomplete=no",
        r#"{"service_id":"svc"}"#,
        "Update i svc - - - - false",
    ),
    (
        "PATCH /v2/service_instances/i?accepts_incomplete=True",
        r#"{"service_id":"svc"}"#,
        "Query",
    ),
    (
        "PATCH /v2/service_instances/i?accepts_incomplete=1",
        r#"{"service_id":"svc"}"#,
        "Query",
    ),
    (
        "PATCH /v2/service_instances/i?accepts_incomplete=+true",
        r#"{"service_id":"svc"}"#,
        "Query",
    ),
    (
        "PATCH /v2/service_instances/i?accepts_incomplete=",
        r#"{"service_id":"svc"}"#,
        "Query",
    ),
    (
        "PATCH /v2/service_instances/i?accepts_incomplete",
        r#"{"service_id":"svc"}"#,
        "Query",
    ),
    (
        "PUT /v2/service_instances/i?accepts_incomplete=true",
        r#"{"service_id":"svc","plan_id":"p-sync","organization_guid":"o","space_guid":"s"}"#,
        "Provision i svc p-sync o s {} {} - true",
    ),
    (
        "DELETE /v2/service_instances/i?plan_id=p-sync&accepts_incomplete=true&service_id=svc",
        "",
        "Deprovision i svc p-sync true",
    ),
    (
        "PUT /v2/service_instances/i/service_bindings/b?accepts_incomplete=true",
        r#"{"service_id":"svc","plan_id":"p-sync"}"#,
        "Bind i b svc p-sync - {} {} {} true",
    ),
    (
        "DELETE /v2/service_instances/i/service_bindings/b?service_id=svc&plan_id=p-sync&accepts_incomplete=true",
        "",
        "Unbind i b svc p-sync true",
    ),
    (
        "DELETE /v2/service_instances/i/service_bindings/b?service_id=svc&plan_id=p-sync&accepts_incomplete=no",
        "",
        "Query",
    ),
];

#[test]
fn flags(rt: HostRuntime) -> Result<(), Fail> {
    tells(&rt, &FLAGS)
}

static IDS: [Case; 22] = [
    ("DELETE /v2/service_instances/i", "", "Query"),
    ("DELETE /v2/service_instances/i?service_id=svc", "", "Query"),
    ("DELETE /v2/service_instances/i?plan_id=p-sync", "", "Query"),
    (
        "DELETE /v2/service_instances/i?service_id=&plan_id=p-sync",
        "",
        "Query",
    ),
    (
        "DELETE /v2/service_instances/i?service_id&plan_id=p-sync",
        "",
        "Query",
    ),
    (
        "DELETE /v2/service_instances/i?service_id=svc&plan_id=%00",
        "",
        "Query",
    ),
    (
        "DELETE /v2/service_instances/i?service_id=~aaaaaaa&plan_id=p-sync",
        "",
        "Query",
    ),
    (
        "DELETE /v2/service_instances/i?service_id=~aaaaaa&plan_id=p-sync",
        "",
        "NotInCatalog",
    ),
    (
        "DELETE /v2/service_instances/i?service_id=svc&service_id=other&plan_id=p-sync",
        "",
        "Deprovision i svc p-sync false",
    ),
    (
        "DELETE /v2/service_instances/i?service_id=other&service_id=svc&plan_id=p-sync",
        "",
        "NotInCatalog",
    ),
    (
        "DELETE /v2/service_instances/i?service_id=svc&plan_id=p-other",
        "",
        "NotInCatalog",
    ),
    (
        "DELETE /v2/service_instances/i?service_id=svc&plan_id=svc",
        "",
        "NotInCatalog",
    ),
    (
        "DELETE /v2/service_instances/i?service_id=svc&plan_id=%FF",
        "",
        "NotInCatalog",
    ),
    (
        "DELETE /v2/service_instances/i?service_id=other&plan_id=p-other",
        "{",
        "Deprovision i other p-other false",
    ),
    (
        "DELETE /v2/service_instances/i/service_bindings/b",
        "",
        "Query",
    ),
    (
        "DELETE /v2/service_instances/i/service_bindings/b?service_id=svc",
        "",
        "Query",
    ),
    (
        "DELETE /v2/service_instances/i/service_bindings/b?plan_id=p-sync",
        "",
        "Query",
    ),
    (
        "DELETE /v2/service_instances/i/service_bindings/b?service_id=s%76c&plan_id=p-async",
        "",
        "Unbind i b svc p-async false",
    ),
    (
        "DELETE /v2/service_instances/i/service_bindings/b?service_id=no&plan_id=p-async",
        "",
        "NotInCatalog",
    ),
    (
        "GET /v2/service_instances/i?service_id=%00&plan_id=&accepts_incomplete=no",
        "{",
        "Fetch i",
    ),
    (
        "GET /v2/service_instances/i/last_operation?service_id=%00&plan_id=",
        "{",
        "InstanceOp i -",
    ),
    (
        "GET /v2/service_instances/i/service_bindings/b?service_id=&plan_id=",
        "{",
        "FetchBinding i b",
    ),
];

#[test]
fn services_and_plans(rt: HostRuntime) -> Result<(), Fail> {
    tells(&rt, &IDS)
}

static OPERATIONS_AND_AFTER: [Case; 19] = [
    (
        "GET /v2/service_instances/i/last_operation?operation=create-1",
        "",
        "InstanceOp i create-1",
    ),
    (
        "GET /v2/service_instances/i/last_operation?operation=",
        "",
        "InstanceOp i ",
    ),
    (
        "GET /v2/service_instances/i/last_operation?operation",
        "",
        "InstanceOp i ",
    ),
    (
        "GET /v2/service_instances/i/last_operation?operation=a+b%00~~",
        "",
        "InstanceOp i a b\u{0}~~",
    ),
    (
        "GET /v2/service_instances/i/last_operation?operation=1&operation=2",
        "",
        "InstanceOp i 1",
    ),
    (
        "GET /v2/service_instances/i/last_operation?x=1;operation=2",
        "",
        "InstanceOp i -",
    ),
    (
        "GET /v2/service_instances/i/service_bindings/b/last_operation?operation=bind-2",
        "",
        "BindingOp i b bind-2",
    ),
    (
        "GET /v2/service_instances/i/service_bindings/b/last_operation?Operation=x",
        "",
        "BindingOp i b -",
    ),
    ("GET /backend/v1/orders", "", "Orders -"),
    ("GET /backend/v1/orders?", "", "Orders -"),
    ("GET /backend/v1/orders?after", "", "Orders -"),
    ("GET /backend/v1/orders?after=", "", "Orders -"),
    ("GET /backend/v1/orders?after=&after=i", "", "Orders -"),
    (
        "GET /backend/v1/orders?after=i%2F&after=j",
        "{",
        "Orders i/",
    ),
    ("GET /backend/v1/orders?after=~aaaaaa", "", "Orders ~aaaaaa"),
    ("GET /backend/v1/orders?after=~aaaaaaa", "", "Query"),
    ("GET /backend/v1/orders?after=%0A", "", "Query"),
    ("GET /backend/v1/orders?after=i%C2%80", "", "Query"),
    ("GET /backend/v1/orders?after=%FF", "", "Orders \u{FFFD}"),
];

#[test]
fn operations_and_after(rt: HostRuntime) -> Result<(), Fail> {
    tells(&rt, &OPERATIONS_AND_AFTER)
}

/// Requests with two neighbouring faults: the earlier one is reported.
static NEIGHBOURS: [Case; 19] = [
    (
        "PUT /v2/service_instances//last_operation/%FF?accepts_incomplete=no",
        "{",
        "NoRoute",
    ),
    (
        "PUT /v2/service_instances/%FF?accepts_incomplete=no",
        "{",
        "Id",
    ),
    (
        "PUT /v2/service_instances/i?accepts_incomplete=no",
        "{",
        "Query",
    ),
    (
        "PUT /v2/service_instances/i",
        r#"{"service_id":"no"}"#,
        "Body",
    ),
    (
        "PUT /v2/service_instances/i",
        r#"{"service_id":"no","plan_id":"p-sync","organization_guid":"o","space_guid":"s"}"#,
        "NotInCatalog",
    ),
    (
        "PATCH /v2/service_instances/%00?accepts_incomplete=no",
        "{",
        "Id",
    ),
    (
        "PATCH /v2/service_instances/i?accepts_incomplete=no",
        r#"{"service_id":1}"#,
        "Query",
    ),
    (
        "PATCH /v2/service_instances/i",
        r#"{"service_id":"no","parameters":1}"#,
        "Body",
    ),
    ("DELETE /v2/service_instances/%00?service_id=", "", "Id"),
    (
        "DELETE /v2/service_instances/%00?accepts_incomplete=no",
        "",
        "Id",
    ),
    (
        "DELETE /v2/service_instances/i?service_id=no&plan_id=no&accepts_incomplete=no",
        "",
        "Query",
    ),
    (
        "PUT /v2/service_instances/i/service_bindings/%FF?accepts_incomplete=no",
        "[]",
        "Id",
    ),
    (
        "PUT /v2/service_instances/i/service_bindings/b?accepts_incomplete=no",
        r#"{"service_id":"no"}"#,
        "Query",
    ),
    (
        "PUT /v2/service_instances/i/service_bindings/b",
        r#"{"service_id":"no","plan_id":"p-sync","parameters":1}"#,
        "Body",
    ),
    (
        "DELETE /v2/service_instances/i/service_bindings/%00?service_id=&accepts_incomplete=no",
        "",
        "Id",
    ),
    (
        "DELETE /v2/service_instances/i/service_bindings/b?service_id=no&plan_id=no&accepts_incomplete=no",
        "",
        "Query",
    ),
    (
        "DELETE /v2/service_instances/i/service_bindings/b?service_id=no&plan_id=",
        "",
        "Query",
    ),
    (
        "DELETE /v2/service_instances/i?service_id=no&plan_id=",
        "",
        "Query",
    ),
    ("PUT /backend/v1/orders/i/0", r#"{"state":1}"#, "Id"),
];

#[test]
fn neighbouring_faults(rt: HostRuntime) -> Result<(), Fail> {
    tells(&rt, &NEIGHBOURS)
}
