use super::{Case, PLATFORM, filled, outcome, outcome_at_door, tells};
use std::alloc::Global;
use std::process::Abort;
use std::test::Fail;

/// A text of the body, what takes its place, and what is reported of the outcome.
type Change = (&'static str, &'static str, &'static str);

/// What is reported of the request with the body that has `to` in the place of `from`.
fn outcome_of_change(
    alloc: Global,
    line: &str,
    body: &str,
    from: &str,
    to: &str,
) -> Result<String, Fail> {
    body.find(from).ok_or("a change finds nothing")?;
    let body = body.replacen(alloc, from, to, 1)?;
    outcome_at_door(alloc, line, body.as_str())
}

fn tells_changes(
    rt: &(impl Abort + AllocGlobal),
    line: &str,
    body: &str,
    changes: &[Change],
) -> Result<(), Fail> {
    for (from, to, expected) in changes {
        let told = outcome_of_change(rt.alloc(), line, body, *from, *to)?;
        let expected = filled(rt.alloc(), *expected)?;
        assert!(rt; told.as_str() == expected.as_str(), "{line} {to}: {told}");
    }
    Ok(())
}

const PROVISION: &str = "PUT /v2/service_instances/i";

const PROVISION_BODY: &str =
    r#"{"service_id":"svc","plan_id":"p-sync","organization_guid":"o","space_guid":"s","context":{"c":1},"parameters":{"p":1},"maintenance_info":{"version":"1.2.0"}}"#;

const UPDATE: &str = "PATCH /v2/service_instances/i";

const UPDATE_BODY: &str =
    r#"{"service_id":"svc","plan_id":"p-sync","context":{"c":1},"parameters":{"p":1},"maintenance_info":{"version":"1.2.0"},"previous_values":{}}"#;

const BIND: &str = "PUT /v2/service_instances/i/service_bindings/b";

const BIND_BODY: &str =
    r#"{"service_id":"svc","plan_id":"p-sync","app_guid":"app","bind_resource":{"r":1},"context":{"c":1},"parameters":{"p":1}}"#;

const REPORT: &str = "PUT /backend/v1/orders/i/1";

const REPORT_BODY: &str = r#"{"state":"succeeded","description":"done","credentials":{"u":1}}"#;

/// A request, its body, and one of the body's members.
static REQUIRED_IDS: [Case; 7] = [
    (PROVISION, PROVISION_BODY, r#""service_id":"svc""#),
    (PROVISION, PROVISION_BODY, r#""plan_id":"p-sync""#),
    (PROVISION, PROVISION_BODY, r#""organization_guid":"o""#),
    (PROVISION, PROVISION_BODY, r#""space_guid":"s""#),
    (UPDATE, UPDATE_BODY, r#""service_id":"svc""#),
    (BIND, BIND_BODY, r#""service_id":"svc""#),
    (BIND, BIND_BODY, r#""plan_id":"p-sync""#),
];

static IDS_IN_ANY_BODY: [Case; 2] = [
    (UPDATE, UPDATE_BODY, r#""plan_id":"p-sync""#),
    (BIND, BIND_BODY, r#""app_guid":"app""#),
];

static OBJECTS: [Case; 8] = [
    (PROVISION, PROVISION_BODY, r#""context":{"c":1}"#),
    (PROVISION, PROVISION_BODY, r#""parameters":{"p":1}"#),
    (
        PROVISION,
        PROVISION_BODY,
        r#""maintenance_info":{"version":"1.2.0"}"#,
    ),
    (UPDATE, UPDATE_BODY, r#""context":{"c":1}"#),
    (UPDATE, UPDATE_BODY, r#""parameters":{"p":1}"#),
    (
        UPDATE,
        UPDATE_BODY,
        r#""maintenance_info":{"version":"1.2.0"}"#,
    ),
    (BIND, BIND_BODY, r#""bind_resource":{"r":1}"#),
    (REPORT, REPORT_BODY, r#""credentials":{"u":1}"#),
];

/// Values that are no id text.
static NO_IDS: [&str; 9] = [
    "1",
    "true",
    "[]",
    "{}",
    r#""\u0000""#,
    r#""a\u001fb""#,
    r#""\u007f""#,
    r#""\u009f""#,
    r#""~aaaaaaa""#,
];

/// Values that are no object.
static NO_OBJECTS: [&str; 6] = ["1", "true", "false", "[]", r#""{}""#, r#"[{}]"#];

/// The member with another value.
fn with_value(alloc: Global, member: &str, value: &str) -> Result<String, Fail> {
    let (name, _) = member.split_once(':').ok_or("no member")?;
    Ok(format!(in alloc; "{name}:{value}")?)
}

/// What is reported of the request whose body has another value in the member.
fn outcome_with_value(alloc: Global, case: &Case, value: &str) -> Result<String, Fail> {
    let (line, body, member) = *case;
    let changed = with_value(alloc, member, value)?;
    outcome_of_change(alloc, line, body, member, changed.as_str())
}

/// With each of the values under the member's name, the body isn't usable.
fn refuses(rt: &(impl Abort + AllocGlobal), case: &Case, values: &[&str]) -> Result<(), Fail> {
    for value in values {
        let told = outcome_with_value(rt.alloc(), case, *value)?;
        assert!(rt; told.as_str() == "Body", "{} {value}: {told}", case.2);
    }
    Ok(())
}

fn each_refuses(
    rt: &(impl Abort + AllocGlobal),
    cases: &[Case],
    values: &[&str],
) -> Result<(), Fail> {
    for case in cases {
        refuses(rt, case, values)?;
    }
    Ok(())
}

/// None of them may be absent.
fn each_is_required(rt: &(impl Abort + AllocGlobal), cases: &[Case]) -> Result<(), Fail> {
    for case in cases {
        tells_changes(rt, case.0, case.1, &[(case.2, r#""other":1"#, "Body")])?;
    }
    Ok(())
}

#[test]
fn members_of_another_kind(rt: HostRuntime) -> Result<(), Fail> {
    each_refuses(&rt, &REQUIRED_IDS, &NO_IDS)?;
    each_refuses(&rt, &REQUIRED_IDS, &[r#""""#, "null", r#"null,"other":1"#])?;
    each_is_required(&rt, &REQUIRED_IDS)?;
    each_refuses(&rt, &IDS_IN_ANY_BODY, &NO_IDS)?;
    each_refuses(&rt, &OBJECTS, &NO_OBJECTS)
}

static OF_PROVISION: [Change; 18] = [
    (
        "svc",
        "svc",
        r#"Provision i svc p-sync o s {"c":1} {"p":1} 1.2.0 false"#,
    ),
    ("svc", "other", "NotInCatalog"),
    ("svc", "~aaaaaa", "NotInCatalog"),
    (
        "p-sync",
        "p-async",
        r#"Provision i svc p-async o s {"c":1} {"p":1} 1.2.0 false"#,
    ),
    ("p-sync", "p-other", "NotInCatalog"),
    (
        r#""organization_guid":"o""#,
        r#""organization_guid":"~aaaaaa""#,
        r#"Provision i svc p-sync ~aaaaaa s {"c":1} {"p":1} 1.2.0 false"#,
    ),
    (
        r#""space_guid":"s""#,
        r#""space_guid":"~aaaaaa""#,
        r#"Provision i svc p-sync o ~aaaaaa {"c":1} {"p":1} 1.2.0 false"#,
    ),
    (
        r#""context":{"c":1},"#,
        "",
        r#"Provision i svc p-sync o s {} {"p":1} 1.2.0 false"#,
    ),
    (
        r#"{"c":1}"#,
        "null",
        r#"Provision i svc p-sync o s {} {"p":1} 1.2.0 false"#,
    ),
    (
        r#""parameters":{"p":1},"#,
        "",
        r#"Provision i svc p-sync o s {"c":1} {} 1.2.0 false"#,
    ),
    (
        r#"{"p":1}"#,
        "null",
        r#"Provision i svc p-sync o s {"c":1} {} 1.2.0 false"#,
    ),
    (
        r#"{"p":1}"#,
        r#"{ "b" : [ 1, null ], "a" : "\u00e4" }"#,
        "Provision i svc p-sync o s {\"c\":1} {\"a\":\"\u{E4}\",\"b\":[1,null]} 1.2.0 false",
    ),
    (
        r#","maintenance_info":{"version":"1.2.0"}"#,
        "",
        r#"Provision i svc p-sync o s {"c":1} {"p":1} - false"#,
    ),
    (
        r#"{"version":"1.2.0"}"#,
        "null",
        r#"Provision i svc p-sync o s {"c":1} {"p":1} - false"#,
    ),
    (
        r#""1.2.0""#,
        r#""""#,
        r#"Provision i svc p-sync o s {"c":1} {"p":1}  false"#,
    ),
    (
        r#""1.2.0""#,
        r#""any\u0000","description":1"#,
        "Provision i svc p-sync o s {\"c\":1} {\"p\":1} any\u{0} false",
    ),
    (r#""1.2.0""#, "null", "Body"),
    (r#""version":"1.2.0""#, r#""description":"d""#, "Body"),
];

static OF_UPDATE: [Change; 12] = [
    (
        "svc",
        "svc",
        r#"Update i svc p-sync {"c":1} {"p":1} 1.2.0 false"#,
    ),
    ("svc", "other", "NotInCatalog"),
    ("svc", "no", "NotInCatalog"),
    (
        r#""plan_id":"p-sync","#,
        "",
        r#"Update i svc - {"c":1} {"p":1} 1.2.0 false"#,
    ),
    (
        r#""p-sync""#,
        "null",
        r#"Update i svc - {"c":1} {"p":1} 1.2.0 false"#,
    ),
    (r#""p-sync""#, r#""""#, "Body"),
    ("p-sync", "p-other", "NotInCatalog"),
    (
        r#""context":{"c":1},"#,
        "",
        r#"Update i svc p-sync - {"p":1} 1.2.0 false"#,
    ),
    (
        r#"{"p":1}"#,
        "null",
        r#"Update i svc p-sync {"c":1} - 1.2.0 false"#,
    ),
    (
        r#""previous_values":{}"#,
        r#""previous_values":["x"]"#,
        r#"Update i svc p-sync {"c":1} {"p":1} 1.2.0 false"#,
    ),
    (
        r#""previous_values":{}"#,
        r#""previous_values":1.5"#,
        "Body",
    ),
    (r#"{"version":"1.2.0"}"#, "{}", "Body"),
];

static OF_BIND: [Change; 11] = [
    (
        "svc",
        "svc",
        r#"Bind i b svc p-sync app {"r":1} {"c":1} {"p":1} false"#,
    ),
    ("svc", "other", "NotInCatalog"),
    ("p-sync", "p-other", "NotInCatalog"),
    (
        r#""app_guid":"app","#,
        "",
        r#"Bind i b svc p-sync - {"r":1} {"c":1} {"p":1} false"#,
    ),
    (
        r#""app""#,
        "null",
        r#"Bind i b svc p-sync - {"r":1} {"c":1} {"p":1} false"#,
    ),
    (
        r#""app""#,
        r#""""#,
        r#"Bind i b svc p-sync - {"r":1} {"c":1} {"p":1} false"#,
    ),
    (
        r#""app""#,
        r#""~aaaaaa""#,
        r#"Bind i b svc p-sync ~aaaaaa {"r":1} {"c":1} {"p":1} false"#,
    ),
    (
        r#""bind_resource":{"r":1},"#,
        "",
        r#"Bind i b svc p-sync app {} {"c":1} {"p":1} false"#,
    ),
    (
        r#"{"r":1}"#,
        "null",
        r#"Bind i b svc p-sync app {} {"c":1} {"p":1} false"#,
    ),
    (
        r#""context":{"c":1},"parameters":{"p":1}"#,
        r#""maintenance_info":1"#,
        r#"Bind i b svc p-sync app {"r":1} {} {} false"#,
    ),
    (r#"{"p":1}"#, "[]", "Body"),
];

static OF_REPORT: [Change; 20] = [
    ("done", "done", r#"Report i 1 succeeded done {"u":1}"#),
    ("succeeded", "failed", r#"Report i 1 failed done {"u":1}"#),
    ("succeeded", "in progress", "Body"),
    ("succeeded", "Failed", "Body"),
    ("succeeded", "", "Body"),
    (r#""succeeded""#, "null", "Body"),
    (r#""succeeded""#, "true", "Body"),
    (r#""state":"succeeded","#, "", "Body"),
    (
        r#""description":"done","#,
        "",
        r#"Report i 1 succeeded  {"u":1}"#,
    ),
    (r#""done""#, "null", r#"Report i 1 succeeded  {"u":1}"#),
    ("done", "", r#"Report i 1 succeeded  {"u":1}"#),
    ("done", "~~~~", r#"Report i 1 succeeded ~~~~ {"u":1}"#),
    ("done", "~~~~a", "Body"),
    // Bytes count, and not letters: here are 1,002 of 834.
    (
        "done",
        "~~~€€€€€€€€€€€€€€€€€€€€€€€€€€€€€€€€€€€€€€€€€€€€€€€€€€€€€€€€€€€€€€€€€€€€€€€€€€€€€€€€€€€€",
        "Body",
    ),
    ("done", r"a\nb", "Body"),
    ("done", r"\u0085", "Body"),
    (r#""done""#, "1", "Body"),
    (
        r#","credentials":{"u":1}"#,
        "",
        "Report i 1 succeeded done {}",
    ),
    (r#"{"u":1}"#, "null", "Report i 1 succeeded done {}"),
    (
        r#"{"u":1}"#,
        r#"{"b":1,"a":{}}"#,
        r#"Report i 1 succeeded done {"a":{},"b":1}"#,
    ),
];

#[test]
fn members(rt: HostRuntime) -> Result<(), Fail> {
    tells_changes(&rt, PROVISION, PROVISION_BODY, &OF_PROVISION)?;
    tells_changes(&rt, UPDATE, UPDATE_BODY, &OF_UPDATE)?;
    tells_changes(&rt, BIND, BIND_BODY, &OF_BIND)?;
    tells_changes(&rt, REPORT, REPORT_BODY, &OF_REPORT)
}

static NUMBERS: [Change; 16] = [
    ("1}", "0}", r#"Report i 1 succeeded done {"u":0}"#),
    (
        "1}",
        "18446744073709551615}",
        r#"Report i 1 succeeded done {"u":18446744073709551615}"#,
    ),
    ("1}", "18446744073709551616}", "Body"),
    ("1}", "-1}", r#"Report i 1 succeeded done {"u":-1}"#),
    (
        "1}",
        "-9223372036854775808}",
        r#"Report i 1 succeeded done {"u":-9223372036854775808}"#,
    ),
    ("1}", "-9223372036854775809}", "Body"),
    ("1}", "-0}", "Body"),
    ("1}", "1.5}", "Body"),
    ("1}", "1.0}", "Body"),
    ("1}", "1e2}", "Body"),
    ("1}", "1e999}", "Body"),
    ("1}", "[{\"x\":1.5}]}", "Body"),
    ("1}", "1.5,\"u\":1}", r#"Report i 1 succeeded done {"u":1}"#),
    ("1}", "1,\"u\":2}", r#"Report i 1 succeeded done {"u":2}"#),
    (r#"{"state""#, r#"{"other":0.5,"state""#, "Body"),
    (
        r#"{"state""#,
        r#"{"other":18446744073709551615,"state""#,
        r#"Report i 1 succeeded done {"u":1}"#,
    ),
];

/// Under a name that is read past, in a list of it, and in an object that is kept.
static NUMBERS_ANYWHERE: [Change; 4] = [
    (r#"{"service_id""#, r#"{"other":-0,"service_id""#, "Body"),
    (
        r#"{"service_id""#,
        r#"{"other":[{"x":18446744073709551616}],"service_id""#,
        "Body",
    ),
    (r#"{"c":1}"#, r#"{"c":1.0}"#, "Body"),
    (r#"{"p":1}"#, r#"{"p":-9223372036854775809}"#, "Body"),
];

#[test]
fn numbers(rt: HostRuntime) -> Result<(), Fail> {
    tells_changes(&rt, REPORT, REPORT_BODY, &NUMBERS)?;
    tells_changes(&rt, PROVISION, PROVISION_BODY, &NUMBERS_ANYWHERE)?;
    tells_changes(&rt, UPDATE, UPDATE_BODY, &NUMBERS_ANYWHERE)?;
    tells_changes(&rt, BIND, BIND_BODY, &NUMBERS_ANYWHERE)
}

static NO_OBJECT_BODIES: [Case; 9] = [
    (UPDATE, "", "Body"),
    (UPDATE, "{", "Body"),
    (UPDATE, "null", "Body"),
    (UPDATE, r#"[{"service_id":"svc"}]"#, "Body"),
    (UPDATE, r#"{"service_id":"svc"} x"#, "Body"),
    (
        UPDATE,
        r#" { "service_id" : "svc" } "#,
        "Update i svc - - - - false",
    ),
    (PROVISION, "[]", "Body"),
    (BIND, "[]", "Body"),
    (REPORT, "[]", "Body"),
];

#[test]
fn bodies_that_are_no_objects(rt: HostRuntime) -> Result<(), Fail> {
    tells(&rt, &NO_OBJECT_BODIES)?;
    let no_text = b"{\"service_id\":\"svc\",\"x\":\"\xFF\"}";
    assert!(rt; outcome(rt.alloc(), UPDATE, PLATFORM, no_text)?.as_str() == "Body");
    Ok(())
}

/// What is reported of an update whose parameters have so many lists in one another.
fn outcome_of_lists(alloc: Global, lists: usize) -> Result<String, Fail> {
    let mut body = String::from_str(alloc, r#"{"service_id":"svc","parameters":{"x":"#)?;
    body.push_str("[".repeat(alloc, lists)?.as_str())?;
    body.push_str("]".repeat(alloc, lists)?.as_str())?;
    body.push_str("}}")?;
    outcome(alloc, UPDATE, PLATFORM, body.as_bytes())
}

#[test]
fn nesting(rt: HostRuntime) -> Result<(), Fail> {
    // The body and its parameters are two of the 127 levels.
    assert!(rt; outcome_of_lists(rt.alloc(), 125)?.as_str() != "Body");
    assert!(rt; outcome_of_lists(rt.alloc(), 126)?.as_str() == "Body");
    Ok(())
}
