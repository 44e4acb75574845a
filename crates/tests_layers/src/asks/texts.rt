use super::{Case, Reading, lines_for, told};
use osb_asks::{AskFault, Id, ObjectText};
use osb_text::Text;
use std::alloc::{AllocError, Global};
use std::process::Abort;
use std::test::Fail;

/// Whether a copy of the id is the same.
fn is_copied(id: &Id, text: &str) -> Result<bool, AllocError> {
    let copy = id.clone()?;
    Ok(copy == *id && Text::from(copy).as_str() == text)
}

/// Whether the text is an id, and a copy of it is the same.
fn is_kept_id(alloc: Global, text: &str) -> Result<bool, AllocError> {
    match Id::new(Text::from_str(alloc, text)?) {
        Some(id) => is_copied(&id, text),
        None => Ok(false),
    }
}

/// Whether a copy of the object's text is the same.
fn is_copied_object(object: &ObjectText, text: &str) -> Result<bool, AllocError> {
    let copy = object.clone()?;
    Ok(copy == *object && Text::from(copy).as_str() == text)
}

/// Whether the text is that of an object, and a copy of it is the same.
fn is_kept_object(alloc: Global, text: &str) -> Result<bool, AllocError> {
    match ObjectText::new(alloc, Text::from_str(alloc, text)?)? {
        Some(object) => is_copied_object(&object, text),
        None => Ok(false),
    }
}

/// Texts, and whether each is an id.
static IDS: [(&str, bool); 4] = [
    ("a/b", true),
    ("", false),
    ("a\u{1}", false),
    ("\u{9F}", false),
];

/// Texts, and whether each is that of an object.
static OBJECTS: [(&str, bool); 7] = [
    ("{}", true),
    (r#"{"a":1,"b":{}}"#, true),
    ("", false),
    ("[]", false),
    (r#"{"b":1,"a":1}"#, false),
    (r#"{"a": 1}"#, false),
    (r#"{"a":1.5}"#, false),
];

fn tells_ids(rt: &(impl Abort + AllocGlobal), cases: &[(&str, bool)]) -> Result<(), Fail> {
    for (text, is_id) in cases {
        assert!(rt; is_kept_id(rt.alloc(), *text)? == *is_id, "{text}");
    }
    Ok(())
}

fn tells_objects(rt: &(impl Abort + AllocGlobal), cases: &[(&str, bool)]) -> Result<(), Fail> {
    for (text, is_object) in cases {
        assert!(rt; is_kept_object(rt.alloc(), *text)? == *is_object, "{text}");
    }
    Ok(())
}

fn is_empty_object(alloc: Global) -> Result<bool, AllocError> {
    Ok(ObjectText::empty(alloc)?.as_str() == "{}")
}

#[test]
fn ids_and_objects(rt: HostRuntime) -> Result<(), Fail> {
    tells_ids(&rt, &IDS)?;
    tells_objects(&rt, &OBJECTS)?;
    assert!(rt; is_empty_object(rt.alloc())?);
    assert!(rt; AskFault::from(AllocError) == AskFault::Memory);
    Ok(())
}

/// A method and a target, a body, and the instance and the binding that the ask is about.
static SUBJECTS: [Case; 12] = [
    ("GET /v2/catalog", "", "- -"),
    (
        "PUT /v2/service_instances/i",
        r#"{"service_id":"svc","plan_id":"p-sync","organization_guid":"o","space_guid":"s"}"#,
        "i -",
    ),
    ("GET /v2/service_instances/i", "", "i -"),
    (
        "PATCH /v2/service_instances/i",
        r#"{"service_id":"svc"}"#,
        "i -",
    ),
    (
        "DELETE /v2/service_instances/i?service_id=svc&plan_id=p-sync",
        "",
        "i -",
    ),
    ("GET /v2/service_instances/i/last_operation", "", "i -"),
    (
        "PUT /v2/service_instances/i/service_bindings/b",
        r#"{"service_id":"svc","plan_id":"p-sync"}"#,
        "i b",
    ),
    ("GET /v2/service_instances/i/service_bindings/b", "", "i b"),
    (
        "DELETE /v2/service_instances/i/service_bindings/b?service_id=svc&plan_id=p-sync",
        "",
        "i b",
    ),
    (
        "GET /v2/service_instances/i/service_bindings/b/last_operation",
        "",
        "i b",
    ),
    ("GET /backend/v1/orders?after=x", "", "- -"),
    ("PUT /backend/v1/orders/i/1", r#"{"state":"failed"}"#, "i -"),
];

/// The instance and the binding that the request is about.
fn subjects(alloc: Global, line: &str, body: &str) -> Result<String, Fail> {
    let Reading { asked: _, subjects } = told(alloc, line, lines_for(line), body.as_bytes())?;
    Ok(subjects)
}

fn tells_subjects(rt: &(impl Abort + AllocGlobal), cases: &[Case]) -> Result<(), Fail> {
    for (line, body, expected) in cases {
        let subjects = subjects(rt.alloc(), *line, *body)?;
        assert!(rt; subjects.as_str() == *expected, "{line}: {subjects}");
    }
    Ok(())
}

#[test]
fn subjects_of_asks(rt: HostRuntime) -> Result<(), Fail> {
    tells_subjects(&rt, &SUBJECTS)
}
