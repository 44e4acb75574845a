//! JSON objects, their members and their compact text, and ids.

use osb_text::{
    Object, ObjectRef, Text, TextFault, compact_text, has_no_controls, is_id, is_object_text,
    items, laws, member, read_object,
};
use std::alloc::{AllocError, Global};
use std::cmp::Ordering;
use std::process::Abort;
use std::test::Fail;

fn compacted(alloc: Global, text: &str) -> Result<String, TextFault> {
    let object = read_object(alloc, text.as_bytes())?;
    object.compact(alloc)
}

/// Texts of objects, and how they are compact.
const COMPACTED: [(&str, &str); 12] = [
    ("{}", "{}"),
    (" {\n} ", "{}"),
    ("{\"b\":2, \"a\":1}", "{\"a\":1,\"b\":2}"),
    (
        "{\"a\":1,\"B\":2,\"\":3,\"aa\":4}",
        "{\"\":3,\"B\":2,\"a\":1,\"aa\":4}",
    ),
    ("{\"x\":1.5,\"x\":1}", "{\"x\":1}"),
    ("{\"x\":1,\"y\":2,\"x\":null}", "{\"x\":null,\"y\":2}"),
    (
        "{\"x\":18446744073709551615}",
        "{\"x\":18446744073709551615}",
    ),
    (
        "{\"x\":-9223372036854775808}",
        "{\"x\":-9223372036854775808}",
    ),
    (
        "{\"x\":[0, -1, true, false, null]}",
        "{\"x\":[0,-1,true,false,null]}",
    ),
    (
        "{\"x\":\"\\u0041\\/\\u00e9\\u0001\\u001F\"}",
        "{\"x\":\"A/é\\u0001\\u001f\"}",
    ),
    (
        "{\"x\":\"\\ud83d\\ude00\\n\\t\\\"\\\\\"}",
        "{\"x\":\"😀\\n\\t\\\"\\\\\"}",
    ),
    (
        "{ \"z\" : [ { \"é\" : {}, \"b\\n\" : [], \"a\" : \"1.5\" }, 7 ], \"y\" : { \"d\" : 1, \"c\" : 2 } }",
        "{\"y\":{\"c\":2,\"d\":1},\"z\":[{\"a\":\"1.5\",\"b\\n\":[],\"é\":{}},7]}",
    ),
];

fn compacts(rt: &(impl Abort + AllocGlobal), cases: &[(&str, &str)]) -> Result<(), Fail> {
    for (text, compact) in cases {
        assert!(rt;
            compacted(rt.alloc(), *text)?.as_str() == *compact,
            "at {text}"
        );
    }
    Ok(())
}

#[test]
fn compacts_what_it_reads(rt: HostRuntime) -> Result<(), Fail> {
    compacts(&rt, &COMPACTED)
}

/// Texts, and the first fault of each.
const FAULTS: [(&str, TextFault); 22] = [
    ("", TextFault::NotJson),
    ("{\"x\":1", TextFault::NotJson),
    ("{\"x\":1}}", TextFault::NotJson),
    ("{'x':1}", TextFault::NotJson),
    ("{\"x\":1,}", TextFault::NotJson),
    ("{\"x\":01}", TextFault::NotJson),
    ("[1.5", TextFault::NotJson),
    ("{\"x\":1e999}", TextFault::NotJson),
    ("{\"x\":\"\\ud800\"}", TextFault::NotJson),
    ("{\"x\":\"\\ud800\\u0041\"}", TextFault::NotJson),
    ("[1.5]", TextFault::NotObject),
    ("[]", TextFault::NotObject),
    ("null", TextFault::NotObject),
    ("\"{}\"", TextFault::NotObject),
    ("-0", TextFault::NotObject),
    ("{\"x\":-0}", TextFault::Number),
    ("{\"x\":1.0}", TextFault::Number),
    ("{\"x\":1e2}", TextFault::Number),
    ("{\"x\":18446744073709551616}", TextFault::Number),
    ("{\"x\":-9223372036854775809}", TextFault::Number),
    ("{\"x\":1,\"x\":1.5}", TextFault::Number),
    ("{\"x\":[0,{\"y\":{\"z\":[0.5]}}]}", TextFault::Number),
];

fn is_fault(alloc: Global, bytes: &[u8], fault: TextFault) -> bool {
    read_object(alloc, bytes).err() == Some(fault)
}

fn tells_faults(rt: &(impl Abort + AllocGlobal), cases: &[(&str, TextFault)]) {
    for (text, fault) in cases {
        assert!(rt; is_fault(rt.alloc(), text.as_bytes(), *fault), "at {text}");
    }
}

#[test]
fn tells_the_first_fault(rt: HostRuntime) {
    tells_faults(&rt, &FAULTS);
    assert!(rt; is_fault(rt.alloc(), b"{\"x\":\"\xff\"}", TextFault::NotJson));
}

/// Texts of objects as they are kept.
const KEPT_AS_THEY_ARE: [&str; 2] = ["{}", "{\"\":{},\"a\":[1,\"A\"],\"b\":-1}"];

const KEPT_OTHERWISE: [&str; 8] = [
    "",
    "[]",
    "{}\n",
    "{\"a\": 1}",
    "{\"b\":2,\"a\":1}",
    "{\"a\":1,\"a\":1}",
    "{\"a\":1.5}",
    "{\"a\":\"\\u0041\"}",
];

fn are_object_texts(
    rt: &(impl Abort + AllocGlobal),
    texts: &[&str],
    are: bool,
) -> Result<(), Fail> {
    for text in texts {
        assert!(rt; is_object_text(rt.alloc(), *text)? == are, "at {text}");
    }
    Ok(())
}

#[test]
fn tells_object_texts(rt: HostRuntime) -> Result<(), Fail> {
    are_object_texts(&rt, &KEPT_AS_THEY_ARE, true)?;
    are_object_texts(&rt, &KEPT_OTHERWISE, false)
}

fn nested(alloc: Global, arrays: usize) -> Result<String, TextFault> {
    let mut text = String::from_str(alloc, "{\"x\":")?;
    for _ in 0..arrays {
        text.push_str("[")?;
    }
    for _ in 0..arrays {
        text.push_str("]")?;
    }
    text.push_str("}")?;
    Ok(text)
}

/// Whether that depth is read, and written as it came.
fn nests(alloc: Global, arrays: usize) -> Result<bool, TextFault> {
    let text = nested(alloc, arrays)?;
    let compact = compacted(alloc, text.as_str())?;
    Ok(compact.as_str() == text.as_str())
}

fn is_too_deep(alloc: Global, arrays: usize) -> Result<bool, TextFault> {
    let text = nested(alloc, arrays)?;
    Ok(is_fault(alloc, text.as_bytes(), TextFault::NotJson))
}

#[test]
fn nests_127_deep(rt: HostRuntime) -> Result<(), Fail> {
    assert!(rt; nests(rt.alloc(), 126)?);
    assert!(rt; is_too_deep(rt.alloc(), 127)?);
    Ok(())
}

const EACH_KIND: &str =
    "{\"null\":null,\"flag\":true,\"whole\":18446744073709551615,\"negative\":-1,\"text\":\"é\",\"list\":[1,{\"k\":false},{}],\"object\":{\"k\":null,\"inner\":{\"n\":5}}}";

/// Whether this holds of an object with a member of each kind.
fn holds_of_each_kind<Holds: Fn(&Object) -> bool>(
    alloc: Global,
    holds: Holds,
) -> Result<bool, TextFault>
    requires { Holds.IsAlwaysCallable holds }
{
    let object = read_object(alloc, EACH_KIND.as_bytes())?;
    let held = holds(&object);
    drop(object);
    Ok(held)
}

fn has_each_kind(object: &Object) -> bool {
    object.text("text") == Ok(Some("é"))
        && object.flag("flag") == Ok(Some(true))
        && object.whole("whole") == Ok(Some(18446744073709551615))
        && matches!(object.list("list"), Ok(Some(_)))
        && matches!(object.object("object"), Ok(Some(_)))
}

#[test]
fn looks_up_each_kind(rt: HostRuntime) -> Result<(), Fail> {
    assert!(rt; holds_of_each_kind(rt.alloc(), has_each_kind)?);
    Ok(())
}

/// Whether that is the compact text of the object, where there is one.
fn is_compact(alloc: Global, object: Option<ObjectRef<'_>>, compact: &str) -> bool {
    match object {
        Some(object) => object
            .compact(alloc)
            .is_ok_and(|text| text.as_str() == compact),
        None => false,
    }
}

fn compacts_an_inner_object(alloc: Global, object: &Object) -> bool {
    match object.object("object") {
        Ok(inner) => is_compact(alloc, inner, "{\"inner\":{\"n\":5},\"k\":null}"),
        Err(_) => false,
    }
}

#[test]
fn compacts_inner_objects(rt: HostRuntime) -> Result<(), Fail> {
    let alloc = rt.alloc();
    assert!(rt; holds_of_each_kind(alloc, |object| compacts_an_inner_object(alloc, object))?);
    Ok(())
}

/// Whether nothing but null is under that name.
fn is_absent(object: &Object, name: &str) -> bool {
    object.text(name) == Ok(None)
        && object.flag(name) == Ok(None)
        && object.whole(name) == Ok(None)
        && matches!(object.list(name), Ok(None))
        && matches!(object.object(name), Ok(None))
}

fn are_absent(rt: &impl Abort, object: &Object, names: &[&str]) {
    for name in names {
        assert!(rt; is_absent(object, *name), "at {name}");
    }
}

#[test]
fn null_and_absent_members_are_none(rt: HostRuntime) -> Result<(), Fail> {
    let object = read_object(rt.alloc(), EACH_KIND.as_bytes())?;
    are_absent(&rt, &object, &["null", "absent", "", "Text"]);
    drop(object);
    Ok(())
}

/// Whether the look-up of a member of some kind under that name answers that the kind is wrong,
/// where the name isn't the kind's.
fn is_refused(name: &str, kind: &str, fault: Option<TextFault>) -> bool {
    name == kind || fault == Some(TextFault::WrongKind)
}

/// Whether each look-up for another kind than that of its name answers that the kind is wrong.
fn is_of_its_kind_alone(object: &Object, name: &str) -> bool {
    is_refused(name, "text", object.text(name).err())
        && is_refused(name, "flag", object.flag(name).err())
        && is_refused(name, "whole", object.whole(name).err())
        && is_refused(name, "list", object.list(name).err())
        && is_refused(name, "object", object.object(name).err())
}

fn are_of_their_kinds_alone(rt: &impl Abort, object: &Object, names: &[&str]) {
    for name in names {
        assert!(rt; is_of_its_kind_alone(object, *name), "at {name}");
    }
}

#[test]
fn tells_wrong_kinds(rt: HostRuntime) -> Result<(), Fail> {
    let object = read_object(rt.alloc(), EACH_KIND.as_bytes())?;
    are_of_their_kinds_alone(
        &rt,
        &object,
        &["flag", "whole", "negative", "text", "list", "object"],
    );
    drop(object);
    Ok(())
}

/// Whether a borrowed object has these of its members.
fn has_its_members(borrowed: &ObjectRef<'_>) -> bool {
    borrowed.text("text") == Ok(Some("é"))
        && borrowed.flag("flag") == Ok(Some(true))
        && borrowed.flag("null") == Ok(None)
        && borrowed.whole("whole") == Ok(Some(18446744073709551615))
        && member(borrowed.value(), "text").is_some()
}

fn tells_other_kinds(borrowed: &ObjectRef<'_>) -> bool {
    borrowed.text("flag") == Err(TextFault::WrongKind)
        && borrowed.whole("negative") == Err(TextFault::WrongKind)
        && borrowed.list("object").is_err()
        && borrowed.object("list").is_err()
}

#[test]
fn looks_into_borrowed_objects(rt: HostRuntime) -> Result<(), Fail> {
    assert!(rt;
        holds_of_each_kind(
            rt.alloc(),
            |object| has_its_members(&object.as_object_ref())
        )?
    );
    assert!(rt;
        holds_of_each_kind(
            rt.alloc(),
            |object| tells_other_kinds(&object.as_object_ref())
        )?
    );
    Ok(())
}

fn has_three_items(object: &Object) -> bool {
    match object.as_object_ref().list("list") {
        Ok(Some(list)) => list.len() == 3,
        _ => false,
    }
}

#[test]
fn looks_into_lists(rt: HostRuntime) -> Result<(), Fail> {
    assert!(rt; holds_of_each_kind(rt.alloc(), has_three_items)?);
    Ok(())
}

/// The object of that name in another.
fn inner<'a>(object: &ObjectRef<'a>, name: &str) -> Option<ObjectRef<'a>> {
    object.object(name).ok()?
}

/// The number in an object of an object of this one.
fn innermost_number(object: &ObjectRef<'_>) -> Option<u64> {
    let outer = inner(object, "object")?;
    let innermost = inner(&outer, "inner")?;
    innermost.whole("n").ok()?
}

fn has_inner_objects(object: &Object) -> bool {
    innermost_number(&object.as_object_ref()) == Some(5)
        && member(object.value(), "object").is_some()
}

#[test]
fn looks_into_inner_objects(rt: HostRuntime) -> Result<(), Fail> {
    assert!(rt; holds_of_each_kind(rt.alloc(), has_inner_objects)?);
    Ok(())
}

/// Whether an object and what is borrowed of it have one compact text.
fn is_compacted_alike(alloc: Global, object: &Object) -> bool {
    match object.compact(alloc) {
        Ok(compact) => is_compact(alloc, Some(object.as_object_ref()), compact.as_str()),
        Err(_) => false,
    }
}

#[test]
fn compacts_borrowed_objects(rt: HostRuntime) -> Result<(), Fail> {
    let alloc = rt.alloc();
    assert!(rt; holds_of_each_kind(alloc, |object| is_compacted_alike(alloc, object))?);
    Ok(())
}

fn is_false(object: Option<ObjectRef<'_>>, name: &str) -> bool {
    match object {
        Some(object) => object.flag(name) == Ok(Some(false)),
        None => false,
    }
}

/// Whether the list holds no object, an object with a flag, and an empty one.
fn has_its_items(alloc: Global, object: &Object) -> bool {
    match object.list("list") {
        Ok(Some([number, first, last])) => {
            ObjectRef::of(number).is_none()
                && is_false(ObjectRef::of(first), "k")
                && is_compact(alloc, ObjectRef::of(last), "{}")
        }
        _ => false,
    }
}

#[test]
fn reads_items(rt: HostRuntime) -> Result<(), Fail> {
    let alloc = rt.alloc();
    assert!(rt; holds_of_each_kind(alloc, |object| has_its_items(alloc, object))?);
    Ok(())
}

/// Whether the value of the list is given whole, and has items but no members.
fn reads_a_list(alloc: Global, object: &Object) -> bool {
    match member(object.value(), "list") {
        Some(list) => {
            compact_text(alloc, list).is_ok_and(|text| text.as_str() == "[1,{\"k\":false},{}]")
                && items(list).is_some_and(|items| items.len() == 3)
                && member(list, "k").is_none()
        }
        None => false,
    }
}

/// Whether the value of an object has no items, and no members that are null or absent.
fn reads_an_object(object: &Object) -> bool {
    items(object.value()).is_none()
        && member(object.value(), "null").is_none()
        && member(object.value(), "absent").is_none()
}

#[test]
fn reads_values(rt: HostRuntime) -> Result<(), Fail> {
    let alloc = rt.alloc();
    assert!(rt; holds_of_each_kind(alloc, |object| reads_a_list(alloc, object))?);
    assert!(rt; holds_of_each_kind(alloc, reads_an_object)?);
    Ok(())
}

/// A text of two pieces.
fn two_pieces(alloc: Global) -> Result<Text, AllocError> {
    let mut text = Text::new(alloc);
    text.push_str("é")?;
    text.push_str("a")?;
    Ok(text)
}

fn is_the_same(text: &Text, other: &Text) -> bool {
    text == other && text.as_str() == "éa" && text.len() == 3 && !other.is_empty()
}

/// Whether a text is equal to a copy of it.
fn is_copied(text: &Text) -> Result<bool, AllocError> {
    let copy = text.clone()?;
    Ok(is_the_same(text, &copy))
}

#[test]
fn keeps_texts(rt: HostRuntime) -> Result<(), Fail> {
    assert!(rt; is_copied(&two_pieces(rt.alloc())?)?);
    assert!(rt; String::from(two_pieces(rt.alloc())?).as_str() == "éa");
    assert!(rt; Text::new(rt.alloc()).is_empty());
    Ok(())
}

/// Two texts, and how the first compares to the second.
const ORDERED: [(&str, &str, Ordering); 5] = [
    ("", "a", Ordering::Less),
    ("a", "a", Ordering::Equal),
    ("aa", "b", Ordering::Less),
    ("a", "B", Ordering::Greater),
    ("z", "é", Ordering::Less),
];

fn is_ordered(text: &Text, other: &Text, order: Ordering) -> bool {
    let is_equal = order == Ordering::Equal;
    text.cmp(other) == order
        && text.partial_cmp(other) == Some(order)
        && (text == other) == is_equal
}

fn stands(alloc: Global, text: &str, other: &str, order: Ordering) -> Result<bool, AllocError> {
    let text = Text::from_str(alloc, text)?;
    let other = Text::from_str(alloc, other)?;
    Ok(is_ordered(&text, &other, order))
}

#[test]
fn orders_texts(rt: HostRuntime) -> Result<(), Fail> {
    for (a, b, order) in &ORDERED {
        assert!(rt; stands(rt.alloc(), *a, *b, *order)?, "at {a}, {b}");
    }
    Ok(())
}

const IDS: [&str; 6] = ["a", " ", "a/b", "~", "\u{a0}", "é😀"];

const WITH_CONTROLS: [&str; 6] = ["\0", "a\u{1f}", "\u{7f}b", "\u{80}", "c\u{9f}", "\n"];

fn are_ids(rt: &impl Abort, texts: &[&str]) {
    for text in texts {
        assert!(rt; is_id(*text), "at {text}");
    }
}

fn have_controls(rt: &impl Abort, texts: &[&str]) {
    for text in texts {
        assert!(rt; !is_id(*text) && !has_no_controls(*text), "at {text}");
    }
}

/// So many letters of two bytes each, and what follows them.
fn long_text(alloc: Global, letters: usize, end: &str) -> Result<String, AllocError> {
    let mut text = String::new(alloc);
    for _ in 0..letters {
        text.push_str("é")?;
    }
    text.push_str(end)?;
    Ok(text)
}

fn is_too_long(text: &str) -> bool {
    !is_id(text) && has_no_controls(text)
}

#[test]
fn tells_ids(rt: HostRuntime) -> Result<(), Fail> {
    are_ids(&rt, &IDS);
    have_controls(&rt, &WITH_CONTROLS);
    assert!(rt; !is_id("") && has_no_controls(""));
    assert!(rt; is_id(long_text(rt.alloc(), 128, "")?.as_str()));
    assert!(rt; is_too_long(long_text(rt.alloc(), 128, "a")?.as_str()));
    Ok(())
}

#[test]
fn laws_hold() {
    laws::canonical();
    laws::exact();
    laws::in_byte_order();
    laws::readable();
    laws::readable_member();
    laws::reads_back();
    laws::object_text();
    laws::empty_object();
}
