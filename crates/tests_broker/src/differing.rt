//! Conversations that are written otherwise than they go, and lines that may not stand where they are.

use std::alloc::Global;
use std::test::Fail;
use tests_worked::conversations::{Group, read, read_line};
use tests_worked::held::hold;

/// How many differences there are in the conversations of a text.
fn count_in(alloc: Global, text: &str) -> Result<usize, Fail> {
    let groups = read(alloc, text)?;
    let mut count: usize = 0;
    for group in &groups {
        count = count.saturating_add(count_of(alloc, group)?);
    }
    Ok(count)
}

fn count_of(alloc: Global, group: &Group) -> Result<usize, Fail> {
    let mut count: usize = 0;
    for conversation in &group.conversations {
        count = count.saturating_add(hold(alloc, conversation)?.len());
    }
    Ok(count)
}

const BODY: &str =
    r#"| {"service_id":"svc","plan_id":"p-sync","organization_guid":"o","space_guid":"s"}"#;

const ORDER: &str = "* create-1 succeeded svc p-sync o s {} - {} - - {}";

const STATE: &str = "= Ready svc p-sync o s {} - {}";

/// The first line of a request that creates an instance, what is written behind its body, and how many
/// differences there are. A reply is compared in both runs.
static WRITTEN: [(&str, &str, usize); 12] = [
    (">", "< 201 Created {}", 0),
    (">", "< 200 OK {}", 2),
    (">", "< 201 Created {\"a\":1}", 2),
    (">", "< 201 Created", 2),
    (">", "< 201 Created {}\n= Absent", 1),
    (">", "< 201 Created {}\n*", 1),
    (">", "< 201 Created {}\n* create-1 failed", 1),
    (">", "< 201 Created {}\n@ j b\n= Absent\n*", 0),
    ("?", "< 201 Created {}", 1),
    ("?", "< 200 OK {}\nORDER", 1),
    ("?", "< 201 Created {}\n* create-2", 1),
    ("?", "< 201 Created {}\nORDER\n= Absent\n*", 0),
];

/// The differences in a conversation with this request.
fn count_with(alloc: Global, mark: &str, behind: &str) -> Result<usize, Fail> {
    let behind = behind.replacen(alloc, "ORDER", ORDER, 1)?;
    let text = format!(in alloc;
        "=== a\n== b\n{mark} PUT /v2/service_instances/i\n{BODY}\n{behind}\n"
    )?;
    count_in(alloc, text.as_str())
}

#[test]
fn what_is_written_otherwise_is_a_difference(rt: HostRuntime) -> Result<(), Fail> {
    for (mark, behind, expected) in &WRITTEN {
        let found = count_with(rt.alloc(), *mark, *behind)?;
        assert_eq!(rt; found, *expected, "{mark} {behind}");
    }
    Ok(())
}

/// The state and the orders are those behind the request.
#[test]
fn what_is_written_is_found(rt: HostRuntime) -> Result<(), Fail> {
    let alloc = rt.alloc();
    let behind = format!(in alloc; "< 201 Created {{}}\n{STATE}\nORDER")?;
    assert_eq!(rt; count_with(alloc, ">", behind.as_str())?, 0);
    Ok(())
}

/// Lines, and whether the last of them may stand behind the others.
static LINES: [(&[&str], bool); 13] = [
    (&["=== a"], true),
    (&["# a"], true),
    (&[""], true),
    (&["== a"], false),
    (&["> GET /"], false),
    (&["=== a", "> GET /"], false),
    (&["=== a", "== b", "> GET /"], true),
    (&["=== a", "== b", "~ r1"], false),
    (&["=== a", "== b", "> GET /", "~ r1"], true),
    (&["=== a", "== b", "< 200 OK {}"], false),
    (&["=== a", "== b", "> GET /", "< 200 OK {}"], true),
    (&["=== a", "== b", "> GET /", "- 200 OK {}"], false),
    (&["=== a", "== b", "> GET /", " < 200 OK {}"], false),
];

/// Whether the last of the lines may stand behind the others.
fn may_stand(alloc: Global, lines: &[&str]) -> Result<bool, Fail> {
    let mut groups = Vec::new(alloc);
    let mut may = true;
    for line in lines {
        may = read_line(alloc, &mut groups, *line)?;
    }
    Ok(may)
}

#[test]
fn lines_have_their_places(rt: HostRuntime) -> Result<(), Fail> {
    for (lines, may) in &LINES {
        assert_eq!(rt; may_stand(rt.alloc(), *lines)?, *may);
    }
    Ok(())
}
