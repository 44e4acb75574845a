//! Statuses and fixed bodies of replies.

pub const OK: &str = "200 OK";

pub const CREATED: &str = "201 Created";

pub const ACCEPTED: &str = "202 Accepted";

pub const NOT_FOUND: &str = "404 Not Found";

pub const GONE: &str = "410 Gone";

pub const UNPROCESSABLE: &str = "422 Unprocessable Entity";

pub const BUSY: &str =
    r#"{"description":"Another operation is in progress.","error":"ConcurrencyError"}"#;

pub const BINDINGS_REMAIN: &str = r#"{"description":"The instance still has bindings."}"#;
