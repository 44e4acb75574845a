//! Conversations that several crates of tests have.

use crate::asks::*;
use crate::exchange::Exchange;
use crate::replies::*;

/// A binding that a backend makes and takes away, and the end of its instance.
pub const ASYNC_BINDING: [Exchange; 14] = [
    (PUT_LATER, ASYNC, ACCEPTED, CREATE_1),
    (REPORT_1, SUCCEEDED, OK, "{}"),
    (BIND_LATER, TO_ASYNC, ACCEPTED, BIND_2),
    (GET_BINDING, "", NOT_FOUND, "{}"),
    (
        REPORT_2,
        r#"{"state":"succeeded","credentials":{"k":"v"}}"#,
        OK,
        "{}",
    ),
    (
        GET_BINDING,
        "",
        OK,
        r#"{"credentials":{"k":"v"},"parameters":{}}"#,
    ),
    (DELETE_LATER, "", UNPROCESSABLE, BINDINGS_REMAIN),
    (UNBIND_LATER, "", ACCEPTED, UNBIND_3),
    (
        ORDERS,
        "",
        OK,
        r#"{"orders":[{"app_guid":"","bind_resource":{},"binding_id":"b","instance_id":"i","kind":"unbind","parameters":{},"plan_id":"p-async","seq":3,"service_id":"svc"}]}"#,
    ),
    (DELETE_LATER, "", UNPROCESSABLE, BUSY),
    (REPORT_3, SUCCEEDED, OK, "{}"),
    (POLL_BINDING, "", GONE, "{}"),
    (GET_BINDING, "", NOT_FOUND, "{}"),
    (DELETE_LATER, "", ACCEPTED, r#"{"operation":"delete-4"}"#),
];
