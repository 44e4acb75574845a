//! The asks of the conversations: on the instance `i` and on its binding `b`.

pub const PUT: &str = "PUT /v2/service_instances/i";

pub const PUT_LATER: &str = "PUT /v2/service_instances/i?accepts_incomplete=true";

pub const GET: &str = "GET /v2/service_instances/i";

pub const PATCH: &str = "PATCH /v2/service_instances/i";

pub const DELETE: &str = "DELETE /v2/service_instances/i?service_id=svc&plan_id=p-sync";

pub const DELETE_LATER: &str =
    "DELETE /v2/service_instances/i?service_id=svc&plan_id=p-async&accepts_incomplete=true";

pub const POLL: &str = "GET /v2/service_instances/i/last_operation";

pub const BIND_LATER: &str =
    "PUT /v2/service_instances/i/service_bindings/b?accepts_incomplete=true";

pub const GET_BINDING: &str = "GET /v2/service_instances/i/service_bindings/b";

pub const UNBIND_LATER: &str =
    "DELETE /v2/service_instances/i/service_bindings/b?service_id=svc&plan_id=p-async&accepts_incomplete=true";

pub const POLL_BINDING: &str = "GET /v2/service_instances/i/service_bindings/b/last_operation";

pub const ORDERS: &str = "GET /backend/v1/orders";

pub const REPORT_1: &str = "PUT /backend/v1/orders/i/1";

pub const REPORT_2: &str = "PUT /backend/v1/orders/i/2";

pub const REPORT_3: &str = "PUT /backend/v1/orders/i/3";

pub const SYNC: &str =
    r#"{"service_id":"svc","plan_id":"p-sync","organization_guid":"o","space_guid":"s"}"#;

pub const ASYNC: &str =
    r#"{"service_id":"svc","plan_id":"p-async","organization_guid":"o","space_guid":"s"}"#;

pub const SUCCEEDED: &str = r#"{"state":"succeeded"}"#;

pub const FAILED: &str = r#"{"state":"failed"}"#;

pub const IN_PROGRESS: &str = r#"{"state":"in progress"}"#;

pub const UPDATE_TO_1: &str = r#"{"service_id":"svc","parameters":{"n":1}}"#;

pub const TO_ASYNC: &str = r#"{"service_id":"svc","plan_id":"p-async"}"#;

pub const CREATE_1: &str = r#"{"operation":"create-1"}"#;

pub const BIND_2: &str = r#"{"operation":"bind-2"}"#;

pub const UNBIND_3: &str = r#"{"operation":"unbind-3"}"#;
