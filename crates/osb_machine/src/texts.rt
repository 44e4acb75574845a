//! The bodies that have values in them.

ghost use Rattle.std.specs.Prelude.{◌≡◌, ◌++◌, IfOk, codes, string_bytes};
ghost use Rattle.json.specs.Print.{quoted};
ghost use Rattle.osb_orders.specs.Orders.{name_of};
ghost use Rattle.osb_machine.specs.Spliced.{state_pieces};
ghost use Rattle.osb_machine.specs.Texts.{instance_body, credentials_body, binding_body};

use osb_orders::{Attributes, BindingNow, Order, Outcome};
use osb_text::Text;
use serde_json::Value;
use std::alloc::{AllocError, Global};

/// The text as a JSON string.
pub(crate) fn in_quotes(alloc: Global, text: &Text) -> Result<String, AllocError>
    ensures { IfOk result (λ s. string_bytes s ≡ quoted text.now) }
{
    let string = String::from_str(alloc, text.as_str())?;
    Value::String(string).to_string(alloc)
}

/// The operation that goes on.
pub(crate) fn operation(alloc: Global, order: &Order) -> Result<String, AllocError>
    ensures { IfOk result (λ s. string_bytes s
        ≡ codes "{\"operation\":\"" ++ name_of order.now ++ codes "\"}") }
{
    let kind = order.kind.as_str();
    let number = order.number;
    format!(in alloc; "{{\"operation\":\"{kind}-{number}\"}}")
}

/// What an instance is.
pub(crate) fn instance(alloc: Global, instance: &Attributes) -> Result<String, AllocError>
    ensures { IfOk result (λ s. string_bytes s ≡ instance_body instance.now) }
{
    let parameters = instance.parameters.as_str();
    let plan = in_quotes(alloc, &instance.plan)?;
    let service = in_quotes(alloc, &instance.service)?;
    format!(in alloc; "{{\"parameters\":{parameters},\"plan_id\":{plan},\"service_id\":{service}}}")
}

/// What a binding hands out.
pub(crate) fn credentials(alloc: Global, credentials: &str) -> Result<String, AllocError>
    ensures { IfOk result (λ s. string_bytes s ≡ credentials_body credentials.now) }
{
    format!(in alloc; "{{\"credentials\":{credentials}}}")
}

/// What a binding is.
pub(crate) fn binding(alloc: Global, binding: &BindingNow) -> Result<String, AllocError>
    ensures { IfOk result (λ s. string_bytes s ≡ binding_body binding.now) }
{
    let credentials = binding.credentials.as_str();
    let parameters = binding.attributes.parameters.as_str();
    format!(in alloc; "{{\"credentials\":{credentials},\"parameters\":{parameters}}}")
}

/// The state of an order.
pub(crate) fn state(alloc: Global, outcome: &Outcome) -> Result<String, AllocError>
    ensures { IfOk result (λ s. string_bytes s ≡ state_pieces outcome.now) }
{
    let state = outcome.state.as_str();
    if outcome.description.len() == 0 {
        return format!(in alloc; "{{\"state\":\"{state}\"}}");
    }
    let description = in_quotes(alloc, &outcome.description)?;
    format!(in alloc; "{{\"description\":{description},\"state\":\"{state}\"}}")
}
