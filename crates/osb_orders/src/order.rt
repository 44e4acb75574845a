//! Orders with their attributes and outcomes, and the changes that a life may get.

ghost use Rattle.std.specs.Prelude.{◌≡◌, IfOk};

use osb_text::Text;
use std::alloc::{AllocError, Global};

/// What an order does.
#[derive(Clone, Copy, Debug, PartialEq, Eq)]
pub enum OrderKind {
    Create,
    Update,
    Delete,
    Bind,
    Unbind,
}

/// How far an order is.
#[derive(Clone, Copy, Debug, PartialEq, Eq)]
pub enum OrderState {
    Running,
    Succeeded,
    Failed,
}

/// What an order is for. `place` and `spot` are the organization and the space of an instance; of
/// a binding they are its `app_guid`, which may be empty, and its `bind_resource` as a compact text.
/// `context` is the platform's, a compact text.
#[derive(Clone, Debug, Drop, PartialEq, Eq)]
pub struct Attributes {
    pub service: Text,
    pub plan: Text,
    pub place: Text,
    pub spot: Text,
    pub parameters: Text,
    pub maintenance: Text,
    pub context: Text,
}

/// The state of an order, what its report said, and the credentials that a binding got. They are `{}`
/// for every order but a succeeded Bind.
#[derive(Clone, Debug, Drop, PartialEq, Eq)]
pub struct Outcome {
    pub state: OrderState,
    pub description: Text,
    pub credentials: Text,
}

/// One creation, update, deletion, binding or unbinding. Its `binding` is empty but for a Bind or an
/// Unbind.
#[derive(Clone, Debug, Drop, PartialEq, Eq)]
pub struct Order {
    pub number: u32,
    pub kind: OrderKind,
    pub binding: Text,
    pub attributes: Attributes,
    pub outcome: Outcome,
}

/// What a step does to the life of the instance that an ask names: nothing, one order more, or the
/// end of the order of that number, which is the last.
#[derive(Debug, Drop)]
pub enum Change {
    Nothing,
    Append(Order),
    Finish(u32, Outcome),
}

impl OrderKind {
    ghost use Rattle.osb_orders.specs.Orders.{kind_number, kind_text, is_about_binding};

    /// The number by which it is stored.
    pub fn number(self) -> u8
        ensures { result ≡ kind_number self }
    {
        match self {
            OrderKind::Create => 1,
            OrderKind::Update => 2,
            OrderKind::Delete => 3,
            OrderKind::Bind => 4,
            OrderKind::Unbind => 5,
        }
    }

    /// Whether it is Bind or Unbind.
    pub fn is_about_binding(self) -> bool
        ensures { result ≡ is_about_binding self }
    {
        match self {
            OrderKind::Create | OrderKind::Update | OrderKind::Delete => false,
            OrderKind::Bind | OrderKind::Unbind => true,
        }
    }

    /// Its word in names of orders and in listings.
    pub fn as_str(self) -> &'static str
        ensures { result.now ≡ kind_text self }
    {
        match self {
            OrderKind::Create => "create",
            OrderKind::Update => "update",
            OrderKind::Delete => "delete",
            OrderKind::Bind => "bind",
            OrderKind::Unbind => "unbind",
        }
    }
}

impl OrderState {
    ghost use Rattle.osb_orders.specs.Orders.{state_number, state_text};

    /// The number by which it is stored.
    pub fn number(self) -> u8
        ensures { result ≡ state_number self }
    {
        match self {
            OrderState::Running => 0,
            OrderState::Succeeded => 1,
            OrderState::Failed => 2,
        }
    }

    /// Its word in the answers to polls.
    pub fn as_str(self) -> &'static str
        ensures { result.now ≡ state_text self }
    {
        match self {
            OrderState::Running => "in progress",
            OrderState::Succeeded => "succeeded",
            OrderState::Failed => "failed",
        }
    }
}

impl Order {
    ghost use Rattle.osb_orders.specs.Orders.{is_a, is_now, has_succeeded, is_of_instance, is_of_binding, name_of};

    /// Whether the order is of that kind.
    pub fn is_a(&self, kind: OrderKind) -> bool
        ensures { result ≡ is_a kind self.now }
    {
        self.kind.number() == kind.number()
    }

    /// Whether the order is in that state.
    pub fn is_now(&self, state: OrderState) -> bool
        ensures { result ≡ is_now state self.now }
    {
        self.outcome.state.number() == state.number()
    }

    /// Whether the order is of that kind and has succeeded.
    pub fn has_succeeded(&self, kind: OrderKind) -> bool
        ensures { result ≡ has_succeeded kind self.now }
    {
        self.is_a(kind) && self.is_now(OrderState::Succeeded)
    }

    /// Whether it is a Create, an Update or a Delete.
    pub fn is_of_instance(&self) -> bool
        ensures { result ≡ is_of_instance self.now }
    {
        !self.kind.is_about_binding()
    }

    /// Whether it is a Bind or an Unbind of the binding.
    pub fn is_of_binding(&self, binding: &str) -> bool
        ensures { result ≡ is_of_binding binding.now self.now }
    {
        self.kind.is_about_binding() && self.binding.as_str() == binding
    }

    /// Its name, as `create-1`.
    pub fn name(&self, alloc: Global) -> Result<Text, AllocError>
        ensures { IfOk result (λ name. name ≡ name_of self.now) }
    {
        let name = format!(in alloc; "{}-{}", self.kind.as_str(), self.number)?;
        Ok(Text::from(name))
    }
}
