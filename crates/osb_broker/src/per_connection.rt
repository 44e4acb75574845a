//! How many requests a connection may have.

ghost use Rattle.std.specs.Prelude.{◌≡◌, ◌==◌};
ghost use Rattle.osb_broker.specs.PerConnection.{IsPerConnection};

/// A number of requests, from 1 to 1,000.
#[derive(Clone, Copy)]
pub(crate) struct PerConnection {
    pub(crate) number: u32,
    ghost allowed: { IsPerConnection number },
}

impl PerConnection {
    /// Whether the first request is the last one.
    pub(crate) fn is_one(self) -> bool
        ensures { result ≡ (self.number == 1) }
    {
        self.number == 1
    }
}
