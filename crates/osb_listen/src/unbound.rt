//! Why connections can't be taken at an address.

ghost use Rattle.std.specs.Prelude.{◌≡◌, ◌≢◌, Some};
ghost use Rattle.osb_listen.specs.declared.unbound.Unbound.TheVariants.{NoAddress};
ghost use Rattle.osb_listen.specs.Listen.{IsAddress, unbound_text};

use std::io::ErrorKind;
use std::net::{SocketAddr, TcpListener};

/// Why connections can't be taken at an address.
#[derive(Clone, Copy, Debug, PartialEq, Eq)]
pub enum Unbound {
    /// It isn't an IP address and a port.
    NoAddress,
    /// This user has no right to it, as to a port below 1024.
    NoRight,
    /// Another program takes connections there.
    InUse,
    /// This machine doesn't have the address.
    NotHere,
}

impl Unbound {
    /// The cause in words.
    pub fn text(self) -> &'static str
        ensures { result.now ≡ unbound_text self }
    {
        match self {
            Unbound::NoAddress => "not an IP address and a port",
            Unbound::NoRight => "no right to this port",
            Unbound::InUse => "in use",
            Unbound::NotHere => "not an address of this machine",
        }
    }
}

/// Why no connection could be taken at an address, which is tried once more; nothing if the cause has gone, or is
/// another.
pub fn unbound_at(rt: &HostRuntime, address: &str) -> Option<Unbound>
    ensures address { result ≢ Some NoAddress → IsAddress address.now }
{
    let Ok(parsed) = address.parse::<SocketAddr>() else {
        return Some(Unbound::NoAddress);
    };
    let Err(error) = TcpListener::bind(rt, parsed) else {
        return None;
    };
    match error.kind() {
        ErrorKind::PermissionDenied => Some(Unbound::NoRight),
        ErrorKind::AddrInUse => Some(Unbound::InUse),
        ErrorKind::AddrNotAvailable => Some(Unbound::NotHere),
        _ => None,
    }
}
