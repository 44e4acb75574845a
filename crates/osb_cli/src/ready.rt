//! `ready`: whether the program answers at an address.

ghost use Rattle.std.specs.Prelude.{IfErr, OnOk};
ghost use Rattle.osb_listen.specs.Listen.{IsAddress};
ghost use Rattle.osb_cli.specs.Inside.{IsOther};

use crate::fault::Fault;
use crate::words::Ready;
use osb_listen::{Unready, wait_until_ready};

/// The fault of the command, where an answer was waited for at this address.
fn unready(fault: Unready, address: &str) -> Fault<'_>
    ensures { IsOther result }
{
    match fault {
        Unready::NoAddress => Fault::NoAddress(address),
        Unready::NotReady => Fault::NotReady(address),
    }
}

/// Waits until the program answers at an address.
pub(crate) fn ready<'a>(rt: &HostRuntime, asked: &Ready<'a>) -> Result<(), Fault<'a>>
    ensures address { OnOk result (IsAddress asked.now.address.now) }
    ensures other { IfErr result IsOther }
{
    let address = asked.address;
    let waited = match asked.process {
        None => wait_until_ready(rt, address, asked.within, None),
        Some(number) => {
            let folder = format!(in rt.alloc(); "/proc/{number}")?;
            wait_until_ready(rt, address, asked.within, Some(folder.as_str()))
        }
    };
    match waited {
        Ok(()) => Ok(()),
        Err(fault) => Err(unready(fault, address)),
    }
}
