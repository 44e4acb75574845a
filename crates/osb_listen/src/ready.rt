//! Whether the program answers at an address.

ghost use Rattle.std.specs.Prelude.{◌≡◌, ◌≤◌, bytes_eq, IfOk, OnOk, IfErr};
ghost use Rattle.osb_listen.specs.declared.ready.Unready.TheVariants.{NoAddress};
ghost use Rattle.osb_listen.specs.Listen.{IsAddress};
ghost use Rattle.osb_listen.specs.Ready.{ready_answer};

use crate::deadline::Deadline;
use std::io::{self, Read, Write};
use std::net::{SocketAddr, TcpStream};
use std::time::Duration;
use std::{fs, thread};
use thiserror::Error;

/// A request that takes no login and changes nothing.
const REQUEST: &[u8] = b"GET / HTTP/1.1\r\nHost: osb-broker\r\nConnection: close\r\n\r\n";

/// More bytes than its answer has.
const ROOM: usize = 128;

/// How long one try may take.
const TRY_MILLISECONDS: u64 = 2000;

/// How long is waited between two tries.
const PAUSE_MILLISECONDS: u64 = 100;

/// More tries than a day has room for.
const MOST_TRIES: u32 = 1_000_000;

/// Why a program isn't ready.
#[derive(Clone, Copy, Debug, PartialEq, Eq, Error)]
pub enum Unready {
    /// The text is no IP address with a port.
    #[error("the text is no address")]
    NoAddress,
    /// The time is over, or the process is gone, and nobody has answered as the program does.
    #[error("the program doesn't answer")]
    NotReady,
}

/// The program's answer to that request.
fn answer() -> &'static [u8]
    ensures { result.now ≡ ready_answer }
{
    b"HTTP/1.1 404 Not Found\r\nContent-Type: application/json\r\nContent-Length: 2\r\nConnection: close\r\n\r\n{}"
}

/// Whether these bytes are that answer.
fn is_answer(bytes: &[u8]) -> bool
    ensures { result ≡ bytes_eq bytes.now ready_answer }
{
    bytes == answer()
}

/// Reads until the other side sends no more, or the room is full.
fn read_answer(
    stream: &mut TcpStream,
    deadline: Deadline<'_>,
    room: &mut [u8; ROOM],
) -> io::Result<usize>
    ensures { IfOk result (λ n. n ≤ 128) }
{
    let mut done = 0;
    while done < ROOM {
        stream.set_read_timeout(Some(deadline.left()?))?;
        match stream.read(&mut room[done..])? {
            0 => return Ok(done),
            count => done += count,
        }
    }
    Ok(done)
}

/// Whether the program answers at an address within that time.
fn answers(rt: &HostRuntime, address: &SocketAddr, limit: Duration) -> io::Result<bool> {
    let deadline = Deadline::after(rt, limit);
    let mut stream = TcpStream::connect_timeout(rt, address, limit)?;
    stream.set_write_timeout(Some(deadline.left()?))?;
    stream.write_all(REQUEST)?;
    let mut room = [0; ROOM];
    let count = read_answer(&mut stream, deadline, &mut room)?;
    Ok(is_answer(&room[..count]))
}

/// Whether a process is gone, by its folder in `/proc`.
fn is_gone(rt: &HostRuntime, process: Option<&str>) -> bool {
    match process {
        Some(folder) => matches!(fs::exists(rt, folder), Ok(false)),
        None => false,
    }
}

/// The address of a text.
fn address_of(text: &str) -> Result<SocketAddr, Unready>
    ensures address { OnOk result (IsAddress text.now) }
    ensures fault { IfErr result (λ fault. fault ≡ NoAddress) }
{
    match text.parse::<SocketAddr>() {
        Ok(address) => Ok(address),
        Err(_) => Err(Unready::NoAddress),
    }
}

/// Waits until the program answers at an address. It gives up after that time, or once a process is gone, whose
/// folder in `/proc` may be named.
pub fn wait_until_ready(
    rt: &HostRuntime,
    address: &str,
    within: Duration,
    process: Option<&str>,
) -> Result<(), Unready>
    ensures address { OnOk result (IsAddress address.now) }
{
    let address = address_of(address)?;
    let deadline = Deadline::after(rt, within);
    for _ in 0..MOST_TRIES {
        let Ok(left) = deadline.left() else {
            break;
        };
        let limit = left.min(Duration::from_millis(TRY_MILLISECONDS));
        let is_ready = matches!(answers(rt, &address, limit), Ok(true));
        if is_gone(rt, process) {
            break;
        }
        if is_ready {
            return Ok(());
        }
        thread::sleep(rt, Duration::from_millis(PAUSE_MILLISECONDS));
    }
    Err(Unready::NotReady)
}
