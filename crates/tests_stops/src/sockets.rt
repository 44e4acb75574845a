//! Connections over a socket, with the client and the program in one thread.

use osb_broker::{Broker, Buffer};
use osb_catalog::Settings;
use osb_file::{DatabaseFile, WatchedFile};
use osb_frames::{Counted, Limits};
use osb_listen::{Entrance, ListenFault, ListenOptions, TcpEntrance, serve_listener};
use sqlite::Alter;
use std::io::{self, Read, Write};
use std::net::{TcpListener, TcpStream};
use std::test::Fail;
use std::time::Duration;
use std::{env, fs};
use tests_support::catalogs::built_in;
use tests_support::serving::new_broker;
use tests_support::whole::{CREATED_LAST, PUT_I};

/// An address of this machine at which nobody listens.
fn free_address(rt: &HostRuntime) -> Result<String, Fail> {
    let listener = TcpListener::bind(rt, "127.0.0.1:0")?;
    Ok(format!(in rt.alloc(); "{}", listener.local_addr()?)?)
}

/// Where one client is taken.
fn place_at(address: &str) -> ListenOptions<'_> {
    let limit = Duration::from_secs(10);
    ListenOptions {
        database: "",
        existing: false,
        address,
        connections: 1,
        time_limit: limit,
        idle_limit: limit,
        together: 1,
    }
}

/// A client of this address that has sent these bytes, and keeps its sending side open.
fn connected(rt: &HostRuntime, address: &str, bytes: &[u8]) -> io::Result<TcpStream> {
    let client = TcpStream::connect(rt, address)?;
    (&mut &client).write_all(bytes)?;
    Ok(client)
}

/// How serving ends, and what is written on standard error.
type Served = (Result<(), ListenFault>, Vec<u8>);

/// How the loop over one client ends, as long as this file is there, and what is written on standard error.
fn looped_over<S: Alter>(
    rt: &HostRuntime,
    broker: &mut Broker<'_, S>,
    entrance: &mut TcpEntrance<'_>,
    file: &WatchedFile<'_>,
) -> Result<Served, Fail> {
    let mut buffer = Buffer::new(rt.alloc(), &Limits::STANDARD)?;
    let mut errors = Counted::new(Vec::new(rt.alloc()));
    let ended = serve_listener(rt, broker, &mut buffer, entrance, file, 1, &mut errors);
    entrance.finish();
    drop(buffer);
    Ok((ended, errors.into_inner()))
}

/// The same of a new broker, which takes one request of a connection.
fn served_with(
    rt: &HostRuntime,
    settings: &Settings,
    entrance: &mut TcpEntrance<'_>,
    file: &WatchedFile<'_>,
) -> Result<Served, Fail> {
    let mut broker = new_broker(rt.alloc(), settings, 1)?;
    let looped = looped_over(rt, &mut broker, entrance, file);
    drop(broker);
    looped
}

/// The same with the built-in settings.
fn served(
    rt: &HostRuntime,
    entrance: &mut TcpEntrance<'_>,
    file: &WatchedFile<'_>,
) -> Result<Served, Fail> {
    let settings = built_in(rt.alloc())?;
    let served = served_with(rt, &settings, entrance, file);
    drop(settings);
    served
}

/// Makes an empty log beside a file.
fn make_log(rt: &HostRuntime, path: &str) -> Result<(), Fail> {
    let log = format!(in rt.alloc(); "{path}-wal")?;
    Ok(fs::write(rt, log.as_str(), "")?)
}

/// The path of the file of that name.
fn path_of(rt: &HostRuntime, name: &str) -> Result<String, Fail> {
    let folder = env::temp_dir(rt)?;
    Ok(format!(in rt.alloc(); "{}/{name}", folder.display())?)
}

/// What is written on standard error for a client that a broker serves over a file of that name.
fn reported(rt: &HostRuntime, entrance: &mut TcpEntrance<'_>, name: &str) -> Result<Vec<u8>, Fail> {
    let path = path_of(rt, name)?;
    let file = DatabaseFile::at(rt, path.as_str(), false)?;
    make_log(rt, path.as_str())?;
    let served = served(rt, entrance, &file.watched(rt));
    drop(file);
    let (ended, errors) = served?;
    match ended {
        Ok(()) => Ok(errors),
        Err(fault) => {
            drop(fault);
            drop(errors);
            Err("a fault")?
        }
    }
}

/// The same for a client that has sent these bytes, and what it reads.
fn answered(rt: &HostRuntime, bytes: &[u8], name: &str) -> Result<(Vec<u8>, Vec<u8>), Fail> {
    let address = free_address(rt)?;
    let mut entrance = TcpEntrance::new(rt);
    if entrance.listen(&place_at(address.as_str())).is_err() {
        return Err("nobody listens")?;
    }
    let client = connected(rt, address.as_str(), bytes)?;
    let reported = reported(rt, &mut entrance, name);
    drop(entrance);
    let errors = reported?;
    let mut text = Vec::new(rt.alloc());
    (&mut &client).read_to_end(&mut text)?;
    Ok((text, errors))
}

#[test]
fn a_client_reads_its_reply(rt: HostRuntime) -> Result<(), Fail> {
    let (text, errors) = answered(&rt, PUT_I, "osb_listen_reply.db")?;
    assert_eq!(rt; text.as_slice(), CREATED_LAST);
    assert!(rt; errors.is_empty());
    Ok(())
}
