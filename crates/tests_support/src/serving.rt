//! Connections, and what a broker writes to them.

ghost use Rattle.std.specs.Prelude.{◌≤◌};

use crate::catalogs::built_in;
use crate::exchange::{Exchange, last_reply, request};
use osb_broker::{Broker, Buffer};
use osb_catalog::Settings;
use osb_frames::{Counted, Limits};
use osb_records::{Records, open_memory};
use sqlite::{Alter, MemStore};
use std::alloc::Global;
use std::io::{self, Read};
use std::test::Fail;

/// Gives so many bytes at a time.
#[derive(Drop)]
struct Pieces<'a> {
    bytes: &'a [u8],
    piece: usize,
}

impl<'a> Read for Pieces<'a> {
    fn read(&mut self, buf: &mut [u8]) -> io::Result<usize> {
        let n = self.bytes.len().min(buf.len()).min(self.piece);
        buf[..n].copy_from_slice(&self.bytes[..n]);
        self.bytes = &self.bytes[n..];
        Ok(n)
    }
}

/// A broker over these records.
pub fn broker_over<S: Alter + Drop>(
    alloc: Global,
    settings: &Settings,
    records: Records<S>,
    per_connection: u32,
) -> Result<Broker<'_, S>, Fail>
    requires some { 1 ≤ per_connection }
    requires few { per_connection ≤ 1000 }
{
    match Broker::new(alloc, settings, records, per_connection) {
        Ok(broker) => Ok(broker),
        Err(_) => Err("a broker")?,
    }
}

/// A broker without orders, which takes so many requests of a connection.
pub fn new_broker(
    alloc: Global,
    settings: &Settings,
    per_connection: u32,
) -> Result<Broker<'_, MemStore>, Fail>
    requires some { 1 ≤ per_connection }
    requires few { per_connection ≤ 1000 }
{
    broker_over(alloc, settings, open_memory(alloc)?, per_connection)
}

/// What the broker writes to a connection whose bytes come in pieces of that size.
pub fn output_of<S: Alter>(
    alloc: Global,
    broker: &mut Broker<'_, S>,
    bytes: &[u8],
    piece: usize,
) -> Result<Vec<u8>, Fail> {
    let mut buffer = Buffer::new(alloc, &Limits::STANDARD)?;
    let mut source = Counted::new(Pieces { bytes, piece });
    let mut sink = Counted::new(Vec::new(alloc));
    match broker.serve(&mut buffer, &mut source, &mut sink) {
        Ok(()) => Ok(sink.into_inner()),
        Err(_) => Err("a fault")?,
    }
}

/// Fails where one of these replies is another.
pub fn are_replies(alloc: Global, exchanges: &[Exchange], outputs: &[Vec<u8>]) -> Result<(), Fail> {
    if outputs.len() != exchanges.len() {
        return Err("as many outputs as connections")?;
    }
    for (exchange, output) in exchanges.iter().zip(outputs) {
        let (line, body, status, reply) = *exchange;
        if output.as_slice() != last_reply(alloc, status, reply)?.as_slice() {
            let told = format!(in alloc; "{line} {body}: not {status} {reply}")?;
            return Err(Fail::from(told));
        }
    }
    Ok(())
}

/// What the broker writes to the connections of these exchanges.
pub fn outputs_to<S: Alter>(
    alloc: Global,
    broker: &mut Broker<'_, S>,
    exchanges: &[Exchange],
) -> Result<Vec<Vec<u8>>, Fail> {
    let mut connections = Vec::new(alloc);
    for (line, body, _, _) in exchanges {
        connections.push(request(alloc, line, body)?)?;
    }
    Ok(broker.serve_all(connections.as_slice())?)
}

/// Fails where the broker answers one of these exchanges otherwise.
pub fn goes_on<S: Alter>(
    alloc: Global,
    broker: &mut Broker<'_, S>,
    exchanges: &[Exchange],
) -> Result<(), Fail> {
    let outputs = outputs_to(alloc, broker, exchanges)?;
    are_replies(alloc, exchanges, outputs.as_slice())
}

/// The records after these exchanges, and a failure where one goes otherwise.
pub fn after_all<S: Alter + Drop>(
    alloc: Global,
    settings: &Settings,
    records: Records<S>,
    exchanges: &[Exchange],
) -> Result<Records<S>, Fail> {
    let mut broker = broker_over(alloc, settings, records, 1)?;
    goes_on(alloc, &mut broker, exchanges)?;
    Ok(broker.into_records())
}

/// The same after one exchange.
pub fn after(
    alloc: Global,
    settings: &Settings,
    records: Records<MemStore>,
    exchange: Exchange,
) -> Result<Records<MemStore>, Fail> {
    after_all(alloc, settings, records, &[exchange])
}

/// What a broker without orders, which takes so many requests of a connection, writes to these bytes.
fn outputs_over(
    alloc: Global,
    settings: &Settings,
    per_connection: u32,
    bytes: &[u8],
) -> Result<Vec<Vec<u8>>, Fail>
    requires some { 1 ≤ per_connection }
    requires few { per_connection ≤ 1000 }
{
    let connection = joined(alloc, &[bytes])?;
    let mut broker = new_broker(alloc, settings, per_connection)?;
    Ok(broker.serve_all(&[connection])?)
}

/// Fails where it writes something else than the text.
fn answers_over(
    alloc: Global,
    settings: &Settings,
    per_connection: u32,
    bytes: &[u8],
    text: &[u8],
) -> Result<(), Fail>
    requires some { 1 ≤ per_connection }
    requires few { per_connection ≤ 1000 }
{
    let outputs = outputs_over(alloc, settings, per_connection, bytes)?;
    match outputs.as_slice() {
        [output] if output.as_slice() == text => Ok(()),
        _ => Err("another text")?,
    }
}

/// The same over the built-in settings.
pub fn answers(alloc: Global, per_connection: u32, bytes: &[u8], text: &[u8]) -> Result<(), Fail>
    requires some { 1 ≤ per_connection }
    requires few { per_connection ≤ 1000 }
{
    let settings = built_in(alloc)?;
    let answered = answers_over(alloc, &settings, per_connection, bytes, text);
    drop(settings);
    answered
}

/// Whether it writes the text to these bytes in pieces of that size.
fn is_output(
    alloc: Global,
    settings: &Settings,
    per_connection: u32,
    sent: (&[u8], usize),
    text: &[u8],
) -> Result<bool, Fail>
    requires some { 1 ≤ per_connection }
    requires few { per_connection ≤ 1000 }
{
    let (bytes, piece) = sent;
    let mut broker = new_broker(alloc, settings, per_connection)?;
    let output = output_of(alloc, &mut broker, bytes, piece);
    drop(broker);
    Ok(output?.as_slice() == text)
}

const PIECES: [usize; 3] = [1, 7, usize::MAX];

/// Fails where it writes something else to the bytes one by one, in pieces of seven, or whole.
fn answers_each_way(
    alloc: Global,
    settings: &Settings,
    per_connection: u32,
    bytes: &[u8],
    text: &[u8],
) -> Result<(), Fail>
    requires some { 1 ≤ per_connection }
    requires few { per_connection ≤ 1000 }
{
    for piece in PIECES {
        if !is_output(alloc, settings, per_connection, (bytes, piece), text)? {
            let told = format!(in alloc; "another text, in pieces of {piece}")?;
            return Err(Fail::from(told));
        }
    }
    Ok(())
}

/// The same over the built-in settings.
pub fn answers_in_pieces(
    alloc: Global,
    per_connection: u32,
    bytes: &[u8],
    text: &[u8],
) -> Result<(), Fail>
    requires some { 1 ≤ per_connection }
    requires few { per_connection ≤ 1000 }
{
    let settings = built_in(alloc)?;
    let answered = answers_each_way(alloc, &settings, per_connection, bytes, text);
    drop(settings);
    answered
}

/// The parts, one behind the other.
pub fn joined(alloc: Global, parts: &[&[u8]]) -> Result<Vec<u8>, Fail> {
    let mut bytes = Vec::new(alloc);
    for part in parts {
        bytes.extend_from_slice(part)?;
    }
    Ok(bytes)
}
