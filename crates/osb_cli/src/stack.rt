//! The stack that the deepest request takes, which is taken before the first one.

use crate::limits::stack_limit;
use osb_text::{TextFault, read_object};
use std::alloc::AllocError;

/// More than the program takes of the stack, whatever it is asked: some 300 kB.
const STACK_BYTES: usize = 524_288;

/// How many objects may lie in each other in a text that is read.
const MOST_NESTED: usize = 127;

/// The beginning of an object that has another one in it.
const OPENING: &[u8] = b"{\"a\":";

/// The length of the text that is read. It is on the stack too, below what reading it takes, and takes more
/// of it than the calls between the start and the reading of a request.
const TEXT_BYTES: usize = 131_072;

/// Writes the deepest object that can be read over the beginning of a text.
fn write_deepest(text: &mut [u8; TEXT_BYTES]) {
    for part in text.chunks_exact_mut(OPENING.len()).take(MOST_NESTED) {
        part.copy_from_slice(OPENING);
    }
    let nested = OPENING.len() * MOST_NESTED;
    text[nested] = b'1';
    for end in text.iter_mut().skip(nested + 1).take(MOST_NESTED) {
        *end = b'}';
    }
}

/// Reads the deepest object, with spaces behind it, and writes its compact text. Its frame isn't kept.
#[inline(never)]
fn read_deepest(rt: &HostRuntime) -> Result<(), AllocError> {
    let mut text = [b' '; TEXT_BYTES];
    write_deepest(&mut text);
    let read = read_object(rt.alloc(), &text);
    match read.and_then(|object| object.compact(rt.alloc())) {
        Err(TextFault::Memory) => Err(AllocError),
        _ => Ok(()),
    }
}

/// Takes the stack that the deepest request takes. A system that has no room for it refuses it here, as
/// memory; in the midst of a request it could only end the program.
pub(crate) fn take_stack(rt: &HostRuntime) -> Result<(), AllocError> {
    if stack_limit(rt).is_some_and(|most| most < STACK_BYTES) {
        return Err(AllocError);
    }
    // A system that counts what it has left refuses that much here, where it can be reported.
    let room: Vec<u8> = Vec::with_capacity(rt.alloc(), STACK_BYTES)?;
    drop(room);
    read_deepest(rt)
}
