//! What the system lets the program take.

use std::fs;

/// What the system's page on a process calls the limit of its stack.
const STACK: &str = "Max stack size";

/// What it calls the most descriptors.
const DESCRIPTORS: &str = "Max open files";

/// The number behind a name; nothing where the system sets no limit, or doesn't say so.
fn limit_of(rt: &HostRuntime, name: &str) -> Option<usize> {
    let Ok(limits) = fs::read_to_string(rt, "/proc/self/limits") else {
        return None;
    };
    let line = limits.lines().find(|line| line.starts_with(name))?;
    let number = line.strip_prefix(name)?.split_whitespace().next()?;
    number.parse().ok()
}

/// How far the stack may grow, in bytes.
pub(crate) fn stack_limit(rt: &HostRuntime) -> Option<usize> {
    limit_of(rt, STACK)
}

/// How many descriptors the program may have.
pub(crate) fn descriptors_limit(rt: &HostRuntime) -> Option<usize> {
    limit_of(rt, DESCRIPTORS)
}
