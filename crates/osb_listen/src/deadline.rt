//! How long something may take.

use std::io::{self, ErrorKind};
use std::time::{Duration, Instant};

/// The moment from which nothing more is tried.
#[derive(Clone, Copy)]
pub(crate) struct Deadline<'a> {
    rt: &'a HostRuntime,
    /// Nothing where the clock couldn't be read; then no time is left.
    start: Option<Instant>,
    limit: Duration,
}

impl<'a> Deadline<'a> {
    /// So long from now.
    pub(crate) fn after(rt: &'a HostRuntime, limit: Duration) -> Deadline<'a> {
        Deadline {
            rt,
            start: Instant::now(rt).ok(),
            limit,
        }
    }

    /// What is left until then, which is more than nothing. From then on it fails.
    pub(crate) fn left(&self) -> io::Result<Duration> {
        let Some(start) = self.start else {
            return Err(ErrorKind::TimedOut.into());
        };
        let gone = start.elapsed(self.rt)?;
        let left = self.limit.saturating_sub(gone);
        if left.is_zero() {
            return Err(ErrorKind::TimedOut.into());
        }
        Ok(left)
    }
}
