//! A reader or a writer of std as a `Source` or a `Sink`.

ghost use Rattle.std.specs.Prelude.{◌≡◌, [], length};
ghost use Rattle.osb_frames.specs.Calls.{all_bytes, failure_count, failed_or_empty_count};

use crate::calls::Calls;
use crate::sink::Sink;
use crate::source::Source;
use std::io::{self, Read, Write};

/// A reader or a writer of std, with the calls that were made of it through this wrapper.
/// The calls are only in contracts: it is as large as what it wraps.
#[derive(Drop)]
pub struct Counted<T> {
    inner: T,
    calls: Calls,
}

impl<T> Counted<T> {
    ghost use Rattle.osb_frames.specs.Counted.{calls_of, inner_of};

    /// Wraps a reader or a writer. No call is counted yet, and none is made.
    pub fn new(inner: T) -> Counted<T>
        ensures calls { calls_of result ≡ [] }
        ensures inner { inner_of result ≡ inner }
    {
        Counted {
            inner,
            calls: Calls::none(),
        }
    }

    /// The reader or the writer that it wraps.
    pub fn into_inner(self) -> T
        ensures { result ≡ inner_of self }
    {
        let Counted { inner, calls: _ } = self;
        inner
    }
}

impl<T: Read> Source for Counted<T> {
    ghost use Rattle.osb_frames.specs.Counted.{calls_of, inner_of};

    ghost calls = { λ s. calls_of s };

    ghost given = { λ s. all_bytes (calls_of s) };

    ghost reads = { λ s. length (calls_of s) };

    ghost failures = { λ s. failure_count (calls_of s) };

    ghost rest = { λ s. T.remaining (inner_of s) };

    fn read(&mut self, buf: &mut [u8]) -> io::Result<usize> {
        match self.inner.read(buf) {
            Ok(n) => {
                self.calls = self.calls.then(&Some(&buf[..n]));
                Ok(n)
            }
            Err(error) => {
                self.calls = self.calls.then(&None);
                Err(error)
            }
        }
    }
}

impl<T: Write> Sink for Counted<T> {
    ghost use Rattle.osb_frames.specs.Counted.{calls_of, inner_of};

    ghost taken = { λ s. all_bytes (calls_of s) };

    ghost writes = { λ s. length (calls_of s) };

    ghost failures = { λ s. failure_count (calls_of s) };

    ghost failed_or_empty = { λ s. failed_or_empty_count (calls_of s) };

    ghost contents = { λ s. T.contents (inner_of s) };

    fn write(&mut self, bytes: &[u8]) -> io::Result<usize> {
        if bytes.is_empty() {
            return Ok(0);
        }
        match self.inner.write(bytes) {
            Ok(n) => {
                self.calls = self.calls.then(&Some(&bytes[..n]));
                Ok(n)
            }
            Err(error) => {
                self.calls = self.calls.then(&None);
                Err(error)
            }
        }
    }
}
