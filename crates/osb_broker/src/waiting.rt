//! Connections whose requests wait.

ghost use Rattle.std.specs.Prelude.{◌≡◌, [], ◌∷◌, ◌++◌, true, false};

use crate::runs::blank_output;
use std::alloc::Global;
use std::marker::Model;

/// Connections whose requests wait: the bytes of each, and room for a fixed reply to it. Contracts see
/// the bytes.
#[derive(Drop)]
pub struct Waiting {
    pub(crate) requests: Vec<Vec<u8>>,
    pub(crate) blanks: Vec<Vec<u8>>,
    /// Nothing yet, with room for as many.
    pub(crate) outputs: Vec<Vec<u8>>,
}

impl Model for Waiting {
    ghost use Rattle.std.specs.Prelude.{List, ℕ};

    ghost Value = { List (List ℕ) };

    ghost use Rattle.osb_broker.specs.Waiting.{bytes_of_each, HasRooms};

    ghost view = { bytes_of_each };

    ghost invariant = { HasRooms };
}

impl Waiting {
    /// Nobody. It takes no memory.
    pub fn nobody(alloc: Global) -> Waiting
        ensures { result ≡ [] }
    {
        Waiting {
            requests: Vec::new(alloc),
            blanks: Vec::new(alloc),
            outputs: Vec::new(alloc),
        }
    }

    /// Keeps one more, where there is memory for its bytes and for the fixed reply. Whether there was.
    pub(crate) fn keep(&mut self, alloc: Global, bytes: &[u8]) -> bool
        ensures kept { result ≡ true → self.new ≡ self.old ++ bytes.now ∷ [] }
        ensures same { result ≡ false → self.new ≡ self.old }
    {
        let Ok(blank) = blank_output(alloc) else {
            return false;
        };
        let Ok(request) = bytes.to_vec(alloc) else {
            return false;
        };
        if self.requests.reserve(1).is_err() || self.blanks.reserve(1).is_err() {
            return false;
        }
        let count = self.requests.len() + 1;
        if self.outputs.reserve(count).is_err() {
            return false;
        }
        let _ = self.blanks.push(blank);
        let _ = self.requests.push(request);
        true
    }
}
