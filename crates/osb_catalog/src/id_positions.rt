//! A map from ids to their places in a list.

ghost use Rattle.std.specs.Prelude.{◌≡◌, IfOk};
ghost use Rattle.osb_catalog.specs.IdSet.{texts};

use std::alloc::{AllocError, Global};
use std::collections::BTreeMap;

/// Where each id of a list is in it, so that a look-up takes the logarithm of their number.
#[derive(Drop)]
pub struct IdPositions {
    by_id: BTreeMap<String, usize>,
}

impl IdPositions {
    ghost use Rattle.osb_catalog.specs.IdPositions.{id_position_in, AreIdPositionsOf};

    pub(crate) fn new(alloc: Global, ids: &[&str]) -> Result<IdPositions, AllocError>
        ensures { IfOk result (λ places. AreIdPositionsOf places (texts ids.now)) }
    {
        let mut by_id = BTreeMap::new(alloc);
        for place in (0..ids.len()).rev() {
            by_id.insert(String::from_str(alloc, ids[place])?, place)?;
        }
        Ok(IdPositions { by_id })
    }

    /// The first place of the id.
    pub(crate) fn get(&self, id: &str) -> Option<usize>
        ensures { result ≡ id_position_in self.now id.now }
    {
        self.by_id.get(id).copied()
    }
}
