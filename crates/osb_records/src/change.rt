//! A change of one life.

use osb_asks::Id;
use osb_orders::Change;

/// A change that is to be made to the life of an instance.
#[derive(Drop)]
pub struct LifeChange {
    pub instance: Id,
    pub change: Change,
}
