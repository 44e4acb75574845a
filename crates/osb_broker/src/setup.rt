//! What a broker was given and can't change.

ghost use Rattle.osb_catalog.specs.Sound.{AreSound};

use crate::per_connection::PerConnection;
use osb_catalog::Settings;
use std::alloc::Global;

/// The settings that are decided by, and how many requests a connection may have. Its methods answer
/// requests over records that are lent to them.
#[derive(Clone, Copy)]
pub(crate) struct Setup<'s> {
    pub(crate) alloc: Global,
    pub(crate) settings: &'s Settings,
    pub(crate) per_connection: PerConnection,
}

impl Setup<'_> {
    ghost use Rattle.osb_broker.specs.Inside.{given_rules};

    /// The settings that were accepted are sound. It does nothing when it runs.
    pub(crate) fn is_sound(&self)
        ensures { AreSound (given_rules self.now) }
    {
        let _ = self.settings.order_limit();
    }
}
