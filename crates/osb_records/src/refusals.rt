//! How many requests were refused, for each cause.

ghost use Rattle.std.specs.Prelude.{◌≡◌};
ghost use Rattle.osb_records.specs.Refusals.{refused_for, counted};

use osb_statements::Cause;

/// How many requests were refused, for each cause. Each number stops at the top of its type.
#[derive(Clone, Copy, Debug, Drop, PartialEq, Eq)]
pub struct Refusals {
    memory: u32,
    disk_full: u32,
    disk_failed: u32,
    shut: u32,
    other: u32,
}

impl Refusals {
    /// No request was refused.
    pub const NONE: Refusals = Refusals {
        memory: 0,
        disk_full: 0,
        disk_failed: 0,
        shut: 0,
        other: 0,
    };

    /// How many requests were refused for this cause.
    pub fn count(&self, cause: Cause) -> u32
        ensures { result ≡ refused_for self.now cause }
    {
        match cause {
            Cause::Memory => self.memory,
            Cause::DiskFull => self.disk_full,
            Cause::DiskFailed => self.disk_failed,
            Cause::Shut => self.shut,
            Cause::Other => self.other,
        }
    }

    /// Counts one more request that was refused for this cause.
    pub fn add(&mut self, cause: Cause)
        ensures { self.new ≡ counted self.old cause }
    {
        match cause {
            Cause::Memory => self.memory = self.memory.saturating_add(1),
            Cause::DiskFull => self.disk_full = self.disk_full.saturating_add(1),
            Cause::DiskFailed => self.disk_failed = self.disk_failed.saturating_add(1),
            Cause::Shut => self.shut = self.shut.saturating_add(1),
            Cause::Other => self.other = self.other.saturating_add(1),
        }
    }

    /// The numbers, which begin at none again.
    pub(crate) fn take(&mut self) -> Refusals
        ensures given { result ≡ self.old }
        ensures none { self.new ≡ Refusals.NONE }
    {
        let taken = *self;
        *self = Refusals::NONE;
        taken
    }
}
