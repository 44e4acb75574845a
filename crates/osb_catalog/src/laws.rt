//! Laws of the definitions that the contracts of this crate cite.

ghost use Rattle.std.specs.Prelude.{◌≡◌, ◌≢◌, ℕ, List, Ok, Err, IsSome};
ghost use Rattle.osb_catalog.specs.Faults.{settings_of};
ghost use Rattle.osb_catalog.specs.Found.{place_of};
ghost use Rattle.osb_catalog.specs.Order.{Stands, IsJudged};
ghost use Rattle.osb_catalog.specs.Sound.{IsSettings};
ghost use Rattle.osb_catalog.specs.SettingsData.{SettingsData};
ghost use Rattle.osb_catalog.specs.declared.fault.SettingsFault.{SettingsFault as TheFault};
ghost use Rattle.osb_catalog.specs.declared.fault.SettingsFault.TheVariants.{Text};

/// A file has settings only where no fault is anywhere in it, and otherwise the fault that is
/// named is there, and none of a lower number.
#[tactic(auto, using(crate::proofs::FaultOrder::judged))]
pub fn lowest()
    ensures { (bytes : List ℕ) → IsJudged (Stands bytes) (settings_of bytes) }
{}

/// Settings that a file has are sound: no two services and no two plans have one id, ids are id
/// texts, versions are semantic versions, credentials are compact texts of objects, asynchronous
/// bindings can be fetched, and the limit of orders is from 1 to 1,000,000.
pub fn sound()
    ensures { (bytes : List ℕ) (settings : SettingsData) → settings_of bytes ≡ Ok settings → IsSettings settings }
{}

/// Where a file has a fault, some object in it has that fault, unless no object is read from it at all.
pub fn placed()
    ensures { (bytes : List ℕ) (fault : TheFault) → settings_of bytes ≡ Err fault → fault ≢ Text
        → IsSome (place_of fault bytes) }
{}
