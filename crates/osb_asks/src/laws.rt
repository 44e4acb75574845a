//! Laws of the definitions that the contracts of this crate cite.

ghost use Rattle.std.specs.Prelude.{◌≡◌, ◌≢◌, ◌↔◌, ℕ, List, Ok, Err, Some, true, slice_index};
ghost use Rattle.osb_frames.specs.Cuts.{Message};
ghost use Rattle.osb_catalog.specs.Rules.{Rules};
ghost use Rattle.osb_asks.specs.Asks.{ask_of};
ghost use Rattle.osb_asks.specs.Credentials.{is_login, IsLogin};
ghost use Rattle.osb_asks.specs.Paths.{IsPathOf};
ghost use Rattle.osb_asks.specs.Resources.{Named, resource_at};
ghost use Rattle.osb_asks.specs.ValidTexts.{AskHasValidTexts, IsOffered};
ghost use Rattle.osb_asks.specs.declared.ask.Ask.{Ask as TheAsk};
ghost use Rattle.osb_asks.specs.declared.ask_fault.AskFault.TheVariants.{Memory};
ghost use Rattle.osb_asks.specs.declared.door.Door.{Door as TheDoor};

/// The segments behind a door name a place exactly where they are its path.
pub fn one_place()
    ensures { (door : TheDoor) (segments : List (List ℕ)) (named : Named)
        → (resource_at door segments ≡ Some named) ↔ IsPathOf door segments named }
{}

/// A value is a login exactly where it is the scheme in any case, one or more spaces, and the
/// token. No token in base64 begins with a space.
pub fn login_exact()
    ensures { (token value : List ℕ) → slice_index token 0 ≢ 32
        → (is_login token value ≡ true) ↔ IsLogin token value }
{}

/// Want of memory is never what a request has: it is only answered in place of what it has.
pub fn never_memory()
    ensures { (rules : Rules) (q : Message) → ask_of rules q ≢ Err Memory }
{}

/// Ids of an ask are id texts and its objects compact texts, and the catalog has its service and
/// its plan.
pub fn valid_texts()
    ensures valid_texts { (rules : Rules) (q : Message) (ask : TheAsk) → ask_of rules q ≡ Ok ask → AskHasValidTexts ask }
    ensures offered { (rules : Rules) (q : Message) (ask : TheAsk) → ask_of rules q ≡ Ok ask → IsOffered rules ask }
{}
