//! A law of the definitions that the contracts of this crate cite.

ghost use Rattle.std.specs.Prelude.{◌≡◌, true};
ghost use Rattle.std.specs.List.{list_all};
ghost use Rattle.osb_advice.specs.Wanted.{rules, names_its_kind};

/// The line for a field names the kind that each rule of that field has, whichever object the rule is for.
pub fn one_kind_a_field()
    ensures { list_all names_its_kind rules ≡ true }
{}
