//! Ids as a type of their own: texts that were found to be id texts.

ghost use Rattle.std.specs.Prelude.{◌≡◌, true};
ghost use Rattle.osb_text.specs.Id.{is_id};
ghost use Rattle.osb_asks.specs.Texts.{id_if};

use osb_text::{Text, is_id};
use std::alloc::AllocError;
use std::marker::Model;

/// An id: 1 to 256 bytes of UTF-8 with no control character. Contracts see the list of its bytes.
#[derive(Debug, Drop)]
pub struct Id {
    text: Text,
}

impl Model for Id {
    ghost use Rattle.std.specs.Prelude.{◌≡◌, ℕ, List, true};
    ghost use Rattle.osb_text.specs.Id.{is_id};

    ghost Value = { List ℕ };

    ghost view = { λ id. id.text };

    ghost invariant = { λ id. is_id id.text ≡ true };
}

impl Id {
    /// The text as an id, where it is one. It takes no memory.
    pub fn new(text: Text) -> Option<Id>
        ensures { result ≡ id_if text }
    {
        if is_id(text.as_str()) {
            Some(Id { text })
        } else {
            None
        }
    }

    /// The text of the id.
    pub fn as_str(&self) -> &str
        ensures value { result.now ≡ self.now }
        ensures id { is_id self.now ≡ true }
    {
        self.text.as_str()
    }
}

impl From<Id> for Text {
    ghost use Rattle.std.specs.Prelude.{◌≡◌};

    ghost from_gives = { λ id text. text ≡ id };

    fn from(id: Id) -> Text {
        id.text
    }
}

impl Clone for Id {
    ghost use Rattle.std.specs.Prelude.{◌≡◌};

    ghost is_clone = { λ id copy. copy ≡ id };

    fn clone(&self) -> Result<Id, AllocError> {
        let text = self.text.clone()?;
        Ok(Id { text })
    }
}

impl PartialEq for Id {
    ghost use Rattle.std.specs.Prelude.{nat_eq};
    ghost use Rattle.std.specs.Cmp as Cmp;
    ghost use Rattle.std.specs.Cmp.Lexicographic.{nat_list_eq_equiv};
    ghost use lib.Pointwise.{pointwise};

    ghost eq = { pointwise nat_eq };

    ghost laws = { Cmp.partial_equiv_from_equiv nat_list_eq_equiv };

    fn eq(&self, other: &Id) -> bool {
        self.as_str() == other.as_str()
    }
}

impl Eq for Id {
    ghost use Rattle.std.specs.Cmp.Lexicographic.{nat_list_eq_equiv};

    ghost laws = { nat_list_eq_equiv };
}
