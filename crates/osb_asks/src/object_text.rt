//! JSON objects that are kept as their compact texts.

ghost use Rattle.std.specs.Prelude.{◌≡◌, true, IfOk, codes};
ghost use Rattle.osb_text.specs.ObjectText.{is_object_text, IsReadable};
ghost use Rattle.osb_text.specs.Object.{ref_data};
ghost use Rattle.serde_json.specs.Written.{compact_text};
ghost use Rattle.osb_asks.specs.Texts.{object_text_if};

use osb_text::{ObjectRef, Text, is_object_text};
use std::alloc::{AllocError, Global};
use std::marker::Model;

/// The compact text of a JSON object whose numbers are whole, its names in byte order. Two of them
/// are equal exactly where the objects are. Contracts see the list of its bytes.
#[derive(Debug, Drop)]
pub struct ObjectText {
    text: Text,
}

impl Model for ObjectText {
    ghost use Rattle.std.specs.Prelude.{◌≡◌, ℕ, List, true};
    ghost use Rattle.osb_text.specs.ObjectText.{is_object_text};

    ghost Value = { List ℕ };

    ghost view = { λ object. object.text };

    ghost invariant = { λ object. is_object_text object.text ≡ true };
}

impl ObjectText {
    /// The text as that of an object, where it is one.
    pub fn new(alloc: Global, text: Text) -> Result<Option<ObjectText>, AllocError>
        ensures { IfOk result (λ object. object ≡ object_text_if text) }
    {
        if is_object_text(alloc, text.as_str())? {
            Ok(Some(ObjectText { text }))
        } else {
            Ok(None)
        }
    }

    /// `{}`.
    #[tactic(auto, using(osb_text::proofs::ReadableLemmas::empty_object))]
    pub fn empty(alloc: Global) -> Result<ObjectText, AllocError>
        ensures { IfOk result (λ object. object ≡ codes "{}") }
    {
        let text = Text::from_str(alloc, "{}")?;
        Ok(ObjectText { text })
    }

    /// The compact text of an object in one that was read.
    #[tactic(auto, using(osb_text::proofs::ReadableLemmas::object_text))]
    pub(crate) fn of(alloc: Global, object: ObjectRef<'_>) -> Result<ObjectText, AllocError>
        requires { IsReadable (ref_data object) }
        ensures { IfOk result (λ text. text ≡ compact_text (ref_data object.entry)) }
    {
        let Ok(text) = object.compact(alloc) else {
            return Err(AllocError);
        };
        Ok(ObjectText {
            text: Text::from(text),
        })
    }

    /// The compact text of the object.
    pub fn as_str(&self) -> &str
        ensures value { result.now ≡ self.now }
        ensures object { is_object_text self.now ≡ true }
    {
        self.text.as_str()
    }
}

impl From<ObjectText> for Text {
    ghost use Rattle.std.specs.Prelude.{◌≡◌};

    ghost from_gives = { λ object text. text ≡ object };

    fn from(object: ObjectText) -> Text {
        object.text
    }
}

impl Clone for ObjectText {
    ghost use Rattle.std.specs.Prelude.{◌≡◌};

    ghost is_clone = { λ object copy. copy ≡ object };

    fn clone(&self) -> Result<ObjectText, AllocError> {
        let text = self.text.clone()?;
        Ok(ObjectText { text })
    }
}

impl PartialEq for ObjectText {
    ghost use Rattle.std.specs.Prelude.{nat_eq};
    ghost use Rattle.std.specs.Cmp as Cmp;
    ghost use Rattle.std.specs.Cmp.Lexicographic.{nat_list_eq_equiv};
    ghost use lib.Pointwise.{pointwise};

    ghost eq = { pointwise nat_eq };

    ghost laws = { Cmp.partial_equiv_from_equiv nat_list_eq_equiv };

    fn eq(&self, other: &ObjectText) -> bool {
        self.as_str() == other.as_str()
    }
}

impl Eq for ObjectText {
    ghost use Rattle.std.specs.Cmp.Lexicographic.{nat_list_eq_equiv};

    ghost laws = { nat_list_eq_equiv };
}
