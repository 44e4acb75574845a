//! Laws of the definitions that the contracts of this crate cite.

ghost use Rattle.std.specs.Prelude.{◌≡◌, ◌↔◌, ℕ, List, Ok, Some, true, codes};
ghost use Rattle.serde_json.specs.Data.{Data};
ghost use Rattle.serde_json.specs.Find.{get};
ghost use Rattle.serde_json.specs.Read.{read};
ghost use Rattle.serde_json.specs.Written.{compact_text};
ghost use Rattle.osb_text.specs.ObjectText.{is_object_text, IsReadable};
ghost use Rattle.osb_text.specs.Order.{IsInByteOrder};
ghost use Rattle.osb_text.specs.Reading.{is_object, object_of, HasObject};
ghost use Rattle.osb_text.specs.Whole.{is_whole};

/// Values whose numbers are whole have one compact text exactly where they are the same value.
pub fn canonical()
    ensures { (v w : Data) → is_whole v ≡ true → is_whole w ≡ true
        → (compact_text v ≡ compact_text w) ↔ (v ≡ w) }
{}

/// An object is read from the bytes exactly where they have it.
pub fn exact()
    ensures { (bytes : List ℕ) (v : Data) → (object_of bytes ≡ Ok v) ↔ HasObject bytes v }
{}

/// An object that is read has its names in the order of their bytes, each once, at every depth.
/// Its compact text has the members as they are there.
pub fn in_byte_order()
    ensures { (bytes : List ℕ) (v : Data) → object_of bytes ≡ Ok v → IsInByteOrder v }
{}

/// An object that is read is readable.
pub fn readable()
    ensures { (bytes : List ℕ) (v : Data) → object_of bytes ≡ Ok v → IsReadable v }
{}

/// So is each member of a readable value.
pub fn readable_member()
    ensures { (name : List ℕ) (v d : Data) → get name v ≡ Some d → IsReadable v → IsReadable d }
{}

/// The compact text of a readable value is read as that value again.
pub fn reads_back()
    ensures { (v : Data) → IsReadable v → read (compact_text v) ≡ Some v }
{}

/// The compact text of a readable object passes the test of `is_object_text`.
pub fn object_text()
    ensures { (v : Data) → IsReadable v → is_object v ≡ true
        → is_object_text (compact_text v) ≡ true }
{}

/// So does the text of the object without members.
pub fn empty_object()
    ensures { is_object_text (codes "{}") ≡ true }
{}
