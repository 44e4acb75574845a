//! The bindings that the orders of one instance lead to, and whether rows are theirs.

ghost use Rattle.std.specs.Prelude.{◌≡◌, ◌↔◌, true, OnOk, map};
ghost use Rattle.std.specs.FinMap.{insert, remove, entries};
ghost use Rattle.osb_standing.specs.Rows.{Bindings};
ghost use Rattle.osb_standing.specs.Binding.{edited};
ghost use Rattle.osb_audit.specs.Bindings.{binding_entry};
ghost use Rattle.osb_audit.specs.Life.{LooksUpAs};

use crate::entry::BindingEntry;
use osb_orders::BindingNow;
use osb_standing::BindingEdit;
use osb_text::Text;
use std::alloc::AllocError;
use std::collections::BTreeMap;

/// Makes the edit at the id.
pub(crate) fn apply(
    bindings: &mut BTreeMap<Text, BindingNow>,
    edit: BindingEdit,
    id: &Text,
) -> Result<(), AllocError>
    ensures { (rows : Bindings) → LooksUpAs rows bindings.old → OnOk result (LooksUpAs (edited edit id.now rows) bindings.new) }
{
    match edit {
        BindingEdit::Keep => Ok(()),
        BindingEdit::Put(binding) => put(bindings, id, binding),
        BindingEdit::Remove => {
            remove(bindings, id);
            Ok(())
        }
        BindingEdit::Clear => {
            bindings.clear();
            Ok(())
        }
    }
}

fn put(
    bindings: &mut BTreeMap<Text, BindingNow>,
    id: &Text,
    binding: BindingNow,
) -> Result<(), AllocError>
    ensures { (rows : Bindings) → LooksUpAs rows bindings.old → OnOk result (LooksUpAs (insert rows id.now binding) bindings.new) }
{
    let key = id.clone()?;
    bindings.insert(key, binding)?;
    Ok(())
}

fn remove(bindings: &mut BTreeMap<Text, BindingNow>, id: &Text)
    ensures { (rows : Bindings) → LooksUpAs rows bindings.old → LooksUpAs (remove rows id.now) bindings.new }
{
    bindings.remove(id);
}

/// Whether these are the rows of the instance's bindings, in the order of their ids.
pub(crate) fn are_bindings(
    instance: &Text,
    bindings: &BTreeMap<Text, BindingNow>,
    bound: &[BindingEntry],
) -> bool
    ensures { (rows : Bindings) → LooksUpAs rows bindings.now → (result ≡ true) ↔ (bound.now ≡ map (binding_entry instance.now) (entries rows)) }
{
    let mut left = bound;
    for (id, binding) in bindings {
        let (entry, rest) = match left.split_first() {
            None => return false,
            Some(parts) => parts,
        };
        if !is_entry(instance, id, binding, entry) {
            return false;
        }
        left = rest;
    }
    left.is_empty()
}

/// Whether the entry is that of the binding.
fn is_entry(instance: &Text, id: &Text, binding: &BindingNow, entry: &BindingEntry) -> bool
    ensures { (result ≡ true) ↔ (entry.now ≡ binding_entry instance.now (id.now, binding.now)) }
{
    entry.instance == *instance
        && entry.binding == *id
        && entry.phase == binding.phase
        && entry.service == binding.attributes.service
        && entry.plan == binding.attributes.plan
        && entry.app_guid == binding.attributes.place
        && entry.bind_resource == binding.attributes.spot
        && entry.parameters == binding.attributes.parameters
        && entry.credentials == binding.credentials
}
