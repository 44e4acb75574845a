//! The current state of an instance and of its bindings follows a written order, inside a transaction.

ghost use Rattle.std.specs.Prelude.{◌≡◌, true, IfOk, OnOk, IsTrue, Some, None, option_copied, is_some};
ghost use Rattle.std.specs.FinMap.{get};
ghost use Rattle.sqlite.specs.State.{HasCleanDisk};
ghost use Rattle.sqlite.specs.Effect.{IsDatabase};
ghost use Rattle.osb_orders.specs.Lives.{life_of};
ghost use Rattle.osb_orders.specs.Changed.{changed};
ghost use Rattle.osb_orders.specs.declared.order.Change.{Change};
ghost use Rattle.osb_orders.specs.declared.view.BindingNow.{BindingNow};
ghost use Rattle.osb_orders.specs.Life.{Life};
ghost use Rattle.osb_standing.specs.Rows as rows;
ghost use Rattle.osb_standing.specs.Instance.{is_failed_deletion};
ghost use Rattle.osb_standing.specs.Written.{IsWritten};
ghost use Rattle.osb_standing.specs.Binding.{edited};
ghost use Rattle.osb_standing.specs.Rows.{bindings_of};
ghost use Rattle.osb_standing.specs.declared.row.BindingEdit.TheVariants.{Put};
ghost use Rattle.osb_audit.specs.Instances.{IsRowOf};
ghost use Rattle.osb_statements.specs.Queries.{ShowsRecords};
ghost use Rattle.osb_bare.specs.Bare.{bare_order, bare_row};
ghost use Rattle.osb_statements.specs.Inside.{with_bindings, ContentSteps, PutsInstance};
ghost use Rattle.osb_statements.specs.Steps.{bare_in, ShowsTables, content};
ghost use Rattle.osb_contexts.specs.Reads.{Finds, behind, StaysInside, Does, MayRead};
ghost use Rattle.osb_statements.specs.Written.{RowFollows, RowsFollow};
ghost use Rattle.osb_statements.specs.BindingRows.{binding_found, bindings_edited, FollowsOrder};

use crate::bindings::{
    delete_binding, delete_bindings, insert_binding, read_binding, update_binding,
};
use crate::fault::StoreFault;
use crate::instances::{insert_instance, read_instance, update_instance};
use crate::queries::birth_failed;
use osb_orders::{BindingNow, Order};
use osb_standing::{
    BindingEdit, InstanceRow, binding_edit, instance_row_after, is_failed_deletion,
};
use sqlite::{Alter, Error, Transaction};
use std::alloc::Global;

/// Gives the instance the row, in place of the old one if it has one.
fn put_instance<S: Alter>(
    tx: &mut Transaction<'_, S>,
    instance: &str,
    old: Option<&InstanceRow>,
    row: &InstanceRow,
) -> Result<usize, Error>
    requires tables { ShowsTables (behind S.Store tx.old) }
    requires there { HasCleanDisk (behind S.Store tx.old) → IsTrue (behind S.Store tx.old).is_open →
        IsRowOf instance.now (option_copied old) (content (behind S.Store tx.old)).instances }
    ensures ok { Does S.Store tx.old tx.new result (λ old new.
        PutsInstance old new instance.now (bare_row row.now)) }
    ensures inside { StaysInside S.Store tx.old tx.new }
{
    match old {
        None => insert_instance(tx, instance, row),
        Some(_) => update_instance(tx, instance, row),
    }
}

/// Whether the birth of the instance failed. It is looked up only where the order makes it matter.
fn birth_failed_for<S: Alter>(
    tx: &mut Transaction<'_, S>,
    alloc: Global,
    instance: &str,
    order: &Order,
) -> Result<bool, StoreFault>
    requires { ShowsRecords (behind S.Store tx.old) }
    ensures ok { Finds S.Store tx.old tx.new result (λ s failed.
        is_failed_deletion order.now ≡ true →
        failed ≡ rows.birth_failed (life_of (bare_in s) instance.now)) }
    ensures reads { MayRead S.Store tx.old tx.new result }
{
    if is_failed_deletion(order) {
        birth_failed(tx, alloc, instance)
    } else {
        Ok(false)
    }
}

/// The row of the instance once the order is written, from the row before.
fn next_row<S: Alter>(
    tx: &mut Transaction<'_, S>,
    alloc: Global,
    instance: &str,
    order: &Order,
    old: Option<&InstanceRow>,
) -> Result<InstanceRow, StoreFault>
    requires { ShowsRecords (behind S.Store tx.old) }
    ensures ok { HasCleanDisk (behind S.Store tx.new) → (change : Change) →
        IsWritten (life_of (bare_in (behind S.Store tx.old)) instance.now) change
        (bare_order order.now) →
        option_copied old.entry ≡
        rows.row_of (life_of (bare_in (behind S.Store tx.old)) instance.now) →
        IfOk result (λ row.
        rows.row_of (changed change (life_of (bare_in (behind S.Store tx.old)) instance.now)) ≡
        Some (bare_row row)) }
    ensures reads { MayRead S.Store tx.old tx.new result }
{
    let failed = birth_failed_for(tx, alloc, instance, order)?;
    Ok(instance_row_after(failed, order, old)?)
}

/// Writes the row that an instance without one gets once its first order is written.
fn write_first_row<S: Alter>(
    tx: &mut Transaction<'_, S>,
    instance: &str,
    order: &Order,
) -> Result<(), StoreFault>
    requires records { ShowsRecords (behind S.Store tx.old) }
    requires no_row { HasCleanDisk (behind S.Store tx.old) →
        IsTrue (behind S.Store tx.old).is_open →
        IsRowOf instance.now None (content (behind S.Store tx.old)).instances }
    ensures ok { Does S.Store tx.old tx.new result (λ old new.
        RowFollows old new instance.now (bare_order order.now)) }
    ensures inside { StaysInside S.Store tx.old tx.new }
{
    let row = instance_row_after(false, order, None)?;
    let put = put_instance(tx, instance, None, &row);
    drop(row);
    put?;
    Ok(())
}

/// Writes the row that the instance has once the order is written, from the row before.
fn write_next_row<S: Alter>(
    tx: &mut Transaction<'_, S>,
    alloc: Global,
    instance: &str,
    order: &Order,
) -> Result<(), StoreFault>
    requires { ShowsRecords (behind S.Store tx.old) }
    ensures ok { Does S.Store tx.old tx.new result (λ old new.
        RowFollows old new instance.now (bare_order order.now)) }
    ensures inside { StaysInside S.Store tx.old tx.new }
{
    let old = read_instance(tx, alloc, instance)?;
    let row = next_row(tx, alloc, instance, order, old.as_ref())?;
    let put = put_instance(tx, instance, old.as_ref(), &row);
    drop(old);
    drop(row);
    put?;
    Ok(())
}

/// Writes the row that the instance has once the order is written. One that `is_new` has no row yet,
/// so none is looked for.
fn write_instance<S: Alter>(
    tx: &mut Transaction<'_, S>,
    alloc: Global,
    instance: &str,
    order: &Order,
    is_new: bool,
) -> Result<(), StoreFault>
    requires records { ShowsRecords (behind S.Store tx.old) }
    requires no_row { HasCleanDisk (behind S.Store tx.old) →
        IsTrue (behind S.Store tx.old).is_open → IsTrue is_new →
        IsRowOf instance.now None (content (behind S.Store tx.old)).instances }
    ensures ok { Does S.Store tx.old tx.new result (λ old new.
        RowFollows old new instance.now (bare_order order.now)) }
    ensures inside { StaysInside S.Store tx.old tx.new }
{
    if is_new {
        write_first_row(tx, instance, order)
    } else {
        write_next_row(tx, alloc, instance, order)
    }
}

/// Makes the statement that the edit asks for, if any. `had` says whether the binding has a row.
fn apply_edit<S: Alter>(
    tx: &mut Transaction<'_, S>,
    instance: &str,
    binding: &str,
    had: bool,
    edit: &BindingEdit,
) -> Result<usize, Error>
    requires tables { ShowsTables (behind S.Store tx.old) }
    requires had { HasCleanDisk (behind S.Store tx.old) → IsTrue (behind S.Store tx.old).is_open →
        (row : BindingNow) → edit.now ≡ Put row →
        had ≡ is_some (binding_found instance.now binding.now (content
        (behind S.Store tx.old)).bindings) }
    ensures ok { HasCleanDisk (behind S.Store tx.new) → IsTrue (behind S.Store tx.old).is_open →
        IsTrue (behind S.Store tx.old).in_transaction → IsDatabase (behind S.Store tx.old).now →
        OnOk result (ContentSteps (behind S.Store tx.old) (behind S.Store tx.new) (with_bindings
        (bindings_edited edit.now instance.now binding.now (content
        (behind S.Store tx.old)).bindings) (content (behind S.Store tx.old)))) }
    ensures inside { StaysInside S.Store tx.old tx.new }
{
    match edit {
        BindingEdit::Keep => Ok(0),
        BindingEdit::Put(row) if had => update_binding(tx, instance, binding, row),
        BindingEdit::Put(row) => insert_binding(tx, instance, binding, row),
        BindingEdit::Remove => delete_binding(tx, instance, binding),
        BindingEdit::Clear => delete_bindings(tx, instance),
    }
}

/// What the order does to the row of the binding that it is about, and whether that row is there.
fn edit_from(
    alloc: Global,
    order: &Order,
    old: Option<BindingNow>,
) -> Result<(bool, BindingEdit), StoreFault>
    ensures had { IfOk result (λ found. found.0 ≡ is_some old) }
    ensures follows { (life : Life) (change : Change) →
        IsWritten life change (bare_order order.now) →
        old ≡ get (bindings_of life) order.now.binding →
        IfOk result (λ found.
        bindings_of (changed change life) ≡ edited found.1 order.now.binding (bindings_of life)) }
{
    let edit = binding_edit(alloc, order, old.as_ref())?;
    Ok((old.is_some(), edit))
}

/// Lets the row of the binding that the order is about follow it.
fn write_binding<S: Alter>(
    tx: &mut Transaction<'_, S>,
    alloc: Global,
    instance: &str,
    order: &Order,
) -> Result<(), StoreFault>
    requires { ShowsTables (behind S.Store tx.old) }
    ensures ok { HasCleanDisk (behind S.Store tx.new) → IsTrue (behind S.Store tx.old).is_open →
        IsTrue (behind S.Store tx.old).in_transaction → IsDatabase (behind S.Store tx.old).now →
        OnOk result
        (FollowsOrder (behind S.Store tx.old) (behind S.Store tx.new) instance.now
        (bare_order order.now)) }
    ensures inside { StaysInside S.Store tx.old tx.new }
{
    let binding = order.binding.as_str();
    let old = read_binding(tx, alloc, instance, binding)?;
    let (had, edit) = edit_from(alloc, order, old)?;
    let applied = apply_edit(tx, instance, binding, had, &edit);
    drop(edit);
    applied?;
    Ok(())
}

/// Lets the rows of the instance's bindings follow the written order, by one statement at most.
fn write_bindings<S: Alter>(
    tx: &mut Transaction<'_, S>,
    alloc: Global,
    instance: &str,
    order: &Order,
) -> Result<(), StoreFault>
    requires { ShowsTables (behind S.Store tx.old) }
    ensures ok { HasCleanDisk (behind S.Store tx.new) → IsTrue (behind S.Store tx.old).is_open →
        IsTrue (behind S.Store tx.old).in_transaction → IsDatabase (behind S.Store tx.old).now →
        OnOk result
        (FollowsOrder (behind S.Store tx.old) (behind S.Store tx.new) instance.now
        (bare_order order.now)) }
    ensures inside { StaysInside S.Store tx.old tx.new }
{
    if order.kind.is_about_binding() {
        return write_binding(tx, alloc, instance, order);
    }
    let edit = binding_edit(alloc, order, None)?;
    let applied = apply_edit(tx, instance, order.binding.as_str(), false, &edit);
    drop(edit);
    applied?;
    Ok(())
}

/// Writes the rows of the current state once the order is written. An instance that `is_new` has no row yet.
pub(crate) fn write_standing<S: Alter>(
    tx: &mut Transaction<'_, S>,
    alloc: Global,
    instance: &str,
    order: &Order,
    is_new: bool,
) -> Result<(), StoreFault>
    requires records { ShowsRecords (behind S.Store tx.old) }
    requires no_row { HasCleanDisk (behind S.Store tx.old) →
        IsTrue (behind S.Store tx.old).is_open → IsTrue is_new →
        IsRowOf instance.now None (content (behind S.Store tx.old)).instances }
    ensures ok { Does S.Store tx.old tx.new result (λ old new.
        RowsFollow old new instance.now (bare_order order.now)) }
    ensures inside { StaysInside S.Store tx.old tx.new }
{
    write_instance(tx, alloc, instance, order, is_new)?;
    write_bindings(tx, alloc, instance, order)
}
