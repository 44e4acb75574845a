//! What an ask needs to know, read inside a transaction.

ghost use Rattle.std.specs.Prelude.{◌≡◌, false, [], filter, Some, None, option_copied, option_and_then};
ghost use Rattle.std.specs.FinMap.{get};
ghost use Rattle.osb_orders.specs.Lists.{last_of};
ghost use Rattle.osb_orders.specs.Orders.{is_of_instance, is_of_binding};
ghost use Rattle.osb_orders.specs.Lives.{life_of};
ghost use Rattle.osb_asks.specs.Subjects.{binding_id_of};
ghost use Rattle.osb_orders.specs.Named.{subject, named_by, named_in};
ghost use Rattle.osb_standing.specs.Rows.{row_of, bindings_of};
ghost use Rattle.osb_standing.specs.Laws.{has_rows};
ghost use Rattle.osb_standing.specs.Read.{IsReadOf};
ghost use Rattle.osb_statements.specs.Steps.{stored, bare_in};
ghost use Rattle.osb_statements.specs.Queries.{ShowsRecords, ShowsLives};
ghost use Rattle.osb_statements.specs.Asked.{only};
ghost use Rattle.osb_contexts.specs.Reads.{Reads, MayRead, Finds, MayFind, behind};

use crate::bindings::{is_bound, read_binding};
use crate::contexts::join_read;
use crate::fault::StoreFault;
use crate::instances::read_instance;
use crate::orders::order_numbered;
use crate::queries::{last_of_binding, last_of_instance, order_named};
use osb_asks::Ask;
use osb_orders::{BindingNow, Order};
use osb_standing::{InstanceRow, Read};
use osb_text::Text;
use sqlite::{Alter, Transaction};
use std::alloc::Global;

/// The row of the instance.
fn read_row<S: Alter>(
    tx: &mut Transaction<'_, S>,
    alloc: Global,
    instance: &str,
) -> Result<Option<InstanceRow>, StoreFault>
    requires { ShowsRecords (behind S.Store tx.old) }
    ensures ok { Finds S.Store tx.old tx.new result (λ s row.
        row ≡ row_of (life_of (bare_in s) instance.now)) }
    ensures reads { Reads S.Store tx.old tx.new result }
{
    read_instance(tx, alloc, instance)
}

/// The last order of the instance, by its row.
fn read_last<S: Alter>(
    tx: &mut Transaction<'_, S>,
    alloc: Global,
    instance: &str,
    row: Option<&InstanceRow>,
) -> Result<Option<Order>, StoreFault>
    requires { ShowsRecords (behind S.Store tx.old) }
    ensures ok { Finds S.Store tx.old tx.new result (λ s order.
        option_copied row.entry ≡ row_of (life_of (bare_in s) instance.now) →
        order ≡ last_of (life_of (bare_in s) instance.now)) }
    ensures reads { MayRead S.Store tx.old tx.new result }
{
    match row {
        Some(row) => order_numbered(tx, alloc, instance, row.last_number),
        None => Ok(None),
    }
}

/// The row of the instance and its last order.
fn read_standing<S: Alter>(
    tx: &mut Transaction<'_, S>,
    alloc: Global,
    instance: &str,
) -> Result<(Option<InstanceRow>, Option<Order>), StoreFault>
    requires { ShowsRecords (behind S.Store tx.old) }
    ensures ok { Finds S.Store tx.old tx.new result (λ s found.
        (found.0 ≡ row_of (life_of (bare_in s) instance.now))
        × (found.1 ≡ last_of (life_of (bare_in s) instance.now))) }
    ensures reads { Reads S.Store tx.old tx.new result }
{
    let row = read_row(tx, alloc, instance)?;
    match read_last(tx, alloc, instance, row.as_ref()) {
        Ok(last) => Ok((row, last)),
        Err(fault) => {
            drop(row);
            Err(fault)
        }
    }
}

/// Whether a binding of the instance remains.
fn read_bound<S: Alter>(tx: &mut Transaction<'_, S>, instance: &str) -> Result<bool, StoreFault>
    requires { ShowsRecords (behind S.Store tx.old) }
    ensures ok { Finds S.Store tx.old tx.new result (λ s bound.
        bound ≡ has_rows (bindings_of (life_of (bare_in s) instance.now))) }
    ensures reads { Reads S.Store tx.old tx.new result }
{
    is_bound(tx, instance)
}

/// The row of the binding that the ask names.
fn read_binding_for<S: Alter>(
    tx: &mut Transaction<'_, S>,
    alloc: Global,
    instance: &str,
    ask: &Ask,
) -> Result<Option<BindingNow>, StoreFault>
    requires { ShowsRecords (behind S.Store tx.old) }
    ensures ok { MayFind S.Store tx.old tx.new result (λ s row.
        row ≡ option_and_then (λ id.
        get (bindings_of (life_of (bare_in s) instance.now)) id) (binding_id_of ask.now)) }
    ensures reads { MayRead S.Store tx.old tx.new result }
{
    match ask.binding() {
        Some(binding) => read_binding(tx, alloc, instance, binding.as_str()),
        None => Ok(None),
    }
}

fn only_of_instance(found: Option<Order>) -> Option<Order>
    ensures { result ≡ only is_of_instance found }
{
    match found {
        Some(order) if order.is_of_instance() => Some(order),
        _ => None,
    }
}

fn only_of_binding(found: Option<Order>, binding: &str) -> Option<Order>
    ensures { result ≡ only (is_of_binding binding.now) found }
{
    match found {
        Some(order) if order.is_of_binding(binding) => Some(order),
        _ => None,
    }
}

/// The order of that name among those of the instance.
fn named_of_instance<S: Alter>(
    tx: &mut Transaction<'_, S>,
    alloc: Global,
    instance: &str,
    operation: Option<&Text>,
) -> Result<Option<Order>, StoreFault>
    requires { ShowsRecords (behind S.Store tx.old) }
    ensures ok { MayFind S.Store tx.old tx.new result (λ s order.
        order ≡ named_by (option_copied operation.entry) (filter is_of_instance (life_of
        (bare_in s) instance.now))) }
    ensures reads { MayRead S.Store tx.old tx.new result }
{
    let Some(name) = operation else {
        return Ok(None);
    };
    let found = order_named(tx, alloc, instance, name.as_str())?;
    Ok(only_of_instance(found))
}

/// The order of that name among those of the binding.
fn named_of_binding<S: Alter>(
    tx: &mut Transaction<'_, S>,
    alloc: Global,
    instance: &str,
    binding: &str,
    operation: Option<&Text>,
) -> Result<Option<Order>, StoreFault>
    requires { ShowsRecords (behind S.Store tx.old) }
    ensures ok { MayFind S.Store tx.old tx.new result (λ s order.
        order ≡ named_by (option_copied operation.entry)
        (filter (is_of_binding binding.now) (life_of (bare_in s) instance.now))) }
    ensures reads { MayRead S.Store tx.old tx.new result }
{
    let Some(name) = operation else {
        return Ok(None);
    };
    let found = order_named(tx, alloc, instance, name.as_str())?;
    Ok(only_of_binding(found, binding))
}

/// The order that the ask names.
fn read_named<S: Alter>(
    tx: &mut Transaction<'_, S>,
    alloc: Global,
    instance: &str,
    ask: &Ask,
) -> Result<Option<Order>, StoreFault>
    requires { ShowsRecords (behind S.Store tx.old) }
    ensures ok { MayFind S.Store tx.old tx.new result (λ s order.
        order ≡ named_in ask.now (life_of (bare_in s) instance.now)) }
    ensures reads { MayRead S.Store tx.old tx.new result }
{
    match ask {
        Ask::InstanceOp(poll) => named_of_instance(tx, alloc, instance, poll.operation.as_ref()),
        Ask::BindingOp(poll) => named_of_binding(
            tx,
            alloc,
            instance,
            poll.binding.as_str(),
            poll.operation.as_ref(),
        ),
        Ask::Report(report) => order_numbered(tx, alloc, instance, report.number),
        Ask::Catalog
        | Ask::Provision(_)
        | Ask::Fetch(_)
        | Ask::Update(_)
        | Ask::Deprovision(_)
        | Ask::Bind(_)
        | Ask::FetchBinding(_)
        | Ask::Unbind(_)
        | Ask::Orders(_) => Ok(None),
    }
}

/// The last of the orders that a poll is about.
fn read_subject<S: Alter>(
    tx: &mut Transaction<'_, S>,
    alloc: Global,
    instance: &str,
    ask: &Ask,
) -> Result<Option<Order>, StoreFault>
    requires { ShowsRecords (behind S.Store tx.old) }
    ensures ok { MayFind S.Store tx.old tx.new result (λ s order.
        order ≡ last_of (subject ask.now (life_of (bare_in s) instance.now))) }
    ensures reads { MayRead S.Store tx.old tx.new result }
{
    match ask {
        Ask::InstanceOp(_) => last_of_instance(tx, alloc, instance),
        Ask::BindingOp(poll) => last_of_binding(tx, alloc, instance, poll.binding.as_str()),
        Ask::Catalog
        | Ask::Provision(_)
        | Ask::Fetch(_)
        | Ask::Update(_)
        | Ask::Deprovision(_)
        | Ask::Bind(_)
        | Ask::FetchBinding(_)
        | Ask::Unbind(_)
        | Ask::Orders(_)
        | Ask::Report(_) => Ok(None),
    }
}

/// The row of the binding that the ask names, and whether one remains.
fn read_bindings<S: Alter>(
    tx: &mut Transaction<'_, S>,
    alloc: Global,
    instance: &str,
    ask: &Ask,
) -> Result<(Option<BindingNow>, bool), StoreFault>
    requires { ShowsRecords (behind S.Store tx.old) }
    ensures ok { Finds S.Store tx.old tx.new result (λ s found.
        (found.0 ≡ option_and_then (λ id.
        get (bindings_of (life_of (bare_in s) instance.now)) id) (binding_id_of ask.now))
        × (found.1 ≡ has_rows (bindings_of (life_of (bare_in s) instance.now)))) }
    ensures reads { Reads S.Store tx.old tx.new result }
{
    let bound = read_bound(tx, instance)?;
    let binding = read_binding_for(tx, alloc, instance, ask)?;
    Ok((binding, bound))
}

/// The order that the ask names, and the last of those that a poll is about.
fn read_polled<S: Alter>(
    tx: &mut Transaction<'_, S>,
    alloc: Global,
    instance: &str,
    ask: &Ask,
) -> Result<(Option<Order>, Option<Order>), StoreFault>
    requires { ShowsRecords (behind S.Store tx.old) }
    ensures ok { MayFind S.Store tx.old tx.new result (λ s found.
        (found.0 ≡ named_in ask.now (life_of (bare_in s) instance.now))
        × (found.1 ≡ last_of (subject ask.now (life_of (bare_in s) instance.now)))) }
    ensures reads { MayRead S.Store tx.old tx.new result }
{
    let named = read_named(tx, alloc, instance, ask)?;
    match read_subject(tx, alloc, instance, ask) {
        Ok(subject_last) => Ok((named, subject_last)),
        Err(fault) => {
            drop(named);
            Err(fault)
        }
    }
}

/// What is read for the ask beside the row of its instance and the last order.
#[derive(Drop)]
struct Asked {
    binding: Option<BindingNow>,
    bound: bool,
    named: Option<Order>,
    subject_last: Option<Order>,
}

/// What the ask names.
fn read_asked<S: Alter>(
    tx: &mut Transaction<'_, S>,
    alloc: Global,
    instance: &str,
    ask: &Ask,
) -> Result<Asked, StoreFault>
    requires { ShowsRecords (behind S.Store tx.old) }
    ensures ok { Finds S.Store tx.old tx.new result (λ s asked.
        ((asked.binding ≡ option_and_then (λ id.
        get (bindings_of (life_of (bare_in s) instance.now)) id) (binding_id_of ask.now))
        × (asked.bound ≡ has_rows (bindings_of (life_of (bare_in s) instance.now))))
        × ((asked.named ≡ named_in ask.now (life_of (bare_in s) instance.now))
        × (asked.subject_last ≡ last_of (subject ask.now (life_of (bare_in s) instance.now))))) }
    ensures reads { Reads S.Store tx.old tx.new result }
{
    let (binding, bound) = read_bindings(tx, alloc, instance, ask)?;
    let (named, subject_last) = read_polled(tx, alloc, instance, ask)?;
    Ok(Asked {
        binding,
        bound,
        named,
        subject_last,
    })
}

/// What the ask names, of an instance with this row. Where it has none, nothing is read.
fn read_asked_of<S: Alter>(
    tx: &mut Transaction<'_, S>,
    alloc: Global,
    instance: &str,
    ask: &Ask,
    row: Option<&InstanceRow>,
) -> Result<Asked, StoreFault>
    requires { ShowsRecords (behind S.Store tx.old) }
    ensures ok { Finds S.Store tx.old tx.new result (λ s asked.
        option_copied row.entry ≡ row_of (life_of (bare_in s) instance.now) →
        ((asked.binding ≡ option_and_then (λ id.
        get (bindings_of (life_of (bare_in s) instance.now)) id) (binding_id_of ask.now))
        × (asked.bound ≡ has_rows (bindings_of (life_of (bare_in s) instance.now))))
        × ((asked.named ≡ named_in ask.now (life_of (bare_in s) instance.now))
        × (asked.subject_last ≡ last_of (subject ask.now (life_of (bare_in s) instance.now))))) }
    ensures reads { MayRead S.Store tx.old tx.new result }
{
    match row {
        Some(_) => read_asked(tx, alloc, instance, ask),
        None => Ok(Asked {
            binding: None,
            bound: false,
            named: None,
            subject_last: None,
        }),
    }
}

/// What is read for an ask that names the instance, but for the contexts.
fn read_for<S: Alter>(
    tx: &mut Transaction<'_, S>,
    alloc: Global,
    instance: &str,
    ask: &Ask,
) -> Result<Read, StoreFault>
    requires { ShowsRecords (behind S.Store tx.old) }
    ensures ok { Finds S.Store tx.old tx.new result (λ s read.
        IsReadOf (life_of (bare_in s) instance.now) [] ask.now read) }
    ensures reads { Reads S.Store tx.old tx.new result }
{
    let (row, last) = read_standing(tx, alloc, instance)?;
    match read_asked_of(tx, alloc, instance, ask, row.as_ref()) {
        Ok(asked) => Ok(Read {
            row,
            last,
            binding: asked.binding,
            named: asked.named,
            subject_last: asked.subject_last,
            bound: asked.bound,
            listing: Vec::new(alloc),
        }),
        Err(fault) => {
            drop(row);
            drop(last);
            Err(fault)
        }
    }
}

/// What is read for an ask that names the instance.
pub fn read_joined<S: Alter>(
    tx: &mut Transaction<'_, S>,
    alloc: Global,
    instance: &str,
    ask: &Ask,
) -> Result<Read, StoreFault>
    requires { ShowsLives (behind S.Store tx.old) }
    ensures ok { Finds S.Store tx.old tx.new result (λ s read.
        IsReadOf (life_of (stored s) instance.now) [] ask.now read) }
    ensures reads { Reads S.Store tx.old tx.new result }
{
    let read = read_for(tx, alloc, instance, ask)?;
    join_read(tx, instance, read)
}
