//! Reads what the backend asks: the running orders, and the report of how one ended.

ghost use Rattle.osb_text.specs.ObjectText.{IsReadable};
ghost use Rattle.osb_asks.specs.Backend as spec;
ghost use Rattle.osb_asks.specs.Contents.{data_of};
ghost use Rattle.osb_asks.specs.Reads.{Meets};

use crate::ask::{Ask, Orders, Report};
use crate::ask_fault::AskFault;
use crate::content::Content;
use crate::id::Id;
use crate::query::after_in;
use crate::segment::{read_id, read_number};
use std::alloc::Global;

#[tactic(auto, unfolding(crate::specs::Backend::orders_of))]
pub(crate) fn orders(alloc: Global, query: &[u8]) -> Result<Ask, AskFault>
    ensures { Meets result (spec.orders_of query.now) }
{
    let after = after_in(alloc, query)?;
    Ok(Ask::Orders(Orders { after }))
}

#[tactic(auto, unfolding(crate::specs::Backend::report_in))]
fn report_in(
    alloc: Global,
    instance: Id,
    number: u32,
    content: &Content,
) -> Result<Report, AskFault>
    requires { IsReadable (data_of content.now) }
    ensures { Meets result (spec.report_in instance number (data_of content.now)) }
{
    let state = content.state()?;
    let description = content.description(alloc)?;
    let credentials = content.object_or_empty(alloc, "credentials")?;
    Ok(Report {
        instance,
        number,
        state,
        description,
        credentials,
    })
}

#[tactic(auto, unfolding(crate::specs::Backend::report_of))]
pub(crate) fn report(
    alloc: Global,
    instance: &[u8],
    number: &[u8],
    body: &[u8],
) -> Result<Ask, AskFault>
    ensures { Meets result (spec.report_of instance.now number.now body.now) }
{
    let instance = read_id(alloc, instance)?;
    let number = read_number(number)?;
    let content = Content::read(alloc, body)?;
    let ask = report_in(alloc, instance, number, &content)?;
    Ok(Ask::Report(ask))
}
