//! Reads the query of a request, of which the first pair of each name counts.

ghost use Rattle.std.specs.Prelude.{◌≡◌, IfOk};
ghost use Rattle.osb_asks.specs.Ids.{id_unless_empty_or};
ghost use Rattle.osb_asks.specs.Queries as spec;
ghost use Rattle.osb_asks.specs.Reads.{Meets};

use crate::ask_fault::AskFault;
use crate::id::Id;
use crate::segment::id_or;
use form_urlencoded::parse;
use osb_text::Text;
use std::alloc::{AllocError, Global};

/// The text of the query's first pair of that name.
pub(crate) fn query_value(
    alloc: Global,
    name: &str,
    query: &[u8],
) -> Result<Option<Text>, AllocError>
    ensures { IfOk result (λ value. value ≡ spec.query_value name.now query.now) }
{
    for pair in parse(alloc, query) {
        let (found, value) = pair?;
        if found.as_str() == name {
            let text = value.into_owned(alloc)?;
            return Ok(Some(Text::from(text)));
        }
    }
    Ok(None)
}

/// Whether the platform takes an answer before the operation is done.
pub(crate) fn accepts_incomplete_in(alloc: Global, query: &[u8]) -> Result<bool, AskFault>
    ensures { Meets result (spec.accepts_incomplete_in query.now) }
{
    match query_value(alloc, "accepts_incomplete", query)? {
        None => Ok(false),
        Some(text) => {
            if text.as_str() == "true" {
                Ok(true)
            } else if text.as_str() == "false" {
                Ok(false)
            } else {
                Err(AskFault::Query)
            }
        }
    }
}

/// The id of that name, which has to be there.
pub(crate) fn query_id(alloc: Global, name: &str, query: &[u8]) -> Result<Id, AskFault>
    ensures { Meets result (spec.query_id name.now query.now) }
{
    match query_value(alloc, name, query)? {
        None => Err(AskFault::Query),
        Some(text) => id_or(AskFault::Query, text),
    }
}

/// The text as an id; an empty one counts as absent.
pub(crate) fn id_unless_empty(fault: AskFault, text: Option<Text>) -> Result<Option<Id>, AskFault>
    ensures { result ≡ id_unless_empty_or fault text }
{
    let Some(text) = text else {
        return Ok(None);
    };
    if text.as_str().is_empty() {
        return Ok(None);
    }
    Ok(Some(id_or(fault, text)?))
}

/// The id after which orders are listed.
pub(crate) fn after_in(alloc: Global, query: &[u8]) -> Result<Option<Id>, AskFault>
    ensures { Meets result (spec.after_in query.now) }
{
    let after = query_value(alloc, "after", query)?;
    id_unless_empty(AskFault::Query, after)
}
