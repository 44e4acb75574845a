//! What is read of rows and orders for an ask, and the view that it gives.

ghost use Rattle.std.specs.Prelude.{◌≡◌};
ghost use Rattle.osb_asks.specs.declared.ask.Ask.{Ask};
ghost use Rattle.osb_orders.specs.Lives.{Lives};
ghost use Rattle.osb_orders.specs.ViewData.{data_in, view_of};
ghost use Rattle.osb_orders.specs.IsLife.{IsLives};
ghost use Rattle.osb_standing.specs.Rows.{standing_in};
ghost use Rattle.osb_standing.specs.Laws.{count_in};
ghost use Rattle.osb_standing.specs.Read.{IsReadFor};

use crate::row::InstanceRow;
use osb_orders::{BindingNow, Order, Standing, View};
use osb_text::Text;

/// What is read of the rows and of the orders for an ask.
#[derive(Debug, Drop)]
pub struct Read {
    /// The row of the instance that the ask names.
    pub row: Option<InstanceRow>,
    /// The last order of that instance.
    pub last: Option<Order>,
    /// The row of the binding that the ask names.
    pub binding: Option<BindingNow>,
    /// The order that the ask names.
    pub named: Option<Order>,
    /// The last of the orders that a poll is about.
    pub subject_last: Option<Order>,
    /// Whether a binding of the instance has a row.
    pub bound: bool,
    /// The running orders, for the ask that lists them.
    pub listing: Vec<(Text, Order)>,
}

/// The view that the rows give. It takes no memory.
pub fn view_by(read: Read) -> View
    ensures { (lives : Lives) (ask : Ask) → IsLives lives → IsReadFor lives ask read → data_in result ≡ view_of lives ask }
{
    let (standing, count) = standing_and_count(read.row);
    View {
        standing,
        last: read.last,
        binding: read.binding,
        named: read.named,
        subject_last: read.subject_last,
        count,
        bound: read.bound,
        listing: read.listing,
    }
}

fn standing_and_count(row: Option<InstanceRow>) -> (Option<Standing>, u32)
    ensures standing { result.0 ≡ standing_in row }
    ensures count { result.1 ≡ count_in row }
{
    match row {
        None => (None, 0),
        Some(row) => (row.standing, row.last_number),
    }
}
