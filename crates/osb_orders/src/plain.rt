//! The lives kept in memory as their definition has them. It is slow and obvious: what keeps them
//! otherwise is compared with it.

ghost use Rattle.std.specs.Prelude.{◌≡◌, ◌≢◌, IfOk, OnOk, OnErr};
ghost use Rattle.std.specs.FinMap.{empty};

mod bindings;
mod instances;
mod kept;
mod listed;
mod named;
mod whole;

use self::kept::{append, finish, life_of, listing};
use self::whole::shown;
use crate::order::{Change, Order};
use crate::view::View;
use osb_asks::Ask;
use osb_text::Text;
use std::alloc::{AllocError, Global};
use std::collections::BTreeMap;
use std::marker::Model;

/// How many running orders an ask lists.
const LISTED: usize = 100;

/// The lives of all instances. Contracts see the finite map from ids to lives.
#[derive(Drop)]
pub struct PlainLives {
    lives: BTreeMap<Text, Vec<Order>>,
}

impl Model for PlainLives {
    ghost use Rattle.std.specs.FinMap.{code};
    ghost use Rattle.std.specs.Coded.{coded_list, coded_ℕ};
    ghost use Rattle.osb_orders.specs.contracts.order.Order as order;
    ghost use Rattle.osb_orders.specs.Lives.{Lives};
    ghost use Rattle.osb_orders.specs.Plain.{held_in};

    ghost Value = { Lives };

    ghost coded = { code (coded_list coded_ℕ) (coded_list order.the_row.coded) };

    ghost view = { λ plain. held_in plain.lives };
}

impl PlainLives {
    ghost use Rattle.osb_orders.specs.Lives.{life_of, named_life};
    ghost use Rattle.osb_asks.specs.Subjects.{instance_id_of};
    ghost use Rattle.osb_orders.specs.Listing.{listing, listing_for};
    ghost use Rattle.osb_orders.specs.declared.order.Change.TheVariants.{Nothing};
    ghost use Rattle.osb_orders.specs.Changed.{lives_changed};
    ghost use Rattle.osb_orders.specs.ViewData.{data_in, view_of};

    /// No lives. It takes no memory.
    pub fn new(alloc: Global) -> PlainLives
        ensures { result ≡ empty }
    {
        PlainLives {
            lives: BTreeMap::new(alloc),
        }
    }

    /// All orders of the instance.
    pub fn life(&self, alloc: Global, instance: &str) -> Result<Vec<Order>, AllocError>
        ensures { IfOk result (λ life. life.items ≡ life_of self.now instance.now) }
    {
        life_of(alloc, &self.lives, instance)
    }

    /// The first so many instances whose last order runs and whose id is greater than `after` by
    /// bytes, in the order of their ids, each with that order.
    pub fn running(
        &self,
        alloc: Global,
        after: &str,
        limit: usize,
    ) -> Result<Vec<(Text, Order)>, AllocError>
        ensures { IfOk result (λ pairs. pairs.items ≡ listing self.now after.now limit) }
    {
        listing(alloc, &self.lives, after, limit)
    }

    /// The view for the ask. A life with 2^32 orders or more has none: the answer is out of memory.
    #[tactic(auto, using(crate::proofs::ViewLemmas::viewed))]
    pub fn view(&self, alloc: Global, ask: &Ask) -> Result<View, AllocError>
        ensures { IfOk result (λ view. data_in view ≡ view_of self.now ask.now) }
    {
        let life = self.named_life(alloc, ask)?;
        let listing = self.listing_for(alloc, ask)?;
        shown(alloc, ask, life.as_slice(), listing)
    }

    fn named_life(&self, alloc: Global, ask: &Ask) -> Result<Vec<Order>, AllocError>
        ensures { IfOk result (λ life. life.items ≡ named_life self.now (instance_id_of ask.now)) }
    {
        match ask.instance() {
            Some(id) => self.life(alloc, id.as_str()),
            None => Ok(Vec::new(alloc)),
        }
    }

    fn listing_for(&self, alloc: Global, ask: &Ask) -> Result<Vec<(Text, Order)>, AllocError>
        ensures { IfOk result (λ pairs. pairs.items ≡ listing_for self.now ask.now) }
    {
        match ask {
            Ask::Orders(orders) => match &orders.after {
                Some(after) => self.running(alloc, after.as_str(), LISTED),
                None => self.running(alloc, "", LISTED),
            },
            Ask::Catalog
            | Ask::Provision(_)
            | Ask::Fetch(_)
            | Ask::Update(_)
            | Ask::Deprovision(_)
            | Ask::InstanceOp(_)
            | Ask::Bind(_)
            | Ask::FetchBinding(_)
            | Ask::Unbind(_)
            | Ask::BindingOp(_)
            | Ask::Report(_) => Ok(Vec::new(alloc)),
        }
    }

    /// Makes the change to the life of the instance; where memory is refused, to none. No change takes
    /// no memory. Whether it may be made isn't looked at.
    pub fn apply(&mut self, alloc: Global, instance: &str, change: Change) -> Result<(), AllocError>
        ensures ok { OnOk result (self.new ≡ lives_changed change instance.now self.old) }
        ensures err { OnErr result (self.new ≡ self.old) }
        ensures sure { OnErr result (change ≢ Nothing) }
    {
        match change {
            Change::Nothing => Ok(()),
            Change::Append(order) => append(alloc, &mut self.lives, instance, order),
            Change::Finish(_, outcome) => finish(alloc, &mut self.lives, instance, outcome),
        }
    }
}
