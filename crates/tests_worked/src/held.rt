//! Conversations that are held with a broker, in one run and in a run for each request.
//!
//! Behind each request a next run takes the records over. They are then beside the plain lives (`beside`),
//! and have the states and the orders that the text says.

use crate::beside::{looked_life, stay_beside};
use crate::conversations::{Conversation, Kind, Step};
use crate::exchanges::{Differences, after, bytes_of, compare, served};
use crate::orders::is_life_behind;
use osb_catalog::Settings;
use osb_orders::PlainLives;
use osb_records::{Records, open_memory};
use sqlite::MemStore;
use std::alloc::Global;
use std::test::Fail;
use tests_support::catalogs::{built_in, settings_with};
use tests_support::exchange::request;

/// The built-in settings with one text in the place of another, as `FROM => TO` says.
fn settings_by(alloc: Global, text: &str) -> Result<Settings, Fail> {
    let (from, to) = text.split_once(" => ").ok_or("no text to be replaced")?;
    settings_with(alloc, from, to)
}

/// The records behind the requests that a conversation went on with in so many steps.
fn records_after(alloc: Global, steps: &[Step], count: usize) -> Result<Records<MemStore>, Fail> {
    let mut settings = built_in(alloc)?;
    let mut records = open_memory(alloc)?;
    for step in steps.iter().take(count) {
        match step.kind {
            Kind::Over => settings = settings_by(alloc, step.text.as_str())?,
            Kind::Goes => records = served(alloc, &settings, records, &[step])?.0,
            Kind::At | Kind::Asked | Kind::Is => {}
        }
    }
    Ok(records)
}

/// The records that the next run finds where these were left.
fn taken_over(alloc: Global, records: Records<MemStore>) -> Result<Records<MemStore>, Fail> {
    match Records::adopt(alloc, records.into_connection()) {
        Ok(again) => Ok(again),
        Err(_) => Err("not taken over")?,
    }
}

/// A request for the binding of `INSTANCE BINDING`. Its view has both.
fn looked_at(alloc: Global, text: &str) -> Result<String, Fail> {
    let (instance, binding) = text.split_once(' ').ok_or("no binding")?;
    Ok(format!(in alloc; "GET /v2/service_instances/{instance}/service_bindings/{binding}")?)
}

/// A conversation so far: its settings, its records, the plain lives beside them, what is looked at, and
/// what differs.
#[derive(Drop)]
struct Held {
    settings: Settings,
    records: Records<MemStore>,
    plain: PlainLives,
    looked: String,
    differences: Differences,
}

impl Held {
    fn new(alloc: Global) -> Result<Held, Fail> {
        Ok(Held {
            settings: built_in(alloc)?,
            records: open_memory(alloc)?,
            plain: PlainLives::new(alloc),
            looked: looked_at(alloc, "i b")?,
            differences: Vec::new(alloc),
        })
    }

    /// Makes a request, in a run of its own.
    fn go(self, alloc: Global, step: &Step) -> Result<Held, Fail> {
        let Held {
            settings,
            records,
            plain,
            looked,
            mut differences,
        } = self;
        let left = after(alloc, &settings, records, &[step], &mut differences)?;
        let mut held = Held {
            settings,
            records: taken_over(alloc, left)?,
            plain,
            looked,
            differences,
        };
        held.state_by(alloc, bytes_of(alloc, step)?.as_slice())?;
        Ok(held)
    }

    /// The state by the view for a request. Fails where the records aren't beside the plain lives.
    fn state_by(&mut self, alloc: Global, bytes: &[u8]) -> Result<String, Fail> {
        stay_beside(
            alloc,
            &self.settings,
            &mut self.records,
            &mut self.plain,
            bytes,
        )
    }

    fn compare_state(&mut self, alloc: Global, expected: &str) -> Result<(), Fail> {
        let bytes = request(alloc, self.looked.as_str(), "")?;
        let found = self.state_by(alloc, bytes.as_slice())?;
        compare(
            alloc,
            &mut self.differences,
            "the state",
            found.as_str(),
            expected,
        )
    }

    fn compare_orders(&mut self, alloc: Global, expected: &str) -> Result<(), Fail> {
        let looked = self.looked.as_str();
        let found = looked_life(alloc, &self.settings, &mut self.records, looked)?;
        compare(
            alloc,
            &mut self.differences,
            "the orders",
            found.as_str(),
            expected,
        )
    }

    /// Asks a broker of its own with these records, and looks at the orders then.
    fn ask(
        &mut self,
        alloc: Global,
        mut records: Records<MemStore>,
        step: &Step,
    ) -> Result<(), Fail> {
        let looked = self.looked.as_str();
        let settings = &self.settings;
        let before = looked_life(alloc, settings, &mut records, looked)?;
        let mut records = after(alloc, settings, records, &[step], &mut self.differences)?;
        let behind = looked_life(alloc, settings, &mut records, looked)?;
        if !is_life_behind(before.as_str(), behind.as_str(), &step.orders) {
            let told = format!(in alloc; "{} {}: the orders: {behind}", step.text, step.body)?;
            self.differences.push(told)?;
        }
        Ok(())
    }

    /// Takes a step, of which so many went before.
    fn take(
        mut self,
        alloc: Global,
        steps: &[Step],
        count: usize,
        step: &Step,
    ) -> Result<Held, Fail> {
        match step.kind {
            Kind::Over => self.settings = settings_by(alloc, step.text.as_str())?,
            Kind::At => self.looked = looked_at(alloc, step.text.as_str())?,
            Kind::Goes => return self.go(alloc, step),
            Kind::Asked => self.ask(alloc, records_after(alloc, steps, count)?, step)?,
            Kind::Is => self.compare_state(alloc, step.text.as_str())?,
        }
        Ok(self)
    }
}

/// What differs where each request is in a run of its own.
fn in_runs(alloc: Global, steps: &[Step]) -> Result<Differences, Fail> {
    let mut held = Held::new(alloc)?;
    for (count, step) in steps.iter().enumerate() {
        held = held.take(alloc, steps, count, step)?;
        if let (false, Some(orders)) = (step.kind == Kind::Asked, &step.orders) {
            held.compare_orders(alloc, orders.as_str())?;
        }
    }
    let Held { differences, .. } = held;
    Ok(differences)
}

/// Whether the settings change once a request was made.
fn changes_settings(steps: &[Step]) -> bool {
    let mut has_begun = false;
    let mut changes = false;
    for step in steps {
        has_begun = has_begun || step.kind == Kind::Goes;
        changes = changes || (has_begun && step.kind == Kind::Over);
    }
    changes
}

/// Adds what differs where all requests that the conversation goes on with are in one run.
fn in_one_run(alloc: Global, steps: &[Step], differences: &mut Differences) -> Result<(), Fail> {
    let mut settings = built_in(alloc)?;
    let mut requests = Vec::new(alloc);
    for step in steps {
        match step.kind {
            Kind::Over => settings = settings_by(alloc, step.text.as_str())?,
            Kind::Goes => requests.push(step)?,
            Kind::At | Kind::Asked | Kind::Is => {}
        }
    }
    let records = open_memory(alloc)?;
    let left = after(alloc, &settings, records, requests.as_slice(), differences)?;
    drop(left);
    Ok(())
}

/// What differs in a conversation. Fails where it has no request, or isn't as it has to be written.
pub fn hold(alloc: Global, conversation: &Conversation) -> Result<Differences, Fail> {
    let steps = conversation.steps.as_slice();
    if !steps.iter().any(|step| step.kind.is_request()) {
        return Err("a conversation without a request")?;
    }
    let mut differences = in_runs(alloc, steps)?;
    if !changes_settings(steps) {
        in_one_run(alloc, steps, &mut differences)?;
    }
    Ok(differences)
}
