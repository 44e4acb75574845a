//! The settings of a broker: its catalog, how the orders of each plan are carried out, how many
//! orders an instance may have, and the logins of platform and backend.
//!
//! `Settings::read` reads them from a JSON file, or names the fault of the lowest number that
//! is anywhere in it. What a file must and may have is a table, `specs/Tables.antt`; what the
//! platform is shown of it is another, `specs/Catalog.antt`.
#![tactic(auto)]

mod built_in;
mod contents;
mod fault;
mod field;
mod found;
mod id_positions;
mod ids;
mod kind;
pub mod laws;
mod login;
mod member;
mod missing;
mod mode;
mod plan;
mod reading;
mod settings;
mod shown;
mod table;
mod version;

pub use built_in::BUILT_IN;
pub use fault::SettingsFault;
pub use field::Field;
pub use found::{Place, place_of};
pub use kind::Kind;
pub use member::{modes_of, plans_of, services_of, text_at, value_at};
pub use mode::{mode_of_plan, timing_at};
pub use plan::{Mode, PlanFacts, Timing};
pub use settings::Settings;
pub use table::{
    FieldRule, catalog_rules, file_rules, mode_rules, plan_left_out_rules, plan_rules,
    service_left_out_rules, service_rules,
};
