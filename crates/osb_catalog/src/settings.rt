//! The settings, with the look-ups by which the broker decides.

ghost use Rattle.std.specs.Prelude.{◌≡◌, ◌≤◌, option_map, is_some, length};
ghost use Rattle.osb_catalog.specs.Rules.{rules_of, allows_context_updates, service_named, plan_named};
ghost use Rattle.osb_catalog.specs.Sound.{AreSound};

use crate::id_positions::IdPositions;
use crate::plan::{Mode, Plan, PlanFacts, Service};
use osb_text::Text;
use std::marker::Model;

/// What the broker is set up with: its catalog, how orders of each plan are carried out, how many
/// orders an instance may have, and who may call.
///
/// Services and plans are found by a map from their ids: a look-up takes the logarithm of their
/// number, and no memory.
#[derive(Drop)]
pub struct Settings {
    pub(crate) catalog: Text,
    pub(crate) services: Vec<Service>,
    pub(crate) service_places: IdPositions,
    pub(crate) plans: Vec<Plan>,
    pub(crate) plan_places: IdPositions,
    pub(crate) order_limit: u32,
    pub(crate) platform_tokens: Vec<Text>,
    pub(crate) backend_tokens: Vec<Text>,
}

impl Model for Settings {
    ghost use Rattle.osb_catalog.specs.SettingsData.{SettingsData};

    ghost Value = { SettingsData };

    ghost use Rattle.osb_catalog.specs.Inside.{data_of, AreIndexed};

    ghost view = { data_of };

    ghost invariant = { AreIndexed };
}

impl Settings {
    /// The body that answers a request for the catalog.
    pub fn catalog_text(&self) -> &[u8]
        ensures { result.now ≡ (rules_of self.now).catalog }
    {
        self.catalog.as_str().as_bytes()
    }

    /// Whether the catalog has the service.
    pub fn service(&self, id: &str) -> bool
        ensures found { result ≡ is_some ((rules_of self.now).service id.now) }
        ensures sound { AreSound (rules_of self.now) }
    {
        self.service_named(id).is_some()
    }

    /// Whether an update may change the context of the service's instances: its
    /// `allow_context_updates`, and false for a service that the catalog doesn't have.
    pub fn context_updates(&self, service: &str) -> bool
        ensures { result ≡ allows_context_updates (rules_of self.now) service.now }
    {
        match self.service_named(service) {
            Some(found) => found.context_updates,
            None => false,
        }
    }

    /// What the catalog says of the plan, where the service has it.
    pub fn plan(&self, service: &str, plan: &str) -> Option<&PlanFacts>
        ensures found { option_map (λ facts. facts.now) result ≡ (rules_of self.now).plan service.now plan.now }
        ensures sound { AreSound (rules_of self.now) }
    {
        match self.plan_named(plan) {
            Some(found) if found.service.as_str() == service => Some(&found.facts),
            _ => None,
        }
    }

    /// The mode of the plan: `None` exactly where no service of the catalog has it.
    pub fn mode(&self, plan: &str) -> Option<&Mode>
        ensures found { option_map (λ mode. mode.now) result ≡ (rules_of self.now).mode plan.now }
        ensures sound { AreSound (rules_of self.now) }
    {
        match self.plan_named(plan) {
            Some(found) => Some(&found.mode),
            None => None,
        }
    }

    /// How many orders an instance may have in its life, from 1 to 1,000,000.
    pub fn order_limit(&self) -> u32
        ensures limit { result ≡ (rules_of self.now).order_limit }
        ensures sound { AreSound (rules_of self.now) }
    {
        self.order_limit
    }

    /// What may follow `Basic ` in the platform's requests: user, colon and password in padded
    /// standard base64 (RFC 7617, section 2). Behind that of its login is that of `also`.
    pub fn platform_tokens(&self) -> &[Text]
        ensures { result.now ≡ (rules_of self.now).platform_tokens }
    {
        self.platform_tokens.as_slice()
    }

    /// The same for the backend's requests.
    pub fn backend_tokens(&self) -> &[Text]
        ensures { result.now ≡ (rules_of self.now).backend_tokens }
    {
        self.backend_tokens.as_slice()
    }

    /// The numbers of services and of plans.
    pub fn counts(&self) -> (usize, usize)
        ensures { result ≡ (length self.now.services, length self.now.plans) }
    {
        (self.services.len(), self.plans.len())
    }

    fn service_named(&self, id: &str) -> Option<&Service>
        ensures found { option_map (λ s. s.now) result ≡ service_named self.now.services id.now }
        ensures sound { AreSound (rules_of self.now) }
    {
        match self.service_places.get(id) {
            Some(place) => self.services.get(place),
            None => None,
        }
    }

    fn plan_named(&self, id: &str) -> Option<&Plan>
        ensures found { option_map (λ p. p.now) result ≡ plan_named self.now.plans id.now }
        ensures sound { AreSound (rules_of self.now) }
    {
        match self.plan_places.get(id) {
            Some(place) => self.plans.get(place),
            None => None,
        }
    }
}
