//! Reads the body of a request: its object, and the members that each ask has.

ghost use Rattle.std.specs.Prelude.{◌≡◌, IfOk};
ghost use Rattle.osb_text.specs.ObjectText.{IsReadable};
ghost use Rattle.osb_asks.specs.Bodies as spec;
ghost use Rattle.osb_asks.specs.Reads.{Meets};
ghost use Rattle.osb_asks.specs.Contents.{Gives, ReadsAs};

use crate::ask::ReportState;
use crate::ask_fault::AskFault;
use crate::id::Id;
use crate::object_text::ObjectText;
use crate::query::id_unless_empty;
use crate::segment::id_or;
use osb_text::{Object, Text, TextFault, has_no_controls, read_object};
use std::alloc::Global;

/// The object that a body has.
#[derive(Debug, Drop)]
pub(crate) struct Content {
    object: Object,
}

/// The plan that a body names, and its service.
#[derive(Debug, Drop)]
pub(crate) struct NamedPlan {
    pub(crate) service: Id,
    pub(crate) plan: Id,
}

/// The space that a body names, and its organization.
#[derive(Debug, Drop)]
pub(crate) struct NamedSpace {
    pub(crate) organization: Id,
    pub(crate) space: Id,
}

/// The context and the parameters, as compact texts.
#[derive(Debug, Drop)]
pub(crate) struct Details {
    pub(crate) context: ObjectText,
    pub(crate) parameters: ObjectText,
}

impl Content {
    ghost use Rattle.osb_asks.specs.Contents.{data_of};

    #[tactic(auto, using(osb_text::proofs::ReadableLemmas::readable))]
    pub(crate) fn read(alloc: Global, body: &[u8]) -> Result<Content, AskFault>
        ensures reads { ReadsAs data_of result (spec.body_of body.now) }
        ensures readable { IfOk result (λ content. IsReadable (data_of content)) }
    {
        match read_object(alloc, body) {
            Ok(object) => Ok(Content { object }),
            Err(fault) if fault == TextFault::Memory => Err(AskFault::Memory),
            Err(_) => Err(AskFault::Body),
        }
    }

    /// The text of that name.
    fn text(&self, name: &str) -> Result<Option<&str>, AskFault>
        ensures { Gives (λ text. text.now) result (spec.body_text_at name.now (data_of self.now)) }
    {
        match self.object.text(name) {
            Ok(text) => Ok(text),
            Err(_) => Err(AskFault::Body),
        }
    }

    /// The id of that name, which has to be there.
    pub(crate) fn id(&self, alloc: Global, name: &str) -> Result<Id, AskFault>
        ensures { Meets result (spec.id_at name.now (data_of self.now)) }
    {
        match self.text(name)? {
            Some(text) => id_or(AskFault::Body, Text::from_str(alloc, text)?),
            None => Err(AskFault::Body),
        }
    }

    /// The id of that name, if it is there.
    pub(crate) fn given_id(&self, alloc: Global, name: &str) -> Result<Option<Id>, AskFault>
        ensures { Meets result (spec.given_id_at name.now (data_of self.now)) }
    {
        match self.text(name)? {
            Some(text) => Ok(Some(id_or(AskFault::Body, Text::from_str(alloc, text)?)?)),
            None => Ok(None),
        }
    }

    #[tactic(auto, unfolding(crate::specs::Bodies::plan_at))]
    pub(crate) fn plan(&self, alloc: Global) -> Result<NamedPlan, AskFault>
        ensures { Meets result (spec.plan_at (data_of self.now)) }
    {
        let service = self.id(alloc, "service_id")?;
        let plan = self.id(alloc, "plan_id")?;
        Ok(NamedPlan { service, plan })
    }

    #[tactic(auto, unfolding(crate::specs::Bodies::space_at))]
    pub(crate) fn space(&self, alloc: Global) -> Result<NamedSpace, AskFault>
        ensures { Meets result (spec.space_at (data_of self.now)) }
    {
        let organization = self.id(alloc, "organization_guid")?;
        let space = self.id(alloc, "space_guid")?;
        Ok(NamedSpace {
            organization,
            space,
        })
    }

    /// The app that is bound, if there is one.
    pub(crate) fn app_guid(&self, alloc: Global) -> Result<Option<Id>, AskFault>
        ensures { Meets result (spec.app_guid_at (data_of self.now)) }
    {
        match self.text("app_guid")? {
            Some(text) => id_unless_empty(AskFault::Body, Some(Text::from_str(alloc, text)?)),
            None => Ok(None),
        }
    }

    /// The description of a report, empty where there is none.
    pub(crate) fn description(&self, alloc: Global) -> Result<Text, AskFault>
        ensures { Meets result (spec.description_at (data_of self.now)) }
    {
        match self.text("description")? {
            Some(text) => {
                if text.len() <= 1000 && has_no_controls(text) {
                    Ok(Text::from_str(alloc, text)?)
                } else {
                    Err(AskFault::Body)
                }
            }
            None => Ok(Text::new(alloc)),
        }
    }

    /// How an order ended, by its report.
    pub(crate) fn state(&self) -> Result<ReportState, AskFault>
        ensures { result ≡ spec.state_at (data_of self.now) }
    {
        match self.text("state")? {
            Some(text) => {
                if text == "succeeded" {
                    Ok(ReportState::Succeeded)
                } else if text == "failed" {
                    Ok(ReportState::Failed)
                } else {
                    Err(AskFault::Body)
                }
            }
            None => Err(AskFault::Body),
        }
    }

    /// The compact text of the object of that name, if it is there.
    #[tactic(auto, using(crate::proofs::ContentLemmas::readable_object))]
    pub(crate) fn object(&self, alloc: Global, name: &str) -> Result<Option<ObjectText>, AskFault>
        requires { IsReadable (data_of self.now) }
        ensures { Meets result (spec.object_at name.now (data_of self.now)) }
    {
        match self.object.object(name) {
            Ok(Some(found)) => Ok(Some(ObjectText::of(alloc, found)?)),
            Ok(None) => Ok(None),
            Err(_) => Err(AskFault::Body),
        }
    }

    /// The compact text of the object of that name, `{}` where it is absent.
    pub(crate) fn object_or_empty(&self, alloc: Global, name: &str) -> Result<ObjectText, AskFault>
        requires { IsReadable (data_of self.now) }
        ensures { Meets result (spec.object_or_empty name.now (data_of self.now)) }
    {
        match self.object(alloc, name)? {
            Some(text) => Ok(text),
            None => Ok(ObjectText::empty(alloc)?),
        }
    }

    #[tactic(auto, unfolding(crate::specs::Bodies::details_at))]
    pub(crate) fn details(&self, alloc: Global) -> Result<Details, AskFault>
        requires { IsReadable (data_of self.now) }
        ensures { Meets result (spec.details_at (data_of self.now)) }
    {
        let context = self.object_or_empty(alloc, "context")?;
        let parameters = self.object_or_empty(alloc, "parameters")?;
        Ok(Details {
            context,
            parameters,
        })
    }

    /// The maintenance version, if there is one.
    pub(crate) fn maintenance(&self, alloc: Global) -> Result<Option<Text>, AskFault>
        ensures { Meets result (spec.maintenance_at (data_of self.now)) }
    {
        match self.object.object("maintenance_info") {
            Ok(Some(info)) => match info.text("version") {
                Ok(Some(text)) => Ok(Some(Text::from_str(alloc, text)?)),
                Ok(None) => Err(AskFault::Body),
                Err(_) => Err(AskFault::Body),
            },
            Ok(None) => Ok(None),
            Err(_) => Err(AskFault::Body),
        }
    }
}
