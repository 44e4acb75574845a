//! Lines of requests that were answered by the fixed 500.

ghost use Rattle.std.specs.Prelude.{◌≡◌, []};
ghost use Rattle.osb_listen.specs.Lines.{cause_words, SaysWithRefused};

use crate::line::say;
use itoa::Buffer;
use osb_broker::Broker;
use osb_frames::Sink;
use osb_records::{Cause, Refusals};
use sqlite::Alter;
use std::time::Instant;

/// So many seconds have to be over between two lines of one cause.
const PAUSE_SECONDS: u64 = 1;

fn words_for(cause: Cause) -> &'static str
    ensures { result.now ≡ cause_words cause }
{
    match cause {
        Cause::Memory => "no memory",
        Cause::DiskFull => "database: disk full",
        Cause::DiskFailed => "database: disk failed",
        Cause::Shut => "database: shut",
        Cause::Other => "database: refused",
    }
}

/// Reports that so many requests were refused for that cause, if there were any.
fn report_cause<E: Sink>(cause: Cause, count: u32, errors: &mut E)
    ensures { SaysWithRefused [] (E.taken errors.old) (E.taken errors.new)
        (E.failed_or_empty errors.old) (E.failed_or_empty errors.new) }
{
    let mut digits = Buffer::new();
    match count {
        0 => {}
        1 => say(errors, &["request: 500 ", words_for(cause), "\n"]),
        _ => say(
            errors,
            &[
                "request: 500 ",
                words_for(cause),
                ", ",
                digits.format(count),
                " times\n",
            ],
        ),
    }
}

/// Reports these refusals, by one line for each cause.
fn report_refusals<E: Sink>(refusals: &Refusals, errors: &mut E)
    ensures { SaysWithRefused [] (E.taken errors.old) (E.taken errors.new)
        (E.failed_or_empty errors.old) (E.failed_or_empty errors.new) }
{
    for cause in [
        Cause::Memory,
        Cause::DiskFull,
        Cause::DiskFailed,
        Cause::Shut,
        Cause::Other,
    ] {
        report_cause(cause, refusals.count(cause), errors);
    }
}

/// Reports the requests that a broker refused and that no line has reported.
pub(crate) fn report_rest<S: Alter, E: Sink>(broker: &mut Broker<'_, S>, errors: &mut E)
    ensures same { broker.new ≡ broker.old }
    ensures says { SaysWithRefused [] (E.taken errors.old) (E.taken errors.new)
        (E.failed_or_empty errors.old) (E.failed_or_empty errors.new) }
{
    report_refusals(&broker.take_refusals(), errors);
}

/// When requests that were refused were last reported.
#[derive(Clone, Copy)]
pub(crate) struct Reported<'a> {
    rt: &'a HostRuntime,
    last: Option<Instant>,
}

impl<'a> Reported<'a> {
    pub(crate) fn never(rt: &'a HostRuntime) -> Reported<'a> {
        Reported { rt, last: None }
    }

    /// Whether the pause is over. It is where the clock can't be read.
    fn is_over(&self) -> bool {
        match self.last {
            Some(last) => match last.elapsed(self.rt) {
                Ok(gone) => gone.as_secs() >= PAUSE_SECONDS,
                Err(_) => true,
            },
            None => true,
        }
    }

    /// Reports the requests that a broker refused, unless some were reported less than a second ago.
    pub(crate) fn report<S: Alter, E: Sink>(&mut self, broker: &mut Broker<'_, S>, errors: &mut E)
        ensures same { broker.new ≡ broker.old }
        ensures says { SaysWithRefused [] (E.taken errors.old) (E.taken errors.new)
            (E.failed_or_empty errors.old) (E.failed_or_empty errors.new) }
    {
        if !self.is_over() {
            return;
        }
        let refusals = broker.take_refusals();
        if refusals != Refusals::NONE {
            self.last = Instant::now(self.rt).ok();
            report_refusals(&refusals, errors);
        }
    }
}
