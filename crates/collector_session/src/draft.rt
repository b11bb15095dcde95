//! The batch that a collector is writing.

ghost use Rattle.std.specs.Prelude.{◌≡◌, ◌≤◌, ◌<◌, ◌∷◌, ◌++◌, [], OnOk, length};
ghost use Rattle.collector_session.specs.Answers.{AppliesTo};
ghost use Rattle.collector_session.specs.Sizes.{Closed, Fits, Grown, MOST_ROOM};
ghost use Rattle.collector_session.specs.Standing.{draft_of};
ghost use Rattle.pb_batch.specs.Form.{BATCH_MESSAGES};
ghost use Rattle.session_rules.specs.Answering.{closed, earlier_left, gives_up, keeps_place, puts_error, puts_report, puts_status, reach_of};
ghost use Rattle.swima_model.specs.Reports.{FitsAttribute};
ghost use Rattle.swima_model.specs.Size.{report_size};

use pa_attrs::{Attrs, PaError, PaErrorCode};
use pb_batch::Messages;
use session_rules::{Codes, Points};
use session_words::{attribute, error_attribute, write_words};
use std::alloc::Global;
use std::mem;
use swima_model::{Point, Report};
use swima_reports::{report_type, size_of, write_report};
use swima_request::{Request, SUBSCRIPTION_STATUS_RESPONSE, status_fits, write_status};
use swima_subs::{SubAnswer, Subs};
use wire_base::{List, Memory};

/// A batch that is being written. What is noted of it is noted once it waits.
#[derive(Debug, Drop)]
pub(crate) struct Draft {
    /// The subscriptions.
    pub(crate) subs: Subs,
    /// How many of them are of earlier batches.
    pub(crate) earlier: usize,
    /// The most octets that the values of further reports may have.
    pub(crate) room: u32,
    /// The attributes that answer the message that is being answered.
    pub(crate) attrs: Attrs,
    /// The messages of the batch.
    pub(crate) messages: Messages,
    /// The number of the last PA-TNC message.
    pub(crate) numbered: u32,
    /// The points of the reports in it.
    pub(crate) points: Points,
    /// The codes of the Errors that were heard.
    pub(crate) errors: Codes,
}

impl Draft {
    /// The batch before the first answer, where these subscriptions are held. It takes no memory.
    pub(crate) fn new(alloc: Global, subs: Subs, room: u32, numbered: u32) -> Self
        ensures made { result ≡ record { subs = subs; earlier = length subs; room = room; attrs = []; messages = []; numbered = numbered; points = []; errors = [] } }
    {
        let earlier = subs.len();
        Draft {
            subs,
            earlier,
            room,
            attrs: List::new(alloc),
            messages: List::new(alloc),
            numbered,
            points: List::new(alloc),
            errors: List::new(alloc),
        }
    }

    /// Applies a request to the subscriptions (RFC 8412, sections 3.8.1 and 3.8.3).
    pub(crate) fn apply(&mut self, request: &Request) -> SubAnswer
        ensures applied { AppliesTo self.old request.now result self.new }
    {
        self.earlier = earlier_left(self.earlier, request.clear);
        self.subs.apply(request)
    }

    /// A new subscription is fulfilled as far as the report that answers its request.
    pub(crate) fn keep_place(&mut self, request: &Request, report: &Report)
        ensures kept { self.new ≡ record self.old { subs = keeps_place request.now (reach_of report.now) self.old.subs } }
    {
        if request.subscribe {
            self.subs.reported(request.id, reach_of(report));
        }
    }

    /// A new subscription ends where the report is too large that answers its request.
    pub(crate) fn give_up(&mut self, request: &Request)
        ensures ended { self.new ≡ record self.old { subs = gives_up request.now self.old.subs } }
    {
        if request.subscribe {
            self.subs.end(request.id);
        }
    }

    /// Puts an Error about the request with an ID (RFC 8412, section 5.15).
    pub(crate) fn put_error(
        &mut self,
        alloc: Global,
        code: PaErrorCode,
        id: u32,
        most: Option<u32>,
    ) -> Result<(), Memory>
        ensures put { OnOk result (draft_of self.new ≡ puts_error (draft_of self.old) code id most) }
        ensures subs { OnOk result (self.new.subs ≡ self.old.subs) }
        ensures grown { OnOk result (Grown self.old self.new) }
    {
        let error = PaError::swima(alloc, code.number(), id, most)?;
        self.attrs.push(error_attribute(alloc, &error)?)
    }

    /// Puts a report that has room (RFC 8412, sections 5.7 to 5.10).
    pub(crate) fn put_report(&mut self, alloc: Global, report: &Report) -> Result<(), Memory>
        requires fits { FitsAttribute report.now }
        requires room { report_size report.now ≤ self.old.room }
        ensures put { OnOk result (draft_of self.new ≡ puts_report (draft_of self.old) report.now) }
        ensures subs { OnOk result (self.new.subs ≡ self.old.subs) }
        ensures grown { OnOk result (Grown self.old self.new) }
    {
        let value = write_report(alloc, report)?;
        self.attrs.push(attribute(report_type(report), value))?;
        self.points.push(report.point())?;
        self.room -= size_of(report) as u32;
        Ok(())
    }

    /// Puts the requests of the subscriptions, where they have room (RFC 8412, section 5.12).
    pub(crate) fn put_status(&mut self, alloc: Global) -> Result<(), Memory>
        requires room { self.old.room ≤ MOST_ROOM }
        ensures put { OnOk result (draft_of self.new ≡ puts_status (draft_of self.old)) }
        ensures grown { OnOk result (Grown self.old self.new) }
    {
        let requests = self.subs.status(alloc)?;
        if !status_fits(&requests, self.room) {
            let most = Some(self.room);
            return self.put_error(alloc, PaErrorCode::SwimaResponseTooLargeError, 0, most);
        }
        let value = write_status(alloc, &requests)?;
        self.room -= value.len() as u32;
        self.attrs
            .push(attribute(SUBSCRIPTION_STATUS_RESPONSE, value))
    }

    /// Notes the code of an Error that was heard.
    pub(crate) fn hear_error(&mut self, code: u32) -> Result<(), Memory>
        ensures noted { OnOk result (self.new ≡ record self.old { errors = self.old.errors ++ code ∷ [] }) }
        ensures grown { OnOk result (Grown self.old self.new) }
    {
        self.errors.push(code)
    }

    /// Puts the attributes that answer one message into a message; without any, none is put.
    pub(crate) fn close_message(&mut self, alloc: Global) -> Result<(), Memory>
        requires fits { Fits self.old }
        requires count { length self.old.messages < BATCH_MESSAGES }
        ensures closed { OnOk result (draft_of self.new ≡ closed (draft_of self.old)) }
        ensures small { OnOk result (Closed self.old self.new) }
    {
        if self.attrs.is_empty() {
            return Ok(());
        }
        let number = self.numbered.wrapping_add(1);
        let attrs = mem::replace(&mut self.attrs, List::new(alloc));
        self.messages.push(write_words(alloc, number, attrs)?)?;
        self.numbered = number;
        Ok(())
    }
}

/// How many subscriptions of earlier batches are left after a request.
fn earlier_left(earlier: usize, clear: bool) -> usize
    ensures left { result ≡ earlier_left earlier clear }
{
    if clear { 0 } else { earlier }
}

/// How far a subscription is fulfilled that a report answers.
pub(crate) fn reach_of(report: &Report) -> Point
    ensures reach { result ≡ reach_of report.now }
{
    match report {
        Report::Inventory { point, .. } => *point,
        Report::Events {
            point,
            consulted,
            ..
        } => Point {
            epoch: point.epoch,
            eid: *consulted,
        },
    }
}
