//! The subscriptions of a session, and their calls.

ghost use Rattle.std.specs.Prelude.{◌≡◌, ◌<◌, ◌↔◌, ◌∷◌, ◌++◌, [], IfOk, IsTrue, OnErr, OnOk, false, if◌then◌else◌, length, slice_get};
ghost use Rattle.std.specs.Option.{option_copied};
ghost use Rattle.swima_subs.specs.Subscriptions.{Applied, AreSubs, Establishes, MOST_SUBSCRIPTIONS as MOST, cleared, ended, fulfilled_to, is_held, new_waiting, next_from, next_request, reported, status};

use crate::sub_answer::SubAnswer;
use crate::waiting::Waiting;
use std::alloc::Global;
use std::marker::Model;
use swima_model::Point;
use swima_request::{Request, Requests};
use wire_base::{List, Memory, TryCopy};

/// The most subscriptions of a session; the next is denied (RFC 8412, section 3.8.1).
pub const MOST_SUBSCRIPTIONS: usize = 16;

/// The subscriptions of a session, in the order in which they were established.
#[derive(Debug, Drop)]
pub struct Subs {
    held: Vec<Waiting>,
}

impl Model for Subs {
    ghost use Rattle.std.specs.Prelude.{List};
    ghost use Rattle.swima_subs.specs.declared.waiting.Waiting.{Waiting as WaitingValue};
    ghost use Rattle.swima_subs.specs.Subscriptions.{AreSubs};

    ghost Value = { List WaitingValue };

    ghost view = { λ subs. subs.held.items };

    ghost invariant = { λ subs. AreSubs subs.held.items };
}

impl Subs {
    /// No subscriptions. It takes no memory.
    pub fn new(alloc: Global) -> Self
        ensures none { result ≡ [] }
    {
        Subs {
            held: Vec::new(alloc),
        }
    }

    /// How many are held.
    pub fn len(&self) -> usize
        ensures len { result ≡ length self.now }
        ensures are { AreSubs self.now }
    {
        self.held.len()
    }

    /// Whether none is held.
    pub fn is_empty(&self) -> bool
        ensures empty { IsTrue result ↔ (self.now ≡ []) }
    {
        self.held.is_empty()
    }

    /// The subscription at a place, counted from 0; `None` exactly where fewer are held. It takes
    /// no memory.
    pub fn get(&self, index: usize) -> Option<&Waiting>
        ensures item { option_copied result ≡ slice_get self.now index }
    {
        self.held.get(index)
    }

    /// All of them in order. It takes no memory.
    pub fn as_slice(&self) -> &[Waiting]
        ensures items { result.now ≡ self.now }
    {
        self.held.as_slice()
    }

    /// A request: it ends all subscriptions first where it has the flag Clear Subscriptions, and
    /// establishes one where it has the flag Subscribe (RFC 8412, sections 3.8.1 and 3.8.3).
    ///
    /// `Reused` comes exactly where the ID is held then, and `Denied` exactly where it is not and
    /// 16 are held. At `Memory` no subscription is established; those that were ended stay so.
    pub fn apply(&mut self, request: &Request) -> SubAnswer
        ensures applied { Applied self.old request.now result self.new }
    {
        self.clear_if(request.clear);
        if request.subscribe {
            self.establish(request)
        } else {
            SubAnswer::Taken
        }
    }

    /// Ends all of them, or none.
    fn clear_if(&mut self, clear: bool)
        ensures cleared { self.new ≡ (if clear then [] else self.old) }
    {
        if clear {
            self.held.clear();
        }
    }

    /// Establishes a subscription, unless its ID is held or there are as many as may be.
    fn establish(&mut self, request: &Request) -> SubAnswer
        ensures established { Establishes self.old request.now result self.new }
    {
        if self.is_held(request.id) {
            return SubAnswer::Reused { id: request.id };
        }
        if self.held.len() >= MOST_SUBSCRIPTIONS {
            return SubAnswer::Denied {
                held: MOST_SUBSCRIPTIONS as u32,
            };
        }
        match self.add(request) {
            Ok(()) => SubAnswer::Taken,
            Err(Memory) => SubAnswer::Memory,
        }
    }

    /// Whether a subscription has the ID. It takes no memory.
    pub fn is_held(&self, id: u32) -> bool
        ensures held { result ≡ is_held id self.now }
    {
        self.held.iter().any(|held| held.request.id == id)
    }

    /// Adds the subscription that a request establishes.
    fn add(&mut self, request: &Request) -> Result<(), Memory>
        requires new { is_held request.now.id self.old ≡ false }
        requires few { length self.old < MOST }
        ensures appended { OnOk result (self.new ≡ self.old ++ new_waiting request.now ∷ []) }
        ensures unchanged { OnErr result (self.new ≡ self.old) }
    {
        let request = request.copy()?;
        self.held.push(Waiting {
            request,
            place: None,
        })?;
        Ok(())
    }

    /// The subscription of the ID was fulfilled up to a point (RFC 8412, section 3.8.5). It takes
    /// no memory.
    pub fn reported(&mut self, id: u32, point: Point)
        ensures reported { self.new ≡ reported self.old id point }
    {
        for held in self.held.iter_mut() {
            held.fulfil(id, point);
        }
    }

    /// Ends the subscription of the ID. It takes no memory.
    pub fn end(&mut self, id: u32)
        ensures ended { self.new ≡ ended self.old id }
    {
        self.held.retain(|held| held.request.id != id);
    }

    /// The requests that established them, in order (RFC 8412, section 3.8.4).
    pub fn status(&self, alloc: Global) -> Result<Requests, Memory>
        ensures requests { IfOk result (λ made. made ≡ status self.now) }
    {
        let mut requests = List::new(alloc);
        for held in self.held.as_slice() {
            requests.push(held.request.copy()?)?;
        }
        Ok(requests)
    }
}

impl Waiting {
    /// It was fulfilled up to a point, if it has the ID.
    fn fulfil(&mut self, id: u32, point: Point)
        ensures fulfilled { self.new ≡ fulfilled_to id point self.old }
    {
        if self.request.id == id {
            self.place = Some(point);
        }
    }

    /// The request that fulfils it further, where the point is now this one (RFC 8412, section
    /// 3.8.5.2).
    pub fn next_request(&self, place: Point, now: Point) -> Result<Request, Memory>
        ensures request { IfOk result (λ made. made ≡ next_request self.now.request place now) }
    {
        Ok(Request {
            clear: false,
            subscribe: false,
            kind: self.request.kind,
            id: self.request.id,
            earliest: next_from(place, now),
            targets: self.request.targets.copy()?,
        })
    }
}

/// The event identifier from which on events are asked for after a place.
fn next_from(place: Point, now: Point) -> u32
    ensures from { result ≡ next_from place now }
{
    if place.epoch == now.epoch {
        place.eid.wrapping_add(1)
    } else {
        0
    }
}
