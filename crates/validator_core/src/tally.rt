//! A tally of what is live after some events over records: what it takes to judge the next event.
//! It copies no record and alters none.

ghost use Rattle.std.specs.Prelude.{◌≡◌, ◌<◌, ◌≤◌, ◌^◌, [], List, None, Some, IfOk, length, option_to_list, if◌then◌else◌};
ghost use Rattle.std.specs.List.Sorted.{IsStrictlyIncreasing};
ghost use Rattle.std.specs.Option.{option_copied};
ghost use Rattle.swima_model.specs.declared.event.Event.{Event};
ghost use Rattle.swima_model.specs.declared.record.Record.{Record};
ghost use Rattle.swima_model.specs.History.{is_carried, is_contradiction};
ghost use Rattle.swima_model.specs.InOrder.{ids};
ghost use Rattle.swima_model.specs.Live.{by_mention, record_of};
ghost use Rattle.swima_model.specs.Size.{MOST_CONTENT_OCTETS, records_octets};
ghost use Rattle.validator_core.specs.Tally.{AreFew, Follows, IsTally, too_many};
ghost use Rattle.validator_core.specs.Weighed.{AreWeighed};

use crate::limits::is_large;
use crate::mirror::Taken;
use std::alloc::Global;
use std::collections::BTreeMap;
use swima_model::{Action, Content, Event, Record, record_of};
use wire_base::Memory;

/// Records, the last mention of each by some events, and how many records are live after these,
/// with how many octets.
#[derive(Drop)]
pub(crate) struct Tally<'a> {
    records: &'a [Record],
    mentions: BTreeMap<u32, &'a Event>,
    count: usize,
    octet_count: u64,
}

impl<'a> Tally<'a> {
    /// The tally of `records`, which have that many octets, before any event. It takes no memory.
    pub(crate) fn new(alloc: Global, records: &'a [Record], octet_count: u64) -> Self
        requires weighed { AreWeighed records.now octet_count }
        ensures begins { IsTally result.records.now [] result }
        ensures records { result.records.now ≡ records.now }
        ensures few { AreFew result }
    {
        Tally {
            records,
            mentions: BTreeMap::new(alloc),
            count: records.len(),
            octet_count,
        }
    }

    /// How many octets the records have that are live.
    pub(crate) fn into_octet_count(self) -> u64
        ensures octets { result ≡ self.entry.octet_count }
    {
        self.octet_count
    }

    /// Follows an event that fits, or gives what is to be said of one that does not. After that the
    /// tally is of no use.
    pub(crate) fn follow(&mut self, event: &'a Event) -> Result<Option<Taken>, Memory>
        requires some { (base : List Record) × (before : List Event) × IsTally base before self.old }
        requires few { AreFew self.old }
        ensures follows { (base : List Record) (before : List Event) → IsTally base before self.old
            → IfOk result (λ said. Follows base before event.now said self.new) }
        ensures few { IfOk result (λ said. said ≡ None → AreFew self.new) }
    {
        let id = event.subject.id;
        let last = self.mentions.insert(id, event)?;
        let held = live_record(self.records, id, last);
        if is_contradiction(event, held) {
            return Ok(Some(Taken::Contradiction { eid: event.eid }));
        }
        let gone = weight(held);
        let come = weight(said(event));
        self.count = self.count + come.0 - gone.0;
        self.octet_count = self.octet_count + come.1 - gone.1;
        Ok(self.too_large())
    }

    /// What is said where too much is live.
    fn too_large(&self) -> Option<Taken>
        requires few { self.now.count < 2 ^ 32 }
        ensures large { result ≡ too_many self.now.count self.now.octet_count }
    {
        if is_large(self.count, self.octet_count) {
            return Some(Taken::Large {
                count: self.count as u32,
                octets: self.octet_count,
            });
        }
        None
    }
}

/// What is live of the record of this identifier, where that is its last mention.
fn live_record<'a>(records: &'a [Record], id: u32, last: Option<&'a Event>) -> Option<&'a Record>
    requires rising { IsStrictlyIncreasing (ids records.now) }
    ensures held { option_copied result ≡ by_mention (record_of id records.now) (option_copied last.entry) }
{
    match last {
        None => record_of(records, id),
        Some(event) => said(event),
    }
}

/// What the event says of its record; nothing where it says that the record is gone.
fn said(event: &Event) -> Option<&Record>
    ensures said { option_copied result ≡ by_mention None (Some event.now) }
{
    match event.action {
        Action::Deletion => None,
        Action::Creation | Action::Alteration => Some(&event.subject),
    }
}

/// How many records these are, none or one, and how many octets they have.
fn weight(found: Option<&Record>) -> (usize, u64)
    ensures count { result.0 ≡ length (option_to_list (option_copied found.entry)) }
    ensures octets { result.1 ≡ records_octets (option_to_list (option_copied found.entry)) }
    ensures within { (result.0 ≤ 1) × (result.1 ≤ MOST_CONTENT_OCTETS) }
{
    match found {
        None => (0, 0),
        Some(found) => (1, found.content.octets()),
    }
}

/// Whether the event contradicts what is live of its record.
fn is_contradiction(event: &Event, held: Option<&Record>) -> bool
    ensures unfit { result ≡ is_contradiction event.now.action (option_copied held.entry) event.now.subject.content }
{
    match event.action {
        Action::Creation => held.is_some(),
        Action::Deletion => !is_carried(held, &event.subject.content),
        Action::Alteration => held.is_none(),
    }
}

/// Whether a record is live, and the event of its deletion may carry this content.
fn is_carried(held: Option<&Record>, carried: &Content) -> bool
    ensures carried { result ≡ is_carried (option_copied held.entry) carried.now }
{
    match held {
        None => false,
        Some(held) => held.content.carries(carried),
    }
}
