//! The targets of a request, and what they choose of an inventory.

ghost use Rattle.std.specs.Prelude.{◌≡◌, ◌≤◌, ◌++◌, ℕ, List, IfOk, OnOk, length, option_to_list};
ghost use Rattle.std.specs.List.{list_any};
ghost use Rattle.std.specs.BTreeSet.{IsOrdered};
ghost use Rattle.std.specs.Option.{option_copied};
ghost use Rattle.std.specs.Ordering.{nat_cmp};
ghost use Rattle.std.specs.Str.{bytes_eq};
ghost use Rattle.collector_core.specs.Answering.{is_wanted, wanted_events, wanted_records};
ghost use Rattle.event_log.specs.Log.{event_at, events_from};
ghost use Rattle.collector_core.specs.Borrowed.{values};
ghost use Rattle.collector_core.specs.Index.{picked};
ghost use Rattle.collector_core.specs.OctetOrder.{Rises};

use crate::index::found;
use crate::live::Live;
use event_log::EventLog;
use std::alloc::Global;
use std::collections::BTreeSet;
use std::marker::Model;
use swima_model::{Event, Ident, Record};
use swima_request::Idents;
use wire_base::Memory;

/// The targets of a request in the order of their octets, so that each question costs a search and
/// no walk.
#[derive(Drop)]
pub(crate) struct Targets<'a> {
    rising: Vec<&'a [u8]>,
}

impl<'a> Model for Targets<'a> {
    ghost use Rattle.std.specs.Prelude.{List, ℕ};
    ghost use Rattle.collector_core.specs.Borrowed.{values};
    ghost use Rattle.collector_core.specs.OctetOrder.{Rises};

    ghost Value = { List (List ℕ) };

    ghost view = { λ targets. values targets.rising.items };

    ghost invariant = { λ targets. Rises targets.rising.items };
}

impl<'a> Targets<'a> {
    /// The targets in order.
    pub(crate) fn new(alloc: Global, targets: &'a Idents) -> Result<Self, Memory>
        ensures asks { IfOk result (λ made. (ident : List ℕ) → is_wanted made ident ≡ is_wanted targets.now ident) }
    {
        let mut rising = octets_of(alloc, targets)?;
        rising.sort_unstable();
        Ok(Targets { rising })
    }

    /// Whether there are no targets, or the identifier is one of them. It takes no memory.
    pub(crate) fn has(&self, ident: &Ident) -> bool
        ensures wanted { result ≡ is_wanted self.now ident.now }
    {
        self.rising.is_empty() || is_among(self.rising.as_slice(), ident.bytes())
    }
}

/// The octets of each identifier.
fn octets_of<'a>(alloc: Global, idents: &'a Idents) -> Result<Vec<&'a [u8]>, Memory>
    ensures octets { IfOk result (λ made. values made.items ≡ idents.now) }
{
    let mut octets = Vec::with_capacity(alloc, idents.len())?;
    for ident in idents.as_slice() {
        octets.push(ident.bytes())?;
    }
    Ok(octets)
}

/// Whether the octets are among those that stand in their order. It takes no memory.
pub(crate) fn is_among(rising: &[&[u8]], octets: &[u8]) -> bool
    requires rising { Rises rising.now }
    ensures among { result ≡ list_any (λ target. bytes_eq target octets.now) (values rising.now) }
{
    rising.binary_search(&octets).is_ok()
}

/// The records that are asked for, in their order.
pub(crate) fn wanted_records<'a>(
    alloc: Global,
    targets: &Targets,
    records: &'a Live,
) -> Result<Vec<&'a Record>, Memory>
    ensures wanted { IfOk result (λ made. values made.items ≡ wanted_records targets.now records.now.records) }
    ensures few { IfOk result (λ made. length made.items ≤ length records.now.records) }
{
    if targets.rising.is_empty() {
        return walked(alloc, targets, records);
    }
    let ids = found(alloc, records.index(), targets.rising.as_slice())?;
    picked(alloc, targets, records, &ids)
}

/// The records that are asked for, by a walk over all.
fn walked<'a>(
    alloc: Global,
    targets: &Targets,
    records: &'a Live,
) -> Result<Vec<&'a Record>, Memory>
    ensures wanted { IfOk result (λ made. values made.items ≡ wanted_records targets.now records.now.records) }
{
    let mut chosen = Vec::new(alloc);
    for held in records.places() {
        choose_record(&mut chosen, targets, held.as_ref())?;
    }
    Ok(chosen)
}

/// The records that are asked for, of those that have one of the identifiers.
fn picked<'a>(
    alloc: Global,
    targets: &Targets,
    records: &'a Live,
    ids: &BTreeSet<u32>,
) -> Result<Vec<&'a Record>, Memory>
    ensures picked { IfOk result (λ made. values made.items ≡ wanted_records targets.now (picked ids.now.keys records.now.records)) }
    ensures ordered { IsOrdered nat_cmp ids.now }
{
    let mut chosen = Vec::new(alloc);
    for id in ids {
        choose_record(&mut chosen, targets, records.get(*id))?;
    }
    Ok(chosen)
}

/// Puts a record at the end, where there is one and it is asked for.
fn choose_record<'a>(
    chosen: &mut Vec<&'a Record>,
    targets: &Targets,
    held: Option<&'a Record>,
) -> Result<(), Memory>
    ensures chosen { OnOk result (values chosen.new.items
        ≡ values chosen.old.items ++ wanted_records targets.now (option_to_list (option_copied held.entry))) }
{
    if let Some(held) = held {
        if targets.has(&held.content.ident) {
            chosen.push(held)?;
        }
    }
    Ok(())
}

/// The events from an event identifier on that the log keeps and that are asked for, in their
/// order.
pub(crate) fn wanted_events<'a>(
    alloc: Global,
    targets: &Targets,
    log: &'a EventLog,
    earliest: u32,
) -> Result<Vec<&'a Event>, Memory>
    requires kept { log.now.first ≤ earliest }
    ensures wanted { IfOk result (λ made. values made.items ≡ wanted_events targets.now (events_from earliest log.now.events)) }
    ensures few { IfOk result (λ made. length made.items ≤ 4096) }
{
    let mut chosen = Vec::new(alloc);
    for eid in earliest as u64..log.last() as u64 + 1 {
        choose(&mut chosen, targets, log, eid as u32)?;
    }
    Ok(chosen)
}

/// Puts the event of this event identifier at the end, where the log keeps it and it is asked for.
fn choose<'a>(
    chosen: &mut Vec<&'a Event>,
    targets: &Targets,
    log: &'a EventLog,
    eid: u32,
) -> Result<(), Memory>
    ensures chosen { OnOk result (values chosen.new.items
        ≡ values chosen.old.items ++ wanted_events targets.now (option_to_list (event_at log.now eid))) }
{
    if let Some(event) = log.get(eid) {
        if targets.has(&event.subject.content.ident) {
            chosen.push(event)?;
        }
    }
    Ok(())
}
