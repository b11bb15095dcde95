//! How a mirror takes a report, step by step in the order of the table of `judge`.

ghost use Rattle.std.specs.Prelude.{◌≡◌, ◌<◌, ◌≤◌, ◌^◌, IfOk, OnErr, length};
ghost use Rattle.swima_model.specs.Doubled.{doubled as smallest_doubled};
ghost use Rattle.swima_model.specs.InOrder.{ids};
ghost use Rattle.validator_core.specs.Following.{events_above, first_misfit, gap};
ghost use Rattle.validator_core.specs.Judge.{Judged, is_stale, judge_above, judge_events};
ghost use Rattle.validator_core.specs.Judge.{judge_inventory, judge_numbered, judge_records};
ghost use Rattle.validator_core.specs.MaybeOwned.{list_of};

use super::{Mirror, Taken};
use crate::doubled::doubled;
use crate::follow::follow;
use crate::gap::gap;
use crate::lent_or_owned::MaybeOwned;
use crate::limits::is_large;
use crate::misfit::first_misfit;
use crate::order::{Listed, in_order, list};
use crate::tally::Tally;
use swima_model::{Event, Kind, Point, Record};
use wire_base::Memory;

impl Mirror {
    /// Takes an inventory of a kind.
    pub(super) fn take_inventory(
        &mut self,
        kind: Kind,
        point: Point,
        records: MaybeOwned<Record>,
    ) -> Taken
        requires { length (list_of records) < 2 ^ 32 }
        ensures judged { Judged self.old (judge_inventory self.old kind point (list_of records.entry))
            result self.new }
    {
        if kind != self.kind {
            return Taken::WrongKind;
        }
        if self.is_stale(point) {
            return Taken::Stale;
        }
        match self.take_records(point, records) {
            Ok(taken) => taken,
            Err(Memory) => Taken::Memory,
        }
    }

    /// Whether a report of `point` is stale.
    fn is_stale(&self, point: Point) -> bool
        ensures stale { result ≡ is_stale self.now.point self.now.off point }
    {
        match self.point {
            None => false,
            Some(held) => {
                point.epoch == held.epoch
                    && (point.eid < held.eid || (point.eid == held.eid && !self.off))
            }
        }
    }

    /// Takes the records of an inventory that is not stale.
    fn take_records(&mut self, point: Point, records: MaybeOwned<Record>) -> Result<Taken, Memory>
        requires { length (list_of records) < 2 ^ 32 }
        ensures judged { IfOk result (λ answer.
            judge_records self.old point (list_of records.entry) (smallest_doubled (ids (list_of records.entry)))
            ≡ (answer, self.new)) }
        ensures unchanged { OnErr result (self.new ≡ self.old) }
    {
        let count = records.as_slice().len();
        let Listed { places, octets } = list(*self.records.allocator(), records.as_slice())?;
        if let Some(id) = doubled(places.as_slice()) {
            self.off = true;
            return Ok(Taken::Doubled { id });
        }
        if is_large(count, octets) {
            self.off = true;
            return Ok(Taken::Large {
                count: count as u32,
                octets,
            });
        }
        self.records = in_order(records.into_list()?, places);
        self.octet_count = octets;
        self.point = Some(point);
        self.off = false;
        Ok(Taken::Adopted)
    }

    /// Takes events of a kind and an epoch, which were consulted up to `consulted`.
    pub(super) fn take_events(
        &mut self,
        kind: Kind,
        epoch: u32,
        consulted: u32,
        events: MaybeOwned<Event>,
    ) -> Taken
        ensures judged { Judged self.old (judge_events self.old kind epoch consulted (list_of events.entry))
            result self.new }
    {
        if kind != self.kind {
            return Taken::WrongKind;
        }
        let Some(held) = self.point else {
            self.off = true;
            return Taken::OtherEpoch {
                have: None,
                got: epoch,
            };
        };
        if epoch != held.epoch {
            self.off = true;
            return Taken::OtherEpoch {
                have: Some(held.epoch),
                got: epoch,
            };
        }
        if consulted <= held.eid {
            return Taken::Stale;
        }
        self.take_later(held, consulted, events)
    }

    /// Takes events of the mirror's epoch that were consulted up to above its event identifier.
    fn take_later(&mut self, held: Point, consulted: u32, events: MaybeOwned<Event>) -> Taken
        requires later { held.eid ≤ consulted }
        ensures judged { Judged self.old
            (judge_numbered self.old held consulted (list_of events.entry) (gap held.eid consulted (list_of events.entry)))
            result self.new }
    {
        if let Some(got) = gap(held.eid, consulted, events.as_slice()) {
            self.off = true;
            let have = held.eid;
            return Taken::Gap { have, got };
        }
        match self.take_following(held, consulted, events) {
            Ok(taken) => taken,
            Err(Memory) => Taken::Memory,
        }
    }

    /// Takes events without a gap.
    fn take_following(
        &mut self,
        held: Point,
        consulted: u32,
        events: MaybeOwned<Event>,
    ) -> Result<Taken, Memory>
        ensures judged { IfOk result (λ answer.
            judge_above self.old held consulted (events_above held.eid (list_of events.entry))
            (first_misfit self.old.records (events_above held.eid (list_of events.entry)))
            ≡ (answer, self.new)) }
        ensures unchanged { OnErr result (self.new ≡ self.old) }
    {
        let mut tally = Tally::new(
            *self.records.allocator(),
            self.records.as_slice(),
            self.octet_count,
        );
        if let Some(misfit) = first_misfit(&mut tally, held.eid, events.as_slice())? {
            self.off = true;
            return Ok(misfit);
        }
        let octets = tally.into_octet_count();
        follow(&mut self.records, held.eid, events.into_list()?)?;
        self.octet_count = octets;
        self.point = Some(Point {
            epoch: held.epoch,
            eid: consulted,
        });
        Ok(Taken::Advanced {
            from: held.eid,
            to: consulted,
        })
    }
}
