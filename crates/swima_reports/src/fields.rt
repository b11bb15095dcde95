//! Fields of reports that mean something.

ghost use Rattle.std.specs.Prelude.{◌≡◌, ◌≤◌, nat_le};
ghost use Rattle.swima_model.specs.declared.report.Kind.TheVariants as kinds;
ghost use Rattle.swima_reports.specs.ActionNumber.{action_number, action_of};
ghost use Rattle.swima_reports.specs.ReportReading.{read_body};
ghost use Rattle.wire_base.specs.Reading.{Gives, GivesExactly, counted, if_so, meaning, number, octets};
ghost use Rattle.wire_base.specs.Stamp.{is_stamp};

use std::alloc::Global;
use swima_model::{Action, Body, Bounded, Kind, Limit, LongRefused};
use wire_base::{Cursor, FieldRefused, is_stamp};

/// The flag of a report that fulfils a subscription (RFC 8412, sections 5.7 to 5.10).
pub(crate) const FULFIL: u8 = 0x80;

/// The event up to which a report looked, which is none after its last event `eid`; a fault at its
/// first octet where it is (RFC 8412, section 5.8).
pub(crate) fn consulted(cursor: &mut Cursor, eid: u32) -> Result<u32, FieldRefused>
    ensures consulted { GivesExactly (λ read. (read, cursor.new)) result
        (meaning (if_so (λ consulted. nat_le consulted eid)) (number 4) cursor.old) }
{
    let place = cursor.place();
    let consulted = cursor.u32()?;
    if consulted > eid {
        return Err(FieldRefused::Fault { offset: place });
    }
    Ok(consulted)
}

/// The time of an event; a fault at its first octet where that is no stamp (RFC 8412, section 5.8).
pub(crate) fn stamp(cursor: &mut Cursor) -> Result<[u8; 20], FieldRefused>
    ensures stamp { GivesExactly (λ read. (read, cursor.new)) result
        (meaning (if_so is_stamp) (octets 20) cursor.old) }
{
    let place = cursor.place();
    let mut stamp = [0; 20];
    stamp.copy_from_slice(cursor.octets(20)?);
    if !is_stamp(&stamp) {
        return Err(FieldRefused::Fault { offset: place });
    }
    Ok(stamp)
}

/// What an event did; a fault at the number where no action has it (RFC 8412, section 5.8).
pub(crate) fn action(cursor: &mut Cursor) -> Result<Action, FieldRefused>
    ensures action { GivesExactly (λ read. (read, cursor.new)) result
        (meaning action_of (number 1) cursor.old) }
{
    let place = cursor.place();
    let number = cursor.u8()?;
    action_of(number).ok_or(FieldRefused::Fault { offset: place })
}

/// The action that has the number.
fn action_of(number: u8) -> Option<Action>
    ensures action { result ≡ action_of number }
{
    match number {
        1 => Some(Action::Creation),
        2 => Some(Action::Deletion),
        3 => Some(Action::Alteration),
        _ => None,
    }
}

/// The number of the action (RFC 8412, section 5.8).
pub(crate) fn action_number(action: Action) -> u8
    ensures number { result ≡ action_number action }
{
    match action {
        Action::Creation => 1,
        Action::Deletion => 2,
        Action::Alteration => 3,
    }
}

/// Octets counted by two octets.
pub(crate) fn bounded<L: Limit>(
    alloc: Global,
    cursor: &mut Cursor,
) -> Result<Bounded<L>, FieldRefused>
    requires { 65535 ≤ L.OCTETS }
    ensures counted { Gives (λ read. (read, cursor.new)) result (counted 2 cursor.old) }
{
    Ok(Bounded::from_octets(alloc, cursor.counted(2)?)?)
}

/// The body of a record, which stands in reports of whole records alone; a fault at its length
/// where that does not fit or is above 1,048,576 (RFC 8412, sections 5.9 and 5.10).
#[tactic(auto, unfolding(crate::specs::ReportReading::read_body))]
pub(crate) fn body(alloc: Global, cursor: &mut Cursor, kind: Kind) -> Result<Body, FieldRefused>
    ensures body { Gives (λ read. (read, cursor.new)) result (read_body kind cursor.old) }
{
    match kind {
        Kind::Ids => Ok(Body::empty(alloc)),
        Kind::Full => whole_body(alloc, cursor),
    }
}

/// The body of a record in a report of whole records.
#[tactic(auto, unfolding(crate::specs::ReportReading::read_body))]
fn whole_body(alloc: Global, cursor: &mut Cursor) -> Result<Body, FieldRefused>
    ensures body { Gives (λ read. (read, cursor.new)) result (read_body kinds.Full cursor.old) }
{
    let place = cursor.place();
    let octets = cursor.counted(4)?;
    match Body::new(alloc, octets) {
        Ok(body) => Ok(body),
        Err(LongRefused::TooLong { .. }) => Err(FieldRefused::Fault { offset: place }),
        Err(LongRefused::Memory) => Err(FieldRefused::Memory),
    }
}
