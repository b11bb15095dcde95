//! The fields of a request, which subscriptions have one request after another.

ghost use Rattle.std.specs.Prelude.{◌≡◌, ◌++◌, ◌<◌, ◌^◌, ◌∷◌, [], All, OnOk, length};
ghost use Rattle.std.specs.List.{flat_map};
ghost use Rattle.swima_request.specs.declared.request.Request.{Request as RequestValue};
ghost use Rattle.swima_request.specs.RequestForm.{CLEAR as CLEAR_FLAG, IDENTIFIERS_ONLY as IDENTIFIERS_FLAG, SUBSCRIBE as SUBSCRIBE_FLAG, is_ids, kind_of, read_fields, request_fields, target_fields};
ghost use Rattle.wire_base.specs.Reading.{counted};
ghost use Rattle.wire_base.specs.Written.{Fit, flags_octet, written};

use crate::numbers::{CLEAR, IDENTIFIERS_ONLY, SUBSCRIBE};
use crate::request::{Idents, Request, Requests};
use std::alloc::Global;
use swima_model::{Ident, Kind};
use wire_base::{
    Cursor, FieldReader, FieldRefused, Memory, Octets, flag, put_counted_u16, put_u24, put_u32,
    read_several,
};

/// The fewest octets of a request.
pub(crate) const FEWEST_REQUEST_OCTETS: usize = 12;

/// Reads the fields of a request.
#[derive(Drop)]
pub(crate) struct RequestReader;

impl FieldReader for RequestReader {
    type Value = Request;

    ghost reading = { λ reader. read_fields };

    /// The fields of a request (RFC 8412, section 5.6).
    #[tactic(auto, unfolding(crate::specs::RequestForm::read_fields))]
    fn read(&self, alloc: Global, cursor: &mut Cursor) -> Result<Request, FieldRefused> {
        let flags = cursor.u8()?;
        let count = cursor.u24()?;
        let id = cursor.u32()?;
        let earliest = cursor.u32()?;
        let targets = read_several(alloc, cursor, &TargetReader, count, FEWEST_TARGET_OCTETS)?;
        Ok(Request {
            clear: flags & CLEAR != 0,
            subscribe: flags & SUBSCRIBE != 0,
            kind: kind_of(flags & IDENTIFIERS_ONLY != 0),
            id,
            earliest,
            targets,
        })
    }
}

/// The kind of the reports that are asked for, by the flag.
fn kind_of(ids_only: bool) -> Kind
    ensures kind { result ≡ kind_of ids_only }
{
    if ids_only { Kind::Ids } else { Kind::Full }
}

/// The fewest octets of a target.
const FEWEST_TARGET_OCTETS: usize = 2;

/// Reads a target.
#[derive(Drop)]
struct TargetReader;

impl FieldReader for TargetReader {
    type Value = Ident;

    ghost reading = { λ reader. counted 2 };

    /// A target; a fault in it is at its length.
    fn read(&self, alloc: Global, cursor: &mut Cursor) -> Result<Ident, FieldRefused> {
        Ok(Ident::from_octets(alloc, cursor.counted(2)?)?)
    }
}

/// Puts the fields of all `requests` at the end, one request after another.
pub(crate) fn put_requests(out: &mut Octets, requests: &Requests) -> Result<(), Memory>
    requires counts { All (λ (request : RequestValue). length request.targets < 2 ^ 24) requests.now }
    ensures appended { OnOk result (out.new ≡ out.old ++ written (flat_map request_fields requests.now)) }
    ensures fits { OnOk result (Fit (flat_map request_fields requests.now)) }
{
    for request in requests.as_slice() {
        put_request(out, request)?;
    }
    Ok(())
}

/// Puts the fields of a request at the end.
#[tactic(auto, unfolding(wire_base::specs::Written::written))]
pub(crate) fn put_request(out: &mut Octets, request: &Request) -> Result<(), Memory>
    requires count { length request.now.targets < 2 ^ 24 }
    ensures appended { OnOk result (out.new ≡ out.old ++ written (request_fields request.now)) }
    ensures fits { OnOk result (Fit (request_fields request.now)) }
{
    out.push(flags_of(request.clear, request.subscribe, request.kind))?;
    put_u24(out, request.targets.len() as u32)?;
    put_u32(out, request.id)?;
    put_u32(out, request.earliest)?;
    put_targets(out, &request.targets)
}

/// The octet of flags.
fn flags_of(clear: bool, subscribe: bool, kind: Kind) -> u8
    ensures flags { result ≡ flags_octet ((CLEAR_FLAG, clear) ∷ (SUBSCRIBE_FLAG, subscribe) ∷ (IDENTIFIERS_FLAG, is_ids kind) ∷ []) }
{
    let ids = is_ids(kind);
    flag(clear, CLEAR) + (flag(subscribe, SUBSCRIBE) + flag(ids, IDENTIFIERS_ONLY))
}

/// Whether reports of the kind have no bodies.
fn is_ids(kind: Kind) -> bool
    ensures ids { result ≡ is_ids kind }
{
    match kind {
        Kind::Ids => true,
        Kind::Full => false,
    }
}

/// Puts all `targets` at the end, one after another.
fn put_targets(out: &mut Octets, targets: &Idents) -> Result<(), Memory>
    ensures appended { OnOk result (out.new ≡ out.old ++ written (flat_map target_fields targets.now)) }
    ensures fits { OnOk result (Fit (flat_map target_fields targets.now)) }
{
    for target in targets.as_slice() {
        put_target(out, target)?;
    }
    Ok(())
}

/// Puts a target at the end.
#[tactic(auto, unfolding(wire_base::specs::Written::written))]
fn put_target(out: &mut Octets, target: &Ident) -> Result<(), Memory>
    ensures appended { OnOk result (out.new ≡ out.old ++ written (target_fields target.now)) }
    ensures fits { OnOk result (Fit (target_fields target.now)) }
{
    put_counted_u16(out, target.bytes())
}
