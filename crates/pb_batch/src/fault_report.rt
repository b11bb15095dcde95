//! The batch that reports a fault to the peer.

ghost use Rattle.std.specs.Prelude.{◌≡◌, IfOk};
ghost use Rattle.pb_batch.specs.Written.{IsTold, error_info, fault_batch_of, written};

use crate::batch::{Batch, Message};
use crate::error_code::PbErrorCode;
use crate::fault::PbFault;
use crate::kind::BatchKind;
use crate::numbers::{IETF, VERSION};
use crate::write::write_batch;
use std::alloc::Global;
use wire_base::{List, Memory, Octets, put_u32};

/// The octets of the CLOSE batch that reports the fault by one fatal PB-Error (RFC 5793,
/// section 4.9).
pub fn fault_batch(alloc: Global, from_server: bool, fault: &PbFault) -> Result<Octets, Memory>
    requires code { IsTold fault.now.code }
    ensures octets { IfOk result (λ made. made ≡ written (fault_batch_of from_server fault.now)) }
{
    let mut messages = List::new(alloc);
    messages.push(Message::Error {
        fatal: true,
        vendor: IETF,
        code: fault.code,
        info: fault_info(alloc, fault)?,
    })?;
    let batch = Batch {
        from_server,
        kind: BatchKind::Close,
        messages,
    };
    write_batch(alloc, &batch)
}

/// The octets that the code of a fault is reported with (RFC 5793, section 4.9.2).
#[tactic(auto, unfolding(wire_base::specs::Numbers::octets_of))]
fn fault_info(alloc: Global, fault: &PbFault) -> Result<Octets, Memory>
    ensures info { IfOk result (λ made. made ≡ error_info fault.now) }
{
    let mut info = List::new(alloc);
    if fault.code == PbErrorCode::UnexpectedBatchType.number() {
        return Ok(info);
    }
    if fault.code == PbErrorCode::VersionNotSupported.number() {
        info.extend(&[fault.version, VERSION, VERSION, 0])?;
        return Ok(info);
    }
    put_u32(&mut info, fault.offset)?;
    Ok(info)
}
