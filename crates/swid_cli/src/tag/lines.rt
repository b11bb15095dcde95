//! The line of a form fault.

ghost use Rattle.std.specs.Prelude.{◌≡◌, ◌++◌, IfOk, OnOk};
ghost use Rattle.std.specs.Fmt.{signed_decimal};
ghost use Rattle.std.specs.List.{flat_map};
ghost use Rattle.swid_cli.specs.Tagging.{form_line, path_text, step_behind};

use coswid_res::FormFault;
use std::alloc::Global;
use wire_base::{List, Memory, Octets};

/// The line of a form fault: its kind, and the path to it.
pub(crate) fn form_line(alloc: Global, fault: &FormFault) -> Result<Octets, Memory>
    ensures line { IfOk result (λ made. made ≡ form_line fault.now) }
{
    let kind = fault.kind;
    let mut out = List::new(alloc);
    let word = format!(in alloc; "form {kind} ")?;
    out.extend(word.as_bytes())?;
    put_path(alloc, &mut out, fault.path.as_slice())?;
    out.push(b'\n')?;
    Ok(out)
}

/// Puts the steps of a path at the end of `out`, a stroke between them; a point where there are
/// none.
fn put_path(alloc: Global, out: &mut Octets, path: &[i64]) -> Result<(), Memory>
    ensures appended { OnOk result (out.new ≡ out.old ++ path_text path.now) }
{
    match path.split_first() {
        None => out.push(b'.'),
        Some((first, others)) => {
            put_step(alloc, out, *first)?;
            put_others(alloc, out, others)
        }
    }
}

/// Puts the steps after the first at the end of `out`.
fn put_others(alloc: Global, out: &mut Octets, steps: &[i64]) -> Result<(), Memory>
    ensures appended { OnOk result (out.new ≡ out.old ++ flat_map step_behind steps.now) }
{
    for step in steps {
        put_behind(alloc, out, *step)?;
    }
    Ok(())
}

fn put_behind(alloc: Global, out: &mut Octets, step: i64) -> Result<(), Memory>
    ensures appended { OnOk result (out.new ≡ out.old ++ step_behind step) }
{
    out.push(b'/')?;
    put_step(alloc, out, step)
}

fn put_step(alloc: Global, out: &mut Octets, step: i64) -> Result<(), Memory>
    ensures appended { OnOk result (out.new ≡ out.old ++ signed_decimal step) }
{
    let number = format!(in alloc; "{step}")?;
    out.extend(number.as_bytes())
}
