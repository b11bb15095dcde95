//! The lines of what is wrong between tags.

ghost use Rattle.std.specs.Prelude.{◌≡◌, ◌++◌, IfOk, OnOk};
ghost use Rattle.std.specs.List.{flat_map};
ghost use Rattle.swid_cli.specs.Links.{at_tag, finding_line, findings_text};

use coswid_links::LinkFinding;
use std::alloc::Global;
use wire_base::{List, Memory, Octets};

/// The most octets of the line of a finding on two of at most 10,000 tags.
const LINE_OCTETS: usize = 20;

/// How many tags there are, and a line for each finding between them.
pub(crate) fn findings_text(
    alloc: Global,
    count: u64,
    found: &[LinkFinding],
) -> Result<Octets, Memory>
    ensures text { IfOk result (λ made. made ≡ findings_text count found.now) }
{
    let first = format!(in alloc; "tags {count}\n")?;
    let lines = found.len().saturating_mul(LINE_OCTETS);
    let mut out = List::with_capacity(alloc, lines.saturating_add(first.len()))?;
    out.extend(first.as_bytes())?;
    put_findings(alloc, &mut out, found)?;
    Ok(out)
}

fn put_findings(alloc: Global, out: &mut Octets, found: &[LinkFinding]) -> Result<(), Memory>
    ensures appended { OnOk result (out.new ≡ out.old ++ flat_map finding_line found.now) }
{
    for finding in found {
        put_finding(alloc, out, *finding)?;
    }
    Ok(())
}

fn put_finding(alloc: Global, out: &mut Octets, finding: LinkFinding) -> Result<(), Memory>
    ensures appended { OnOk result (out.new ≡ out.old ++ finding_line finding) }
{
    let kind = finding.kind;
    let first = finding.first;
    let second = finding.second;
    let line = format!(in alloc; "link L{kind} {first} {second}\n")?;
    out.extend(line.as_bytes())
}

/// The line of a refusal of the tag of this number, whose own line is `refusal`.
pub(crate) fn at_tag(alloc: Global, number: u64, refusal: Octets) -> Result<Octets, Memory>
    ensures line { IfOk result (λ made. made ≡ at_tag number refusal) }
{
    let mut out = List::new(alloc);
    let place = format!(in alloc; "at-tag {number} ")?;
    out.extend(place.as_bytes())?;
    out.extend(refusal.as_slice())?;
    Ok(out)
}
