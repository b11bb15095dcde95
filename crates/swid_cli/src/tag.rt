//! The commands `tag` and `tag verify`.

pub(crate) mod lines;
pub(crate) mod verdict_lines;

ghost use Rattle.std.specs.Prelude.{◌≡◌, ◌≤◌, IfOk, IfSome, length};
ghost use Rattle.cbor_det.specs.Term.{depth};
ghost use Rattle.coswid_codec.specs.Answers.{BeginsTag};
ghost use Rattle.coswid_codec.specs.Items.{tag_item};
ghost use Rattle.coswid_codec.specs.SizesFit.{SizesFit};
ghost use Rattle.coswid_tag.specs.Findings.{findings};
ghost use Rattle.swid_cli.specs.Causes.{HasFilesCauses, LooksAt};
ghost use Rattle.swid_cli.specs.Checking.{TagVerdicts, checked_ending, checked_text};
ghost use Rattle.swid_cli.specs.TagReads.{PayloadReads, TagReads};
ghost use Rattle.swid_cli.specs.Tagging.{AnswersRefused, TAG_OCTETS, TagTells};
ghost use Rattle.swid_cli.specs.Telling.{RanTelling};
ghost use Rattle.wire_base.specs.Passing.{is_fault};

use crate::command::Scope;
use crate::tag::lines::form_line;
use crate::tag::verdict_lines::{has_wrong, put_files};
use command_text::{Answer, Ending, beyond_limit, ending_of, fault_line, refusal, refused};
use coswid_codec::{TagRefused, put_canonical, put_summary, read_tag};
use coswid_res::{Verdict, Verdicts, VerifyRefused, verify};
use coswid_tag::Tag;
use std::alloc::Global;
use wire_base::{Files, List, Memory, Sink, Source, Stopped, Text, fill, write_all};

/// The most octets of the input.
const MOST_TAG_OCTETS: usize = 8_388_608;

/// Reads one tag, to the end of the input, and prints its text, or why there is none. Where files
/// are in the scope, the text has a verdict on each file of the tag's payload.
pub(crate) fn tag<S: Source, K: Sink, F: Files>(
    alloc: Global,
    scope: Scope,
    input: &mut S,
    output: &mut K,
    files: &mut F,
) -> Result<Ending, Stopped>
    ensures printed { IfSome (S.left input.old) (λ octets.
        RanTelling TAG_OCTETS (TagTells scope (F.contents files.old)) octets
        (S.left input.new) (K.written output.old) (K.written output.new) result) }
    ensures causes { HasFilesCauses scope (S.faults input.old) (S.faults input.new)
        (K.faults output.old) (K.faults output.new) (F.faults files.old) (F.faults files.new) result }
    ensures contents { F.contents files.new ≡ F.contents files.old }
    ensures files { scope ≡ Scope.Tag → files.new ≡ files.old }
    ensures reads { scope ≡ Scope.Files → IfSome (S.left input.old) (λ octets.
        TagReads octets result (F.reads files.old) (F.reads files.new)) }
{
    let mut held = List::new(alloc);
    fill(input, &mut held, MOST_TAG_OCTETS + 1)?;
    let answer = answer_to(alloc, scope, held.as_slice(), files)?;
    write_all(output, answer.text.as_slice())?;
    Ok(answer.ending)
}

/// What is printed of the octets of an input, of which one more than it may have are looked at.
fn answer_to<F: Files>(
    alloc: Global,
    scope: Scope,
    octets: &[u8],
    files: &mut F,
) -> Result<Answer, Stopped>
    ensures told { IfOk result (λ made. TagTells scope (F.contents files.old) octets.now made.text made.ending) }
    ensures reads { scope ≡ Scope.Files → TagReads octets.now result (F.reads files.old) (F.reads files.new) }
    ensures looks { LooksAt F.contents F.faults scope (is_fault result) files.old files.new }
{
    if MOST_TAG_OCTETS < octets.len() {
        return Ok(beyond_limit(alloc, MOST_TAG_OCTETS)?);
    }
    match read_tag(alloc, octets) {
        Ok((tag, used)) => answer_to_tag(alloc, scope, octets, &tag, used, files),
        Err(why) => Ok(answer_to_no_tag(alloc, &why)?),
    }
}

/// What is printed of octets that begin with no tag, by why none was read.
fn answer_to_no_tag(alloc: Global, why: &TagRefused) -> Result<Answer, Memory>
    ensures told { IfOk result (λ made. AnswersRefused why.now made) }
{
    match why {
        TagRefused::Cbor(fault) => Ok(refused(fault_line(alloc, fault.kind as u32, fault.at)?)),
        TagRefused::Form(fault) => Ok(refused(form_line(alloc, fault)?)),
        TagRefused::Memory => Err(Memory),
    }
}

/// What is printed of octets that begin with a tag of `used` octets.
fn answer_to_tag<F: Files>(
    alloc: Global,
    scope: Scope,
    octets: &[u8],
    tag: &Tag,
    used: usize,
    files: &mut F,
) -> Result<Answer, Stopped>
    requires within { length octets.now ≤ TAG_OCTETS }
    requires begins { BeginsTag octets.now tag.now used }
    requires shallow { depth (tag_item tag.now) ≤ 64 }
    requires sizes { SizesFit tag.now }
    ensures told { IfOk result (λ made. TagTells scope (F.contents files.old) octets.now made.text made.ending) }
    ensures reads { scope ≡ Scope.Files → TagReads octets.now result (F.reads files.old) (F.reads files.new) }
    ensures looks { LooksAt F.contents F.faults scope (is_fault result) files.old files.new }
{
    if used < octets.len() {
        return Ok(refused(refusal(alloc, "trailing", used as u64)?));
    }
    let verdicts = verdicts_on(alloc, scope, tag, files)?;
    Ok(checked(alloc, tag, verdicts.as_slice())?)
}

/// The verdicts on the files of a tag's payload; none where files are not in the scope, or there
/// is no payload.
fn verdicts_on<F: Files>(
    alloc: Global,
    scope: Scope,
    tag: &Tag,
    files: &mut F,
) -> Result<Verdicts, Stopped>
    ensures verdicts { IfOk result (TagVerdicts scope (F.contents files.old) tag.now) }
    ensures reads { scope ≡ Scope.Files → PayloadReads tag.now.payload result (F.reads files.old) (F.reads files.new) }
    ensures looks { LooksAt F.contents F.faults scope (is_fault result) files.old files.new }
{
    if scope == Scope::Tag {
        return Ok(List::new(alloc));
    }
    let Some(payload) = &tag.payload else {
        return Ok(List::new(alloc));
    };
    match verify(alloc, payload, files) {
        Ok(verdicts) => Ok(verdicts),
        Err(VerifyRefused::FileFault { .. }) => Err(Stopped::Fault),
        Err(VerifyRefused::Memory) => Err(Stopped::Memory),
    }
}

/// What is printed of a tag with these verdicts.
fn checked(alloc: Global, tag: &Tag, verdicts: &[(Text, Verdict)]) -> Result<Answer, Memory>
    requires shallow { depth (tag_item tag.now) ≤ 64 }
    requires sizes { SizesFit tag.now }
    ensures text { IfOk result (λ made. made.text ≡ checked_text tag.now verdicts.now) }
    ensures ending { IfOk result (λ made. made.ending ≡ checked_ending (findings tag.now) verdicts.now) }
{
    let mut text = List::new(alloc);
    let found = put_summary(alloc, &mut text, tag)?;
    put_files(alloc, &mut text, verdicts)?;
    put_canonical(alloc, &mut text, tag)?;
    let ending = checked_ending(found.as_slice(), verdicts);
    Ok(Answer { text, ending })
}

/// How the text of a tag with these findings and verdicts ends.
fn checked_ending(found: &[u8], verdicts: &[(Text, Verdict)]) -> Ending
    ensures ending { result ≡ checked_ending found.now verdicts.now }
{
    if has_wrong(verdicts) {
        return Ending::Findings;
    }
    ending_of(found)
}
