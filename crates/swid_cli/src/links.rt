//! The command `links`.

pub(crate) mod lines;
pub(crate) mod tag_list;

ghost use Rattle.std.specs.Prelude.{◌≡◌, ◌≤◌, false, IfOk, IfSome, length};
ghost use Rattle.std.specs.List.{All};
ghost use Rattle.cbor_det.specs.Term.{depth};
ghost use Rattle.coswid_codec.specs.Items.{tag_item};
ghost use Rattle.coswid_codec.specs.SizesFit.{SizesFit};
ghost use Rattle.command_text.specs.Answer.{refusal_answer};
ghost use Rattle.swid_cli.specs.Causes.{HasCauses};
ghost use Rattle.swid_cli.specs.Links.{LIST_OCTETS, LinksTells, answer_behind, at_tag, list_answer};
ghost use Rattle.swid_cli.specs.TagList.{LIST_TAGS};
ghost use Rattle.swid_cli.specs.Telling.{RanTelling};

use crate::links::lines::{at_tag, findings_text};
use crate::links::tag_list::{Behind, MOST_TAGS, TagList, read_tags};
use crate::tag::lines::form_line;
use cbor_det::CborFaultKind;
use command_text::{Answer, Ending, beyond_limit, ending_of, fault_line, refused};
use coswid_links::check_links;
use coswid_tag::Tag;
use std::alloc::Global;
use wire_base::{List, Memory, Octets, Sink, Source, Stopped, fill, write_all};

/// The most octets of the input.
const MOST_LIST_OCTETS: usize = 67_108_864;

/// Reads tags one after another, to the end of the input, and prints what is wrong between them, or
/// what is no tag.
pub(crate) fn links<S: Source, K: Sink>(
    alloc: Global,
    input: &mut S,
    output: &mut K,
) -> Result<Ending, Stopped>
    ensures printed { IfSome (S.left input.old) (λ octets. RanTelling LIST_OCTETS LinksTells octets
        (S.left input.new) (K.written output.old) (K.written output.new) result) }
    ensures causes { HasCauses (S.faults input.old) (S.faults input.new)
        (K.faults output.old) (K.faults output.new) result }
{
    let mut held = List::new(alloc);
    fill(input, &mut held, MOST_LIST_OCTETS + 1)?;
    let answer = answer_to(alloc, held.as_slice())?;
    write_all(output, answer.text.as_slice())?;
    Ok(answer.ending)
}

/// What is printed of the octets of an input, of which one more than it may have are looked at.
fn answer_to(alloc: Global, octets: &[u8]) -> Result<Answer, Memory>
    ensures told { IfOk result (λ made. LinksTells octets.now made.text made.ending) }
{
    let (within, _) = octets.split_at(MOST_LIST_OCTETS.min(octets.len()));
    let list = read_tags(alloc, within)?;
    answer_to_list(alloc, &list, MOST_LIST_OCTETS < octets.len())
}

/// What is printed of the tags that are read of an input, which has more octets than may be looked
/// at where `goes_on`.
fn answer_to_list(alloc: Global, list: &TagList, goes_on: bool) -> Result<Answer, Memory>
    requires shallow { All (λ g. depth (tag_item g) ≤ 64) list.now.tags }
    requires sizes { All SizesFit list.now.tags }
    requires within { length list.now.tags ≤ LIST_TAGS }
    ensures answer { IfOk result (λ made. made ≡ list_answer list.now goes_on) }
{
    let number = list.tags.len() as u64 + 1;
    match &list.behind {
        Behind::Nothing if goes_on => beyond_limit(alloc, MOST_LIST_OCTETS),
        Behind::Nothing => answer_to_tags(alloc, list.tags.as_slice()),
        Behind::More => beyond_limit(alloc, MOST_TAGS),
        Behind::NoItem(fault) if goes_on && fault.kind == CborFaultKind::Truncated as u8 => {
            beyond_limit(alloc, MOST_LIST_OCTETS)
        }
        Behind::NoItem(fault) => {
            refused_tag(
                alloc,
                number,
                fault_line(alloc, fault.kind as u32, fault.at)?,
            )
        }
        Behind::NoTag(fault) => refused_tag(alloc, number, form_line(alloc, fault)?),
    }
}

/// What is printed of tags after which nothing stands.
fn answer_to_tags(alloc: Global, tags: &[Tag]) -> Result<Answer, Memory>
    requires shallow { All (λ g. depth (tag_item g) ≤ 64) tags.now }
    requires sizes { All SizesFit tags.now }
    ensures answer { IfOk result (λ made. made ≡ answer_behind tags.now false Behind.Nothing) }
{
    let found = check_links(alloc, tags)?;
    let text = findings_text(alloc, tags.len() as u64, found.as_slice())?;
    let ending = ending_of(found.as_slice());
    Ok(Answer { text, ending })
}

/// What is printed where the tag of this number is refused by this line.
fn refused_tag(alloc: Global, number: u64, line: Octets) -> Result<Answer, Memory>
    ensures refused { IfOk result (λ made. made ≡ refusal_answer (at_tag number line)) }
{
    Ok(refused(at_tag(alloc, number, line)?))
}
