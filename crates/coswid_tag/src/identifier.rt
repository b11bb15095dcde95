//! The software identifier of a tag.

ghost use Rattle.std.specs.Prelude.{◌≡◌, ◌++◌, OnOk, IfOk};
ghost use Rattle.std.specs.Option.{option_copied};
ghost use Rattle.coswid_tag.specs.Identifier.{Answers, creator, identifier_by, identifier_of, registered, tag_id_text};
ghost use Rattle.coswid_tag.specs.declared.identifier.IdentRefused.TheVariants as refused;

use crate::entity::Entity;
use crate::finding::is_creator;
use crate::tag::Tag;
use crate::value::TagId;
use std::alloc::Global;
use thiserror::Error;
use uuid::Uuid;
use wire_base::{List, Memory, Octets, Text};

/// Why a tag has no software identifier.
#[derive(Clone, Copy, Debug, PartialEq, Eq, Error)]
pub enum IdentRefused {
    /// No entity created the tag.
    #[error("no entity created the tag")]
    NoCreator,
    /// It is longer than a software identifier may be.
    #[error("the identifier has {len} octets")]
    TooLong {
        /// Its length in octets, more than 65535.
        len: u64,
    },
    /// Out of memory.
    #[error("out of memory")]
    Memory,
}

impl From<Memory> for IdentRefused {
    ghost from_gives = { λ _ e. e ≡ refused.Memory };

    fn from(_memory: Memory) -> Self {
        IdentRefused::Memory
    }
}

/// The most octets of a software identifier (RFC 8412, section 5.7).
const MOST_OCTETS: usize = 65535;

/// Who registered, where that is not said.
const UNREGISTERED: &str = "invalid.unavailable";

/// The software identifier of the tag: the registration of the first entity that created
/// the tag, two underscores, and the tag's identifier. `NoCreator` exactly where no entity created
/// it, `TooLong` exactly where the text has more than 65535 octets, `Memory` where there is no
/// room.
pub fn software_identifier(alloc: Global, tag: &Tag) -> Result<Octets, IdentRefused>
    ensures identifier { Answers (identifier_of tag.now) result }
{
    let entity = match creator(tag.entity.as_slice()) {
        None => return Err(IdentRefused::NoCreator),
        Some(entity) => entity,
    };
    let text = identifier_by(alloc, tag, entity)?;
    if text.len() > MOST_OCTETS {
        return Err(IdentRefused::TooLong {
            len: text.len() as u64,
        });
    }
    Ok(text)
}

/// The first entity that created the tag.
fn creator(entities: &[Entity]) -> Option<&Entity>
    ensures first { option_copied result ≡ creator entities.now }
{
    for entity in entities {
        if is_creator(entity) {
            return Some(entity);
        }
    }
    None
}

/// The identifier by this entity.
fn identifier_by(alloc: Global, tag: &Tag, entity: &Entity) -> Result<Octets, Memory>
    ensures text { IfOk result (λ made. made ≡ identifier_by tag.now entity.now) }
{
    let mut out = List::new(alloc);
    put_registered(&mut out, &entity.reg_id)?;
    out.extend("__".as_bytes())?;
    put_tag_id(&mut out, &tag.tag_id)?;
    Ok(out)
}

fn put_registered(out: &mut Octets, reg_id: &Option<Text>) -> Result<(), Memory>
    ensures appended { OnOk result (out.new ≡ out.old ++ registered reg_id.now) }
{
    match reg_id {
        None => out.extend(UNREGISTERED.as_bytes()),
        Some(text) => out.extend(text.as_str().as_bytes()),
    }
}

fn put_tag_id(out: &mut Octets, tag_id: &TagId) -> Result<(), Memory>
    ensures appended { OnOk result (out.new ≡ out.old ++ tag_id_text tag_id.now) }
{
    match tag_id {
        TagId::Text(text) => out.extend(text.as_str().as_bytes()),
        TagId::Uuid(octets) => {
            let mut buffer = Uuid::encode_buffer();
            let text = Uuid::from_bytes(*octets).urn().encode_lower(&mut buffer);
            out.extend(text.as_bytes())
        }
    }
}
