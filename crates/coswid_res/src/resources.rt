//! Payload and evidence, as values, from items and back: RFC 9393, section 2.9.

pub(crate) mod directory;
pub(crate) mod directory_read;
pub(crate) mod directory_spell;
pub(crate) mod directory_write;
pub(crate) mod evidence;
pub(crate) mod file;
pub(crate) mod hash;
pub(crate) mod payload;
pub(crate) mod process;
pub(crate) mod resource;
pub(crate) mod table;
