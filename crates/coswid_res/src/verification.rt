//! The check of a payload against files: RFC 9393, section 2.9.

pub(crate) mod directory_path;
pub(crate) mod verdict;
pub(crate) mod verify;
