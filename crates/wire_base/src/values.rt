//! Values that every crate uses: the one list type, texts, boxes, stamps, out of memory, and octets
//! as printable text.

pub(crate) mod boxed;
pub(crate) mod decimal;
pub(crate) mod escape;
pub(crate) mod list;
pub(crate) mod memory;
pub(crate) mod moment;
pub(crate) mod stamp;
pub(crate) mod text;
pub(crate) mod text_refused;
pub(crate) mod unescape;
