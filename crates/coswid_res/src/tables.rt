//! The tables of maps: forms of values, keys, and how a field is taken out of a map and put into
//! one.

pub(crate) mod columns;
pub(crate) mod form;
pub(crate) mod key;
pub(crate) mod map_form;
pub(crate) mod missing_key;
pub(crate) mod rows;
pub(crate) mod value_forms;
