//! The day of an endpoint that `make` plays: packages and their tags, a first session, forty
//! changes, a session that is cut half way, and a last one; and what is printed of it.
//!
//! It stands on `session_world` for the world, on `session_script` for what a change is, on
//! `coswid_codec`, `coswid_tag` and `cbor_det` for the tags of packages, on `collector_core`,
//! `validator_core` and `swima_model` for inventory and mirror, on `command_text` for lines, and on
//! `wire_base`, `sha2` and `hex`. The command `make` rests on this clause of `day_text`:
//!
//! - `told`: what is printed is what `MakeTells` says of the number of packages.
//!
//! | file | what it holds | its words in `specs/` |
//! |---|---|---|
//! | `day.rt` | a day | `Day`, `Days` |
//! | `package.rt` | the packages of a day, and their tags | `Package`, `Packages` |
//! | `summary.rt` | what is printed of a day | `Day` |
//! | `laws.rt` | one text fits each number of packages | `OneText` |
#![tactic(auto)]

mod day;
pub mod laws;
mod package;
mod summary;

pub use day::{FEWEST_PACKAGES, MOST_PACKAGES};
pub use summary::day_text;
