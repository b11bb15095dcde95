//! Scripts of both ends of sessions, over an inventory that changes: what is printed when one is
//! played.
//!
//! It stands on `session_world` for the world that a script changes, and on `collector_core` for
//! what is printed of refusals. `command_text` has the lines of mirrors and of ends of sessions,
//! and `line_words` the values of words. It stands on `jiff_core` in the proof that a second has
//! one stamp, and on `validator_core`, `swima_model`, `wire_base` and `hex`. Above it rest:
//!
//! - the command `replay`, on `told` of `replay_answer`: what is printed, and how it ends, is what
//!   `ReplayTells` says of all octets of the input;
//! - `session_day`, on `stands` of `begin_book`, and on `text` and `stamp` of `stamp_at`.
//!
//! | file | what it holds | its words in `specs/` |
//! |---|---|---|
//! | `script.rt` | a script, line by line | `Replay` |
//! | `words.rt`, `header.rt`, `line.rt` | words, the first line, and those after it | `Script` |
//! | `inventory.rt` | the inventory that a world begins with, and the stamps of its changes | |
//! | `playing.rt` | a script that is being played | `Played` |
//! | `texts.rt` | the lines that are printed | `Replay` |
//! | `laws.rt` | one text fits each script | `OneText` |
#![tactic(auto)]

mod header;
mod inventory;
pub mod laws;
mod line;
mod playing;
mod script;
mod texts;
mod words;

pub use inventory::{begin_book, stamp_at};
pub use script::{MOST_SCRIPT_OCTETS, replay_answer};
