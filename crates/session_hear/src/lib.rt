//! What an end of a session hears: the steps that the turns of its link make, and its rules applied
//! to them one after another.
//!
//! It stands on `session_talk`, on `pb_batch` for batches and on `wire_base` for turns. Both ends
//! of a session stand on `End`, the rules of an end as calls, and on the clauses of `hear_octets`:
//!
//! - `did`: to the steps that the octets of a piece make, the rules of the end were done, to the
//!   end or until memory ran out. No clause says how the octets were cut into pieces before.
//! - `hears`: while the session is not over, the feed holds what the end holds by the definition.
//!
//! | file | what it holds |
//! |---|---|
//! | `hear.rt` | the loop over a piece of octets |
//! | `end.rt` | the rules of an end, as calls |
//! | `laws.rt` | what comes of batches that are cut into turns |
//!
//! | file of `specs/` | what it says |
//! |---|---|
//! | `Step` | the steps of a session |
//! | `Hearing` | the steps that the turns of a link make (RFC 5793, sections 3.2 and 4.1) |
//! | `Serving` | the rules of an end, applied to each step |
//! | `Carriage` | what comes of batches that are written one after another |
//!
//! | file of `proofs/` | what is proved |
//! |---|---|
//! | `Hearing` | pieces do not matter; what a piece of octets makes, by what they begin with |
//! | `Carriage` | of batches that the other end writes, exactly those come that are whole |
//! | `Limits` | a piece within the limit on octets |
//! | `Serving` | the rules applied to some steps and then to others |
//! | `Feeding`, `Reported` | what a feed answers, and that each fault of a batch can be reported |
//! | `Reaching` | the loop over a piece, of any end |
//! | `Turning` | a turn after others, of any end |
#![tactic(auto)]

mod end;
mod hear;
pub mod laws;

pub use end::End;
pub use hear::hear_octets;
