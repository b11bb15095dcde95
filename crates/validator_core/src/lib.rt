//! The mirror of one collector's inventory (RFC 8412, section 3.7): a copy that follows reports.
//!
//! It stands on `swima_model` and `wire_base`. The crates above rest on:
//!
//! - `judged` of `Mirror::take`: the answer to a report, and what the mirror holds then, are
//!   `judge` of `specs/Judge.antt`. Where memory ran out, the mirror is as it was.
//! - `right`: over every honest history, a mirror that was right takes a report that answers from
//!   it and is right again, as `specs/Right.antt` says.
//! - `stands`: which answers move the mirror's point.
//! - `want` of `Mirror::want`: what it wants next is `want` of `specs/Want.antt`.
//!
//! | file | what it holds |
//! |---|---|
//! | `mirror.rt` | the mirror, its calls, and the answers to reports |
//! | `mirror/taking.rt` | the table of answers, line by line |
//! | `mirror/want.rt` | what a mirror wants next |
//! | `doubled.rt`, `order.rt`, `limits.rt` | inventories: doubled identifiers, order, size |
//! | `gap.rt`, `misfit.rt`, `tally.rt` | events: gaps, and the first that does not fit |
//! | `follow.rt` | the records that are live after some events |
//! | `mentions.rt` | what events say of the records that they mention |
//! | `in_place.rt` | records put in place, or after all others |
//! | `merge.rt` | records of two lists in order of identifier, put into one |
//! | `gone.rt` | records that are gone, dropped |
//! | `lent_or_owned.rt` | lists of a report that is lent or given up |
//! | `laws.rt` | what the definitions mean, proved |
//!
//! The words of the clauses are in `specs/`:
//!
//! | file | what it says |
//! |---|---|
//! | `Held`, `Judge` | what a mirror holds, and the table of its answers to reports |
//! | `Right`, `Want` | when it is right over a history, and what it wants next |
//! | `Following`, `Tally` | how events follow on what is held; what judges the next |
//! | `Mentions`, `Gone` | what events say of records, and which are gone after them |
//! | `Placed` | the identifiers of an inventory in order, with the places of their records |
//! | `Merged`, `Further` | records of two lists in one; which can be put in place |
//! | `MaybeOwned`, `Weighed` | lists lent or given up; a mirror's records and their octets |
//! | `Kept`, `Growth`, `Recovery` | the laws: what reports keep, growing histories, the mark |
#![tactic(auto)]

mod doubled;
mod follow;
mod gap;
mod gone;
mod in_place;
pub mod laws;
mod lent_or_owned;
mod limits;
mod mentions;
mod merge;
mod mirror;
mod misfit;
mod order;
mod tally;

pub use mirror::want::Want;
pub use mirror::{Mirror, Taken};
