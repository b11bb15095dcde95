//! The subscriptions of a session, as a collector keeps them (RFC 8412, section 3.8): what a
//! request and a report do to them.
//!
//! It stands on `swima_request`, `swima_model` and `wire_base`. The crates above rest on:
//!
//! - `applied` of `Subs::apply`: what is answered to a request, and the subscriptions then.
//! - `reported` of `Subs::reported` and `ended` of `Subs::end`: the subscriptions after a report,
//!   and after the end of one.
//! - `request` of `Waiting::next_request`: the request that fulfils a subscription further.
//! - `requests` of `Subs::status`: what is said of the subscriptions that are held.
//! - `are` of `Subs::len`: they are at most 16, and no two have one ID.
//!
//! | file | what it holds |
//! |---|---|
//! | `waiting.rt` | a subscription |
//! | `sub_answer.rt` | what is answered to a request |
//! | `subs.rt` | the subscriptions of a session, and their calls |
//! | `laws.rt` | what the definitions mean, proved |
//!
//! The definitions are in `specs/Subscriptions.antt`, and the laws in `specs/Meaning.antt`.
#![tactic(auto)]

pub mod laws;
mod sub_answer;
mod subs;
mod waiting;

pub use sub_answer::SubAnswer;
pub use subs::{MOST_SUBSCRIPTIONS, Subs};
pub use waiting::Waiting;
