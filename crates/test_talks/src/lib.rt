//! What doors give in the tests of several crates: sessions in octets, and links that give them.
//!
//! It stands on `wire_base`. The crates of tests above rest on the clause `fresh` of `link`.
//!
//! | file | what it holds |
//! |---|---|
//! | `links.rt` | links in memory that give octets, and fail at the calls that a test names |
//! | `octets.rt` | sessions in octets, as each end writes them |
#![tactic(auto)]

mod links;
mod octets;

pub use links::link;
pub use octets::{COLLECTOR, COLLECTOR_OF_ONE, VALIDATOR};
