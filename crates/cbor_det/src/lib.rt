//! Items of the Concise Binary Object Representation (CBOR, RFC 8949). A reader and a feed take
//! any spelling of an item within limits. A writer gives the one canonical spelling (core
//! deterministic encoding, section 4.2.1).
//!
//! It stands on `wire_base`, and on `thiserror` for the texts of errors. Who calls whom:
//!
//! ```text
//! CborFeed::feed                  feed          items from octets that come in pieces
//! └─ read_on                      piece         one piece, within the limit of octets
//! read_item, read_on              read, piece   octets to items
//! └─ run_piece                    step          as many octets as there are
//!    ├─ read_initial_byte         begin         what an initial byte begins or ends
//!    │  └─ head_of, initial_of    initial       what an initial byte says (section 3)
//!    ├─ item_from_head            head          what a head with its argument begins
//!    ├─ string_ended              string        a definite string: an item or a chunk
//!    └─ open_frame, close_item    nesting       what is open around, from the stack of `frame`
//!       └─ Members                members       the pairs of an open map
//! write_item, Pairs::add, put     write, pairs  items to octets; pairs in order of their keys
//! put_text and its like           write, parts  octets of parts of items, and of pairs in turns
//! ```
//!
//! The crates above rest on `found` and `refused` of `read_item`, on `canonical` of `write_item`,
//! on `appended` of the functions that put parts, on the clauses of the methods of `Pairs` except
//! `add`, on `equal` of copies, and on `laws`. Their proofs also cite lemmas of `proofs/`.
//!
//! | file | what it holds |
//! |---|---|
//! | `item.rt` | items as values, and their copies |
//! | `limits.rt` | what a reader takes at most |
//! | `fault.rt` | the kinds of faults, a fault with its place, and why a reader refuses |
//! | `read.rt` | `read_item`: the item at the start of octets |
//! | `feed.rt` | `CborFeed`: items from octets that come in pieces |
//! | `piece.rt` | `read_on`: what comes of one piece, for a feed |
//! | `step.rt` | `run_piece`: the octets of a piece, until an item or a fault ends it |
//! | `begin.rt` | what begins or ends at an initial byte |
//! | `initial.rt` | what an initial byte says |
//! | `head.rt` | what a head with its argument begins |
//! | `string.rt` | definite strings that ended, as items or as chunks |
//! | `string_kind.rt` | the two kinds of strings |
//! | `frame.rt` | what is open round the place of a reader, and what it reads there |
//! | `nesting.rt` | how an item that ended is taken into what is open round it |
//! | `members.rt` | the pairs of a map that is still read |
//! | `pairs.rt` | the pairs of a map, as a caller sees them |
//! | `key_order.rt` | the order of keys that are integers |
//! | `write.rt` | the canonical spellings of items and of their parts |
//! | `parts.rt` | the pairs of a map, put in turns with others |
//! | `canonical.rt` | the largest limits, and whether octets are a canonical spelling |
//! | `laws.rt` | what the definitions mean, proved |
//!
//! The words of the clauses are in `specs/`:
//!
//! | file | what it says |
//! |---|---|
//! | `Term`, `View` | items |
//! | `Canonical`, `Spelling`, `Proper` | the spellings of an item, and which items have one |
//! | `Faults`, `FaultKinds` | which fault shows first, and its number |
//! | `Answers` | what a reader answers |
//! | `Standing`, `Feeding` | where a feed stands, and what it answers |
//! | `Lookup`, `Adding` | the pairs of a map |
//! | `Laid` | a map that is written from two places |
//! | `Laws` | what the definitions mean |
//!
//! The others are the private means of proof: the machine of `Machine` and `Frames`, which the code
//! follows. The laws in `proofs/` tie it to `Spelling`, `Faults` and `Standing` in both directions.
#![tactic(auto)]

mod begin;
mod canonical;
mod fault;
mod feed;
mod frame;
mod head;
mod initial;
mod item;
mod key_order;
pub mod laws;
mod limits;
mod members;
mod nesting;
mod pairs;
mod parts;
mod piece;
mod read;
mod step;
mod string;
mod string_kind;
mod write;

pub use canonical::{LARGEST, is_canonical};
pub use fault::{CborFault, CborFaultKind, CborRefused};
pub use feed::{CborFed, CborFeed};
pub use item::{Item, Items, Pairs};
pub use limits::Limits;
pub use pairs::PairRefused;
pub use read::read_item;
pub use write::{
    put_array_head, put_boolean, put_bytes, put_integer, put_tag_head, put_text, put_unsigned,
    write_item,
};
