//! Tests of the crates for CoSWID tags: `cbor_det`, `coswid_res`, `coswid_tag`, `coswid_codec` and
//! `coswid_links`. Worked rows of octets are tried by the program `conformance`.
//!
//! It stands on these crates and on `wire_base`.
//!
//! | file | what it tests |
//! |---|---|
//! | `feed_tests.rt` | a feed of pieces: several items, and a fault that is answered again |
//! | `map_tests.rt` | maps of that many pairs that their count needs a longer head |
//! | `pair_tests.rt` | pairs of a map, put in one by one and taken out |
//! | `key_tests.rt` | keys with the form of what stands under them: put, read and refused |
//! | `depth_tests.rt` | tags with directories as deep as they may be |
//! | `code_tests.rt` | relations of links: numbers, and texts that name them |
//! | `resource_tests.rt` | payload and evidence, written as items and read again |
//! | `verify_tests.rt` | the check of a payload against files in memory |
//! | `read_tests.rt` | which files a check of a payload reads, and in which order |
//! | `system_tests.rt` | the check of a payload against files of a real system |
//! | `copy_tests.rt` | copies of what is found |
//! | `error_tests.rt` | what refusals say |
//! | `kind_tests.rt` | the number and the name of each kind of fault and of finding |
//!
//! `payload.rt` has the payloads and the files in memory that tests check, and how they look at
//! verdicts.
#![tactic(auto)]

#[cfg(test)]
mod code_tests;
#[cfg(test)]
mod copy_tests;
#[cfg(test)]
mod depth_tests;
#[cfg(test)]
mod error_tests;
#[cfg(test)]
mod feed_tests;
#[cfg(test)]
mod key_tests;
#[cfg(test)]
mod kind_tests;
#[cfg(test)]
mod map_tests;
#[cfg(test)]
mod pair_tests;
#[cfg(test)]
mod payload;
#[cfg(test)]
mod read_tests;
#[cfg(test)]
mod resource_tests;
#[cfg(test)]
mod system_tests;
#[cfg(test)]
mod verify_tests;
