//! Tests of the commands of `swid_cli`: calls that fail, and large inputs; and of the options of
//! `command_options`. Worked rows of the commands are tried by the program `conformance`.
//!
//! It stands on `swid_cli`, on `command_options`, and on `swima_model` for kinds. For inputs,
//! outputs and files in memory it stands on `wire_base`, and for digits on `hex`.
//!
//! | file | what it tests |
//! |---|---|
//! | `usage_tests.rt` | words that are no command line |
//! | `option_tests.rt` | words that are options of `collect` or `follow`, and words that are none |
//! | `tag_tests.rt` | `tag`: calls that fail, and large inputs |
//! | `verify_tests.rt` | `tag verify`: reads that fail or would fail, and a file that is too long |
//! | `links_tests.rt` | `links`: calls that fail, and inputs of more octets than it looks at |
//! | `mirror_tests.rt` | `mirror`: calls that fail, and large inputs |
//!
//! `run.rt` runs a command over an input, an output and files in memory. `long_input.rt` has an
//! input of many octets, of which only few are held.
#![tactic(auto)]

#[cfg(test)]
mod links_tests;
#[cfg(test)]
mod long_input;
#[cfg(test)]
mod mirror_tests;
#[cfg(test)]
mod option_tests;
#[cfg(test)]
mod run;
#[cfg(test)]
mod tag_tests;
#[cfg(test)]
mod usage_tests;
#[cfg(test)]
mod verify_tests;
