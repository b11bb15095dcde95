//! The commands, over any source, sink and files.
//!
//! It stands on `validator_core`, `swima_reports`, `pa_attrs` and `swima_model` for `mirror`, on
//! `coswid_links`, `coswid_codec`, `coswid_tag`, `coswid_res` and `cbor_det` for `tag`,
//! `tag verify` and `links`, on `session_script` for `replay`, and on `session_day` and
//! `line_words` for `make`. All commands stand on `command_text` and `wire_base`. The program rests
//! on these clauses of `run_plain`:
//!
//! - `usage`: status 2 comes exactly where the words are no command line;
//! - `fault`, `no_input_fault`, `no_output_fault`, `no_files_fault`: status 3 comes exactly where,
//!   with neither 2 nor 4, a count of faults rose;
//! - `printed`, `front`: of an input that exposes its octets, what is printed, the status and what
//!   is left are what `CommandPrints` says of the command; of `make`, whatever the input is;
//! - `unread`: `make` reads nothing;
//! - `reads`: of files that expose their reads, those that are read are those of `CommandReads`;
//! - `right`: the mirror that is printed at the end is right over each honest history from which
//!   the reports answer.
//!
//! `swid_run` rests on `status` of `status` too, which status comes of how a command ended, and on
//! `known` of `is_command_line`.
//!
//! | file | what it holds | its words in `specs/` |
//! |---|---|---|
//! | `run.rt` | the top call, and the status | `Run`, `Running`, `Printing`, `Answering` |
//! | `command.rt` | the words of a command line | `Words`, `Commands` |
//! | `mirror.rt` | `mirror` | `Stream`: `stream_text` |
//! | `mirror/step.rt`, `first_attribute.rt` | attributes, one after another | `Steps`, `Front` |
//! | `mirror/pieces.rt` | what the mirror holds | `Text` of `command_text`: `mirror_text` |
//! | `mirror/supported.rt` | which attributes `mirror` takes | `Front`: `REPORT_TYPES` |
//! | `tag.rt` | `tag` and `tag verify` | `Tagging`: `TagTells`; `Checking`, `TagReads` |
//! | `tag/lines.rt` | the line of a form fault | `Tagging` |
//! | `tag/verdict_lines.rt` | the lines of verdicts on files | `Checking` |
//! | `links.rt` | `links` | `Links`: `LinksTells` |
//! | `links/tag_list.rt` | tags one after another | `TagList` |
//! | `links/lines.rt` | the lines of what is wrong between tags | `Links` |
//! | all of these | what is printed of a whole input; why one stopped | `Telling`, `Causes` |
//! | `replay.rt` | `replay` | `Replay` of `session_script`: `ReplayTells` |
//! | `make.rt` | `make` | `Making`; `Day` of `session_day`: `MakeTells` |
//! | `laws.rt` | what the definitions mean, proved | `FirstLaws`, `TagLaws`, `LinksLaws` |
#![tactic(auto)]

mod command;
pub mod laws;
mod links;
mod make;
mod mirror;
mod replay;
mod run;
mod tag;

pub use command::is_command_line;
pub use run::{run_plain, status};
