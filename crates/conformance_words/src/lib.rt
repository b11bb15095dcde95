//! What stands in a worked row: octets, numbers, texts, files and reports. Each call of a row has
//! its words as a text, and answers with a text. `None` is that the words are none of it, or that
//! memory ran out.
//!
//! It stands on `swima_model`, `swima_reports` and `wire_base`. The crates `conformance_NAME` have
//! the calls of one family each, and the program `conformance` tries rows of all of them.
//!
//! | file | what it holds |
//! |---|---|
//! | `words.rt` | octets in hexadecimal, numbers, and texts on one line |
//! | `reports.rt` | the texts of reports and of what they hold |
#![tactic(auto)]

mod reports;
mod words;

pub use reports::{action_of, kind_of, kind_word, record_text, report_text};
pub use words::{
    digits_of, eight_of, files_of, number_list, octets_of, one_line, push_text, refusal_text,
    word_list,
};
