//! The lines that commands print, and how their output ends.
//!
//! It stands on `validator_core` for the mirror, on `session_rules` for how sessions end, and on
//! `swima_model`, `wire_base`, `sha2`, `hex` and `itoa`. The crates above rest on the clauses
//! `line`, `text` and `limit` of the calls that make lines, texts and answers, on `appended` of
//! `put_records`, and on `count` of `listed_count`.
//!
//! | file | what it holds | its words in `specs/` |
//! |---|---|---|
//! | `answer.rt`, `ending.rt` | what is printed, and how it ends | `Answer` |
//! | `refusal_lines.rt` | the lines of refusals | `Text` |
//! | `numbered_lines.rt` | lines of two words and numbers | `Text` |
//! | `mirror_lines.rt` | what a mirror answered, and what it holds | `Text` |
//! | `end_lines.rt` | how sessions end | `Ends` |
#![tactic(auto)]

mod answer;
mod end_lines;
mod ending;
mod mirror_lines;
mod numbered_lines;
mod refusal_lines;

pub use answer::{Answer, beyond_limit, ending_of, refused};
pub use end_lines::end_line;
pub use ending::Ending;
pub use mirror_lines::{
    listed_count, mirror_head, mirror_text, put_records, skipped_line, took_line,
};
pub use refusal_lines::{fault_line, from_string, refusal};
