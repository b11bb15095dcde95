//! What an end of a session does, as a value: the questions that it asks, the octets that it
//! writes and what it notes, in order.
//!
//! It has no function and stands on std alone. The rules of both ends of a session are functions to
//! such talks, in the crates above. What a talk comes to is said here once, whatever the rules are:
//! where it goes to its end, and where memory runs out on the way.
//!
//! | file of `specs/` | what it says |
//! |---|---|
//! | `Talk` | talks, and how they are joined |
//! | `Course` | what a talk wrote and gave, or where it broke off |
//! | `Given` | the same as a function, for ends that are asked at known places |
//! | `Keeping` | what stays true along a talk, and of what is written along it |
//!
//! | file of `proofs/` | what is proved |
//! |---|---|
//! | `Joining` | talks one after another |
//! | `Outcomes` | a talk has one outcome, which later entries do not change |
//! | `Courses` | the outcome of talks that are joined, by the outcomes of their parts |
//! | `Quiet` | talks without their notes |
//! | `Computed` | the function gives what the relation says |
//! | `Breaking` | a talk that broke off could have gone on to its end |
//! | `Keeping` | what stays true along talks that are joined, and what it says of a course |
//! | `Writing` | what is written along talks that are joined |
#![tactic(auto)]
