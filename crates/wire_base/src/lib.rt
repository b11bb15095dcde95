//! What every crate stands on, in three folders. `outside` has the outside as traits, with memory
//! forms and adapters. `values` has the one list type, texts and stamps. `layout` has numbers in
//! messages, and the cursor that reads fields.
//!
//! It stands on std, on `jiff_core`, the plain values of `jiff`, for the calendar, and on
//! `thiserror` for the texts of errors. The crates above rest on:
//!
//! - `reads`, `writes` and `cause` of `Source` and `Sink`: what was left or written, and faults
//!   that are counted.
//! - `takes`, `gives`, `cause` and `idle` of `Link`, `comes`, `returned` and `cause` of `Door`,
//!   `moment` of `Clock`.
//! - `answer`, `cause` and `reads` of `Files`.
//! - `field` of each method of `Cursor` that reads and of `FieldReader::read`, and `several` of
//!   `read_several`: what a reader gives, or the place of the first fault.
//! - `appended` of `put_u8` and its kin, of `put_counted_u16` and of `put_counted_u32`.
//! - `text` of `stamp_text`, `appended` of `put_escaped`, `stamp` of `is_stamp`, `octets` of
//!   `read_escaped`, `number` of `read_decimal`.
//! - `equal` of `TryCopy::copy`.
//!
//! | file of `outside/` | what it holds |
//! |---|---|
//! | `source.rt`, `sink.rt` | where octets come from, and where they go |
//! | `link.rt`, `door.rt` | a connection between two ends, and where connections come from |
//! | `files.rt`, `clock.rt` | files by their names, and the time of day |
//! | `fill.rt`, `write_all.rt` | octets from a source and into a sink, in as many calls as needed |
//! | `stopped.rt` | why such calls stopped |
//! | `mem_*.rt`, `failing_calls.rt` | the memory forms, and the plan of their failing calls |
//! | `no_fault_*.rt` | forms that never fail |
//! | `file_source.rt`, `folder_files.rt`, `standard_streams.rt`, `system_clock.rt` | the system |
//! | `tcp_link.rt`, `dial_door.rt`, `listen_door.rt` | connections of the system |
//!
//! | file of `values/` | what it holds |
//! |---|---|
//! | `list.rt`, `boxed.rt`, `text.rt` | lists, values in memory of their own, texts |
//! | `memory.rt`, `text_refused.rt` | out of memory, and why a text is not read |
//! | `decimal.rt` | decimal numbers |
//! | `stamp.rt`, `moment.rt` | stamps, and the dates with times of day that they name |
//! | `escape.rt`, `unescape.rt` | octets as printable text, and back |
//!
//! | file of `layout/` | what it holds |
//! |---|---|
//! | `cursor.rt`, `field_reader.rt` | reading octets field by field, and several of one kind |
//! | `field_refused.rt`, `placed.rt` | why octets are not read, and fields with their places |
//! | `numbers.rt`, `flag.rt`, `counted_octets.rt` | numbers, flags, octets after their count |
//!
//! `laws.rt` has what the definitions mean, proved.
//!
//! The words of the clauses are in `specs/`:
//!
//! | file | what it says |
//! |---|---|
//! | `Outside` | faults that are counted, and octets that are exposed |
//! | `Passing` | what passes between the outside and octets that are held |
//! | `Turns`, `Doors`, `Clocks`, `NamedFile` | the turns of a link, links, moments, files |
//! | `InMemory`, `Adapter`, `SystemLinks`, `Unread` | what memory forms and adapters hold |
//! | `Numbers`, `Layout`, `Written` | numbers, fields in order, and the one written form |
//! | `Reading`, `FirstFault` | reading field by field, and the first fault of a layout |
//! | `FaultTable`, `Feeding` | faults as tables, and values from octets in pieces |
//! | `Stamp`, `Escaped`, `Texts` | stamps, printable text, texts that spell values |
//! | `Spelling`, `Counter` | how the readers of texts go on; counters of 64 bits |
#![tactic(auto)]

pub mod laws;
mod layout;
mod outside;
mod values;

pub use layout::counted_octets::{put_counted_u16, put_counted_u32};
pub use layout::cursor::Cursor;
pub use layout::field_reader::{FieldReader, read_several};
pub use layout::field_refused::{FieldRefused, Refused};
pub use layout::flag::flag;
pub use layout::numbers::{number_of, put_u8, put_u16, put_u24, put_u32, u24_at, u32_at};
pub use layout::placed::Placed;
pub use outside::clock::Clock;
pub use outside::dial_door::DialDoor;
pub use outside::door::{Came, Door};
pub use outside::file_source::FileSource;
pub use outside::files::{FileAnswer, Files, NamedFile};
pub use outside::fill::fill;
pub use outside::folder_files::FolderFiles;
pub use outside::link::{Link, Took};
pub use outside::listen_door::ListenDoor;
pub use outside::mem_clock::MemClock;
pub use outside::mem_door::MemDoor;
pub use outside::mem_files::MemFiles;
pub use outside::mem_link::MemLink;
pub use outside::mem_sink::MemSink;
pub use outside::mem_source::MemSource;
pub use outside::no_fault_link::{LinkTurn, NoFaultLink};
pub use outside::no_fault_streams::{NoFaultSink, NoFaultSource};
pub use outside::sink::Sink;
pub use outside::source::{Failed, Source};
pub use outside::standard_streams::{StdinSource, StdoutSink};
pub use outside::stopped::Stopped;
pub use outside::system_clock::SystemClock;
pub use outside::tcp_link::TcpLink;
pub use outside::write_all::write_all;
pub use values::boxed::Boxed;
pub use values::decimal::read_decimal;
pub use values::escape::put_escaped;
pub use values::list::{List, Octets, TryCopy};
pub use values::memory::Memory;
pub use values::stamp::{ClockRange, is_stamp, stamp_text};
pub use values::text::Text;
pub use values::text_refused::TextRefused;
pub use values::unescape::read_escaped;
