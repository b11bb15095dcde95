//! The outside as traits with contracts: what gives or takes octets, links and where they come
//! from, files by their names, and the time. Of each there is a form in memory, and an adapter to
//! the system.

pub(crate) mod clock;
pub(crate) mod dial_door;
pub(crate) mod door;
pub(crate) mod failing_calls;
pub(crate) mod file_source;
pub(crate) mod files;
pub(crate) mod fill;
pub(crate) mod folder_files;
pub(crate) mod link;
pub(crate) mod listen_door;
pub(crate) mod mem_clock;
pub(crate) mod mem_door;
pub(crate) mod mem_files;
pub(crate) mod mem_link;
pub(crate) mod mem_sink;
pub(crate) mod mem_source;
pub(crate) mod no_fault_link;
pub(crate) mod no_fault_streams;
pub(crate) mod sink;
pub(crate) mod source;
pub(crate) mod standard_streams;
pub(crate) mod stopped;
pub(crate) mod system_clock;
pub(crate) mod tcp_link;
pub(crate) mod write_all;
