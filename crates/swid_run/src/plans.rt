//! What is to be made before a command line is run.

use command_options::Texts;
use wire_base::Text;

/// What is to be made before a command line is run.
#[derive(Debug, Drop)]
pub enum Plan {
    /// Nothing: the command waits for nobody.
    Plain,
    /// A listener, as many doors to it as there are workers, and a source for each file.
    Collect {
        /// The address to listen on.
        listen: Text,
        /// How many workers serve sessions side by side, from 1 to 64.
        workers: u32,
        /// The files with the lines of sources, at most 255.
        names: Texts,
    },
    /// A door to each address.
    Follow {
        /// The addresses of the collectors, from 1 to 64.
        addresses: Texts,
    },
    /// Nothing: the words are no command line.
    Usage,
    /// Nothing: memory ran out. It comes only where the first word is `collect` or `follow`.
    Memory,
}
