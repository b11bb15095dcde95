//! How a pool is configured.

use session_core::ServeConfig;

/// How the sessions of a pool are served, and how many.
#[derive(Clone, Copy, Debug, PartialEq, Eq)]
pub struct PoolConfig {
    /// How each session is served.
    pub serve: ServeConfig,
    /// How many sessions each worker serves at most, at least 1.
    pub sessions: u32,
    /// How many sweeps are made, at least 1.
    pub sweeps: u32,
}
