//! How sessions are configured.

/// How a collector serves a session.
#[derive(Clone, Copy, Debug, PartialEq, Eq)]
pub struct ServeConfig {
    /// The most octets of the values of reports and of lists of subscriptions in one batch, 64 to
    /// 16000000.
    pub max: u32,
    /// After how many reports the session is closed; `None` never closes it.
    pub reports: Option<u32>,
    /// After how many idle turns since the last octet the session ends, at least 1.
    pub idle: u32,
    /// After how many octets taken the session ends, 1 to 4294967295.
    pub octets: u64,
}

/// How a validator follows a collector in a session.
#[derive(Clone, Copy, Debug, PartialEq, Eq)]
pub struct FollowConfig {
    /// Whether the first request of a session establishes a subscription (RFC 8412, section 3.8.1).
    pub subscribe: bool,
    /// After how many rounds the session is closed, at least 1.
    pub rounds: u32,
    /// After how many idle turns since the last octet the session ends, at least 1.
    pub idle: u32,
    /// After how many octets taken the session ends, 1 to 4294967295.
    pub octets: u64,
}
