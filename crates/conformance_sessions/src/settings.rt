//! How the ends of a row are configured: words with commas between them, each `NAME=NUMBER` or a
//! flag. A `-` is none of them; what is not named stays as it is without limits.

use session_rules::{FollowConfig, ServeConfig};

/// Without a limit.
const MOST: u32 = 4_294_967_295;

/// A collector, and the empty book that it starts with.
#[derive(Clone, Copy)]
pub(crate) struct Serving {
    pub(crate) epoch: u32,
    pub(crate) cap: u32,
    pub(crate) config: ServeConfig,
}

/// A validator, and whether its mirror is of whole records.
#[derive(Clone, Copy)]
pub(crate) struct Following {
    pub(crate) full: bool,
    pub(crate) config: FollowConfig,
}

/// Settings of a collector: `epoch`, 7 where it is not named, and `cap`, the events that are kept,
/// 4; `max`, `reports`, `idle` and `octets`.
pub(crate) fn serving_of(words: &str) -> Option<Serving> {
    let mut serving = Serving {
        epoch: 7,
        cap: 4,
        config: ServeConfig {
            max: 16_000_000,
            reports: None,
            idle: MOST,
            octets: u64::from(MOST),
        },
    };
    if words == "-" {
        return Some(serving);
    }
    for word in words.split(',') {
        serving = with_serving(serving, word)?;
    }
    Some(serving)
}

fn with_serving(serving: Serving, word: &str) -> Option<Serving> {
    let mut serving = serving;
    let (name, number) = word.split_once('=')?;
    let number: u32 = number.parse().ok()?;
    match name {
        "epoch" => serving.epoch = number,
        "cap" => serving.cap = number,
        "max" => serving.config.max = number,
        "reports" => serving.config.reports = Some(number),
        "idle" => serving.config.idle = number,
        "octets" => serving.config.octets = u64::from(number),
        _ => return None,
    }
    Some(serving)
}

/// Settings of a validator: `full` and `subscribe`; `rounds`, `idle` and `octets`.
pub(crate) fn following_of(words: &str) -> Option<Following> {
    let mut following = Following {
        full: false,
        config: FollowConfig {
            subscribe: false,
            rounds: MOST,
            idle: MOST,
            octets: u64::from(MOST),
        },
    };
    if words == "-" {
        return Some(following);
    }
    for word in words.split(',') {
        following = with_following(following, word)?;
    }
    Some(following)
}

fn with_following(following: Following, word: &str) -> Option<Following> {
    let mut following = following;
    match word {
        "full" => following.full = true,
        "subscribe" => following.config.subscribe = true,
        word => {
            let (name, number) = word.split_once('=')?;
            let number: u32 = number.parse().ok()?;
            match name {
                "rounds" => following.config.rounds = number,
                "idle" => following.config.idle = number,
                "octets" => following.config.octets = u64::from(number),
                _ => return None,
            }
        }
    }
    Some(following)
}
