//! Which of the commands that wait for others the words ask for.

ghost use Rattle.std.specs.Prelude.{map};
ghost use Rattle.swid_run.specs.Words.{Orders, OrdersCollect, OrdersFollow};

use command_options::{
    CollectOptions, FollowOptions, OptionsRefused, collect_options, follow_options,
};
use std::alloc::Global;
use wire_base::Memory;

/// What the words of a command line ask for.
#[derive(Debug, Drop)]
pub(crate) enum Order {
    /// Neither of the two below.
    Other,
    /// `collect`: to serve an inventory.
    Collect(CollectOptions),
    /// `follow`: to follow inventories with mirrors.
    Follow(FollowOptions),
}

/// What the words ask for. `Memory` only where the first of them is `collect` or `follow`.
pub(crate) fn order_of(alloc: Global, words: &[&str]) -> Result<Order, Memory>
    ensures order { Orders (map (λ word. word.now) words.now) result }
{
    match words {
        ["collect", rest @ ..] => collect_order(alloc, rest),
        ["follow", rest @ ..] => follow_order(alloc, rest),
        _ => Ok(Order::Other),
    }
}

/// What the words after `collect` ask for.
fn collect_order(alloc: Global, words: &[&str]) -> Result<Order, Memory>
    ensures order { OrdersCollect (map (λ word. word.now) words.now) result }
{
    match collect_options(alloc, words) {
        Ok(options) => Ok(Order::Collect(options)),
        Err(OptionsRefused::Usage) => Ok(Order::Other),
        Err(OptionsRefused::Memory) => Err(Memory),
    }
}

/// What the words after `follow` ask for.
fn follow_order(alloc: Global, words: &[&str]) -> Result<Order, Memory>
    ensures order { OrdersFollow (map (λ word. word.now) words.now) result }
{
    match follow_options(alloc, words) {
        Ok(options) => Ok(Order::Follow(options)),
        Err(OptionsRefused::Usage) => Ok(Order::Other),
        Err(OptionsRefused::Memory) => Err(Memory),
    }
}
