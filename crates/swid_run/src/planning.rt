//! What the words of a command line say is to be made.

ghost use Rattle.std.specs.Prelude.{map};
ghost use Rattle.swid_run.specs.Words.{HasFewFiles, Lends, Plans, PlansOther};

use crate::order::{Order, order_of};
use crate::plans::Plan;
use std::alloc::Global;
use swid_cli::is_command_line;
use wire_base::Memory;

/// What is to be made before these words are run, which is what `run` is lent for them. Every
/// answer but `Memory` comes exactly where the words say so.
pub fn plan(alloc: Global, words: &[&str]) -> Plan
    ensures plan { Plans (map (λ word. word.now) words.now) result }
    ensures lent { Lends (map (λ word. word.now) words.now) result }
    ensures few { HasFewFiles result }
{
    match order_of(alloc, words) {
        Ok(Order::Collect(options)) => Plan::Collect {
            listen: options.listen,
            workers: options.workers,
            names: options.names,
        },
        Ok(Order::Follow(options)) => Plan::Follow {
            addresses: options.addresses,
        },
        Ok(Order::Other) => other_plan(words),
        Err(Memory) => Plan::Memory,
    }
}

/// What is to be made before words are run that ask for neither `collect` nor `follow`.
fn other_plan(words: &[&str]) -> Plan
    ensures plan { PlansOther (map (λ word. word.now) words.now) result }
{
    if is_command_line(words) {
        Plan::Plain
    } else {
        Plan::Usage
    }
}
