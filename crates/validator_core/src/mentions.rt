//! What events say of the records that they mention.

ghost use Rattle.std.specs.Prelude.{◌≡◌, ◌∷◌, [], List, IfOk, OnOk};
ghost use Rattle.swima_model.specs.declared.event.Event.{Event as EventValue};
ghost use Rattle.swima_model.specs.Live.{live};
ghost use Rattle.validator_core.specs.Gone.{AreGone};
ghost use Rattle.validator_core.specs.Mentions.{AreOf};

use std::alloc::Global;
use std::collections::BTreeSet;
use swima_model::{Action, Event, Record};
use wire_base::Memory;

/// What events say of the records that they mention.
#[derive(Drop)]
pub(crate) struct Mentions {
    /// The identifiers that are mentioned.
    ids: BTreeSet<u32>,
    /// Those of which the last mention is a deletion.
    gone: BTreeSet<u32>,
    /// What the last mentions of the others say, the last first.
    last: Vec<Record>,
}

impl Mentions {
    /// The mentions of events. No record is copied.
    pub(crate) fn from_events(alloc: Global, events: Vec<Event>) -> Result<Self, Memory>
        ensures mentions { IfOk result (λ made. AreOf events.items made) }
    {
        let mut mentions = Mentions {
            ids: BTreeSet::new(alloc),
            gone: BTreeSet::new(alloc),
            last: Vec::new(alloc),
        };
        let mut left = events;
        while let Some(event) = left.pop() {
            mentions.add_earlier(event)?;
        }
        Ok(mentions)
    }

    /// Adds an event before those that there are. It counts where its record is not mentioned yet.
    fn add_earlier(&mut self, event: Event) -> Result<(), Memory>
        ensures added { (later : List EventValue) → AreOf later self.old
            → OnOk result (AreOf (event ∷ later) self.new) }
    {
        let id = event.subject.id;
        let is_last = self.ids.insert(id)?;
        if !is_last {
            return Ok(());
        }
        if event.action == Action::Deletion {
            self.gone.insert(id)?;
        } else {
            self.last.push(event.subject)?;
        }
        Ok(())
    }

    /// What is to be held of the records that are mentioned, in order of identifier, and the
    /// identifiers of those that are gone. It takes no memory.
    pub(crate) fn into_given(self) -> (Vec<Record>, BTreeSet<u32>)
        ensures given { (events : List EventValue) → AreOf events self → result.0.items ≡ live [] events }
        ensures gone { (events : List EventValue) → AreOf events self → AreGone events result.1 }
    {
        let Mentions {
            gone,
            last: given,
            ..
        } = self;
        let mut given = given;
        given.sort_unstable_by_key(|record| record.id);
        (given, gone)
    }
}
