//! An item of a source, done at a desk.

ghost use Rattle.std.specs.Prelude.{◌≡◌, None, Some, true};
ghost use Rattle.wire_base.specs.Stamp.{IsStamp};
ghost use Rattle.collector_core.specs.Desks.{alters_not, deletes_not};
ghost use Rattle.source_set.specs.Deeds.{Alters, Deletes};
ghost use Rattle.source_set.specs.Doing.{CreatesOne, Once, Performs};
ghost use Rattle.source_set.specs.Keys.{id_at};
ghost use Rattle.source_set.specs.declared.told.Told.TheVariants as told;

use crate::keys::Keys;
use crate::swept::Swept;
use crate::told::Told;
use collector_core::{BookError, Desk};
use std::alloc::Global;
use swima_model::Content;

/// Why an item was not done.
#[derive(Clone, Copy, Debug, PartialEq, Eq)]
pub(crate) enum Undone {
    /// No record has the key.
    UnknownKey {
        /// The key.
        key: u32,
    },
    /// The desk refused the change, or memory ran out.
    Book(BookError),
}

/// Does an item of a source that holds these keys.
pub(crate) fn perform<D: Desk>(
    alloc: Global,
    keys: &mut Keys,
    desk: &mut D,
    stamp: &[u8; 20],
    item: &Told,
    swept: &mut Swept,
) -> Result<(), Undone>
    requires takes { D.takes desk.old ≡ true }
    requires stamp { IsStamp stamp.now }
    ensures performed { Performs D.stands D.went stamp.now item.now
        (record { keys = keys.old; desk = desk.old; swept = swept.old })
        (record { keys = keys.new; desk = desk.new; swept = swept.new }) result }
    ensures takes { D.takes desk.new ≡ true }
{
    match item {
        Told::Add { key, content } => match keys.id_at(*key) {
            Some(id) => alter(desk, stamp, id, content, swept),
            None => add(keys, desk, stamp, *key, content, swept),
        },
        Told::Change { key, content } => match keys.id_at(*key) {
            Some(id) => alter(desk, stamp, id, content, swept),
            None => Err(Undone::UnknownKey { key: *key }),
        },
        Told::Gone { key } => match keys.id_at(*key) {
            Some(id) => remove(keys, desk, stamp, *key, id, swept),
            None => Err(Undone::UnknownKey { key: *key }),
        },
        Told::Ended => remove_all(alloc, keys, desk, stamp, swept),
        Told::Bad { .. } => Ok(()),
        Told::Quiet => Ok(()),
        Told::Failed => Ok(()),
        Told::Memory => Ok(()),
    }
}

/// Creates the record of a key that is not held. The memory for the key is taken before the desk is
/// changed.
fn add<D: Desk>(
    keys: &mut Keys,
    desk: &mut D,
    stamp: &[u8; 20],
    key: u32,
    content: &Content,
    swept: &mut Swept,
) -> Result<(), Undone>
    requires takes { D.takes desk.old ≡ true }
    requires stamp { IsStamp stamp.now }
    requires absent { id_at key keys.old ≡ None }
    ensures added { Performs D.stands D.went stamp.now (told.Add key content.now)
        (record { keys = keys.old; desk = desk.old; swept = swept.old })
        (record { keys = keys.new; desk = desk.new; swept = swept.new }) result }
    ensures takes { D.takes desk.new ≡ true }
{
    match keys.hold(key) {
        Err(_) => Err(Undone::Book(BookError::Memory)),
        Ok(()) => match create(desk, stamp, content, swept) {
            Ok(id) => {
                keys.set(key, id);
                Ok(())
            }
            Err(refused) => {
                keys.remove(key);
                Err(Undone::Book(refused))
            }
        },
    }
}

/// Creates a record.
fn create<D: Desk>(
    desk: &mut D,
    stamp: &[u8; 20],
    content: &Content,
    swept: &mut Swept,
) -> Result<u32, BookError>
    requires takes { D.takes desk.old ≡ true }
    requires stamp { IsStamp stamp.now }
    ensures created { CreatesOne D.stands D.went stamp.now content.now
        desk.old desk.new swept.old swept.new result }
    ensures takes { D.takes desk.new ≡ true }
{
    match desk.create(stamp, content) {
        Ok(id) => {
            swept.added = swept.added.saturating_add(1);
            Ok(id)
        }
        Err(refused) => Err(refused),
    }
}

/// Replaces the content of a record.
fn alter<D: Desk>(
    desk: &mut D,
    stamp: &[u8; 20],
    id: u32,
    content: &Content,
    swept: &mut Swept,
) -> Result<(), Undone>
    requires takes { D.takes desk.old ≡ true }
    requires stamp { IsStamp stamp.now }
    ensures altered { Once D.stands D.went stamp.now (Alters id content.now) (alters_not id content.now)
        desk.old desk.new swept.old swept.new result }
    ensures takes { D.takes desk.new ≡ true }
{
    match desk.alter(stamp, id, content) {
        Ok(()) => {
            swept.changed = swept.changed.saturating_add(1);
            Ok(())
        }
        Err(refused) => Err(Undone::Book(refused)),
    }
}

/// Deletes a record.
fn delete<D: Desk>(desk: &mut D, stamp: &[u8; 20], id: u32, swept: &mut Swept) -> Result<(), Undone>
    requires takes { D.takes desk.old ≡ true }
    requires stamp { IsStamp stamp.now }
    ensures deleted { Once D.stands D.went stamp.now (Deletes id) (deletes_not id)
        desk.old desk.new swept.old swept.new result }
    ensures takes { D.takes desk.new ≡ true }
{
    match desk.delete(stamp, id) {
        Ok(()) => {
            swept.gone = swept.gone.saturating_add(1);
            Ok(())
        }
        Err(refused) => Err(Undone::Book(refused)),
    }
}

/// Deletes the record of a key.
fn remove<D: Desk>(
    keys: &mut Keys,
    desk: &mut D,
    stamp: &[u8; 20],
    key: u32,
    id: u32,
    swept: &mut Swept,
) -> Result<(), Undone>
    requires takes { D.takes desk.old ≡ true }
    requires stamp { IsStamp stamp.now }
    requires held { id_at key keys.old ≡ Some id }
    ensures removed { Performs D.stands D.went stamp.now (told.Gone key)
        (record { keys = keys.old; desk = desk.old; swept = swept.old })
        (record { keys = keys.new; desk = desk.new; swept = swept.new }) result }
    ensures takes { D.takes desk.new ≡ true }
{
    match delete(desk, stamp, id, swept) {
        Ok(()) => {
            keys.remove(key);
            Ok(())
        }
        Err(undone) => Err(undone),
    }
}

/// Deletes the records of all keys, in order of identifier.
fn remove_all<D: Desk>(
    alloc: Global,
    keys: &mut Keys,
    desk: &mut D,
    stamp: &[u8; 20],
    swept: &mut Swept,
) -> Result<(), Undone>
    requires takes { D.takes desk.old ≡ true }
    requires stamp { IsStamp stamp.now }
    ensures removed { Performs D.stands D.went stamp.now told.Ended
        (record { keys = keys.old; desk = desk.old; swept = swept.old })
        (record { keys = keys.new; desk = desk.new; swept = swept.new }) result }
    ensures takes { D.takes desk.new ≡ true }
{
    let Ok(order) = keys.by_id(alloc) else {
        return Err(Undone::Book(BookError::Memory));
    };
    let all = order.as_slice();
    for held in all {
        match delete(desk, stamp, held.1, swept) {
            Ok(()) => keys.remove(held.0),
            Err(undone) => return Err(undone),
        }
    }
    keys.clear();
    Ok(())
}
