//! Records of two lists in order of identifier, put into one.

ghost use Rattle.std.specs.Prelude.{◌≡◌, ◌≤◌, ◌+◌, ◌∷◌, ◌++◌, [], false, List, reverse, vec_capacity, vec_len};
ghost use Rattle.swima_model.specs.declared.record.Record.{Record as RecordValue};
ghost use Rattle.validator_core.specs.Merged.{first_is, is_below, merged};

use swima_model::Record;

/// Puts the records that are held and those that are given into a list without any, which has room
/// for all. Of two with one identifier the given one is put. It takes no memory.
pub(crate) fn merge(records: &mut Vec<Record>, held: Vec<Record>, given: Vec<Record>)
    requires empty { records.old.items ≡ [] }
    requires room { vec_len held + vec_len given ≤ vec_capacity records.old }
    ensures merged { records.new.items ≡ merged held.items given.items }
{
    let mut left = given;
    left.reverse();
    for record in held {
        put_below(records, &mut left, &record);
        let next = chosen(&mut left, record);
        records.push(next).unwrap();
    }
    left.reverse();
    records.append(&mut left).unwrap();
}

/// Puts those of the given records that are below the one that is held, where there is room for
/// all. It takes no memory.
fn put_below(records: &mut Vec<Record>, given: &mut Vec<Record>, held: &Record)
    requires room { vec_len records.old + vec_len given.old ≤ vec_capacity records.old }
    ensures put { (later : List RecordValue) → records.new.items ++ merged (held.now ∷ later) (reverse given.new.items)
        ≡ records.old.items ++ merged (held.now ∷ later) (reverse given.old.items) }
    ensures none { is_below held.now.id (reverse given.new.items) ≡ false }
    ensures len { vec_len records.new + vec_len given.new ≡ vec_len records.old + vec_len given.old }
    ensures capacity { vec_capacity records.old ≤ vec_capacity records.new }
{
    while is_below(given, held.id) {
        let next = given.pop().unwrap();
        records.push(next).unwrap();
    }
}

/// Of the record that is held and the next of those that are given, none of which is below it, the
/// one to put next. It takes no memory.
fn chosen(given: &mut Vec<Record>, held: Record) -> Record
    requires none { is_below held.id (reverse given.old.items) ≡ false }
    ensures next { (later : List RecordValue) → merged (held ∷ later) (reverse given.old.items)
        ≡ result ∷ merged later (reverse given.new.items) }
    ensures len { vec_len given.new ≤ vec_len given.old }
{
    if first_is(given, held.id) {
        return given.pop().unwrap();
    }
    held
}

/// Whether the next of the given records is below this identifier.
fn is_below(given: &Vec<Record>, id: u32) -> bool
    ensures below { result ≡ is_below id (reverse given.now.items) }
{
    match given.last() {
        None => false,
        Some(record) => record.id < id,
    }
}

/// Whether the next of the given records has this identifier.
fn first_is(given: &Vec<Record>, id: u32) -> bool
    ensures is { result ≡ first_is id (reverse given.now.items) }
{
    match given.last() {
        None => false,
        Some(record) => record.id == id,
    }
}
