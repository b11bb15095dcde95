//! The index of the live records by software identifier.
//!
//! It is an ordered set of keys. The upper half of a key is a digest of a software identifier, and
//! the lower half is the identifier of a record that has it. So the keys of one software identifier
//! stand beside each other, and a key takes eight octets, however long the software identifier is.
//! Two software identifiers may have one digest: a key says where a record may be, and its content
//! says whether it is there.

ghost use Rattle.std.specs.Prelude.{◌≡◌, ◌*◌, ◌+◌, ◌^◌, ◌<◌, true, ℕ, OnErr, OnOk, IfOk};
ghost use Rattle.std.specs.BTreeSet.{contains};
ghost use Rattle.std.specs.Ordering.{nat_cmp};
ghost use Rattle.collector_core.specs.Borrowed.{values};
ghost use Rattle.collector_core.specs.Index.{DropsKey, ExchangesKey, Finds, HasAll, PutsKey, digest, key_of};

use std::alloc::Global;
use std::collections::BTreeSet;
use swima_model::Ident;
use wire_base::Memory;

/// What the digest so far is multiplied by for each octet.
const FACTOR: u64 = 16_777_619;

/// The greatest prime below 2^32, which digests are below.
const MODULUS: u64 = 4_294_967_291;

/// How far the first keys of two digests next to each other are apart.
const SPAN: u64 = 0x1_0000_0000;

/// The digest of octets.
#[tactic(auto, unfolding(crate::specs::Index::digest))]
fn digest(octets: &[u8]) -> u32
    ensures digest { result ≡ digest octets.now }
{
    let mut sum: u64 = 0;
    for octet in octets {
        sum = (sum * FACTOR + *octet as u64) % MODULUS;
    }
    sum as u32
}

/// The key of a record.
pub(crate) fn key_of(ident: &Ident, id: u32) -> u64
    ensures key { result ≡ key_of ident.now id }
{
    digest(ident.bytes()) as u64 * SPAN + id as u64
}

/// Puts a key in.
pub(crate) fn put_key(index: &mut BTreeSet<u64>, key: u64) -> Result<(), Memory>
    ensures put { OnOk result (PutsKey key index.old index.new) }
    ensures unchanged { OnErr result (index.new.keys ≡ index.old.keys) }
{
    index.insert(key)?;
    Ok(())
}

/// Takes a key out. It takes no memory.
pub(crate) fn drop_key(index: &mut BTreeSet<u64>, key: u64)
    ensures dropped { DropsKey key index.old index.new }
{
    index.remove(&key);
}

/// Puts a key in, in place of another.
pub(crate) fn exchange_key(index: &mut BTreeSet<u64>, from: u64, to: u64) -> Result<(), Memory>
    ensures exchanged { OnOk result (ExchangesKey from to index.old index.new) }
    ensures unchanged { OnErr result (index.new.keys ≡ index.old.keys) }
{
    put_key(index, to)?;
    if from != to {
        drop_key(index, from);
    }
    Ok(())
}

/// The identifiers of the records whose software identifiers may be among the targets.
pub(crate) fn found(
    alloc: Global,
    index: &BTreeSet<u64>,
    targets: &[&[u8]],
) -> Result<BTreeSet<u32>, Memory>
    ensures found { IfOk result (λ ids. Finds (values targets.now) index.now ids) }
{
    let mut digests = BTreeSet::new(alloc);
    let mut ids = BTreeSet::new(alloc);
    for target in targets {
        visit(&mut digests, &mut ids, index, *target)?;
    }
    Ok(ids)
}

/// Finds the records of a target, where none before it had its digest.
fn visit(
    digests: &mut BTreeSet<u32>,
    ids: &mut BTreeSet<u32>,
    index: &BTreeSet<u64>,
    target: &[u8],
) -> Result<(), Memory>
    ensures visited { OnOk result (PutsKey (digest target.now) digests.old digests.new) }
    ensures found { OnOk result (HasAll index.now digests.old ids.old → HasAll index.now digests.new ids.new) }
{
    let sum = digest(target);
    let is_new = digests.insert(sum)?;
    if !is_new {
        return Ok(());
    }
    gather(ids, index, sum)?;
    Ok(())
}

/// Adds the identifiers of the keys of a digest.
fn gather(ids: &mut BTreeSet<u32>, index: &BTreeSet<u64>, sum: u32) -> Result<(), Memory>
    ensures kept { OnOk result ((id : ℕ) → contains nat_cmp ids.old id ≡ true → contains nat_cmp ids.new id ≡ true) }
    ensures gathered { OnOk result ((id : ℕ) → id < 2 ^ 32 → contains nat_cmp index.now (sum * 2 ^ 32 + id) ≡ true
        → contains nat_cmp ids.new id ≡ true) }
{
    let first = sum as u64 * SPAN;
    for key in index.range(first..=first + u32::MAX as u64) {
        ids.insert((*key % SPAN) as u32)?;
    }
    Ok(())
}
