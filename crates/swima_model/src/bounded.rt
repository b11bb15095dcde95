//! Octets of a bounded number: identifiers, locators and bodies of records.

ghost use Rattle.std.proofs.Common.{refl};
ghost use Rattle.std.specs.Cmp as comparing;
ghost use Rattle.std.specs.Cmp.Lexicographic.{nat_list_cmp_total, nat_list_eq_equiv, slice_cmp, texts_po, texts_ties};
ghost use Rattle.std.specs.Ordering.{nat_cmp};
ghost use Rattle.std.specs.Prelude.{◌≡◌, ◌≤◌, [], ℕ, length, IfOk, Some};
ghost use Rattle.std.specs.Str.{bytes_eq};
ghost use Rattle.swima_model.specs.Bounded.{Bounds};
ghost use Rattle.swima_model.specs.declared.bounded.LongRefused.TheVariants as refused;

use std::alloc::Global;
use std::cmp::Ordering;
use std::marker::{Model, PhantomData};
use thiserror::Error;
use wire_base::{List, Memory, Octets, TryCopy};

/// Why octets were not taken as an identifier, a locator or a body.
#[derive(Clone, Copy, Debug, PartialEq, Eq, Error)]
pub enum LongRefused {
    /// There are `len` octets, which is more than the limit.
    #[error("{len} octets are too many")]
    TooLong {
        /// The number of octets.
        len: u64,
    },
    /// Out of memory.
    #[error("out of memory")]
    Memory,
}

impl From<Memory> for LongRefused {
    ghost from_gives = { λ _ e. e ≡ refused.Memory };

    fn from(_memory: Memory) -> Self {
        LongRefused::Memory
    }
}

/// How many octets a kind of bounded octets has at most.
pub trait Limit: Drop {
    /// The largest number of octets.
    const OCTETS: usize;

    ghost OCTETS: { ℕ };
}

/// Octets of which there are at most as many as `L` says.
#[derive(Debug, Drop)]
pub struct Bounded<L: Limit> {
    octets: Octets,
    limit: PhantomData<L>,
}

impl<L: Limit> Model for Bounded<L> {
    ghost use Rattle.std.specs.Prelude.{◌≤◌, List, ℕ, length};

    ghost Value = { List ℕ };

    ghost view = { λ bounded. bounded.octets };

    ghost invariant = { λ bounded. length bounded.octets ≤ L.OCTETS };
}

impl<L: Limit> Bounded<L> {
    /// A copy of `bytes`; `TooLong` exactly where there are more than the limit.
    pub fn new(alloc: Global, bytes: &[u8]) -> Result<Self, LongRefused>
        ensures bounds { Bounds L.OCTETS bytes.now result }
    {
        if bytes.len() > L::OCTETS {
            return Err(LongRefused::TooLong {
                len: bytes.len() as u64,
            });
        }
        Ok(Self::from_octets(alloc, bytes)?)
    }

    /// A copy of `bytes`, of which there are no more than the limit.
    pub fn from_octets(alloc: Global, bytes: &[u8]) -> Result<Self, Memory>
        requires { length bytes.now ≤ L.OCTETS }
        ensures octets { IfOk result (λ made. made ≡ bytes.now) }
    {
        let octets = List::from_slice(alloc, bytes)?;
        Ok(Bounded {
            octets,
            limit: PhantomData,
        })
    }

    /// No octets. It takes no memory.
    pub fn empty(alloc: Global) -> Self
        ensures empty { result ≡ [] }
    {
        Bounded {
            octets: List::new(alloc),
            limit: PhantomData,
        }
    }

    /// All octets. It takes no memory.
    pub fn bytes(&self) -> &[u8]
        ensures octets { result.now ≡ self.now }
        ensures within { length result.now ≤ L.OCTETS }
    {
        self.octets.as_slice()
    }
}

impl<L: Limit> TryCopy for Bounded<L> {
    fn copy(&self) -> Result<Self, Memory> {
        Ok(Bounded {
            octets: self.octets.copy()?,
            limit: PhantomData,
        })
    }
}

/// Equal exactly where the octets are.
impl<L: Limit> PartialEq for Bounded<L> {
    ghost eq = { bytes_eq };

    ghost laws = { comparing.partial_equiv_from_equiv nat_list_eq_equiv };

    fn eq(&self, other: &Self) -> bool {
        self.bytes() == other.bytes()
    }
}

impl<L: Limit> Eq for Bounded<L> {
    ghost laws = { nat_list_eq_equiv };
}

impl<L: Limit> PartialOrd for Bounded<L> {
    ghost partial_cmp = { λ one other. Some (slice_cmp nat_cmp one other) };

    ghost laws = { texts_po };

    fn partial_cmp(&self, other: &Self) -> Option<Ordering> {
        Some(self.cmp(other))
    }
}

/// Octet by octet; where one is a prefix of the other, the shorter comes first.
impl<L: Limit> Ord for Bounded<L> {
    ghost cmp = { slice_cmp nat_cmp };

    ghost total = { nat_list_cmp_total };

    ghost matches_partial_cmp = { λ one other. refl };

    ghost matches_eq = { texts_ties };

    fn cmp(&self, other: &Self) -> Ordering {
        self.bytes().cmp(other.bytes())
    }
}

/// The limit of a software identifier, whose length is given by two octets.
#[derive(Clone, Copy, Debug)]
pub struct IdentLimit;

impl Limit for IdentLimit {
    const OCTETS: usize = 65535;

    ghost OCTETS = { 65535 };
}

/// The limit of a software locator, whose length is given by two octets.
#[derive(Clone, Copy, Debug)]
pub struct LocatorLimit;

impl Limit for LocatorLimit {
    const OCTETS: usize = 65535;

    ghost OCTETS = { 65535 };
}

/// The limit of a record's body.
#[derive(Clone, Copy, Debug)]
pub struct BodyLimit;

impl Limit for BodyLimit {
    const OCTETS: usize = 1048576;

    ghost OCTETS = { 1048576 };
}

/// A software identifier of at most 65,535 octets (RFC 8412, section 3.4.1).
pub type Ident = Bounded<IdentLimit>;

/// A software locator of at most 65,535 octets (RFC 8412, section 3.4.4).
pub type Locator = Bounded<LocatorLimit>;

/// The software inventory evidence record itself, of at most 1,048,576 octets.
pub type Body = Bounded<BodyLimit>;
