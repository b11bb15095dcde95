//! The hash of an identifier, by which the map of records finds its place.
//!
//! A book gives identifiers one after another. Four neighbours have the same group of slots in the
//! map's table, so changes of neighbours use memory that was used just before. Each group gets one
//! four before any gets a second, and groups beside each other get fours that are far apart.

ghost use Rattle.std.specs.Prelude.{◌≡◌, ◌+◌, ◌*◌, ◌^◌, ◌%◌, ◌/◌};
ghost use Rattle.std.specs.Int.{swap_bytes, w32};
ghost use Rattle.std.specs.List.{fold};
ghost use Rattle.collector_core.specs.declared.identifier_hash.TheConstants.{APART};

use std::hash::Hasher;

/// How many groups further the next four goes. It is odd, and the number of groups is a power of
/// two, so no group is left out.
const APART: u32 = 0x9e37_79b1;

/// What was read of an identifier, whose octets come with the lowest first.
#[derive(Clone, Copy)]
pub(crate) struct IdentifierHasher {
    read: u32,
}

impl Default for IdentifierHasher {
    ghost is_default = { λ hasher. hasher ≡ record { read = 0 } };

    fn default() -> Self {
        IdentifierHasher { read: 0 }
    }
}

impl Hasher for IdentifierHasher {
    ghost write = { λ hasher octets. record { read = fold (λ n octet. (n * 256 % 2 ^ 32 + octet) % 2 ^ 32) hasher.read octets } };

    ghost finish = { λ hasher. (swap_bytes w32 hasher.read / 4 * APART % 2 ^ 32 + swap_bytes w32 hasher.read % 4 * 2 ^ 24) % 2 ^ 32 };

    fn finish(&self) -> u64 {
        // The lowest bits are the group of the table, and the upper octet is compared in its slots.
        let id = self.read.swap_bytes();
        (id / 4)
            .wrapping_mul(APART)
            .wrapping_add(id % 4 * 0x0100_0000) as u64
    }

    fn write(&mut self, octets: &[u8]) {
        for octet in octets {
            self.read = self.read.wrapping_mul(256).wrapping_add(*octet as u32);
        }
    }
}
