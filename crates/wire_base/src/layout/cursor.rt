//! Reading octets field by field.

ghost use Rattle.std.specs.Prelude.{◌≡◌, ◌+◌, ◌<◌, ◌≤◌, ◌^◌, length, IfOk, OnErr};
ghost use Rattle.wire_base.specs.Reading.{GivesExactly, Rest, octets, number, counted, at_end};

use crate::layout::field_refused::FieldRefused;
use crate::layout::numbers::number_of;
use crate::values::list::Octets;
use std::alloc::Global;
use std::marker::Model;

/// The octets that are left to be read, and the place at which they stand. Each method takes one
/// field from their start; at a fault it takes nothing.
#[derive(Debug, Drop)]
pub struct Cursor<'a> {
    at: u32,
    octets: &'a [u8],
}

impl<'a> Model for Cursor<'a> {
    ghost use Rattle.std.specs.Prelude.{◌+◌, ◌<◌, ◌^◌, length};
    ghost use Rattle.wire_base.specs.Reading.{Rest};

    ghost Value = { Rest };

    ghost view = { λ cursor. record { at = cursor.at; octets = cursor.octets.now } };

    ghost invariant = { λ cursor. cursor.at + length cursor.octets.now < 2 ^ 32 };
}

impl<'a> Cursor<'a> {
    /// All of `octets`, whose first stands at the place `at`.
    pub fn new(at: u32, octets: &'a [u8]) -> Self
        requires { at + length octets.now < 2 ^ 32 }
        ensures rest { result ≡ record { at = at; octets = octets.now } }
    {
        Cursor { at, octets }
    }

    /// The place of the first octet that is left, or after the last.
    pub fn place(&self) -> u32
        ensures place { result ≡ self.now.at }
    {
        self.at
    }

    /// How many octets are left.
    pub fn left(&self) -> usize
        ensures left { result ≡ length self.now.octets }
    {
        self.octets.len()
    }

    /// The next `count` octets; a fault at the first of them where there are fewer. It takes no
    /// memory.
    pub fn octets(&mut self, count: usize) -> Result<&'a [u8], FieldRefused>
        ensures field { GivesExactly (λ read. (read.now, self.new)) result (octets count self.old) }
        ensures unchanged { OnErr result (self.new ≡ self.old) }
        ensures count { IfOk result (λ read. length read.now ≡ count) }
    {
        if self.octets.len() < count {
            return Err(FieldRefused::Fault { offset: self.at });
        }
        let (front, rest) = self.octets.split_at(count);
        self.octets = rest;
        self.at += count as u32;
        Ok(front)
    }

    /// A number of `size` octets, at most 4, the most significant first; a fault at the first where
    /// there are fewer. It takes no memory.
    pub fn number(&mut self, size: usize) -> Result<u32, FieldRefused>
        requires { size ≤ 4 }
        ensures field { GivesExactly (λ read. (read, self.new)) result (number size self.old) }
        ensures unchanged { OnErr result (self.new ≡ self.old) }
        ensures fits { IfOk result (λ read. read < 256 ^ size) }
    {
        Ok(number_of(self.octets(size)?))
    }

    /// A number of one octet, as `number`.
    pub fn u8(&mut self) -> Result<u8, FieldRefused>
        ensures field { GivesExactly (λ read. (read, self.new)) result (number 1 self.old) }
        ensures unchanged { OnErr result (self.new ≡ self.old) }
    {
        Ok(self.number(1)? as u8)
    }

    /// A number of two octets, as `number`.
    pub fn u16(&mut self) -> Result<u16, FieldRefused>
        ensures field { GivesExactly (λ read. (read, self.new)) result (number 2 self.old) }
        ensures unchanged { OnErr result (self.new ≡ self.old) }
    {
        Ok(self.number(2)? as u16)
    }

    /// A number of three octets, as `number`.
    pub fn u24(&mut self) -> Result<u32, FieldRefused>
        ensures field { GivesExactly (λ read. (read, self.new)) result (number 3 self.old) }
        ensures unchanged { OnErr result (self.new ≡ self.old) }
        ensures fits { IfOk result (λ read. read < 2 ^ 24) }
    {
        self.number(3)
    }

    /// A number of four octets, as `number`.
    pub fn u32(&mut self) -> Result<u32, FieldRefused>
        ensures field { GivesExactly (λ read. (read, self.new)) result (number 4 self.old) }
        ensures unchanged { OnErr result (self.new ≡ self.old) }
    {
        self.number(4)
    }

    /// A length of `size` octets, at most 4, and then the octets that it counts; a fault at the
    /// length where they do not fit. It takes no memory.
    #[tactic(auto, unfolding(crate::specs::Reading::counted))]
    pub fn counted(&mut self, size: usize) -> Result<&'a [u8], FieldRefused>
        requires { size ≤ 4 }
        ensures field { GivesExactly (λ read. (read.now, self.new)) result (counted size self.old) }
        ensures unchanged { OnErr result (self.new ≡ self.old) }
        ensures fits { IfOk result (λ read. length read.now < 256 ^ size) }
    {
        let (at, octets) = (self.at, self.octets);
        let count = self.number(size)?;
        match self.octets(count as usize) {
            Ok(counted) => Ok(counted),
            Err(_) => {
                *self = Cursor { at, octets };
                Err(FieldRefused::Fault { offset: at })
            }
        }
    }

    /// Shows that nothing is left; a fault at the first octet that is. It takes no memory.
    pub fn end(&self) -> Result<(), FieldRefused>
        ensures field { GivesExactly (λ nothing. (nothing, self.now)) result (at_end tt self.now) }
    {
        if !self.octets.is_empty() {
            return Err(FieldRefused::Fault { offset: self.at });
        }
        Ok(())
    }
}
