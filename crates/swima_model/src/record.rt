//! Software inventory evidence records.

ghost use Rattle.std.specs.Prelude.{◌≡◌, ◌≤◌, ◌+◌};
ghost use Rattle.swima_model.specs.Carried.{carries};
ghost use Rattle.swima_model.specs.Size.{MOST_CONTENT_OCTETS, body_size, content_octets, record_size};

use crate::bounded::{Body, Ident, Locator};
use crate::report::Kind;
use std::marker;
use wire_base::{List, Memory, TryCopy};

/// The data model of a record's body: the Private Enterprise Number of the organization that
/// assigned the type, below 2^24, and the type (RFC 8412, section 3.4.2).
#[derive(Clone, Copy, Debug, PartialEq, Eq)]
pub struct Model {
    /// The Private Enterprise Number.
    pub pen: u32,
    /// The type that this organization assigned.
    pub kind: u8,
}

impl marker::Model for Model {
    ghost use Rattle.std.specs.Prelude.{◌<◌, ◌^◌};
    ghost use Rattle.swima_model.specs.DataModel.{DataModel};

    ghost Value = { DataModel };

    ghost view = { λ model. record { pen = model.pen; kind = model.kind } };

    ghost invariant = { λ model. model.pen < 2 ^ 24 };

    ghost inverse = { λ model. record { pen = model.pen; kind = model.kind } };
}

impl TryCopy for Model {
    fn copy(&self) -> Result<Self, Memory> {
        Ok(*self)
    }
}

/// What a record says of a piece of software.
#[derive(Debug, Drop)]
pub struct Content {
    /// The data model of the body.
    pub model: Model,
    /// The number of the source that gave the record (RFC 8412, section 3.4.5).
    pub source: u8,
    /// The software identifier.
    pub ident: Ident,
    /// Where the software is; empty where that is not known.
    pub locator: Locator,
    /// The record as its source gave it; empty in reports of identifiers only.
    pub body: Body,
}

impl Content {
    /// How many octets the identifier, the locator and the body have together. It takes no memory.
    pub fn octets(&self) -> u64
        ensures octets { result ≡ content_octets self.now }
        ensures within { result ≤ MOST_CONTENT_OCTETS }
    {
        let ident = self.ident.bytes().len();
        let locator = self.locator.bytes().len();
        let body = self.body.bytes().len();
        ident as u64 + locator as u64 + body as u64
    }

    /// Whether the event of a deletion may carry `carried` where this is the content that is live:
    /// it is the same, or the same with an empty body. It takes no memory.
    pub fn carries(&self, carried: &Content) -> bool
        ensures carries { result ≡ carries self.now carried.now }
    {
        let model = carried.model;
        model.pen == self.model.pen
            && model.kind == self.model.kind
            && carried.source == self.source
            && carried.ident == self.ident
            && carried.locator == self.locator
            && (carried.body.bytes().is_empty() || carried.body == self.body)
    }
}

impl TryCopy for Content {
    fn copy(&self) -> Result<Self, Memory> {
        Ok(Content {
            model: self.model,
            source: self.source,
            ident: self.ident.copy()?,
            locator: self.locator.copy()?,
            body: self.body.copy()?,
        })
    }
}

/// A record of an inventory.
#[derive(Debug, Drop)]
pub struct Record {
    /// The record identifier, which names the record within its endpoint (RFC 8412, section 3.4.3).
    pub id: u32,
    /// What the record says.
    pub content: Content,
}

impl Record {
    /// How many octets the record takes in a report of this kind. It takes no memory.
    pub fn size(&self, kind: Kind) -> u64
        ensures size { result ≡ record_size kind self.now }
        ensures within { result ≤ MOST_CONTENT_OCTETS + 18 }
    {
        let ident = self.content.ident.bytes().len() as u64;
        let locator = self.content.locator.bytes().len() as u64;
        14 + ident + locator + body_size(kind, &self.content.body)
    }
}

/// How many octets a body takes in a report of the kind, with those that give its length.
fn body_size(kind: Kind, body: &Body) -> u64
    ensures size { result ≡ body_size kind body.now }
    ensures within { result ≤ 4 + 1048576 }
{
    match kind {
        Kind::Ids => 0,
        Kind::Full => 4 + body.bytes().len() as u64,
    }
}

impl TryCopy for Record {
    fn copy(&self) -> Result<Self, Memory> {
        Ok(Record {
            id: self.id,
            content: self.content.copy()?,
        })
    }
}

/// Records in order.
pub type Records = List<Record>;
