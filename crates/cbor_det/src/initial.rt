//! The initial byte of an item (RFC 8949, section 3).

ghost use Rattle.std.specs.Prelude.{◌≡◌, ◌<◌};
ghost use Rattle.cbor_det.specs.Initial.{initial_of, number_of_major, simple_or_float, head_of, head_or_indefinite};

use crate::string_kind::StringKind;

/// The major types whose heads have an argument (RFC 8949, section 3.1).
#[derive(Clone, Copy, Debug, PartialEq, Eq)]
pub(crate) enum Major {
    /// Major type 0.
    Unsigned,
    /// Major type 1.
    Negative,
    /// Major types 2 and 3.
    String(StringKind),
    /// Major type 4.
    Array,
    /// Major type 5.
    Map,
    /// Major type 6.
    Tag,
}

impl Major {
    /// The number of the type.
    pub(crate) fn number(self) -> u8
        ensures number { result ≡ number_of_major self }
        ensures below { result < 8 }
    {
        match self {
            Major::Unsigned => 0,
            Major::Negative => 1,
            Major::String(StringKind::ByteString) => 2,
            Major::String(StringKind::TextString) => 3,
            Major::Array => 4,
            Major::Map => 5,
            Major::Tag => 6,
        }
    }
}

/// How an item begins.
#[derive(Clone, Copy, Debug, PartialEq, Eq)]
pub(crate) enum Beginning {
    /// A head with its argument.
    Argued(Major, u64),
    /// A head whose argument comes in that many octets.
    Argument(Major, u8),
    /// A string of indefinite length.
    Chunks(StringKind),
    /// An array of indefinite length.
    Elements,
    /// A map of indefinite length.
    Members,
    /// False or true.
    Bool(bool),
}

/// What an initial byte says.
#[derive(Clone, Copy, Debug, PartialEq, Eq)]
pub(crate) enum Initial {
    /// An item begins.
    Item(Beginning),
    /// What has an indefinite length ends.
    Break,
    /// A floating-point number.
    Float,
    /// A simple value that is neither false nor true.
    Simple,
    /// A reserved octet, or an indefinite length on a type that has none.
    Malformed,
}

/// What the initial byte says.
#[tactic(auto, unfolding(crate::specs::Initial::initial_of))]
pub(crate) fn initial_of(byte: u8) -> Initial
    ensures says { result ≡ initial_of byte }
{
    let information = byte % 32;
    match byte / 32 {
        0 => head_of(Major::Unsigned, information),
        1 => head_of(Major::Negative, information),
        2 => head_or_indefinite(
            Major::String(StringKind::ByteString),
            information,
            Beginning::Chunks(StringKind::ByteString),
        ),
        3 => head_or_indefinite(
            Major::String(StringKind::TextString),
            information,
            Beginning::Chunks(StringKind::TextString),
        ),
        4 => head_or_indefinite(Major::Array, information, Beginning::Elements),
        5 => head_or_indefinite(Major::Map, information, Beginning::Members),
        6 => head_of(Major::Tag, information),
        7 => simple_or_float(information),
        _ => Initial::Malformed,
    }
}

/// The head of a type, with its additional information.
fn head_of(major: Major, information: u8) -> Initial
    ensures says { result ≡ head_of major information }
{
    match information {
        0..=23 => Initial::Item(Beginning::Argued(major, u64::from(information))),
        24 => Initial::Item(Beginning::Argument(major, 1)),
        25 => Initial::Item(Beginning::Argument(major, 2)),
        26 => Initial::Item(Beginning::Argument(major, 4)),
        27 => Initial::Item(Beginning::Argument(major, 8)),
        _ => Initial::Malformed,
    }
}

/// The head of a type that may have an indefinite length.
fn head_or_indefinite(major: Major, information: u8, indefinite: Beginning) -> Initial
    ensures says { result ≡ head_or_indefinite major information indefinite }
{
    if information == 31 {
        return Initial::Item(indefinite);
    }
    head_of(major, information)
}

/// Major type 7.
fn simple_or_float(information: u8) -> Initial
    ensures says { result ≡ simple_or_float information }
{
    match information {
        20 => Initial::Item(Beginning::Bool(false)),
        21 => Initial::Item(Beginning::Bool(true)),
        25..=27 => Initial::Float,
        28..=30 => Initial::Malformed,
        31 => Initial::Break,
        _ => Initial::Simple,
    }
}
