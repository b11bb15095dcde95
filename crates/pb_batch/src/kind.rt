//! The kinds of batches, and the types of messages.

ghost use Rattle.std.specs.Prelude.{◌≡◌};
ghost use Rattle.pb_batch.specs.Types.{kind_of, number_of_kind, type_of};

/// What a batch is for (RFC 5793, section 4.1).
#[derive(Clone, Copy, Debug, PartialEq, Eq)]
pub enum BatchKind {
    /// Data of the client; type 1.
    Cdata,
    /// Data of the server; type 2.
    Sdata,
    /// The server's decision, the RFC's RESULT; type 3.
    Outcome,
    /// The client asks for another round; type 4.
    Cretry,
    /// The server asks for another round; type 5.
    Sretry,
    /// The end of the session; type 6.
    Close,
}

impl BatchKind {
    /// The kind that the number of a batch type stands for; `None` where it is not 1 to 6.
    pub(crate) fn from_number(number: u8) -> Option<Self>
        ensures kind { result ≡ kind_of number }
    {
        match number {
            1 => Some(BatchKind::Cdata),
            2 => Some(BatchKind::Sdata),
            3 => Some(BatchKind::Outcome),
            4 => Some(BatchKind::Cretry),
            5 => Some(BatchKind::Sretry),
            6 => Some(BatchKind::Close),
            _ => None,
        }
    }

    /// The number of the batch type.
    pub(crate) fn number(self) -> u8
        ensures number { result ≡ number_of_kind self }
    {
        match self {
            BatchKind::Cdata => 1,
            BatchKind::Sdata => 2,
            BatchKind::Outcome => 3,
            BatchKind::Cretry => 4,
            BatchKind::Sretry => 5,
            BatchKind::Close => 6,
        }
    }
}

/// How a message is read, by its vendor and type (RFC 5793, section 4.3).
#[derive(Clone, Copy, Debug, PartialEq, Eq)]
pub(crate) enum MessageType {
    /// PB-PA; type 1 of the IETF.
    Pa,
    /// PB-Assessment-Result; type 2 of the IETF.
    Assessment,
    /// PB-Access-Recommendation; type 3 of the IETF.
    Recommendation,
    /// PB-Error; type 5 of the IETF.
    Error,
    /// Any other, whose value is not looked at.
    Other,
}

impl MessageType {
    /// The type of a message of the vendor with the number `kind`.
    pub(crate) fn from_numbers(vendor: u32, kind: u32) -> Self
        ensures kind { result ≡ type_of vendor kind }
    {
        match (vendor, kind) {
            (0, 1) => MessageType::Pa,
            (0, 2) => MessageType::Assessment,
            (0, 3) => MessageType::Recommendation,
            (0, 5) => MessageType::Error,
            _ => MessageType::Other,
        }
    }
}
