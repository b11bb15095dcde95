//! What the attributes of a message say to an end.

use swima_model::Report;
use swima_request::Request;
use wire_base::List;

/// Requests in order.
pub type Requests = List<Request>;

/// What an attribute says to a collector.
#[derive(Debug, Drop)]
pub enum CollectorWord {
    /// A request (RFC 8412, section 5.6).
    Wants(Request),
    /// A request for the status of the subscriptions (RFC 8412, section 5.11).
    AsksStatus,
    /// A PA-TNC Error of this code (RFC 5792, section 4.2.8).
    Failure(u32),
}

/// What an attribute says to a validator.
#[derive(Debug, Drop)]
pub enum ValidatorWord {
    /// A report (RFC 8412, sections 5.7 to 5.10).
    Reports(Report),
    /// The requests of the subscriptions (RFC 8412, section 5.12).
    Lists(Requests),
    /// A PA-TNC Error of this code (RFC 5792, section 4.2.8).
    Failure(u32),
}
