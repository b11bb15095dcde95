//! A subscription.

use swima_model::Point;
use swima_request::Request;

/// A subscription (RFC 8412, section 3.8).
#[derive(Debug, Drop)]
pub struct Waiting {
    /// The request that established it.
    pub request: Request,
    /// The point up to which it was fulfilled; `None` before its first report.
    pub place: Option<Point>,
}
