//! What the definitions of subscriptions mean, proved of every value: the calls do nothing.

ghost use Rattle.swima_request.specs.StatusLaws.{AreOneOfTwo, CountsFit, FaultIsFirst, FormIsCounted, NoFormIsAFront, ReadingIsForm, WrittenIsCounted, WrittenIsRead};

/// The layout read field by field gives subscriptions exactly where the octets have their form: the
/// reader and the form, each written in the order of the RFC's figure, say the same.
pub fn status_reading_is_form()
    ensures law { ReadingIsForm }
{}

/// The layout read field by field says a fault at a place exactly where that is the first one. The
/// octets before it are the first fields of some subscriptions, and after them they go on as none
/// do.
pub fn status_fault_is_first()
    ensures law { FaultIsFirst }
{}

/// Octets are the form of one list of subscriptions and have no first fault, or of none and have
/// one, at one place.
pub fn status_form_or_fault()
    ensures law { AreOneOfTwo }
{}

/// No form of subscriptions is a prefix of another form, so octets after them are always a fault.
pub fn no_status_form_is_a_front()
    ensures law { NoFormIsAFront }
{}

/// What is written of subscriptions is read back.
pub fn written_status_is_read()
    ensures law { WrittenIsRead }
{}

/// What is written of subscriptions has as many octets as are counted.
pub fn written_status_is_counted()
    ensures law { WrittenIsCounted }
{}

/// A value that carries subscriptions has as many octets as are counted, whatever its flags without
/// a name are.
pub fn status_form_is_counted()
    ensures law { FormIsCounted }
{}

/// Subscriptions of at most 16,777,000 octets are fewer than 2^24, and so are the targets of each.
pub fn status_counts_fit()
    ensures law { CountsFit }
{}
