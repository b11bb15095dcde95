//! What the definitions mean, proved of every value: the calls do nothing.

ghost use Rattle.swima_request.specs.Laws.{AreOneOfTwo, FaultIsFirst, FormIsCounted, NoFormIsAFront, ReadingIsForm, WrittenIsCounted, WrittenIsRead};

/// The layout read field by field gives a request exactly where the octets have the request's form:
/// the reader and the form, each written in the order of the RFC's figure, say the same.
pub fn reading_is_form()
    ensures law { ReadingIsForm }
{}

/// The layout read field by field says a fault at a place exactly where that is the first one. The
/// octets before it are the first fields of a request, and after them they go on as no request
/// does.
pub fn fault_is_first()
    ensures law { FaultIsFirst }
{}

/// Octets are the form of one request and have no first fault, or of none and have one, at one
/// place.
pub fn form_or_fault()
    ensures law { AreOneOfTwo }
{}

/// No form of a request is a prefix of another form, so octets after a request are always a fault.
pub fn no_form_is_a_front()
    ensures law { NoFormIsAFront }
{}

/// What is written of a request is read back.
pub fn written_is_read()
    ensures law { WrittenIsRead }
{}

/// What is written of a request has as many octets as are counted.
pub fn written_is_counted()
    ensures law { WrittenIsCounted }
{}

/// A value that carries a request has as many octets as are counted, whatever its flags without a
/// name are.
pub fn form_is_counted()
    ensures law { FormIsCounted }
{}
