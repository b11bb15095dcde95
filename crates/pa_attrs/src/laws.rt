//! What the definitions mean, proved of every value: the calls do nothing.

ghost use Rattle.pa_attrs.specs.Laws.{AttributeOrFault, BadIsFault, FaultIsFirst, FaultIsLowest, FrontStays, MessageOrFault, NoneIsFront};
ghost use Rattle.pa_attrs.specs.Laws.{ErrorIsForm, ErrorIsTorn, ErrorOrFault, FaultIsReported, SwimaErrorIsShort, WrittenErrorIsCounted, WrittenErrorIsRead};
ghost use Rattle.pa_attrs.specs.Laws.{ReadingIsForm, WholeIsAttribute, WrittenIsCounted, WrittenIsFirst, WrittenIsRead};

/// Octets of a stream begin with a whole attribute exactly where an attribute in its form stands
/// first.
pub fn whole_is_attribute()
    ensures law { WholeIsAttribute }
{}

/// A whole attribute at the start of a stream, and a fault that shows there, stay whatever follows.
pub fn front_stays()
    ensures law { FrontStays }
{}

/// No attribute is a prefix of another one.
pub fn none_is_front()
    ensures law { NoneIsFront }
{}

/// What is written of an attribute is read back from a stream, whatever follows.
pub fn written_is_first()
    ensures law { WrittenIsFirst }
{}

/// A message is read of octets exactly where they have its form.
pub fn reading_is_form()
    ensures law { ReadingIsForm }
{}

/// What is written of a message is read back.
pub fn written_is_read()
    ensures law { WrittenIsRead }
{}

/// What is written of a message has as many octets as are counted.
pub fn written_is_counted()
    ensures law { WrittenIsCounted }
{}

/// Of the rows of the table of faults that show at an attribute, one with the lowest place counts.
pub fn fault_is_lowest()
    ensures law { FaultIsLowest }
{}

/// A message is refused with a fault exactly where, of all rows of the table that show on its
/// header and its attributes, this one counts.
pub fn fault_is_first()
    ensures law { FaultIsFirst }
{}

/// A fault shows in a stream exactly where the 12 octets of a header are there, and it is the first
/// row that shows on them.
pub fn bad_is_fault()
    ensures law { BadIsFault }
{}

/// Octets are one message and have no fault, or are none and have one.
pub fn message_or_fault()
    ensures law { MessageOrFault }
{}

/// Octets of a stream begin with one attribute, or one fault shows in them, or neither: exactly one
/// of the three.
pub fn attribute_or_fault()
    ensures law { AttributeOrFault }
{}

/// An Error is read of octets exactly where they have its form.
pub fn error_is_form()
    ensures law { ErrorIsForm }
{}

/// A value is refused as an Error exactly where it has fewer than 8 octets, at the first field that
/// does not fit.
pub fn error_is_torn()
    ensures law { ErrorIsTorn }
{}

/// What is written of an Error is read back.
pub fn written_error_is_read()
    ensures law { WrittenErrorIsRead }
{}

/// Octets of a value are one Error and have no fault, or are none and have one, at one place.
pub fn error_or_fault()
    ensures law { ErrorOrFault }
{}

/// An Error has 8 octets and those of its information.
pub fn written_error_is_counted()
    ensures law { WrittenErrorIsCounted }
{}

/// An Error about a request (RFC 8412, section 5.15) has at most 24 octets.
pub fn swima_error_is_short()
    ensures law { SwimaErrorIsShort }
{}

/// The Error that reports a fault of a message or of a value has its code, and at most 24 octets.
pub fn fault_is_reported()
    ensures law { FaultIsReported }
{}
