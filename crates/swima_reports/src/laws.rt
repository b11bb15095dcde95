//! What the definitions mean, proved of every value: the calls do nothing.

ghost use Rattle.swima_reports.specs.Laws.{AreOneOfTwo, FaultIsFirst, NoFormIsAFront, ReadingIsForm};
ghost use Rattle.swima_reports.specs.Written.{CarriedIsReport, FitsIsAsked, FormIsCounted, FulfillingIsWritable, ReadFits, WrittenIsCounted, WrittenIsRead};

/// The layout read field by field gives a report exactly where the octets have the report's form:
/// the readers and the form, each written in the order of the RFC's figures, say the same.
pub fn reading_is_form()
    ensures law { ReadingIsForm }
{}

/// The layout read field by field says a fault at a place exactly where that is the first one. The
/// octets before it are the first fields of a report, and after them they go on as no report does.
pub fn fault_is_first()
    ensures law { FaultIsFirst }
{}

/// Octets are the form of one report and have no first fault, or of none and have one, at one
/// place.
pub fn form_or_fault()
    ensures law { AreOneOfTwo }
{}

/// No form of a report is a prefix of another form of the same type, so octets after a report are
/// always a fault.
pub fn no_form_is_a_front()
    ensures law { NoFormIsAFront }
{}

/// What is written of a report is read back as what it carries: the report, of kind `Ids` without
/// the bodies.
pub fn written_is_read()
    ensures law { WrittenIsRead }
{}

/// What is carried of a report that its kind may carry is the report.
pub fn carried_is_report()
    ensures law { CarriedIsReport }
{}

/// What is written of a report has as many octets as are counted.
pub fn written_is_counted()
    ensures law { WrittenIsCounted }
{}

/// A value that carries a report has as many octets as are counted, whatever its reserved octets
/// are.
pub fn form_is_counted()
    ensures law { FormIsCounted }
{}

/// A report fits an attribute exactly where `write_report` may be called with it.
pub fn fits_is_asked()
    ensures law { FitsIsAsked }
{}

/// A report that was read from a value of at most 16,777,000 octets fits an attribute, so it can be
/// written again.
pub fn read_fits()
    ensures law { ReadFits }
{}

/// The report that fulfils a subscription has room in its fields where the report without the flag
/// has. It has the same attribute type, and is carried with the same records or events.
pub fn fulfilling_is_writable()
    ensures law { FulfillingIsWritable }
{}
