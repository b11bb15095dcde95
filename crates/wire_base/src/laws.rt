//! What the definitions mean, proved of every value: the calls do nothing.

ghost use Rattle.wire_base.specs.Stamp.{StampTestIsForm};
ghost use Rattle.wire_base.specs.Texts.{DecimalOrFault, EscapedOrFault};

/// The test for a stamp that readers make passes exactly on stamps.
pub fn stamp_test_is_form()
    ensures law { StampTestIsForm }
{}

/// Each text is that of octets or has a first fault, and never both. It is the text of no other
/// octets, and its first fault has one place.
pub fn escaped_or_fault()
    ensures law { EscapedOrFault }
{}

/// Each text is that of a number below 2^32 or has a first fault, and never both. It is the text of
/// no other number, and its first fault has one place.
pub fn decimal_or_fault()
    ensures law { DecimalOrFault }
{}
