//! What comes of batches that are cut into turns, proved of all batches and turns: the call does
//! nothing.

ghost use Rattle.session_hear.specs.Carriage.{Carries};

/// Of batches that the other end writes one after another, exactly those come that are whole in the
/// octets that were taken, in order, and no fault. Pieces and idle turns do not alter them.
pub fn carries()
    ensures law { Carries }
{}
