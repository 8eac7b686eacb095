//! Each text has a reading: there are the values and faults of which the laws of whole runs speak.
//!
//! The function carries a law in its contract, and does nothing.
#![tactic(auto)]

ghost use Rattle.reading_laws.specs.Laws.{ReadingsExist};

/// Bytes are a JSON text with its value or have a fault, are UTF-8 or stop somewhere to begin a text, and are an
/// expression or have a fault: there are readings of texts, as laws of runs suppose them.
pub fn readings_exist()
    ensures holds { ReadingsExist }
{}
