//! Laws of the values of strings, byte strings and C strings.
ghost use Rattle.litrs_grammar.specs.Laws.Value.{PlainBodiesAreTheirValues, ValuesWithoutByteEscapesAreUtf8, StringValuesAreUtf8, NoNulInCStrings};

/// Proves that the value of a quoted body without a backslash is its UTF-8.
#[tactic(auto, using(crate::proofs::Laws::Value::plain_bodies_are_their_values))]
pub fn plain_bodies_are_their_values()
    ensures { PlainBodiesAreTheirValues }
{}

/// Proves that the value of a quoted body is the UTF-8 of some text if byte escapes are off.
#[tactic(auto, using(crate::proofs::Laws::Value::values_without_byte_escapes_are_utf8))]
pub fn values_without_byte_escapes_are_utf8()
    ensures { ValuesWithoutByteEscapesAreUtf8 }
{}

/// Proves that the value of a string, quoted or raw, is the UTF-8 of some text.
#[tactic(auto, using(crate::proofs::Laws::Value::string_values_are_utf8))]
pub fn string_values_are_utf8()
    ensures { StringValuesAreUtf8 }
{}

/// Proves that no byte of the value of a C string, quoted or raw, is zero.
#[tactic(auto, using(crate::proofs::Laws::Value::no_nul_in_c_strings))]
pub fn no_nul_in_c_strings()
    ensures { NoNulInCStrings }
{}
