//! Laws of what is written.
ghost use Rattle.litrs_build.specs.Laws.{CharsArePrintable, BytesArePrintable, StringsArePrintable, ByteStringsArePrintable, CStringsArePrintable, RawLiteralsNeedHashes, RawLiteralsAreBuilt};

/// Proves that every character between the quotes of a char is printable.
#[tactic(auto, using(crate::proofs::PrintableTexts::chars_are_printable))]
pub fn chars_are_printable()
    ensures { CharsArePrintable }
{}

/// Proves that every character between the quotes of a byte is printable.
#[tactic(auto, using(crate::proofs::PrintableTexts::bytes_are_printable))]
pub fn bytes_are_printable()
    ensures { BytesArePrintable }
{}

/// Proves that every character between the quotes of a string is printable.
#[tactic(auto, using(crate::proofs::PrintableTexts::strings_are_printable))]
pub fn strings_are_printable()
    ensures { StringsArePrintable }
{}

/// Proves that every character between the quotes of a byte string is printable.
#[tactic(auto, using(crate::proofs::PrintableTexts::byte_strings_are_printable))]
pub fn byte_strings_are_printable()
    ensures { ByteStringsArePrintable }
{}

/// Proves that every character between the quotes of a C string is printable.
#[tactic(auto, using(crate::proofs::PrintableTexts::c_strings_are_printable))]
pub fn c_strings_are_printable()
    ensures { CStringsArePrintable }
{}

/// Proves that no raw literal has fewer hashes than its body needs.
#[tactic(auto, using(crate::proofs::Hashes::raw_literals_need_hashes))]
pub fn raw_literals_need_hashes()
    ensures { RawLiteralsNeedHashes }
{}

/// Proves that a raw literal can be built from the value and the suffix of any raw literal.
#[tactic(auto, using(crate::proofs::RawLiterals::raw_literals_are_built))]
pub fn raw_literals_are_built()
    ensures { RawLiteralsAreBuilt }
{}
