//! Laws of the texts that a parse may allocate memory for.
ghost use Rattle.litrs_grammar.specs.Laws.Allocation.{AllocationIsByParts};

/// Proves that a parse may allocate for a literal if and only if it is a C string, or its body is
/// quoted and has a backslash.
#[tactic(auto, using(crate::proofs::Laws::Allocation::allocation_is_by_parts))]
pub fn allocation_is_by_parts()
    ensures { AllocationIsByParts }
{}
