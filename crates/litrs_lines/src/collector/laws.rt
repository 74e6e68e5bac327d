//! Laws of the steps of a text.
ghost use Rattle.litrs_lines.specs.StepLaws.{StepsAreDecided, StepsAreUnique};

/// Proves that each text is a literal, continues in the next line, or is rejected.
pub fn steps_are_decided()
    ensures { StepsAreDecided }
{}

/// Proves that no text has two steps.
pub fn steps_are_unique()
    ensures { StepsAreUnique }
{}
