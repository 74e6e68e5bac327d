//! Laws of the groups of lines.
ghost use Rattle.litrs_lines.specs.GroupsLaws.{LinesHaveGroups, GroupsAreUnique};

/// Proves that each list of lines has groups.
pub fn lines_have_groups()
    ensures { LinesHaveGroups }
{}

/// Proves that no list of lines has other groups.
pub fn groups_are_unique()
    ensures { GroupsAreUnique }
{}
