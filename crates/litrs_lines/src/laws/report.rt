//! Laws of the reports on the groups of lines.
ghost use Rattle.litrs_lines.specs.ReportLaws.{LinesHaveReports, ReportsAreUnique};

/// Proves that the groups of each list of lines have reports: every text has a derivation or an
/// error.
pub fn lines_have_reports()
    ensures { LinesHaveReports }
{}

/// Proves that no groups of the lines have other reports: the groups are unique, and a text has one
/// derivation or one error, and never both.
pub fn reports_are_unique()
    ensures { ReportsAreUnique }
{}
