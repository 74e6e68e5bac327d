//! Laws of lines, of their groups and of the reports on them.
pub mod group;
pub mod lines;
pub mod report;
