//! Shows a message on a range of a text in the style of rustc: the message, the place of the
//! range's start, the line with its number, and carets below the range.
//!
//! ```
//! use litrs_diagnostic::{Diagnostic, shown};
//! use std::alloc::{AllocError, Global};
//!
//! /// Returns the message on the first tab of `source`, if there is one.
//! fn refused_tab(alloc: Global, source: &str) -> Result<Option<String>, AllocError> {
//!     match source.find('\t') {
//!         Some(start) => {
//!             let refusal = Diagnostic::new("settings", source, start..start + 1, "a tab");
//!             Ok(Some(shown(alloc, &refusal)?))
//!         }
//!         None => Ok(None),
//!     }
//! }
//! ```
//!
//! For two lines, of which the second is `min`, a tab and `= 1`, it returns
//!
//! ```text
//! error: a tab
//!  --> settings:2:4
//!   |
//! 2 | min    = 1
//!   |    ^^^^
//! ```
//!
//! Only LFs and printable characters are written, and in color also the escape codes of a terminal.
//! In all texts a tab is shown as four spaces, and every other character that is not printable by
//! its number, for example `\u{202e}`. If a line has more columns than the
//! width, the part around the range is shown, and `...` in place of the rest. The source is read up
//! to the end of the last line that is shown. [`shown_refusal`] shows the error of a parse. A
//! [`Label`] marks a further range of the text, and [`shown_in_color`] writes the message for a
//! terminal.
#![tactic(auto)]

ghost use Rattle.std.specs.Prelude.{◌≡◌, IfOk, IsTrue, string_bytes};
ghost use Rattle.std.specs.List.{list_all};
ghost use Rattle.std.specs.Str.{chars};
ghost use Rattle.litrs_diagnostic.specs.Colors.{without_codes};
ghost use Rattle.litrs_diagnostic.specs.Diagnostic.{colored_text, diagnostic_text, is_line_feed_or_printable};
ghost use Rattle.litrs_diagnostic.specs.Rows.{message_of};

mod colors;
mod label;
mod labels;
mod levels;
mod line_starts;
mod lines;
mod marks;
mod message;
mod places;
mod printable;
mod refusal;
mod remarks;
mod row;
mod text;
mod window;

pub use colors::{Color, Painted};
pub use label::Label;
pub use levels::Level;
pub use line_starts::Lines;
pub use message::{Colored, Diagnostic};
pub use places::{LineColumn, position};
pub use refusal::shown_refusal;
pub use remarks::Remark;
use std::alloc::{AllocError, Global};

/// Returns the lines of `diagnostic`, each with an LF at its end.
///
/// # Errors
///
/// Returns `AllocError` if an allocation fails.
pub fn shown(alloc: Global, diagnostic: &Diagnostic) -> Result<String, AllocError>
    ensures text { IfOk result (λ written.
        chars (string_bytes written) ≡ diagnostic_text (message_of diagnostic.now)) }
    ensures printable { IfOk result (λ written. IsTrue (
        list_all is_line_feed_or_printable (chars (string_bytes written)))) }
{
    format!(in alloc; "{diagnostic}")
}

/// Like [`shown`], in colors like those of rustc, for a terminal.
///
/// # Errors
///
/// Returns `AllocError` if an allocation fails.
pub fn shown_in_color(alloc: Global, diagnostic: &Diagnostic) -> Result<String, AllocError>
    ensures text { IfOk result (λ written.
        chars (string_bytes written) ≡ colored_text (message_of diagnostic.now)) }
    ensures without_codes { IfOk result (λ written. without_codes (chars (string_bytes written))
        ≡ diagnostic_text (message_of diagnostic.now)) }
    ensures printable { IfOk result (λ written. IsTrue (
        list_all is_line_feed_or_printable (without_codes (chars (string_bytes written))))) }
{
    let colored = Colored(*diagnostic);
    format!(in alloc; "{colored}")
}
