//! Messages on errors of parses.
ghost use Rattle.std.specs.Prelude.{◌≡◌, IfOk, IfSome, IsTrue, string_bytes};
ghost use Rattle.std.specs.List.{list_all};
ghost use Rattle.std.specs.Str.{chars};
ghost use Rattle.litrs_base.specs.CharEnd.{PointsAtCharacters};
ghost use Rattle.litrs_base.specs.Refusal.{char_span_of};
ghost use Rattle.litrs_diagnostic.specs.Diagnostic.{refusal_text, is_line_feed_or_printable};

use crate::message::Diagnostic;
use crate::shown;
use litrs_base::ParseError;
use std::alloc::{AllocError, Global};

/// Returns the message on `error`, the error of a parse of `text`, with the lines that it marks in
/// `text`. At most `width` columns of each line are shown. The character span of `error` has
/// boundaries of `text` at both ends, as that of a parse has.
///
/// # Errors
///
/// Returns `AllocError` if an allocation fails.
pub fn shown_refusal(
    alloc: Global,
    name: &str,
    text: &str,
    error: &ParseError,
    width: usize,
) -> Result<String, AllocError>
    requires { IfSome (char_span_of error.now) (PointsAtCharacters (chars text.now)) }
    ensures text { IfOk result (λ lines.
        chars (string_bytes lines) ≡ refusal_text name.now text.now error.now width) }
    ensures printable { IfOk result (λ lines. IsTrue (
        list_all is_line_feed_or_printable (chars (string_bytes lines)))) }
{
    let kind = error.kind().description();
    let diagnostic = Diagnostic::new(name, text, error.marked_span(text), kind);
    shown(alloc, &diagnostic.with_width(width))
}
