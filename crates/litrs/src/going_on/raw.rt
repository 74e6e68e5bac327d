//! Raw strings, byte strings and C strings.
ghost use Rattle.std.specs.Prelude.{◌≡◌, ◌↔◌, ◌&&◌, nat_le, length, drop, IsTrue};
ghost use Rattle.std.specs.List.{list_all};
ghost use Rattle.std.specs.Str.{chars, IsCharBoundary};
ghost use Rattle.litrs_base.specs.Refusal.{refusal_of, span_of, IsInText};
ghost use Rattle.litrs_base.specs.Text.{begins_with};
ghost use Rattle.litrs_grammar.specs.LongerTexts.{BeginsBy};
ghost use Rattle.litrs_grammar.specs.Literal.{IsString};
ghost use Rattle.litrs_base.specs.Quotes.{raw_front};
ghost use Rattle.litrs_grammar.specs.Raw.{is_hash, IsRawOf};
ghost use Rattle.litrs.specs.LoneUnderscore.{is_lone_underscore_suffix};

use litrs_lex::hashes::{MAX_HASHES, are_hashes};
use litrs_lex::{ParseError, ParseErrorKind, StringKind, Switches, scan_raw_string};

/// Returns `true` if `text`, which starts like a raw string of `kind`, begins a string of `kind`.
#[inline(never)]
pub(crate) fn raw_goes_on(text: &str, kind: StringKind) -> bool
    requires { IsTrue (begins_with (raw_front kind) text.now) }
    ensures { IsTrue result ↔ BeginsBy (IsString kind) (chars text.now) }
{
    raw_body_goes_on(text, kind.front_len(), kind.switches())
}

/// Returns `true` if `text`, whose `r` ends at `offset`, begins a raw literal. `offset` and
/// `allowed` are those of [`scan_raw_string`].
fn raw_body_goes_on(text: &str, offset: usize, allowed: Switches) -> bool
    requires { IsCharBoundary text.now offset }
    ensures { IsTrue result
        ↔ BeginsBy (IsRawOf allowed.unicode allowed.allow_nul) (chars (drop offset text.now)) }
{
    match scan_raw_string(text, offset, allowed.unicode, allowed.allow_nul) {
        Ok(_) => true,
        Err(e) => match e.kind() {
            ParseErrorKind::UnterminatedRawString => true,
            ParseErrorKind::InvalidLiteral => are_opening_hashes(&text.as_bytes()[offset..]),
            ParseErrorKind::InvalidSuffix => is_lone_underscore_suffix(&e, text),
            _ => false,
        },
    }
}

/// Returns `true` if `bytes` has only hashes, and at most as many as a raw literal may have.
fn are_opening_hashes(bytes: &[u8]) -> bool
    ensures { result ≡ (nat_le (length bytes.now) 255 && list_all is_hash bytes.now) }
{
    bytes.len() <= MAX_HASHES && are_hashes(bytes)
}

/// Returns `true` if the error is that of a suffix that is `_` alone, at the end of `text`.
fn is_lone_underscore_suffix(refusal: &ParseError, text: &str) -> bool
    requires { IsInText (chars text.now) (refusal_of refusal.now) }
    ensures { result ≡ is_lone_underscore_suffix (span_of refusal.now) text.now }
{
    match refusal.span() {
        Some(span) => matches!(&text[span.start..], "_"),
        None => false,
    }
}
