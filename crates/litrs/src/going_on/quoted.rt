//! Quoted strings, byte strings and C strings.
ghost use Rattle.std.specs.Prelude.{◌↔◌, IsTrue};
ghost use Rattle.std.specs.Str.{chars};
ghost use Rattle.litrs_base.specs.Text.{begins_with};
ghost use Rattle.litrs_grammar.specs.LongerTexts.{BeginsBy};
ghost use Rattle.litrs_grammar.specs.Literal.{IsString};
ghost use Rattle.litrs_base.specs.Quotes.{quoted_front};
ghost use Rattle.litrs_base.specs.declared.quotes.StringKind.TheVariants.{String as string_kind, ByteString as byte_string_kind, CString as c_string_kind};

use crate::going_on::suffix::suffix_goes_on;
use litrs_lex::StringKind;
use litrs_lex::body_stop::{BodyStop, quoted_stop};

/// Returns `true` if `text`, which begins as a quoted string of `kind`, begins a string of `kind`.
#[inline(always)]
pub(crate) fn quoted_goes_on(text: &str, kind: StringKind) -> bool
    requires { IsTrue (begins_with (quoted_front kind) text.now) }
    ensures { IsTrue result ↔ BeginsBy (IsString kind) (chars text.now) }
{
    match kind {
        StringKind::String => string_goes_on(text),
        StringKind::ByteString => byte_string_goes_on(text),
        StringKind::CString => c_string_goes_on(text),
    }
}

/// Like [`quoted_goes_on`], compiled for strings.
#[inline(never)]
fn string_goes_on(text: &str) -> bool
    requires { IsTrue (begins_with (quoted_front string_kind) text.now) }
    ensures { IsTrue result ↔ BeginsBy (IsString string_kind) (chars text.now) }
{
    body_goes_on(text, StringKind::String)
}

/// Like [`quoted_goes_on`], compiled for byte strings.
#[inline(never)]
fn byte_string_goes_on(text: &str) -> bool
    requires { IsTrue (begins_with (quoted_front byte_string_kind) text.now) }
    ensures { IsTrue result ↔ BeginsBy (IsString byte_string_kind) (chars text.now) }
{
    body_goes_on(text, StringKind::ByteString)
}

/// Like [`quoted_goes_on`], compiled for C strings.
#[inline(never)]
fn c_string_goes_on(text: &str) -> bool
    requires { IsTrue (begins_with (quoted_front c_string_kind) text.now) }
    ensures { IsTrue result ↔ BeginsBy (IsString c_string_kind) (chars text.now) }
{
    body_goes_on(text, StringKind::CString)
}

/// Like [`quoted_goes_on`], by what ends the items of the body.
#[inline(always)]
fn body_goes_on(text: &str, kind: StringKind) -> bool
    requires { IsTrue (begins_with (quoted_front kind) text.now) }
    ensures { IsTrue result ↔ BeginsBy (IsString kind) (chars text.now) }
{
    let (end, stop) = quoted_stop(text, kind.front_len(), kind.switches());
    match stop {
        BodyStop::Quote => suffix_goes_on(&text[end + 1..]),
        BodyStop::Ended(_) => true,
        BodyStop::Refused => false,
    }
}
