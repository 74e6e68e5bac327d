//! Quoted strings, byte strings and C strings.
ghost use Rattle.std.specs.Prelude.{◌≡◌, ◌≢◌, ⊤, ℕ, [], None, codes, drop, IfOk, IfErr, IfSome, IfNone, IsTrue, IsFalse, chars, IsCharBoundary};
ghost use Rattle.litrs_grammar.specs.Quoted.{item_refusal};
ghost use Rattle.litrs_lex.specs.QuotedCut.{IsQuotedCut, IsQuotedRefused};
ghost use Rattle.litrs_lex.specs.QuotedItems.{IsPlainBody};
ghost use Rattle.litrs_lex.specs.Reading.{IsReading, IsReadBody, IsBodyRefused, IsItemsEnd};
ghost use Rattle.litrs_lex.specs.Unescaped.{switches};

use crate::allowed::{Allows, switches};
use crate::check_suffix;
use crate::parse::begins_with_byte;
use crate::reading::{Reached, Reading, read_items};
use crate::search::Mask;
use crate::sink::Counted;
use crate::stop::first_plain_end;
use litrs_base::ParseError;

/// The lengths and places of a quoted literal, in bytes.
#[derive(Clone, Copy, Debug, PartialEq, Eq)]
pub struct QuotedCut {
    /// The length of the value, without the closing zero of a C string.
    pub value_len: usize,
    /// Set if the body has a backslash.
    pub has_escape: bool,
    /// The start of the suffix, after the closing quote.
    pub start_suffix: usize,
}

/// Cuts a quoted literal whose body starts at `offset`. For `"a\nb"u8` and 1, the value has 3
/// bytes, the body has an escape, and the suffix starts at 6. See [the reference][ref].
///
/// `offset` is a character boundary of `input`. `unicode` allows `\u{..}` and characters that are
/// not ASCII, `byte_escapes` allows `\x80` to `\xff`, and `allow_nul` allows NUL and escapes with
/// the value 0.
///
/// # Errors
///
/// Returns the first error in `input`, from `offset` on:
/// - the error of [`unescape`](crate::unescape) at a backslash that starts neither an escape nor a
///   continuation; the escape is parsed without the last character of `input`;
/// - `CarriageReturn` at a CR, `NulByte` at a NUL that is not allowed, and `NonAsciiInByteLiteral`
///   at a character that is not ASCII and not allowed, over its first byte;
/// - `UnterminatedString`, without a span, if there is no closing quote;
/// - the error of [`check_suffix`] if the text after the closing quote is not a suffix, over its
///   first byte.
///
/// [ref]: https://doc.rust-lang.org/reference/tokens.html#string-literals
pub fn cut_quoted(
    input: &str,
    offset: usize,
    unicode: bool,
    byte_escapes: bool,
    allow_nul: bool,
) -> Result<QuotedCut, ParseError>
    requires { IsCharBoundary input.now offset }
    ensures ok { IfOk result
        (IsQuotedCut (switches unicode byte_escapes allow_nul) input.now offset) }
    ensures refused { IfErr result
        (IsQuotedRefused (switches unicode byte_escapes allow_nul) input.now offset) }
{
    let allowed = switches(unicode, byte_escapes, allow_nul);
    let from = beginning(input, offset, allowed);
    let mut counted = Counted { len: 0 };
    match read_items(input, offset, from, allowed, &mut counted) {
        Reached::Quote(place) => match check_after_quote(input, offset, place, allowed) {
            // A value is shorter than its body if the body has a backslash.
            Ok(()) => Ok(QuotedCut {
                value_len: counted.len,
                has_escape: counted.len != place - offset,
                start_suffix: place + 1,
            }),
            Err(e) => Err(e),
        },
        Reached::Full(_) => unreachable!(),
        Reached::Refused(_, e) => Err(e),
    }
}

/// Returns the end of the items of a quoted body that starts at `offset`: its closing quote, or the
/// place of the error. For `"a\n"u8` and 1 that is 4. An escape or a continuation that ends `input`
/// does not belong to the items.
///
/// `offset` is that of [`cut_quoted`].
pub fn items_end<A: Allows>(input: &str, offset: usize, allowed: A) -> usize
    requires { IsCharBoundary input.now offset }
    ensures { IsItemsEnd (A.allowed allowed) input.now offset (λ _. ⊤) result }
{
    let from = beginning(input, offset, allowed);
    // Tested first, because most bodies have no backslash.
    if begins_with_byte(input[from.place..].as_bytes(), b'"') {
        return from.place;
    }
    read_end(input, offset, from, allowed)
}

/// Like [`items_end`], from the state `from` on.
///
/// It is not inlined, so a body without a backslash does not need its frame.
#[inline(never)]
fn read_end<A: Allows>(input: &str, offset: usize, from: Reading, allowed: A) -> usize
    requires { IsReading (A.allowed allowed) input.now offset (λ v. v ≡ []) from }
    ensures { IsItemsEnd (A.allowed allowed) input.now offset (λ _. ⊤) result }
{
    match read_items(input, offset, from, allowed, &mut Counted { len: 0 }) {
        Reached::Quote(place) => place,
        Reached::Full(_) => unreachable!(),
        Reached::Refused(place, _) => place,
    }
}

/// Returns the place of the closing quote of a quoted body that starts at `offset`, if all its
/// characters are plain. For `"ab" + c` and 1 that is 3. Returns `None` if the body is not closed
/// or has another character: a backslash, a CR or one that `allowed` excludes.
///
/// `offset` is that of [`cut_quoted`].
#[inline(always)]
pub fn plain_body_end<A: Allows>(input: &str, offset: usize, allowed: A) -> Option<usize>
    requires { IsCharBoundary input.now offset }
    ensures some { IfSome result (IsPlainBody (A.allowed allowed) input.now offset) }
    ensures none { IfNone result
        ((place : ℕ) → IsPlainBody (A.allowed allowed) input.now offset place → ⊥) }
{
    let place = first_plain_end(input, offset, allowed);
    begins_with_byte(input[place..].as_bytes(), b'"').then_some(place)
}

/// Returns the state at the front of a body, with its plain characters found.
#[inline(always)]
pub(crate) fn beginning<A: Allows>(input: &str, offset: usize, allowed: A) -> Reading
    requires { IsCharBoundary input.now offset }
    ensures { IsReading (A.allowed allowed) input.now offset (λ v. v ≡ []) result }
{
    let place = first_plain_end(input, offset, allowed);
    let (at, mask) = (offset, Mask::empty_at(place));
    Reading { at, place, mask }
}

/// Checks that a suffix follows the closing quote at `place`, which may be empty.
///
/// # Errors
///
/// Returns the error of [`check_suffix`], over the first byte after the quote.
#[inline(always)]
pub(crate) fn check_after_quote<A: Allows>(
    input: &str,
    offset: usize,
    place: usize,
    allowed: A,
) -> Result<(), ParseError>
    requires { IsReadBody (A.allowed allowed) input.now offset (λ _. ⊤) place }
    ensures ok { IfOk result (λ _.
        item_refusal (A.allowed allowed) (chars (drop place input.now)) ≡ None) }
    ensures refused { IfErr result (IsBodyRefused (A.allowed allowed) input.now offset) }
{
    let rest = &input[place..];
    match check_suffix(&rest[1..]) {
        Ok(()) => Ok(()),
        Err(kind) => Err(ParseError::in_text(rest, Some(1..2), kind).offset_span(place)),
    }
}

/// Returns `true` if `bytes` is a quote alone. This is the equality of texts, without a call.
#[inline(always)]
pub fn is_lone_quote(bytes: &[u8]) -> bool
    ensures quote { IsTrue result → bytes.now ≡ codes "\"" }
    ensures other { IsFalse result → bytes.now ≢ codes "\"" }
{
    matches!(bytes, [b'"'])
}
