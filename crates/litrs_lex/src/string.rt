//! The values of quoted strings, byte strings and C strings.
ghost use Rattle.std.specs.Prelude.{◌≡◌, ◌≤◌, ◌<◌, ◌+◌, ◌==◌, [], ◌⊎◌, ◌||◌, not, if◌then◌else◌, length, take, drop, option_map, IsOk, IfOk, IfErr, IsTrue, IsFalse, chars, IsUtf8, IsCharBoundary};
ghost use Rattle.litrs_base.specs.Characters.{backslash};
ghost use Rattle.litrs_base.specs.Text.{first_passes};
ghost use Rattle.litrs_grammar.specs.Quoted.{QuotedParts, IsQuoted, body_value};
ghost use Rattle.litrs_lex.specs.QuotedCut.{IsQuotedRefused, IsQuotedValue, IsOutOfMemory, IsQuotedOutOfMemory};
ghost use Rattle.litrs_lex.specs.QuotedItems.{IsPlainRun};
ghost use Rattle.litrs_lex.specs.Reading.{IsReading, IsReadBody, IsReadAsValue, HasValueWithin};
ghost use Rattle.litrs_lex.specs.Unescaped.{switches};

use crate::allowed::{Allows, switches};
use crate::container::EscapeContainer;
use crate::filled::Filled;
use crate::parse::begins_with_byte;
use crate::quoted::{check_after_quote, is_lone_quote};
use crate::reading::{Reached, Reading, read_items};
use crate::room::Room;
use crate::search::Mask;
use crate::sink::Counted;
use crate::stop::{first_plain_end, stop_refusal};
use litrs_base::{ParseError, ParseErrorKind};
use std::alloc::Global;

/// The size in bytes of the first buffer on the stack.
const SHORT: usize = 128;

/// The size in bytes of the second buffer, for values that do not fit the first.
const LONG: usize = 4096;

/// The size in bytes of the third buffer. The rest of a longer value is read twice.
const LONGEST: usize = 8 * LONG;

/// Unescapes a quoted literal whose body starts at `offset`. Returns the value, or `None` if the
/// body has no backslash and equals the value, and the place of the suffix, in bytes. For
/// `"a\nb"u8` and 1 the value is `a`, LF and `b`, and the place is 6. See [the reference][ref].
///
/// `offset` and the switches are those of [`cut_quoted`](crate::cut_quoted). `byte_escapes` is set
/// only if the container can hold all bytes. If the body has no backslash, there is no allocation.
/// Otherwise there is one, of the length of the value, and none if that is 0 and NUL is allowed. If
/// NUL is not allowed, it has one byte more, for the closing zero of a C string.
///
/// # Errors
///
/// Returns the error of [`cut_quoted`](crate::cut_quoted). Returns `OutOfMemory` without a span if
/// `input` is a literal whose body has a backslash, and the allocation of its value fails.
///
/// [ref]: https://doc.rust-lang.org/reference/tokens.html#string-literals
#[inline(always)]
pub fn unescape_string<C: EscapeContainer>(
    alloc: Global,
    input: &str,
    offset: usize,
    unicode: bool,
    byte_escapes: bool,
    allow_nul: bool,
) -> Result<(Option<C>, usize), ParseError>
    requires at { IsCharBoundary input.now offset }
    requires fits { IsTrue (not byte_escapes || C.TAKES_BYTES) }
    ensures ok { IfOk result (λ read.
        IsQuotedValue (switches unicode byte_escapes allow_nul) input.now offset
        (option_map C.contents read.0) read.1) }
    ensures refused { IfErr result (λ e.
        IsQuotedRefused (switches unicode byte_escapes allow_nul) input.now offset e
        ⊎ IsQuotedOutOfMemory (switches unicode byte_escapes allow_nul) input.now offset e) }
{
    let allowed = switches(unicode, byte_escapes, allow_nul);
    unescape_string_with(alloc, input, offset, allowed)
}

/// Like [`unescape_string`], with the switches in one value.
///
/// # Errors
///
/// Returns the errors of [`unescape_string`].
#[inline(always)]
pub fn unescape_string_with<C: EscapeContainer, A: Allows>(
    alloc: Global,
    input: &str,
    offset: usize,
    allowed: A,
) -> Result<(Option<C>, usize), ParseError>
    requires at { IsCharBoundary input.now offset }
    requires fits { IsTrue (not (A.allowed allowed).byte_escapes || C.TAKES_BYTES) }
    ensures ok { IfOk result (λ read.
        IsQuotedValue (A.allowed allowed) input.now offset
        (option_map C.contents read.0) read.1) }
    ensures refused { IfErr result (λ e.
        IsQuotedRefused (A.allowed allowed) input.now offset e
        ⊎ IsQuotedOutOfMemory (A.allowed allowed) input.now offset e) }
{
    let place = first_plain_end(input, offset, allowed);
    let rest = input[place..].as_bytes();
    // Tested first, because most strings end like this.
    if is_lone_quote(rest) {
        Ok((None, place + 1))
    } else if begins_with_byte(rest, b'\\') {
        read_value(alloc, input, offset, place, allowed)
    } else {
        read_closing(input, offset, place, allowed)
    }
}

/// Like [`unescape_string_with`], for a body without a backslash, whose characters end at `place`.
#[inline(never)]
fn read_closing<C: EscapeContainer, A: Allows>(
    input: &str,
    offset: usize,
    place: usize,
    allowed: A,
) -> Result<(Option<C>, usize), ParseError>
    requires at { IsCharBoundary input.now offset }
    requires run { IsPlainRun (A.allowed allowed) input.now offset place }
    requires other { IsFalse (first_passes (λ c. c == backslash) (drop place input.now)) }
    ensures { IsReadAsValue C.contents (A.allowed allowed) input.now offset result }
{
    let rest = &input[place..];
    if !begins_with_byte(rest.as_bytes(), b'"') {
        return Err(stop_refusal(rest).offset_span(place));
    }
    check_after_quote(input, offset, place, allowed)?;
    Ok((None, place + 1))
}

/// Like [`unescape_string_with`], for a body whose plain characters at the front end at `place`.
#[inline(never)]
fn read_value<C: EscapeContainer, A: Allows>(
    alloc: Global,
    input: &str,
    offset: usize,
    place: usize,
    allowed: A,
) -> Result<(Option<C>, usize), ParseError>
    requires at { IsCharBoundary input.now offset }
    requires fits { IsTrue (not (A.allowed allowed).byte_escapes || C.TAKES_BYTES) }
    requires run { IsPlainRun (A.allowed allowed) input.now offset place }
    ensures { IsReadAsValue C.contents (A.allowed allowed) input.now offset result }
{
    let (at, mask) = (offset, Mask::empty_at(place));
    let from = Reading { at, place, mask };
    let mut room = Room::<SHORT>::new();
    // A longer value is moved here, and `finished` is inlined: an error that shares the memory of
    // their results is stored as bytes, and loaded as words.
    match read_items(input, offset, from, allowed, &mut room) {
        Reached::Quote(place) => finished(alloc, input, offset, place, allowed, room.as_bytes()),
        Reached::Full(at) => Ok(read_longer(alloc, input, offset, at, allowed, room.as_bytes())?),
        Reached::Refused(_, e) => Err(e),
    }
}

/// Like [`read_value`], for a body that is read, and whose value is `value`.
#[inline(always)]
fn finished<C: EscapeContainer, A: Allows>(
    alloc: Global,
    input: &str,
    offset: usize,
    place: usize,
    allowed: A,
    value: &[u8],
) -> Result<(Option<C>, usize), ParseError>
    requires at { IsCharBoundary input.now offset }
    requires fits { IsTrue (not (A.allowed allowed).byte_escapes || C.TAKES_BYTES) }
    requires read { IsReadBody (A.allowed allowed) input.now offset (λ v. value.now ≡ v) place }
    ensures { IsReadAsValue C.contents (A.allowed allowed) input.now offset result }
{
    check_after_quote(input, offset, place, allowed)?;
    // A value is shorter than its body if the body has a backslash.
    if value.len() == place - offset {
        return Ok((None, place + 1));
    }
    let made = container_for(alloc, value.len(), allowed)?;
    Ok((Some(copied(made, value)), place + 1))
}

/// Like [`read_value`], from the state `from` on, with a larger room. The value up to there is
/// `value`.
///
/// It is not inlined, so shorter values do not need a stack of its size.
#[inline(never)]
fn read_longer<C: EscapeContainer, A: Allows>(
    alloc: Global,
    input: &str,
    offset: usize,
    from: Reading,
    allowed: A,
    value: &[u8],
) -> Result<(Option<C>, usize), ParseError>
    requires at { IsCharBoundary input.now offset }
    requires fits { IsTrue (not (A.allowed allowed).byte_escapes || C.TAKES_BYTES) }
    requires from { IsReading (A.allowed allowed) input.now offset (λ v. value.now ≡ v) from }
    ensures { IsReadAsValue C.contents (A.allowed allowed) input.now offset result }
{
    let mut room = Room::<LONG>::new();
    if !room.push_bytes(value) {
        return read_longest(alloc, input, offset, from, allowed, value);
    }
    match read_items(input, offset, from, allowed, &mut room) {
        Reached::Quote(place) => finished(alloc, input, offset, place, allowed, room.as_bytes()),
        Reached::Full(at) => Ok(read_longest(alloc, input, offset, at, allowed, room.as_bytes())?),
        Reached::Refused(_, e) => Err(e),
    }
}

/// Like [`read_longer`], with the largest room, and not inlined either.
#[inline(never)]
fn read_longest<C: EscapeContainer, A: Allows>(
    alloc: Global,
    input: &str,
    offset: usize,
    from: Reading,
    allowed: A,
    value: &[u8],
) -> Result<(Option<C>, usize), ParseError>
    requires at { IsCharBoundary input.now offset }
    requires fits { IsTrue (not (A.allowed allowed).byte_escapes || C.TAKES_BYTES) }
    requires from { IsReading (A.allowed allowed) input.now offset (λ v. value.now ≡ v) from }
    ensures { IsReadAsValue C.contents (A.allowed allowed) input.now offset result }
{
    let mut room = Room::<LONGEST>::new();
    if !room.push_bytes(value) {
        return read_twice(alloc, input, offset, from, allowed, value);
    }
    match read_items(input, offset, from, allowed, &mut room) {
        Reached::Quote(place) => finished(alloc, input, offset, place, allowed, room.as_bytes()),
        Reached::Full(at) => Ok(read_twice(alloc, input, offset, at, allowed, room.as_bytes())?),
        Reached::Refused(_, e) => Err(e),
    }
}

/// Like [`read_value`], from the state `from` on. The value up to there is `value`. The rest is
/// counted first, and then put into a container with that capacity.
fn read_twice<C: EscapeContainer, A: Allows>(
    alloc: Global,
    input: &str,
    offset: usize,
    from: Reading,
    allowed: A,
    value: &[u8],
) -> Result<(Option<C>, usize), ParseError>
    requires at { IsCharBoundary input.now offset }
    requires fits { IsTrue (not (A.allowed allowed).byte_escapes || C.TAKES_BYTES) }
    requires from { IsReading (A.allowed allowed) input.now offset (λ v. value.now ≡ v) from }
    ensures { IsReadAsValue C.contents (A.allowed allowed) input.now offset result }
{
    let mut counted = Counted { len: value.len() };
    match read_items(input, offset, from, allowed, &mut counted) {
        Reached::Quote(place) => {
            check_after_quote(input, offset, place, allowed)?;
            if counted.len == place - offset {
                return Ok((None, place + 1));
            }
            let made = container_for(alloc, counted.len, allowed)?;
            let filled = fill_container(input, offset, from, allowed, value, made);
            Ok((Some(filled), place + 1))
        }
        Reached::Full(_) => unreachable!(),
        Reached::Refused(_, e) => Err(e),
    }
}

/// Creates an empty container with capacity for a value of `len` bytes, and for the closing zero of
/// a C string.
///
/// # Errors
///
/// Returns `OutOfMemory` without a span if the allocation fails.
fn container_for<C: EscapeContainer, A: Allows>(
    alloc: Global,
    len: usize,
    allowed: A,
) -> Result<C, ParseError>
    requires small { len < usize.MAX }
    ensures empty { IfOk result (λ made. C.contents made ≡ []) }
    ensures room { IfOk result (λ made.
        C.capacity made ≡ (if (A.allowed allowed).allow_nul then len else (len + 1))) }
    ensures error { IfErr result IsOutOfMemory }
    ensures succeeds { IsTrue (A.allowed allowed).allow_nul → len ≡ 0 → IsOk result }
{
    let zero = !allowed.switches().allow_nul;
    // bounded by the length of the value, or one more for a closing zero.
    match C::with_capacity(alloc, len + usize::from(zero)) {
        Ok(made) => Ok(made),
        // allocation failed: of the container for the value.
        Err(_) => Err(ParseError::new(None, ParseErrorKind::OutOfMemory)),
    }
}

/// Puts `bytes` into the empty container `into`, in which they fit.
fn copied<C: EscapeContainer>(mut into: C, bytes: &[u8]) -> C
    requires text { IsFalse C.TAKES_BYTES → IsUtf8 bytes.now }
    requires empty { C.contents into ≡ [] }
    requires room { length bytes.now ≤ C.capacity into }
    ensures contents { C.contents result ≡ bytes.now }
    ensures kept { C.capacity into ≤ C.capacity result }
{
    match into.push_bytes(bytes) {
        Ok(()) => into,
        Err(_) => unreachable!(),
    }
}

/// Puts the value of a literal into the empty container `into`, in which it fits: the bytes
/// `value`, and the values of the items from the state `from` on.
///
/// It is not inlined, so its loop shares no registers with the loop that counts.
#[inline(never)]
fn fill_container<C: EscapeContainer, A: Allows>(
    input: &str,
    offset: usize,
    from: Reading,
    allowed: A,
    value: &[u8],
    into: C,
) -> C
    requires fits { IsTrue (not (A.allowed allowed).byte_escapes || C.TAKES_BYTES) }
    requires from { IsReading (A.allowed allowed) input.now offset (λ v. value.now ≡ v) from }
    requires empty { C.contents into ≡ [] }
    requires room { HasValueWithin (A.allowed allowed) input.now offset (C.capacity into) }
    ensures { (q : QuotedParts) →
        IsQuoted (chars (take offset input.now)) (A.allowed allowed) (chars input.now) q →
        C.contents result ≡ body_value q.items }
{
    let mut sink = Filled {
        piece: Room::new(),
        into: copied(into, value),
    };
    match read_items(input, offset, from, allowed, &mut sink) {
        Reached::Quote(_) => sink.finish(),
        Reached::Full(_) => unreachable!(),
        Reached::Refused(..) => unreachable!(),
    }
}
