//! Raw strings.
ghost use Rattle.std.specs.Prelude.{◌≡◌, ◌+◌, ◌<◌, ◌^◌, ◌++◌, ◌∷◌, [], true, Some, None, IfOk, IfErr, OnOk, IfSome, IfNone, IsTrue, IsFalse, ◌≤◌, false, codes, string_bytes, replicate};
ghost use Rattle.std.specs.Str.{chars};
ghost use Rattle.std.specs.List.{list_all};
ghost use Rattle.litrs_base.specs.declared.quotes.StringKind.TheVariants.{String as string_kind, ByteString as byte_string_kind, CString as c_string_kind};
ghost use Rattle.litrs_grammar.specs.Suffix.{is_suffix};
ghost use Rattle.litrs_grammar.specs.Raw.{is_raw_char};
ghost use Rattle.litrs_grammar.specs.Literal.{string_value};
ghost use Rattle.litrs_grammar.specs.LiteralText.{string_text};
ghost use Rattle.litrs_build.specs.Errors.{IsErrorOf};
ghost use Rattle.litrs_build.specs.Raw.{greater, hashes_needed, is_raw_value, raw_c_error, raw_error, run_after, written_raw};

use crate::c_strings::c_string_error;
use crate::error::{BuildError, memory_error};
use litrs::{ByteStringLit, CStringLit, StringLit};
use litrs_lex::check_suffix;
use std::alloc::{AllocError, Global};
use std::str;

/// Builds the raw string with this value and this suffix, which may be empty, with the fewest
/// hashes possible, for example `r"C:\"` or `r#"a"b"#`. See [the reference][ref].
///
/// There is one allocation, for the text.
///
/// # Errors
///
/// Returns `NotASuffix` if `suffix` is neither empty nor an identifier other than `_`, otherwise
/// `NotRaw` if `value` contains a CR or needs more than 255 hashes, otherwise `Memory` if the
/// allocation fails.
///
/// [ref]: https://doc.rust-lang.org/reference/tokens.html#raw-string-literals
pub fn raw_string(alloc: Global, value: &str, suffix: &str) -> Result<StringLit<String>, BuildError>
    ensures written { IfOk result (λ lit. chars lit.raw
        ≡ string_text string_kind (written_raw (chars value.now) (chars suffix.now))) }
    ensures parts { IfOk result (λ lit.
        lit.parts ≡ written_raw (chars value.now) (chars suffix.now)) }
    ensures value { IfOk result (λ lit. string_value lit.parts ≡ value.now) }
    ensures possible { IfOk result (λ _.
        raw_error true true (chars value.now) (chars suffix.now) ≡ None) }
    ensures refused { IfErr result
        (IsErrorOf (raw_error true true (chars value.now) (chars suffix.now))) }
{
    let text = write_raw(alloc, "r", value, suffix, true, true)?;
    match StringLit::parse(alloc, text) {
        Ok(lit) => Ok(lit),
        Err(e) => Err(memory_error(&e)),
    }
}

/// Builds the raw byte string with this value and this suffix, which may be empty, with the fewest
/// hashes possible, for example `br"C:\"` or `br#"a"b"#`. See [the reference][ref].
///
/// There is one allocation, for the text.
///
/// # Errors
///
/// Returns `NotASuffix` if `suffix` is neither empty nor an identifier other than `_`. Otherwise
/// returns `NotRaw` if `value` is not ASCII, contains a CR or needs more than 255 hashes. Otherwise
/// returns `Memory` if the allocation fails.
///
/// [ref]: https://doc.rust-lang.org/reference/tokens.html#raw-byte-string-literals
pub fn raw_byte_string(
    alloc: Global,
    value: &[u8],
    suffix: &str,
) -> Result<ByteStringLit<String>, BuildError>
    ensures written { IfOk result (λ lit. chars lit.raw
        ≡ string_text byte_string_kind (written_raw value.now (chars suffix.now))) }
    ensures parts { IfOk result (λ lit. lit.parts ≡ written_raw value.now (chars suffix.now)) }
    ensures value { IfOk result (λ lit. string_value lit.parts ≡ value.now) }
    ensures possible { IfOk result (λ _.
        raw_error false true value.now (chars suffix.now) ≡ None) }
    ensures refused { IfErr result
        (IsErrorOf (raw_error false true value.now (chars suffix.now))) }
{
    let text = write_raw_bytes(alloc, value, suffix)?;
    match ByteStringLit::parse(alloc, text) {
        Ok(lit) => Ok(lit),
        Err(e) => Err(memory_error(&e)),
    }
}

/// Builds the raw C string with this value, given without its closing NUL, and with this suffix,
/// which may be empty. It has the fewest hashes possible, for example `cr"C:\"` or `cr#"a"b"#`. See
/// [the reference][ref].
///
/// There is one allocation for the text, and one for the value.
///
/// # Errors
///
/// Returns `NotASuffix` if `suffix` is neither empty nor an identifier other than `_`. Otherwise
/// returns `HasNul` if `value` contains a NUL, and `NotRaw` if it is not UTF-8, contains a CR or
/// needs more than 255 hashes. Otherwise returns `Memory` if an allocation fails.
///
/// [ref]: https://doc.rust-lang.org/reference/tokens.html#raw-c-string-literals
pub fn raw_c_string(
    alloc: Global,
    value: &[u8],
    suffix: &str,
) -> Result<CStringLit<String>, BuildError>
    ensures written { IfOk result (λ lit. chars lit.raw
        ≡ string_text c_string_kind (written_raw (chars value.now) (chars suffix.now))) }
    ensures parts { IfOk result (λ lit.
        lit.parts ≡ written_raw (chars value.now) (chars suffix.now)) }
    ensures value { IfOk result (λ lit. string_value lit.parts ≡ value.now) }
    ensures possible { IfOk result (λ _. raw_c_error value.now (chars suffix.now) ≡ None) }
    ensures refused { IfErr result (IsErrorOf (raw_c_error value.now (chars suffix.now))) }
{
    let text = write_raw_c(alloc, value, suffix)?;
    match CStringLit::parse(alloc, text) {
        Ok(lit) => Ok(lit),
        Err(e) => Err(memory_error(&e)),
    }
}

/// Writes the text of a raw literal: `front`, hashes, the body between quotes, as many hashes and
/// the suffix. Without `unicode` the body has to be ASCII, and without `allow_nul` it may not
/// contain a NUL.
fn write_raw(
    alloc: Global,
    front: &str,
    value: &str,
    suffix: &str,
    unicode: bool,
    allow_nul: bool,
) -> Result<String, BuildError>
    ensures text { IfOk result (λ text.
        let hashes = replicate (hashes_needed (chars value.now)) 35 in
        string_bytes text ≡ ((((front.now ++ hashes) ++ 34 ∷ []) ++ value.now) ++ 34 ∷ []) ++ hashes
        ++ suffix.now) }
    ensures possible { IfOk result (λ _.
        raw_error unicode allow_nul (chars value.now) (chars suffix.now) ≡ None) }
    ensures refused { IfErr result
        (IsErrorOf (raw_error unicode allow_nul (chars value.now) (chars suffix.now))) }
{
    if check_suffix(suffix).is_err() {
        return Err(BuildError::NotASuffix);
    }
    let Some(hashes) = raw_hashes(value, unicode, allow_nul) else {
        return Err(BuildError::NotRaw);
    };
    let around = front
        .len()
        .saturating_add(suffix.len())
        .saturating_add(2 + 2 * hashes);
    let len = value.len().saturating_add(around);
    // bounded by the length of the text, which was counted.
    let mut text = String::with_capacity(alloc, len)?;
    text.push_str(front)?;
    push_hashes(&mut text, hashes)?;
    text.push('"')?;
    text.push_str(value)?;
    text.push('"')?;
    push_hashes(&mut text, hashes)?;
    text.push_str(suffix)?;
    Ok(text)
}

fn write_raw_bytes(alloc: Global, value: &[u8], suffix: &str) -> Result<String, BuildError>
    ensures text { IfOk result (λ text.
        let hashes = replicate (hashes_needed (chars value.now)) 35 in
        string_bytes text ≡ (((((codes "br" ++ hashes) ++ 34 ∷ []) ++ value.now) ++ 34 ∷ [])
        ++ hashes) ++ suffix.now) }
    ensures possible { IfOk result (λ _.
        raw_error false true value.now (chars suffix.now) ≡ None) }
    ensures refused { IfErr result
        (IsErrorOf (raw_error false true value.now (chars suffix.now))) }
{
    match str::from_utf8(value) {
        Ok(body) => write_raw(alloc, "br", body, suffix, false, true),
        Err(_) => Err(refusal_of_raw(suffix)),
    }
}

fn write_raw_c(alloc: Global, value: &[u8], suffix: &str) -> Result<String, BuildError>
    ensures text { IfOk result (λ text.
        let hashes = replicate (hashes_needed (chars value.now)) 35 in
        string_bytes text ≡ (((((codes "cr" ++ hashes) ++ 34 ∷ []) ++ value.now) ++ 34 ∷ [])
        ++ hashes) ++ suffix.now) }
    ensures possible { IfOk result (λ _. raw_c_error value.now (chars suffix.now) ≡ None) }
    ensures refused { IfErr result (IsErrorOf (raw_c_error value.now (chars suffix.now))) }
{
    if let Some(e) = c_string_error(value, suffix) {
        return Err(e);
    }
    match str::from_utf8(value) {
        Ok(body) => write_raw(alloc, "cr", body, suffix, true, false),
        Err(_) => Err(BuildError::NotRaw),
    }
}

/// Returns the error of a value that no raw literal has.
fn refusal_of_raw(suffix: &str) -> BuildError
    ensures suffix { IsTrue (is_suffix (chars suffix.now)) → result ≡ BuildError.NotRaw }
    ensures other { IsFalse (is_suffix (chars suffix.now)) → result ≡ BuildError.NotASuffix }
{
    if check_suffix(suffix).is_ok() {
        BuildError::NotRaw
    } else {
        BuildError::NotASuffix
    }
}

/// Returns the number of hashes that a raw literal with this body needs, `None` if there is no such
/// literal.
fn raw_hashes(value: &str, unicode: bool, allow_nul: bool) -> Option<usize>
    ensures hashes { IfSome result (λ n. n ≡ hashes_needed (chars value.now)) }
    ensures few { IfSome result (λ n. n ≤ 255) }
    ensures some { IfSome result (λ _. IsTrue (is_raw_value unicode allow_nul (chars value.now))) }
    ensures none { IfNone result (IsFalse (is_raw_value unicode allow_nul (chars value.now))) }
{
    if !are_raw_chars(value, unicode, allow_nul) {
        return None;
    }
    let hashes = hashes_needed(value);
    if hashes <= 255 { Some(hashes) } else { None }
}

/// Returns `true` if a raw body may contain each character.
fn are_raw_chars(value: &str, unicode: bool, allow_nul: bool) -> bool
    ensures { result ≡ list_all (is_raw_char unicode allow_nul) (chars value.now) }
{
    value.chars().all(|c| is_raw_char(c, unicode, allow_nul))
}

/// Returns `true` if a raw body may contain the character.
fn is_raw_char(c: char, unicode: bool, allow_nul: bool) -> bool
    ensures { result ≡ is_raw_char unicode allow_nul c }
{
    c != '\r' && (unicode || c.is_ascii()) && (allow_nul || c != '\0')
}

/// Returns the least number of hashes that never follow a quote in the body. It is one more than
/// the longest run of hashes after a quote, or 0 if the body does not contain a quote.
fn hashes_needed(value: &str) -> usize
    ensures { result ≡ hashes_needed (chars value.now) }
{
    let mut most: usize = 0;
    let mut run: usize = 0;
    let mut rest = value.chars();
    while let Some(c) = rest.next() {
        run = run_after(run, c);
        most = greater(most, run);
    }
    most
}

/// Returns the length of the run of a quote and hashes after one more character, 0 outside such a
/// run.
fn run_after(run: usize, c: char) -> usize
    requires { run + 1 < 2 ^ 64 }
    ensures { result ≡ run_after run c }
{
    match c {
        '"' => 1,
        '#' if run > 0 => run + 1,
        _ => 0,
    }
}

/// Returns the greater of two numbers.
fn greater(a: usize, b: usize) -> usize
    ensures { result ≡ greater a b }
{
    if a < b { b } else { a }
}

fn push_hashes(text: &mut String, count: usize) -> Result<(), AllocError>
    ensures { OnOk result (string_bytes text.new ≡ string_bytes text.old ++ replicate count 35) }
{
    for _ in 0..count {
        text.push('#')?;
    }
    Ok(())
}
