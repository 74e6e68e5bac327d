//! Writes each line of the standard input that is a literal in a standard form, with the same kind,
//! value and suffix. Other lines are unchanged. Each line then ends with LF. A line that is not
//! UTF-8 ends the program with an error. Arguments are ignored. If the reader of the output has
//! closed it, the program ends silently.
//!
//! Raw strings have the least number of hashes. Other literals are rewritten in one [`Style`]. It
//! has escapes only for characters that are not shown as they are, and digits and exponents in
//! lower case. Numbers that contain `_` have groups of three digits, or of four if the base is not
//! ten.
#![tactic(auto)]

ghost use Rattle.std.specs.Prelude.{◌≡◌, IfOk, IsErr, MatchOption, string_bytes};
ghost use Rattle.std.specs.Str.{chars};
ghost use Rattle.litrs.specs.Derivations.{HasNoDerivation};
ghost use Rattle.litrs.specs.Literal.{Derivation, IsLiteral};
ghost use Rattle.litrs.specs.LiteralDerivation.{derivation};
ghost use Rattle.uses_formatter.specs.Form.{is_raw_literal, style, IsForm, IsFormOf};

use litrs::{Literal, ParseErrorKind};
use litrs_build::{
    Case, Escapes, FloatGroupLens, FloatGroups, GroupLens, Groups, Lines, Style, rewritten,
    unescaped,
};
use std::alloc::{AllocError, Global};
use std::io::ErrorKind;

fn main(rt: HostRuntime) -> anyhow::Result<()> {
    for line in rt.lines(rt.alloc()) {
        let line = line?;
        match println!(rt; "{}", formatted(rt.alloc(), line.as_str())?.unwrap_or(line)) {
            Err(error) if error.kind() == ErrorKind::BrokenPipe => break,
            printed => printed?,
        }
    }
    Ok(())
}

/// Returns the literal `text` in the standard form, or `None` if `text` is not a literal. If it is
/// not, nothing is allocated.
///
/// # Errors
///
/// Returns `AllocError` if an allocation fails.
pub fn formatted(alloc: Global, text: &str) -> Result<Option<String>, AllocError>
    ensures form { IfOk result (λ form. MatchOption form
        (HasNoDerivation (IsLiteral (chars text.now)))
        (λ written. IsForm (chars text.now) (chars (string_bytes written)))) }
    ensures err { IsErr result → (d : Derivation) × IsLiteral (chars text.now) d }
{
    match &Literal::parse(alloc, text) {
        Ok(lit) => Ok(Some(written(alloc, lit)?)),
        Err(e) => match e.kind() {
            ParseErrorKind::OutOfMemory => Err(AllocError),
            _ => Ok(None),
        },
    }
}

/// Returns the text of `lit` in the standard form: of a raw string with the least number of hashes,
/// of another literal in the style.
fn written(alloc: Global, lit: &Literal<&str>) -> Result<String, AllocError>
    ensures { IfOk result (λ written.
        IsFormOf (derivation lit.now) (chars (string_bytes written))) }
{
    if is_raw(lit) {
        let anew = unescaped(alloc, lit)?;
        let text = String::from_str(alloc, anew.raw_input())?;
        return Ok(text);
    }
    let text = rewritten(alloc, lit, &style())?;
    Ok(text)
}

/// Returns `true` if `lit` is a raw string, byte string or C string.
fn is_raw(lit: &Literal<&str>) -> bool
    ensures { result ≡ is_raw_literal (derivation lit.now) }
{
    match lit {
        Literal::String(lit) => lit.is_raw_string(),
        Literal::ByteString(lit) => lit.is_raw_byte_string(),
        Literal::CString(lit) => lit.is_raw_c_string(),
        _ => false,
    }
}

/// Returns the style of literals that are not raw.
fn style() -> Style
    ensures { result ≡ style }
{
    Style {
        escapes: Escapes::Needed,
        escape_digits: Case::Lower,
        lines: Lines::Kept,
        digits: Some(Case::Lower),
        groups: Groups::Regrouped(GroupLens {
            binary: 4,
            octal: 4,
            decimal: 3,
            hexadecimal: 4,
        }),
        exponents: Some(Case::Lower),
        float_groups: FloatGroups::Regrouped(FloatGroupLens {
            integer: 3,
            fraction: 3,
            exponent: 3,
        }),
    }
}
