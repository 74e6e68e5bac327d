//! The settings of a line.
ghost use Rattle.std.specs.Prelude.{◌≡◌, ◌++◌, IfOk, IfErr, IfSome, string_bytes};
ghost use Rattle.uses_attributes.specs.Settings.{Describes, Shows, IsPrintable, IsWord, IsUnexpected, IsTyped, IsValueFault, BeginsWith, IsFaultOf, HasSettings, IsIn, IsNoFailure};

use crate::word::{Fault, Problem, Word};
use litrs_build::string;
use litrs_diagnostic::{Diagnostic, shown};
use litrs_lexer::{Token, TokenKind, tokenize};
use litrs_value::{FromLiteral, ValueError, read_prefix};
use std::alloc::{AllocError, Global};

/// The names of the settings.
const NAMES: &str = "`max`, `offset`, `ratio`, `rename` or `skip`";

/// A setting with its value.
#[derive(Drop)]
pub enum Setting {
    /// `max`, a number of 16 bits.
    Max(u16),
    /// `offset`, a number of 64 bits, with a sign or without one.
    Offset(i64),
    /// `ratio`, a float.
    Ratio(f64),
    /// `rename`, a text.
    Rename(String),
    /// `skip`, a bool.
    Skip(bool),
}

/// Returns the name and the value of a setting, for example `max is 16`.
///
/// # Errors
///
/// Returns `AllocError` if an allocation fails.
pub fn describe(alloc: Global, setting: &Setting) -> Result<String, AllocError>
    ensures { IfOk result (λ text. Describes setting.now (string_bytes text)) }
{
    match setting {
        Setting::Max(number) => format!(in alloc; "max is {number}"),
        Setting::Offset(number) => format!(in alloc; "offset is {number}"),
        Setting::Ratio(number) => format!(in alloc; "ratio is {}", format!(in alloc; "{number}")?),
        Setting::Rename(name) => match string(alloc, name.as_str(), "") {
            Ok(literal) => format!(in alloc; "rename is {literal}"),
            // allocation failed: of the literal, as its suffix is empty.
            Err(_) => Err(AllocError),
        },
        Setting::Skip(flag) => format!(in alloc; "skip is {flag}"),
    }
}

/// The settings up to the first fault of a line, and the fault if there is one.
pub type Read<'a> = (Vec<Setting>, Option<Fault<'a>>);

/// Reads the settings of a line up to the first fault.
///
/// # Errors
///
/// Returns `AllocError` if an allocation fails.
pub fn read_settings(alloc: Global, line: &str) -> Result<Read<'_>, AllocError>
    ensures all { IfOk result (λ read. HasSettings line.now read.0.items read.1) }
    ensures place { IfOk result (λ read. IfSome read.1 (IsIn line.now)) }
    ensures memory { IfOk result (λ read. IfSome read.1 IsNoFailure) }
{
    let mut found = Vec::new(alloc);
    let mut name = first_word(line);
    while !name.text.is_empty() {
        match read_setting(alloc, &name) {
            Ok((setting, rest)) => {
                found.push(setting)?;
                name = first_word(rest);
            }
            Err(fault) => match &fault.problem {
                Problem::Value(ValueError::Memory) => return Err(AllocError),
                _ => return Ok((found, Some(fault))),
            },
        }
    }
    Ok((found, None))
}

/// Returns the setting with this name, and the rest after its comma.
fn read_setting<'a>(alloc: Global, name: &Word<'a>) -> Result<(Setting, &'a str), Fault<'a>>
    ensures begins { IfOk result (λ read. BeginsWith name.now read.0 read.1.now) }
    ensures fault { IfErr result (IsFaultOf name.now) }
{
    match name.text {
        "max" => typed(alloc, name.rest).map(|(n, rest)| (Setting::Max(n), rest)),
        "offset" => typed(alloc, name.rest).map(|(n, rest)| (Setting::Offset(n), rest)),
        "ratio" => typed(alloc, name.rest).map(|(n, rest)| (Setting::Ratio(n), rest)),
        "rename" => typed(alloc, name.rest).map(|(text, rest)| (Setting::Rename(text), rest)),
        "skip" => typed(alloc, name.rest).map(|(flag, rest)| (Setting::Skip(flag), rest)),
        _ => Err(unexpected(NAMES, name.at, name.text, name.rest)),
    }
}

/// Returns the value after the `=` at the front of `text`, and the rest after its comma.
fn typed<T: FromLiteral + Drop>(alloc: Global, text: &str) -> Result<(T, &str), Fault<'_>>
    ensures value { IfOk result (λ cut. IsTyped T.value_type T.is_value text.now cut.0 cut.1.now) }
    ensures fault { IfErr result (IsValueFault T.value_type text.now) }
{
    let equals = first_word(text);
    if equals.text != "=" {
        return Err(unexpected("`=`", equals.at, equals.text, equals.rest));
    }
    let Word { at, text, rest } = first_word(equals.rest);
    match read_prefix::<T>(alloc, at) {
        Ok(Some((value, rest))) => {
            let comma = first_word(rest);
            match comma.text {
                "," | "" => Ok((value, comma.rest)),
                _ => Err(unexpected("a comma", comma.at, comma.text, comma.rest)),
            }
        }
        Ok(None) => Err(unexpected("a value", at, text, rest)),
        Err(error) => {
            let (span, problem) = (error.marked_span(at), Problem::Value(error.error));
            Err(Fault { problem, at, span })
        }
    }
}

fn first_word(text: &str) -> Word<'_>
    ensures { IsWord result text.now }
{
    let mut left = tokenize(text);
    loop {
        let at = left.rest;
        let (token, rest) = (left.next(), left.rest);
        match token {
            Some(it) if it.kind.is_trivia() && it.kind != TokenKind::UnterminatedBlockComment => {}
            Some(Token { text, .. }) => return Word { at, text, rest },
            None => return Word { at, text: at, rest },
        }
    }
}

/// Returns the fault that the word `text`, between `at` and `rest`, is not what is expected.
fn unexpected<'a>(expected: &'static str, at: &'a str, text: &str, rest: &str) -> Fault<'a>
    requires { text.now ++ rest.now ≡ at.now }
    ensures { IsUnexpected expected.now at.now text.now result }
{
    let problem = match text.starts_with("/*") {
        true => Problem::OpenComment,
        false => Problem::Expected(expected),
    };
    let span = 0..text.len();
    Fault { problem, at, span }
}

/// Returns the lines that show a fault in the line with this number.
///
/// # Errors
///
/// Returns `AllocError` if an allocation fails.
pub fn show(alloc: Global, line: &str, number: u32, fault: &Fault<'_>) -> Result<String, AllocError>
    requires { IsIn line.now fault.now }
    ensures shows { IfOk result (λ text.
        Shows line.now number fault.now (string_bytes text)) }
    ensures printable { IfOk result (λ text. IsPrintable (string_bytes text)) }
{
    let message = format!(in alloc; "{}", fault.problem)?;
    let offset = line.len() - fault.at.len();
    let range = offset + fault.span.start..offset + fault.span.end;
    let diagnostic = Diagnostic::new("settings", line, range, message.as_str());
    shown(alloc, &diagnostic.with_first(number, 1).with_width(100))
}
