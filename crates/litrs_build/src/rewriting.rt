//! Literals that are rewritten in a style.
ghost use Rattle.std.specs.Prelude.{◌≡◌, ◌≤◌, ◌==◌, ◌++◌, ◌∷◌, ℕ, List, length, IfOk, OnOk, string_bytes, encode_utf8_all, if◌then◌else◌};
ghost use Rattle.std.specs.Str.{chars};
ghost use Rattle.litrs_base.specs.Characters.{line_feed, double_quote};
ghost use Rattle.litrs_base.specs.declared.escape.Unescape.{Unescape};
ghost use Rattle.litrs_base.specs.declared.quotes.Switches.{Switches};
ghost use Rattle.litrs_base.specs.Quotes.{char_front};
ghost use Rattle.litrs_grammar.specs.CharByte.{CharParts, char_text, IsCharLiteral};
ghost use Rattle.litrs_grammar.specs.Escape.{Escape};
ghost use Rattle.litrs_grammar.specs.Literal.{StringParts, quoted_parts, IsLiteral, IsString, suffix_of};
ghost use Rattle.litrs_grammar.specs.LiteralText.{literal_text, string_text};
ghost use Rattle.litrs_grammar.specs.Quoted.{Item, item_text, body_text, QuotedParts, IsQuotedLiteral};
ghost use Rattle.litrs_grammar.specs.Strings.{is_raw};
ghost use Rattle.litrs.specs.LiteralDerivation.{derivation};
ghost use Rattle.litrs_build.specs.BodyItem.{Reads, IsBody};
ghost use Rattle.litrs_build.specs.Rewriting.{is_mark, after_blanks, run_len, needed_char, needed_spelling, item_rewriting, before_after, items_of, keeps, rewritten, rewritten_items, rewritten_string, rewritten_char};
ghost use Rattle.litrs_build.specs.WrittenAnew.{HaveSameValue};

use crate::body_item::{BodyItem, read_item, starts_with};
use crate::float_style::rewritten_float;
use crate::integer_style::rewritten_integer;
use crate::pieces::{Charset, plain_len};
use crate::spelling::Spelling;
use crate::style::{Case, Escapes, FloatGroups, Groups, Lines, Style};
use litrs::{Literal, Text};
use litrs_lex::{CharKind, StringKind, Switches, Unescape};
use std::alloc::{AllocError, Global};

/// Returns the text of `lit`, rewritten in `style`: for `"\x4A"` and the escapes that are needed,
/// that is `"J"`. The text is a literal with the kind, the value and the suffix of `lit`.
///
/// Bools and raw strings keep their text. A second call in the same style changes nothing.
///
/// There is one allocation, if the text is not longer than that of `lit`. Otherwise, a text with
/// quotes may be allocated again while it grows.
///
/// # Errors
///
/// Returns `AllocError` if an allocation fails.
pub fn rewritten<B: Text>(
    alloc: Global,
    lit: &Literal<B>,
    style: &Style,
) -> Result<String, AllocError>
    ensures written { IfOk result (λ text. chars (string_bytes text)
        ≡ literal_text (rewritten style.now (derivation lit.now))) }
    ensures literal { IfOk result (λ text. IsLiteral (chars (string_bytes text))
        (rewritten style.now (derivation lit.now))) }
    ensures value { IfOk result (λ _.
        HaveSameValue (derivation lit.now) (rewritten style.now (derivation lit.now))) }
    ensures suffix { IfOk result (λ _.
        suffix_of (rewritten style.now (derivation lit.now)) ≡ suffix_of (derivation lit.now)) }
    ensures again { IfOk result (λ _.
        rewritten style.now (rewritten style.now (derivation lit.now))
        ≡ rewritten style.now (derivation lit.now)) }
{
    // Called for its contract: the parts are those of a literal.
    let _ = lit.raw_input();
    let text = rewritten_text(alloc, lit, style)?;
    Ok(text)
}

/// Returns the text of `lit`, rewritten in `style`.
fn rewritten_text<B: Text>(
    alloc: Global,
    lit: &Literal<B>,
    style: &Style,
) -> Result<String, AllocError>
    ensures { IfOk result (λ text. chars (string_bytes text)
        ≡ literal_text (rewritten style.now (derivation lit.now))) }
{
    let raw = lit.raw_input();
    if keeps(style, lit) {
        return String::from_str(alloc, raw);
    }
    match lit {
        Literal::Bool(_) => String::from_str(alloc, raw),
        Literal::Integer(lit) => rewritten_integer(alloc, lit, style),
        Literal::Float(lit) => rewritten_float(alloc, lit, style),
        Literal::Char(_) => rewritten_char(alloc, raw, CharKind::Char, style),
        Literal::Byte(_) => rewritten_char(alloc, raw, CharKind::Byte, style),
        Literal::String(lit) => {
            rewritten_string(alloc, raw, lit.is_raw_string(), StringKind::String, style)
        }
        Literal::ByteString(lit) => {
            rewritten_string(
                alloc,
                raw,
                lit.is_raw_byte_string(),
                StringKind::ByteString,
                style,
            )
        }
        Literal::CString(lit) => {
            rewritten_string(
                alloc,
                raw,
                lit.is_raw_c_string(),
                StringKind::CString,
                style,
            )
        }
    }
}

/// Returns `true` only if `style` does not change any literal of the kind of `lit`.
fn keeps<B: Text>(style: &Style, lit: &Literal<B>) -> bool
    ensures { result ≡ keeps style.now (derivation lit.now) }
{
    match lit {
        Literal::Bool(_) => true,
        Literal::Integer(_) => matches!((style.digits, style.groups), (None, Groups::Kept)),
        Literal::Float(_) => {
            matches!(
                (style.exponents, style.float_groups),
                (None, FloatGroups::Kept)
            )
        }
        Literal::Char(_)
        | Literal::Byte(_)
        | Literal::String(_)
        | Literal::ByteString(_)
        | Literal::CString(_) => {
            matches!((style.escapes, style.lines), (Escapes::Kept, Lines::Kept))
        }
    }
}

/// Returns the text of a string literal of this kind, rewritten.
fn rewritten_string(
    alloc: Global,
    raw: &str,
    has_raw_body: bool,
    kind: StringKind,
    style: &Style,
) -> Result<String, AllocError>
    requires { (d : StringParts) × IsString kind (chars raw.now) d × (has_raw_body ≡ is_raw d) }
    ensures { (d : StringParts) → IsString kind (chars raw.now) d → IfOk result (λ text.
        chars (string_bytes text) ≡ string_text kind (rewritten_string style.now d)) }
{
    if has_raw_body {
        String::from_str(alloc, raw)
    } else {
        rewritten_quoted(alloc, raw, kind, style)
    }
}

/// Returns the text of a quoted literal of this kind, rewritten.
fn rewritten_quoted(
    alloc: Global,
    raw: &str,
    kind: StringKind,
    style: &Style,
) -> Result<String, AllocError>
    requires { (d : QuotedParts) × IsQuotedLiteral kind (chars raw.now) d }
    ensures { (d : QuotedParts) → IsQuotedLiteral kind (chars raw.now) d → IfOk result (λ text.
        chars (string_bytes text)
        ≡ string_text kind (rewritten_string style.now (quoted_parts d))) }
{
    let (front, body) = raw.split_at(kind.front_len());
    // bounded by the length of the text.
    let mut text = String::with_capacity(alloc, raw.len())?;
    text.push_str(front)?;
    push_body(&mut text, body, kind.switches(), style)?;
    Ok(text)
}

/// Appends `body`, a body with its closing quote and the suffix, with its items rewritten.
fn push_body(
    text: &mut String,
    body: &str,
    allowed: Switches,
    style: &Style,
) -> Result<(), AllocError>
    requires { (items : List Item) × (suffix : List ℕ) × IsBody allowed body.now items suffix }
    ensures { (items : List Item) (suffix : List ℕ) → IsBody allowed body.now items suffix →
        OnOk result (string_bytes text.new ≡ string_bytes text.old ++ encode_utf8_all
        (body_text (rewritten_items style.now Before.Mark items) ++ double_quote ∷ suffix)) }
{
    let mut rest = body;
    let mut before = Before::Mark;
    while !starts_with(rest.as_bytes(), b'"') {
        let run = run_len(rest.as_bytes(), before, style.escapes);
        if run > 0 {
            text.push_str(&rest[..run])?;
            before = Before::Text;
            rest = &rest[run..];
            continue;
        }
        let (item, len) = read_item(rest, allowed);
        let rewriting = rewriting_of(item, '"', before, style);
        push_rewriting(text, &rest[..len], rewriting, style.escape_digits)?;
        before = before.after(item, rewriting);
        rest = &rest[len..];
    }
    text.push_str(rest)?;
    Ok(())
}

/// Returns the length of the plain bytes that `rest` starts with, which are written as they are: of
/// all of them if characters stay, otherwise of ASCII. It is 0 after a continuation.
fn run_len(rest: &[u8], before: Before, escapes: Escapes) -> usize
    ensures len { result ≡ run_len escapes before rest.now }
    ensures within { result ≤ length rest.now }
{
    match before {
        Before::Text | Before::Mark => match escapes {
            Escapes::Kept | Escapes::Respelled => plain_len(rest, Charset::Any),
            Escapes::Needed => plain_len(rest, Charset::Ascii),
        },
        Before::Continuation => 0,
    }
}

/// Returns the text of a char or a byte, rewritten.
fn rewritten_char(
    alloc: Global,
    raw: &str,
    kind: CharKind,
    style: &Style,
) -> Result<String, AllocError>
    requires { (d : CharParts) × IsCharLiteral kind (chars raw.now) d }
    ensures { (d : CharParts) → IsCharLiteral kind (chars raw.now) d → IfOk result (λ text.
        chars (string_bytes text) ≡ char_text kind (rewritten_char style.now d)) }
{
    let (front, rest) = raw.split_at(front_len(kind));
    let (item, len) = read_item(rest, kind.switches());
    let rewriting = rewriting_of(item, '\'', Before::Mark, style);
    // bounded by the length of the text.
    let mut text = String::with_capacity(alloc, raw.len())?;
    text.push_str(front)?;
    push_rewriting(&mut text, &rest[..len], rewriting, style.escape_digits)?;
    text.push_str(&rest[len..])?;
    Ok(text)
}

/// Returns the length in bytes of the front of a char or a byte.
fn front_len(kind: CharKind) -> usize
    ensures { result ≡ length (char_front kind) }
{
    match kind {
        CharKind::Char => 1,
        CharKind::Byte => 2,
    }
}

/// The text before an item.
#[derive(Clone, Copy)]
pub(crate) enum Before {
    /// A character.
    Text,
    /// The opening quote, an escape, or LF.
    Mark,
    /// A continuation.
    Continuation,
}

impl Before {
    /// Returns `true` if a combining character would be shown on the text.
    fn is_mark(self) -> bool
        ensures { result ≡ is_mark self }
    {
        match self {
            Before::Text => false,
            Before::Mark | Before::Continuation => true,
        }
    }

    /// Returns the text before the next item, after `item` is rewritten.
    fn after(self, item: BodyItem, rewriting: Rewriting) -> Before
        ensures { (given : Item) (case : Case) → Reads item given →
            result ≡ before_after self (items_of case given rewriting) }
    {
        match rewriting {
            Rewriting::Removed => self,
            Rewriting::Spelled(Spelling::Plain(c)) => Before::after_char(c),
            Rewriting::Spelled(_) => Before::Mark,
            Rewriting::Unchanged => match item {
                BodyItem::Plain(c) => Before::after_char(c),
                BodyItem::Escape(..) => Before::Mark,
                BodyItem::Continuation => Before::Continuation,
            },
        }
    }

    /// Returns the text before the item after `c`.
    fn after_char(c: char) -> Before
        ensures { result ≡ (if c == line_feed then Before.Mark else Before.Text) }
    {
        if c == '\n' {
            Before::Mark
        } else {
            Before::Text
        }
    }
}

/// The text that is written for an item.
#[derive(Clone, Copy)]
pub(crate) enum Rewriting {
    /// The item as it is.
    Unchanged,
    /// This spelling.
    Spelled(Spelling),
    /// An empty text.
    Removed,
}

/// Returns the text that is written for `item`.
fn rewriting_of(item: BodyItem, quote: char, before: Before, style: &Style) -> Rewriting
    ensures { (given : Item) → Reads item given →
        result ≡ item_rewriting style.now quote before given }
{
    match item {
        BodyItem::Plain('\n') => match style.lines {
            Lines::Kept => Rewriting::Unchanged,
            Lines::Joined => Rewriting::Spelled(Spelling::Simple('n')),
        },
        BodyItem::Plain(c) => match style.escapes {
            Escapes::Kept | Escapes::Respelled => Rewriting::Unchanged,
            Escapes::Needed => Rewriting::Spelled(needed_char(c, quote, before)),
        },
        BodyItem::Escape(own, value) => match style.escapes {
            Escapes::Kept => Rewriting::Unchanged,
            Escapes::Respelled => Rewriting::Spelled(own),
            Escapes::Needed => Rewriting::Spelled(needed_spelling(value, quote, before)),
        },
        BodyItem::Continuation => match style.lines {
            Lines::Kept => Rewriting::Unchanged,
            Lines::Joined => Rewriting::Removed,
        },
    }
}

/// Returns the spelling of `value` with only the escapes that are needed.
fn needed_spelling(value: Unescape, quote: char, before: Before) -> Spelling
    ensures { result ≡ needed_spelling quote before value }
{
    match value {
        Unescape::Unicode(c) => needed_char(c, quote, before),
        Unescape::Byte(b) => {
            if b.is_ascii() {
                needed_char(char::from(b), quote, before)
            } else {
                Spelling::Hex(b)
            }
        }
    }
}

/// Returns the spelling of `c` with only the escapes that are needed.
fn needed_char(c: char, quote: char, before: Before) -> Spelling
    ensures { result ≡ needed_char quote before c }
{
    after_blanks(before, Spelling::of_char(c, quote, before.is_mark()))
}

/// Returns `spelling`, with a blank escaped after a continuation, which would take it.
fn after_blanks(before: Before, spelling: Spelling) -> Spelling
    ensures { result ≡ after_blanks before spelling }
{
    match before {
        Before::Text | Before::Mark => spelling,
        Before::Continuation => match spelling {
            Spelling::Plain(' ') => Spelling::Hex(b' '),
            Spelling::Plain('\t') => Spelling::Hex(b'\t'),
            Spelling::Plain('\n') => Spelling::Hex(b'\n'),
            Spelling::Plain(_) => spelling,
            Spelling::Simple(_) | Spelling::Hex(_) | Spelling::Unicode(_) => spelling,
        },
    }
}

/// Appends the text that is written for the item with the text `item`.
fn push_rewriting(
    text: &mut String,
    item: &str,
    rewriting: Rewriting,
    case: Case,
) -> Result<(), AllocError>
    ensures { (given : Item) → item.now ≡ encode_utf8_all (item_text given) →
        OnOk result (string_bytes text.new ≡ string_bytes text.old
        ++ encode_utf8_all (body_text (items_of case given rewriting))) }
{
    match rewriting {
        Rewriting::Unchanged => text.push_str(item),
        Rewriting::Spelled(spelling) => spelling.push_to(text, case),
        Rewriting::Removed => Ok(()),
    }
}
