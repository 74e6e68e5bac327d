//! The literal at the front of a longer text.
ghost use Rattle.std.specs.Prelude.{◌≡◌, ◌≢◌, ◌≤◌, drop, IsFalse};
ghost use Rattle.std.specs.Str.{chars, IsCharBoundary};
ghost use Rattle.litrs_prefix.specs.Opens.{opens};
ghost use Rattle.litrs_c.specs.LiteralFields.{IsLiteralFields};
ghost use Rattle.litrs_c.specs.RefusalFields.{IsRefusalFields};
ghost use Rattle.litrs_c.specs.Prefixes.{IsPrefixAnd, IsMalformedAnd, LacksMemoryAt};

use crate::literals::write_literal_fields;
use crate::refusals::write_refusal_fields;
use crate::tokens::{Cursor, tokens_at};
use crate::{Answer, LITERAL, NO_PREFIX, NO_STRING, NOT_UTF8, OUT_OF_MEMORY, REFUSED};
use litrs::ParseErrorKind;
use litrs_prefix::parse_prefix;
use std::alloc::Global;

/// Like [`litrs_parse_prefix_into`](crate::litrs_parse_prefix_into) of the text from the place of
/// `cursor` on, but does not check that it is UTF-8. If no character begins at the place, no
/// literal does.
#[unsafe(no_mangle)]
pub extern "C" fn litrs_parse_prefix_at(
    alloc: Global,
    cursor: &Cursor<'_>,
    answer: &mut Answer,
) -> usize
    ensures statuses { answer.new.status ≤ NO_PREFIX }
    ensures no_string { answer.new.status ≢ NO_STRING }
    ensures utf8 { answer.new.status ≢ NOT_UTF8 }
    ensures place { answer.new.status ≢ NO_PREFIX
        → IsCharBoundary cursor.now.text.now cursor.now.at }
    ensures literal { answer.new.status ≡ LITERAL
        → IsPrefixAnd (drop cursor.now.at cursor.now.text.now) result
        (λ d. IsLiteralFields result d answer.new.literal) }
    ensures refused { answer.new.status ≡ REFUSED
        → IsMalformedAnd (chars (drop cursor.now.at cursor.now.text.now)) result
        (λ e. IsRefusalFields e answer.new.refusal) }
    ensures none { answer.new.status ≡ NO_PREFIX
        → IsCharBoundary cursor.now.text.now cursor.now.at
        → IsFalse (opens (chars (drop cursor.now.at cursor.now.text.now))) }
    ensures no_len { answer.new.status ≡ NO_PREFIX → result ≡ 0 }
    ensures memory { answer.new.status ≡ OUT_OF_MEMORY
        → LacksMemoryAt (chars (drop cursor.now.at cursor.now.text.now)) result }
    ensures no_literal { answer.new.status ≢ LITERAL → answer.new.literal ≡ answer.old.literal }
    ensures no_refusal { answer.new.status ≢ REFUSED → answer.new.refusal ≡ answer.old.refusal }
{
    match tokens_at(cursor) {
        Some(left) => parse_prefix_text(alloc, left.rest, answer),
        None => {
            answer.status = NO_PREFIX;
            0
        }
    }
}

/// Writes what is at the front of `text` to `answer`, and returns its length in bytes.
#[inline(always)]
pub(crate) fn parse_prefix_text(alloc: Global, text: &str, answer: &mut Answer) -> usize
    ensures statuses { answer.new.status ≤ NO_PREFIX }
    ensures no_string { answer.new.status ≢ NO_STRING }
    ensures utf8 { answer.new.status ≢ NOT_UTF8 }
    ensures literal { answer.new.status ≡ LITERAL → IsPrefixAnd text.now result
        (λ d. IsLiteralFields result d answer.new.literal) }
    ensures refused { answer.new.status ≡ REFUSED → IsMalformedAnd (chars text.now) result
        (λ e. IsRefusalFields e answer.new.refusal) }
    ensures none { answer.new.status ≡ NO_PREFIX → IsFalse (opens (chars text.now)) }
    ensures no_len { answer.new.status ≡ NO_PREFIX → result ≡ 0 }
    ensures memory { answer.new.status ≡ OUT_OF_MEMORY
        → LacksMemoryAt (chars text.now) result }
    ensures no_literal { answer.new.status ≢ LITERAL → answer.new.literal ≡ answer.old.literal }
    ensures no_refusal { answer.new.status ≢ REFUSED → answer.new.refusal ≡ answer.old.refusal }
{
    match parse_prefix(alloc, text) {
        Ok(Some(prefix)) => {
            answer.status = LITERAL;
            write_literal_fields(&prefix.literal, &mut answer.literal);
            prefix.literal.raw_input().len()
        }
        Ok(None) => {
            answer.status = NO_PREFIX;
            0
        }
        Err(malformed) => {
            match malformed.error.kind() {
                ParseErrorKind::OutOfMemory => answer.status = OUT_OF_MEMORY,
                _ => {
                    answer.status = REFUSED;
                    write_refusal_fields(&malformed.error, &mut answer.refusal);
                }
            }
            malformed.len
        }
    }
}
