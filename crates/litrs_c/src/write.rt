//! Writes the literal of a value to the room of the caller.
ghost use Rattle.std.specs.Prelude.{◌≡◌, ◌≢◌, ◌≤◌, ◌↔◌, ◌+◌, ◌*◌, ◌^◌, IsTrue, IsFalse, Some};
ghost use Rattle.std.specs.Str.{chars, IsUtf8};
ghost use Rattle.litrs_base.specs.declared.integer.IntegerBase.TheVariants.{Decimal};
ghost use Rattle.litrs_grammar.specs.Literal.{an_integer, a_string, a_byte_string};
ghost use Rattle.litrs_grammar.specs.Suffix.{is_suffix};
ghost use Rattle.litrs_build.specs.BuiltInteger.{NoIntegerHasSuffix};
ghost use Rattle.litrs_build.specs.Written.{written_string, written_byte_string};
ghost use Rattle.litrs_c.specs.Answers.{IsKept};
ghost use Rattle.litrs_c.specs.LiteralFields.{bytes_of, number_of};
ghost use Rattle.litrs_c.specs.Writes.{WritesLiteral, decimal, error_status};

use crate::literals::HALF;
use crate::utf8::from_utf8;
use crate::{LITERAL, NOT_UTF8, OUT_OF_MEMORY, REFUSED, Written, nothing, room};
use litrs::IntegerBase;
use litrs_build::{BuildError, byte_string, integer, string};
use std::alloc::Global;

/// Writes the string with the value `value` and the suffix `suffix`, which may be empty, to `room`,
/// as much as fits: for example `"a\nb"`. The status is `REFUSED` if `suffix` is not a suffix,
/// `NOT_UTF8` if `value` or `suffix` is not UTF-8, and `OUT_OF_MEMORY` if an allocation fails. The
/// rest of `room` is unchanged, and all of it if nothing is written.
#[unsafe(no_mangle)]
pub extern "C" fn litrs_write_string(
    alloc: Global,
    value: &[u8],
    suffix: &[u8],
    room: &mut [u8],
) -> Written
    ensures statuses { result.status ≤ OUT_OF_MEMORY }
    ensures utf8 { result.status ≢ NOT_UTF8 ↔ (IsUtf8 value.now × IsUtf8 suffix.now) }
    ensures literal { result.status ≡ LITERAL → WritesLiteral room.old room.new result.len
        (a_string (written_string (chars value.now) (chars suffix.now))) }
    ensures value { result.status ≡ LITERAL →
        bytes_of (a_string (written_string (chars value.now) (chars suffix.now))) ≡ Some value.now }
    ensures refused { result.status ≡ REFUSED → IsFalse (is_suffix (chars suffix.now)) }
    ensures memory { result.status ≡ OUT_OF_MEMORY → IsTrue (is_suffix (chars suffix.now)) }
    ensures kept { result.status ≢ LITERAL → IsKept room.old room.new result.len }
{
    let (Ok(value), Ok(suffix)) = (from_utf8(value), from_utf8(suffix)) else {
        return nothing(NOT_UTF8);
    };
    match string(alloc, value, suffix) {
        Ok(lit) => Written {
            status: LITERAL,
            len: room::write(room, lit.raw_input().as_bytes()),
        },
        Err(e) => nothing(status_of(e)),
    }
}

/// Writes the byte string with the value `value`, for example `b"a\xff"`. `value` need not be
/// UTF-8. Otherwise, it is like [`litrs_write_string`].
#[unsafe(no_mangle)]
pub extern "C" fn litrs_write_bytes(
    alloc: Global,
    value: &[u8],
    suffix: &[u8],
    room: &mut [u8],
) -> Written
    ensures statuses { result.status ≤ OUT_OF_MEMORY }
    ensures utf8 { result.status ≢ NOT_UTF8 ↔ IsUtf8 suffix.now }
    ensures literal { result.status ≡ LITERAL → WritesLiteral room.old room.new result.len
        (a_byte_string (written_byte_string value.now (chars suffix.now))) }
    ensures value { result.status ≡ LITERAL →
        bytes_of (a_byte_string (written_byte_string value.now (chars suffix.now)))
        ≡ Some value.now }
    ensures refused { result.status ≡ REFUSED → IsFalse (is_suffix (chars suffix.now)) }
    ensures memory { result.status ≡ OUT_OF_MEMORY → IsTrue (is_suffix (chars suffix.now)) }
    ensures kept { result.status ≢ LITERAL → IsKept room.old room.new result.len }
{
    let Ok(suffix) = from_utf8(suffix) else {
        return nothing(NOT_UTF8);
    };
    match byte_string(alloc, value, suffix) {
        Ok(lit) => Written {
            status: LITERAL,
            len: room::write(room, lit.raw_input().as_bytes()),
        },
        Err(e) => nothing(status_of(e)),
    }
}

/// Writes the integer with the value `value_low` plus 2^64 times `value_high` in base ten, for
/// example `255u8`. The status is `REFUSED` if no such integer has the suffix. Otherwise, the call
/// is like [`litrs_write_string`].
#[unsafe(no_mangle)]
pub extern "C" fn litrs_write_integer(
    alloc: Global,
    value_low: u64,
    value_high: u64,
    suffix: &[u8],
    room: &mut [u8],
) -> Written
    ensures statuses { result.status ≤ OUT_OF_MEMORY }
    ensures utf8 { result.status ≢ NOT_UTF8 ↔ IsUtf8 suffix.now }
    ensures literal { result.status ≡ LITERAL → WritesLiteral room.old room.new result.len
        (an_integer (decimal (value_low + 2 ^ 64 * value_high) (chars suffix.now))) }
    ensures value { result.status ≡ LITERAL →
        number_of (an_integer (decimal (value_low + 2 ^ 64 * value_high) (chars suffix.now)))
        ≡ Some (value_low + 2 ^ 64 * value_high) }
    ensures refused { result.status ≡ REFUSED → NoIntegerHasSuffix Decimal (chars suffix.now) }
    ensures memory { result.status ≡ OUT_OF_MEMORY
        → ¬ NoIntegerHasSuffix Decimal (chars suffix.now) }
    ensures kept { result.status ≢ LITERAL → IsKept room.old room.new result.len }
{
    let Ok(suffix) = from_utf8(suffix) else {
        return nothing(NOT_UTF8);
    };
    let value = u128::from(value_low) + HALF * u128::from(value_high);
    match integer(alloc, value, IntegerBase::Decimal, suffix) {
        Ok(lit) => Written {
            status: LITERAL,
            len: room::write(room, lit.raw_input().as_bytes()),
        },
        Err(e) => nothing(status_of(e)),
    }
}

/// Returns the status of an error.
fn status_of(error: BuildError) -> u32
    ensures { result ≡ error_status error }
{
    match error {
        BuildError::Memory => OUT_OF_MEMORY,
        _ => REFUSED,
    }
}
