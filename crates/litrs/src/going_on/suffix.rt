//! Suffixes.
ghost use Rattle.std.specs.Prelude.{◌↔◌, IsTrue};
ghost use Rattle.std.specs.Str.{chars};
ghost use Rattle.litrs.specs.Begins.{BeginsSuffix};

use litrs_lex::check_suffix;

/// Returns `true` if `suffix` begins a suffix: it is one, or `_` alone.
pub(crate) fn suffix_goes_on(suffix: &str) -> bool
    ensures { IsTrue result ↔ BeginsSuffix (chars suffix.now) }
{
    match suffix {
        "_" => true,
        _ => check_suffix(suffix).is_ok(),
    }
}
