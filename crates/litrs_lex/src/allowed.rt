//! The escapes and characters that a body allows, as one parameter.
ghost use Rattle.std.specs.Prelude.{◌≡◌};
ghost use Rattle.litrs_base.specs.declared.quotes.Switches.{Switches};
ghost use Rattle.litrs_base.specs.Quotes.{string_switches, byte_string_switches, c_string_switches};
ghost use Rattle.litrs_lex.specs.Unescaped.{switches};

use crate::{StringKind, Switches};

/// The escapes and characters that a body allows: known at compile time (a kind of literal) or at
/// run time ([`Switches`]).
pub trait Allows: Copy {
    /// The switches.
    ghost allowed: { Self → Switches };

    /// Returns the switches.
    fn switches(self) -> Switches
        ensures { result ≡ allowed self };
}

impl Allows for Switches {
    ghost allowed = { λ w. w };

    #[inline(always)]
    fn switches(self) -> Switches {
        self
    }
}

/// Creates switches of these values.
#[inline(always)]
pub(crate) fn switches(unicode: bool, byte_escapes: bool, allow_nul: bool) -> Switches
    ensures { result ≡ switches unicode byte_escapes allow_nul }
{
    Switches {
        unicode,
        byte_escapes,
        allow_nul,
    }
}

/// The escapes and characters that a string allows. See [the reference][ref].
///
/// [ref]: https://doc.rust-lang.org/reference/tokens.html#string-literals
#[derive(Clone, Copy)]
pub struct InString;

impl Allows for InString {
    ghost allowed = { λ _. string_switches };

    #[inline(always)]
    fn switches(self) -> Switches {
        StringKind::String.switches()
    }
}

/// The escapes and characters that a byte string allows. See [the reference][ref].
///
/// [ref]: https://doc.rust-lang.org/reference/tokens.html#byte-string-literals
#[derive(Clone, Copy)]
pub struct InByteString;

impl Allows for InByteString {
    ghost allowed = { λ _. byte_string_switches };

    #[inline(always)]
    fn switches(self) -> Switches {
        StringKind::ByteString.switches()
    }
}

/// The escapes and characters that a C string allows. See [the reference][ref].
///
/// [ref]: https://doc.rust-lang.org/reference/tokens.html#c-string-literals
#[derive(Clone, Copy)]
pub struct InCString;

impl Allows for InCString {
    ghost allowed = { λ _. c_string_switches };

    #[inline(always)]
    fn switches(self) -> Switches {
        StringKind::CString.switches()
    }
}
