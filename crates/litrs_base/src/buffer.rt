//! The buffers that hold the text of a literal.
ghost use Rattle.std.specs.Prelude.{◌≡◌, ◌↔◌, ◌≤◌, ℕ, Bool, true, false, List, string_bytes, IsOk, IfOk, IsTrue, slice_range};
ghost use Rattle.std.specs.Cow.{cow_str_bytes, cow_slice_items, IsOwnedStr, IsOwnedSlice};
ghost use Rattle.std.specs.Str.{IsCharBoundary};

use std::alloc::{AllocError, Global};
use std::borrow::{CowSlice, CowStr};
use std::ops::Range;

mod sealed {
    /// A trait that other crates cannot implement.
    pub trait Sealed {}
}

/// The text of a literal: a `&str` or an owned `String`. No other type can implement this trait.
///
/// The literal types require only this of their buffer. [`Buffer`] takes values out of it.
pub trait Text: sealed::Sealed + Drop {
    /// The bytes of the text.
    ghost bytes: { Self → List ℕ };

    /// `true` if the buffer owns its text, so that a copy allocates.
    ghost owns: { Bool };

    /// `true` if the buffer owns its text: `false` for `&str`, `true` for `String`.
    const OWNS: bool;

    /// Returns [`OWNS`](Text::OWNS).
    fn owns_text() -> bool
        ensures { result ≡ owns };

    /// Returns the text.
    fn as_str(&self) -> &str
        ensures { result.now ≡ bytes self.now };

    /// Copies the text. For a `&str` this does not allocate and always succeeds.
    ///
    /// # Errors
    ///
    /// Returns `AllocError` if the allocation of the text fails.
    fn copy(&self, alloc: Global) -> Result<Self, AllocError>
        ensures ok { IfOk result (λ copy. bytes copy ≡ bytes self.now) }
        ensures succeeds { owns ≡ false → IsOk result };

    /// Returns the bytes `range` of the text. Does not allocate.
    ///
    /// Both ends are character boundaries of the text. For example, `1..3` cuts `ab` out of `"ab"`.
    fn cut(self, range: Range<usize>) -> Self
        requires in_order { range.start ≤ range.end }
        requires start { IsCharBoundary (bytes self) range.start }
        requires end { IsCharBoundary (bytes self) range.end }
        ensures { bytes result ≡ slice_range (bytes self) range.start range.end };
}

/// A text from which values can be taken: a `&str` or an owned `String`.
///
/// A value of a `&str` is borrowed from the text, or owned if it is not a part of the text. A value
/// of a `String` is always owned.
pub trait Buffer: Text {
    /// The bytes of a value that is a text.
    ghost cow_bytes: { Self.Cow → List ℕ };

    /// The condition that such a value is owned.
    ghost cow_owned: { Self.Cow → Type 0 };

    /// The bytes of a value that is bytes.
    ghost byte_cow_items: { Self.ByteCow → List ℕ };

    /// The condition that such a value is owned.
    ghost byte_cow_owned: { Self.ByteCow → Type 0 };

    /// The type of a value that is a text: `CowStr` for `&str`, `String` for `String`.
    type Cow: Drop;

    /// The type of a value that is bytes: `CowSlice<u8>` for `&str`, `Vec<u8>` for `String`.
    type ByteCow: Drop;

    /// Returns the text as a value, which is owned if the buffer owns the text. Does not allocate.
    fn into_cow(self) -> Self::Cow
        ensures text { cow_bytes result ≡ Self.bytes self }
        ensures owned { cow_owned result ↔ IsTrue Self.owns };

    /// Returns the bytes of the text as a value, which is owned if the buffer owns the text. Does
    /// not allocate.
    fn into_byte_cow(self) -> Self::ByteCow
        ensures bytes { byte_cow_items result ≡ Self.bytes self }
        ensures owned { byte_cow_owned result ↔ IsTrue Self.owns };

    /// Returns an owned text as a value.
    fn cow_from(text: String) -> Self::Cow
        ensures text { cow_bytes result ≡ string_bytes text }
        ensures owned { cow_owned result };

    /// Returns owned bytes as a value.
    fn byte_cow_from(bytes: Vec<u8>) -> Self::ByteCow
        ensures bytes { byte_cow_items result ≡ bytes.items }
        ensures owned { byte_cow_owned result };

    /// Returns the text of a value.
    fn cow_text(cow: &Self::Cow) -> &str
        ensures { result.now ≡ cow_bytes cow.now };

    /// Returns the bytes of a value.
    fn byte_cow_bytes(cow: &Self::ByteCow) -> &[u8]
        ensures { result.now ≡ byte_cow_items cow.now };
}

impl sealed::Sealed for &str {}

impl Text for &str {
    ghost bytes = { λ text. text.now };

    ghost owns = { false };

    const OWNS: bool = false;

    fn owns_text() -> bool
        ensures { result ≡ false }
    {
        Self::OWNS
    }

    fn as_str(&self) -> &str {
        *self
    }

    fn copy(&self, _alloc: Global) -> Result<Self, AllocError> {
        Ok(*self)
    }

    fn cut(self, range: Range<usize>) -> Self {
        &self[range]
    }
}

impl<'a> Buffer for &'a str {
    ghost cow_bytes = { cow_str_bytes };

    ghost cow_owned = { IsOwnedStr };

    ghost byte_cow_items = { cow_slice_items };

    ghost byte_cow_owned = { IsOwnedSlice };

    type Cow = CowStr<'a>;

    type ByteCow = CowSlice<'a, u8>;

    fn into_cow(self) -> CowStr<'a> {
        CowStr::Borrowed(self)
    }

    fn into_byte_cow(self) -> CowSlice<'a, u8> {
        CowSlice::Borrowed(self.as_bytes())
    }

    fn cow_from(text: String) -> CowStr<'a> {
        CowStr::Owned(text)
    }

    fn byte_cow_from(bytes: Vec<u8>) -> CowSlice<'a, u8> {
        CowSlice::Owned(bytes)
    }

    fn cow_text<'b>(cow: &'b CowStr<'a>) -> &'b str {
        match cow {
            CowStr::Borrowed(text) => text,
            CowStr::Owned(text) => text.as_str(),
        }
    }

    fn byte_cow_bytes<'b>(cow: &'b CowSlice<'a, u8>) -> &'b [u8] {
        match cow {
            CowSlice::Borrowed(bytes) => bytes,
            CowSlice::Owned(bytes) => bytes.as_slice(),
        }
    }
}

impl sealed::Sealed for String {}

impl Text for String {
    ghost bytes = { string_bytes };

    ghost owns = { true };

    const OWNS: bool = true;

    fn owns_text() -> bool {
        Self::OWNS
    }

    fn as_str(&self) -> &str {
        self.as_str()
    }

    fn copy(&self, alloc: Global) -> Result<String, AllocError> {
        String::from_str(alloc, self.as_str())
    }

    fn cut(mut self, range: Range<usize>) -> Self {
        self.truncate(range.end);
        let _ = self.replace_range(..range.start, "");
        self
    }
}

impl Buffer for String {
    ghost cow_bytes = { string_bytes };

    ghost cow_owned = { λ _. Unit {0} };

    ghost byte_cow_items = { λ v. v.items };

    ghost byte_cow_owned = { λ _. Unit {0} };

    type Cow = String;

    type ByteCow = Vec<u8>;

    fn into_cow(self) -> String {
        self
    }

    fn into_byte_cow(self) -> Vec<u8> {
        self.into_bytes()
    }

    fn cow_from(text: String) -> String {
        text
    }

    fn byte_cow_from(bytes: Vec<u8>) -> Vec<u8> {
        bytes
    }

    fn cow_text(cow: &String) -> &str {
        cow.as_str()
    }

    fn byte_cow_bytes(cow: &Vec<u8>) -> &[u8] {
        cow.as_slice()
    }
}
