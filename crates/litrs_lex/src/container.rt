//! Containers of values.
ghost use Rattle.std.specs.Prelude.{◌≡◌, ◌+◌, ◌≤◌, ℕ, Bool, true, false, List, [], ◌++◌, length, string_bytes, string_capacity, vec_capacity, IsTrue, IsFalse, IsOk, IfOk, OnOk, OnErr, IsUtf8};
ghost use Rattle.litrs_grammar.specs.Escape.{value_bytes};
ghost use Rattle.litrs_lex.specs.Container.{is_pushable};

use litrs_base::Unescape;
use std::alloc::{AllocError, Global};

/// A container for the value of a quoted body: a `String` for texts, a `Vec<u8>` for bytes.
///
/// If an allocation fails, the contents are unchanged. If the capacity suffices, a call succeeds.
pub trait EscapeContainer: Drop {
    /// The contents, in bytes.
    ghost contents: { Self → List ℕ };

    /// The capacity in bytes.
    ghost capacity: { Self → ℕ };

    /// `true` if the container can hold bytes above 7F.
    ghost TAKES_BYTES: { Bool };

    /// `true` if the container can hold bytes above 7F: `false` for `String`, `true` for `Vec<u8>`.
    const TAKES_BYTES: bool;

    /// Creates an empty container with the allocator `alloc`. Does not allocate.
    fn new(alloc: Global) -> Self
        ensures { contents result ≡ [] };

    /// Creates an empty container with a capacity of exactly `bytes`. Does not allocate if that is
    /// 0.
    ///
    /// # Errors
    ///
    /// Returns `AllocError` if the allocation fails.
    fn with_capacity(alloc: Global, bytes: usize) -> Result<Self, AllocError>
        ensures contents { IfOk result (λ made. contents made ≡ []) }
        ensures room { IfOk result (λ made. capacity made ≡ bytes) }
        ensures succeeds { bytes ≡ 0 → IsOk result };

    /// Reserves capacity for `n` more bytes. Does not allocate if the capacity suffices.
    ///
    /// # Errors
    ///
    /// Returns `AllocError` if the allocation fails.
    fn reserve(&mut self, n: usize) -> Result<(), AllocError>
        ensures contents { contents self.new ≡ contents self.old }
        ensures room { OnOk result (length (contents self.new) + n ≤ capacity self.new) }
        ensures kept { capacity self.old ≤ capacity self.new }
        ensures succeeds { length (contents self.old) + n ≤ capacity self.old → IsOk result };

    /// Appends the value of an escape: the byte, or the UTF-8 of the character.
    ///
    /// The byte is above 7F only if [`TAKES_BYTES`](EscapeContainer::TAKES_BYTES) is set.
    ///
    /// # Errors
    ///
    /// Returns `AllocError` if the allocation fails.
    fn push(&mut self, value: Unescape) -> Result<(), AllocError>
        requires { IsTrue (is_pushable TAKES_BYTES value) }
        ensures ok { IfOk result (λ _. contents self.new ≡ contents self.old ++ value_bytes value) }
        ensures err { OnErr result (contents self.new ≡ contents self.old) }
        ensures kept { capacity self.old ≤ capacity self.new }
        ensures succeeds { length (contents self.old) + length (value_bytes value)
            ≤ capacity self.old → IsOk result };

    /// Appends `text`.
    ///
    /// # Errors
    ///
    /// Returns `AllocError` if the allocation fails.
    fn push_str(&mut self, text: &str) -> Result<(), AllocError>
        ensures ok { IfOk result (λ _. contents self.new ≡ contents self.old ++ text.now) }
        ensures err { OnErr result (contents self.new ≡ contents self.old) }
        ensures kept { capacity self.old ≤ capacity self.new }
        ensures succeeds { length (contents self.old) + length text.now
            ≤ capacity self.old → IsOk result };

    /// Appends `bytes`, which are UTF-8 if the container is a text.
    ///
    /// # Errors
    ///
    /// Returns `AllocError` if the allocation fails.
    fn push_bytes(&mut self, bytes: &[u8]) -> Result<(), AllocError>
        requires { IsFalse TAKES_BYTES → IsUtf8 bytes.now }
        ensures ok { IfOk result (λ _. contents self.new ≡ contents self.old ++ bytes.now) }
        ensures err { OnErr result (contents self.new ≡ contents self.old) }
        ensures kept { capacity self.old ≤ capacity self.new }
        ensures succeeds { length (contents self.old) + length bytes.now
            ≤ capacity self.old → IsOk result };
}

impl EscapeContainer for String {
    ghost contents = { string_bytes };

    ghost capacity = { string_capacity };

    ghost TAKES_BYTES = { false };

    const TAKES_BYTES: bool = false;

    fn new(alloc: Global) -> String {
        String::new(alloc)
    }

    fn with_capacity(alloc: Global, bytes: usize) -> Result<String, AllocError> {
        String::with_capacity(alloc, bytes)
    }

    fn reserve(&mut self, n: usize) -> Result<(), AllocError> {
        String::reserve(self, n)
    }

    fn push(&mut self, value: Unescape) -> Result<(), AllocError> {
        match value {
            Unescape::Byte(byte) => String::push(self, byte as char),
            Unescape::Unicode(character) => String::push(self, character),
        }
    }

    fn push_str(&mut self, text: &str) -> Result<(), AllocError> {
        String::push_str(self, text)
    }

    fn push_bytes(&mut self, bytes: &[u8]) -> Result<(), AllocError> {
        String::push_str(self, unsafe { str::from_utf8_unchecked(bytes) })
    }
}

impl EscapeContainer for Vec<u8> {
    ghost contents = { λ bytes. bytes.items };

    ghost capacity = { vec_capacity };

    ghost TAKES_BYTES = { true };

    const TAKES_BYTES: bool = true;

    fn new(alloc: Global) -> Vec<u8> {
        Vec::new(alloc)
    }

    fn with_capacity(alloc: Global, bytes: usize) -> Result<Vec<u8>, AllocError> {
        Vec::with_capacity(alloc, bytes)
    }

    fn reserve(&mut self, n: usize) -> Result<(), AllocError> {
        Vec::reserve(self, n)
    }

    fn push(&mut self, value: Unescape) -> Result<(), AllocError> {
        match value {
            Unescape::Byte(byte) => self.extend_from_slice(&[byte]),
            Unescape::Unicode(character) => {
                self.extend_from_slice(character.encode_utf8(&mut [0; 4]).as_bytes())
            }
        }
    }

    fn push_str(&mut self, text: &str) -> Result<(), AllocError> {
        self.extend_from_slice(text.as_bytes())
    }

    fn push_bytes(&mut self, bytes: &[u8]) -> Result<(), AllocError> {
        self.extend_from_slice(bytes)
    }
}
