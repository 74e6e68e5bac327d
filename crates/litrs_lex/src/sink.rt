//! Sinks for the items of a quoted body.
ghost use Rattle.std.specs.Prelude.{◌≡◌, ◌≤◌, ◌<◌, ◌^◌, ◌+◌, ◌-◌, ◌++◌, ℕ, List, Bool, true, length, take, drop, IfSome, IsTrue, IsFalse, IsCharBoundary};
ghost use Rattle.litrs_lex.specs.Container.{is_pushable};
ghost use Rattle.litrs_lex.specs.QuotedItems.{item_bytes};

use litrs_base::Unescape;

/// A sink for the value of a body, run by run and item by item. If one does not fit, the sink is
/// unchanged.
pub(crate) trait Sink {
    /// The condition that the sink has this value, if it keeps values.
    ghost holds: { Self → List ℕ → Type 0 };

    /// `true` if the sink can hold bytes above 7F.
    ghost takes_bytes: { Bool };

    /// The length in bytes up to which every value fits.
    ghost room: { Self → ℕ };

    /// Appends the bytes of `text` from `start` up to `end`. Returns `false` if they do not fit.
    fn push_run(&mut self, text: &str, start: usize, end: usize) -> bool
        requires order { start ≤ end }
        requires start { IsCharBoundary text.now start }
        requires end { IsCharBoundary text.now end }
        requires small { (v : List ℕ) × (holds self.old v × (length v ≤ start)) }
        ensures kept { room self.old ≤ room self.new }
        ensures taken { IsTrue result → (v : List ℕ) → holds self.old v →
            holds self.new (v ++ take (end - start) (drop start text.now)) }
        ensures full { IsFalse result → (v : List ℕ) → holds self.old v →
            holds self.new v × (room self.old < length v + (end - start)) };

    /// Appends the value of an item with a backslash. Returns `false` if it does not fit.
    fn push(&mut self, value: Option<Unescape>) -> bool
        requires pushable { IfSome value (λ v. IsTrue (is_pushable takes_bytes v)) }
        requires small { (v : List ℕ) × (holds self.old v
            × (length v + length (item_bytes value) < 2 ^ 64)) }
        ensures kept { room self.old ≤ room self.new }
        ensures taken { IsTrue result → (v : List ℕ) → holds self.old v →
            holds self.new (v ++ item_bytes value) }
        ensures full { IsFalse result → (v : List ℕ) → holds self.old v →
            holds self.new v × (room self.old < length v + length (item_bytes value)) };
}

/// A sink that keeps only the length of a value. The value of every text fits.
#[derive(Clone, Copy)]
pub(crate) struct Counted {
    /// The length of the value in bytes.
    pub(crate) len: usize,
}

impl Sink for Counted {
    ghost holds = { λ s v. s.len ≡ length v };

    ghost takes_bytes = { true };

    ghost room = { λ _. 2 ^ 64 };

    #[inline(always)]
    fn push_run(&mut self, _text: &str, start: usize, end: usize) -> bool {
        self.len += end - start;
        true
    }

    #[inline(always)]
    fn push(&mut self, value: Option<Unescape>) -> bool {
        self.len += match value {
            None => 0,
            Some(Unescape::Byte(_)) => 1,
            Some(Unescape::Unicode(c)) => c.len_utf8(),
        };
        true
    }
}
