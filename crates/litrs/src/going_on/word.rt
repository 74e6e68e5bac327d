//! Texts that do not start with the front of a kind.
ghost use Rattle.std.specs.Prelude.{◌≡◌, ◌≢◌, ◌==◌, ◌||◌, false, codes};
ghost use Rattle.litrs_base.specs.Text.{is_empty, first_passes, begins_with};
ghost use Rattle.litrs_grammar.specs.Bool.{bool_text};
ghost use Rattle.litrs_grammar.specs.GoesOn.Undispatched.{undispatched_goes_on};

use crate::going_on::front::begins_with;

/// Returns `true` if `word` is a prefix of `true`, `false`, `b` or `c`: the bools, and the first
/// letters of bytes, byte strings and C strings. `word` may be empty, and is not `false`.
#[inline(always)]
pub(crate) fn is_prefix_of_a_front(word: &[u8]) -> bool
    requires { word.now ≢ bool_text false }
    ensures { result ≡ (undispatched_goes_on word.now || begins_with word.now (codes "c")) }
{
    // The other words are shorter, and most names are longer.
    if word.len() > 4 {
        return false;
    }
    begins_like_a_front(word) && any_front_starts_with(word)
}

/// Returns `true` if `word` is empty or starts with the first letter of `true`, `false`, `b` or
/// `c`.
#[inline(always)]
fn begins_like_a_front(word: &[u8]) -> bool
    ensures { result ≡ (is_empty word.now || first_passes
        (λ c. (c == 116) || ((c == 102) || ((c == 98) || (c == 99)))) word.now) }
{
    matches!(word, [] | [b't' | b'f' | b'b' | b'c', ..])
}

/// Returns `true` if `true`, `false`, `b` or `c` starts with `word`.
///
/// It is not inlined, so a text that starts with another letter costs one comparison.
#[inline(never)]
#[tactic(auto, using(crate::proofs::Fronts::starts_with_front))]
fn any_front_starts_with(word: &[u8]) -> bool
    ensures { result ≡ (undispatched_goes_on word.now || begins_with word.now (codes "c")) }
{
    b"true".starts_with(word)
        || b"false".starts_with(word)
        || b"b".starts_with(word)
        || b"c".starts_with(word)
}
