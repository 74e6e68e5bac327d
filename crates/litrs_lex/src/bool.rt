//! Bools.
ghost use Rattle.std.specs.Prelude.{◌≡◌, IfSome, IfNone, IsFalse};
ghost use Rattle.litrs_grammar.specs.Bool.{is_bool, bool_text};

/// Returns the bool that `input` is, or `None` if it is not a bool, for example `True`. See
/// [the reference][ref].
///
/// [ref]:
/// https://doc.rust-lang.org/reference/expressions/literal-expr.html#boolean-literal-expressions
#[inline(always)]
pub fn cut_bool(input: &str) -> Option<bool>
    ensures some { IfSome result (λ value. input.now ≡ bool_text value) }
    ensures none { IfNone result (IsFalse (is_bool input.now)) }
{
    match input {
        "true" => Some(true),
        "false" => Some(false),
        _ => None,
    }
}
