//! Printable characters, which are shown as they are.
ghost use Rattle.std.specs.Prelude.{◌≡◌};
ghost use Rattle.litrs_diagnostic.specs.Printable.{is_printable};

use ucd_category::{GeneralCategory, GeneralCategoryGroup};

/// Returns `true` if `c` is shown as it is. This is the space U+0020, and each character whose
/// general category is in neither the group Other nor the group Separator. Other are controls,
/// format characters, surrogates, private use and unassigned ones; Separator are spaces and
/// separators of lines and of paragraphs.
pub(crate) fn is_printable(c: char) -> bool
    ensures { result ≡ is_printable c }
{
    let category = GeneralCategory::for_char(c);
    c == ' '
        || !(GeneralCategoryGroup::Other.contains(category)
            || GeneralCategoryGroup::Separator.contains(category))
}
