//! Printable characters, which are shown as they are.
ghost use Rattle.std.specs.Prelude.{◌≡◌, ◌&&◌, nat_le};
ghost use Rattle.litrs_build.specs.Printable.{is_printable};

use unicode::properties::{GeneralCategory, GeneralCategoryGroup};

/// Returns `true` if `c` is the space U+0020, or if its general category is in neither the group
/// Other nor the group Separator. Other are controls, format characters, surrogates, private use
/// and unassigned ones; Separator are spaces and separators of lines and of paragraphs.
///
/// `a`, `é` and the space are printable; LF, U+00A0 and U+200B are not. The categories are those of
/// the crate `unicode`. See The Unicode Standard, section 4.5.
pub fn is_printable(c: char) -> bool
    ensures { result ≡ is_printable c }
{
    if c.is_ascii() {
        return is_printable_ascii(c);
    }
    let category = GeneralCategory::for_char(c);
    !(GeneralCategoryGroup::Other.contains(category)
        || GeneralCategoryGroup::Separator.contains(category))
}

/// Returns `true` if `c` is printable ASCII, without a look into the table of categories.
fn is_printable_ascii(c: char) -> bool
    ensures { result ≡ (nat_le 32 c && nat_le c 126) }
{
    matches!(c, ' '..='~')
}
