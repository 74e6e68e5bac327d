//! The fields of a row.

/// Returns the bytes after these fields, each with a tab after it, if a row starts with them.
pub fn after<'a>(answer: &'a [u8], fields: &[&str]) -> Option<&'a [u8]> {
    let mut rest = answer;
    for field in fields {
        rest = rest.strip_prefix(field.as_bytes())?.strip_prefix(b"\t")?;
    }
    Some(rest)
}

/// Returns the number that a field writes in base ten, if it does.
pub fn decimal(field: &[u8]) -> Option<u128> {
    match str::from_utf8(field) {
        Ok(digits) => digits.parse::<u128>().ok(),
        Err(_) => None,
    }
}

/// Returns the number that a field writes in base sixteen, if it does.
pub fn hex(field: &[u8]) -> Option<u128> {
    match str::from_utf8(field) {
        Ok(digits) => u128::from_str_radix(digits, 16).ok(),
        Err(_) => None,
    }
}

/// Returns the number that a field writes in base ten, or a number that no row has.
pub fn size(field: Option<&str>) -> usize {
    field.unwrap_or("").parse::<usize>().unwrap_or(!0)
}

/// Returns the field before the first tab, and the fields after it.
pub fn split(answer: &str) -> (&str, &str) {
    answer.split_once('\t').unwrap_or((answer, ""))
}
