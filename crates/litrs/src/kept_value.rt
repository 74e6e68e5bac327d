//! The value of a string, as the literal keeps it.

/// The value of a string, or its place in the text.
#[derive(Drop)]
pub enum KeptValue<C> {
    /// The place of a body that equals its value: it is raw, or has no backslash.
    InText(BodyPlace),
    /// The value of a quoted body with a backslash.
    Owned(C),
}

/// The place of a body that equals its value, in bytes.
#[derive(Clone, Copy)]
pub struct BodyPlace {
    /// The start, after the opening quote.
    pub start: usize,
    /// The end, at the closing quote.
    pub end: usize,
    /// Set if the body is raw.
    pub is_raw: bool,
}
