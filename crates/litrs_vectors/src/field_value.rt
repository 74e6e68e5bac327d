//! Values as the table writes them.
use crate::fields::hex;
use litrs::CString;
use std::num::{f32_to_bits_with_nan, f64_to_bits_with_nan};
use std::str::FromStr;

/// A form in which a field of the table says a value of type `T`.
pub trait Form<T> {
    /// Returns `true` if `field` says this value.
    fn is_said(value: &T, field: &[u8]) -> bool;
}

/// An integer in decimal, or a bool.
pub struct Plain;

impl<T: FromStr + PartialEq + Drop> Form<T> for Plain
where
    T::Err: Drop,
{
    fn is_said(value: &T, field: &[u8]) -> bool {
        match &str::from_utf8(field).unwrap_or("").parse::<T>() {
            Ok(said) => said == value,
            Err(_) => false,
        }
    }
}

/// A number in hex: the code of a char, the bits of a float.
pub struct Hex;

impl Form<char> for Hex {
    fn is_said(value: &char, field: &[u8]) -> bool {
        hex(field) == Some(u128::from(u32::from(*value)))
    }
}

impl Form<f32> for Hex {
    fn is_said(value: &f32, field: &[u8]) -> bool {
        hex(field) == Some(u128::from(f32_to_bits_with_nan(*value)))
    }
}

impl Form<f64> for Hex {
    fn is_said(value: &f64, field: &[u8]) -> bool {
        hex(field) == Some(u128::from(f64_to_bits_with_nan(*value)))
    }
}

/// The contents themselves.
pub struct Contents;

impl Form<String> for Contents {
    fn is_said(value: &String, field: &[u8]) -> bool {
        value.as_bytes() == field
    }
}

impl Form<Vec<u8>> for Contents {
    fn is_said(value: &Vec<u8>, field: &[u8]) -> bool {
        value.as_slice() == field
    }
}

impl Form<CString> for Contents {
    fn is_said(value: &CString, field: &[u8]) -> bool {
        value.to_bytes() == field
    }
}
