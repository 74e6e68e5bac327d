//! The integer types that the value of a literal may have.
ghost use Rattle.std.specs.Prelude.{◌≡◌, ℕ, ℤ, ◌+ℤ◌, ◌*ℤ◌, option_map, ◌+◌, ◌*◌, ◌-◌, ◌^◌, ◌≤◌, pos, refl};
ghost use Rattle.std.specs.Option.{SomeIff};
ghost use Rattle.std.proofs.Common.{rules};
ghost use Rattle.litrs_base.specs.declared.integer.IntegerType.{IntegerType};
ghost use Rattle.litrs_base.specs.declared.integer.IntegerType.TheVariants.{U8, U16, U32, U64, U128, Usize, I8, I16, I32, I64, I128, Isize};
ghost use Rattle.litrs_base.specs.Numeral.{greatest_of, IsNumberOf};

use crate::integer::IntegerType;

mod sealed {
    /// A trait that other crates cannot implement.
    pub trait Sealed {}
}

/// The twelve integer types. No other type can implement this trait.
pub trait FromIntegerLiteral: sealed::Sealed + Copy {
    /// The value of a number.
    ghost of: { ℕ → Self };

    /// The number of a value, which may be negative.
    ghost number: { Self → ℤ };

    /// The type.
    ghost integer_type: { IntegerType };

    /// The greatest number of the type.
    ghost greatest: { ℕ };

    /// Returns the value of `n`, which is at most 16.
    fn from_small_number(n: u8) -> Self
        requires { n ≤ 16 }
        ensures { result ≡ of n };

    /// Returns the value of `n`, or `None` if `n` is greater than the greatest number of the type.
    fn from_number(n: u64) -> Option<Self>
        ensures { SomeIff result (n ≤ greatest) (of n) };

    /// Returns the sum, or `None` if it is not a number of the type.
    fn checked_add(self, rhs: Self) -> Option<Self>
        ensures numbers { (m n : ℕ) → self ≡ of m → rhs ≡ of n →
            SomeIff result (m + n ≤ greatest) (of (m + n)) }
        ensures exact { let sum = number self +ℤ number rhs in
            SomeIff (option_map number result) (IsNumberOf integer_type sum) sum };

    /// Returns the product, or `None` if it is not a number of the type.
    fn checked_mul(self, rhs: Self) -> Option<Self>
        ensures numbers { (m n : ℕ) → self ≡ of m → rhs ≡ of n →
            SomeIff result (m * n ≤ greatest) (of (m * n)) }
        ensures exact { let product = number self *ℤ number rhs in
            SomeIff (option_map number result) (IsNumberOf integer_type product) product };

    /// Returns the type.
    fn ty() -> IntegerType
        ensures { result ≡ integer_type };

    /// The greatest number is that of the type.
    ghost greatest_is: { greatest ≡ greatest_of integer_type };

    /// The numbers up to 16 are among the values.
    ghost holds_digits: { 16 ≤ greatest };
}

impl sealed::Sealed for u8 {}

impl FromIntegerLiteral for u8 {
    ghost of = { λ n. n };

    ghost number = { λ n. pos n };

    ghost integer_type = { U8 };

    ghost greatest = { 2 ^ 8 - 1 };

    ghost greatest_is = { refl };

    ghost holds_digits = { Prim.search rules };

    fn from_small_number(n: u8) -> u8 {
        n
    }

    fn from_number(n: u64) -> Option<u8> {
        u8::try_from(n).ok()
    }

    fn checked_add(self, rhs: u8) -> Option<u8> {
        self.checked_add(rhs)
    }

    fn checked_mul(self, rhs: u8) -> Option<u8> {
        self.checked_mul(rhs)
    }

    fn ty() -> IntegerType {
        IntegerType::U8
    }
}

impl sealed::Sealed for u16 {}

impl FromIntegerLiteral for u16 {
    ghost of = { λ n. n };

    ghost number = { λ n. pos n };

    ghost integer_type = { U16 };

    ghost greatest = { 2 ^ 16 - 1 };

    ghost greatest_is = { refl };

    ghost holds_digits = { Prim.search rules };

    fn from_small_number(n: u8) -> u16 {
        u16::from(n)
    }

    fn from_number(n: u64) -> Option<u16> {
        u16::try_from(n).ok()
    }

    fn checked_add(self, rhs: u16) -> Option<u16> {
        self.checked_add(rhs)
    }

    fn checked_mul(self, rhs: u16) -> Option<u16> {
        self.checked_mul(rhs)
    }

    fn ty() -> IntegerType {
        IntegerType::U16
    }
}

impl sealed::Sealed for u32 {}

impl FromIntegerLiteral for u32 {
    ghost of = { λ n. n };

    ghost number = { λ n. pos n };

    ghost integer_type = { U32 };

    ghost greatest = { 2 ^ 32 - 1 };

    ghost greatest_is = { refl };

    ghost holds_digits = { Prim.search rules };

    fn from_small_number(n: u8) -> u32 {
        u32::from(n)
    }

    fn from_number(n: u64) -> Option<u32> {
        u32::try_from(n).ok()
    }

    fn checked_add(self, rhs: u32) -> Option<u32> {
        self.checked_add(rhs)
    }

    fn checked_mul(self, rhs: u32) -> Option<u32> {
        self.checked_mul(rhs)
    }

    fn ty() -> IntegerType {
        IntegerType::U32
    }
}

impl sealed::Sealed for u64 {}

impl FromIntegerLiteral for u64 {
    ghost of = { λ n. n };

    ghost number = { λ n. pos n };

    ghost integer_type = { U64 };

    ghost greatest = { 2 ^ 64 - 1 };

    ghost greatest_is = { refl };

    ghost holds_digits = { Prim.search rules };

    fn from_small_number(n: u8) -> u64 {
        u64::from(n)
    }

    fn from_number(n: u64) -> Option<u64> {
        Some(n)
    }

    fn checked_add(self, rhs: u64) -> Option<u64> {
        self.checked_add(rhs)
    }

    fn checked_mul(self, rhs: u64) -> Option<u64> {
        self.checked_mul(rhs)
    }

    fn ty() -> IntegerType {
        IntegerType::U64
    }
}

impl sealed::Sealed for u128 {}

impl FromIntegerLiteral for u128 {
    ghost of = { λ n. n };

    ghost number = { λ n. pos n };

    ghost integer_type = { U128 };

    ghost greatest = { 2 ^ 128 - 1 };

    ghost greatest_is = { refl };

    ghost holds_digits = { Prim.search rules };

    fn from_small_number(n: u8) -> u128 {
        u128::from(n)
    }

    fn from_number(n: u64) -> Option<u128> {
        Some(u128::from(n))
    }

    fn checked_add(self, rhs: u128) -> Option<u128> {
        self.checked_add(rhs)
    }

    fn checked_mul(self, rhs: u128) -> Option<u128> {
        self.checked_mul(rhs)
    }

    fn ty() -> IntegerType {
        IntegerType::U128
    }
}

impl sealed::Sealed for usize {}

impl FromIntegerLiteral for usize {
    ghost of = { λ n. n };

    ghost number = { λ n. pos n };

    ghost integer_type = { Usize };

    ghost greatest = { 2 ^ 64 - 1 };

    ghost greatest_is = { refl };

    ghost holds_digits = { Prim.search rules };

    fn from_small_number(n: u8) -> usize {
        usize::from(n)
    }

    fn from_number(n: u64) -> Option<usize> {
        usize::try_from(n).ok()
    }

    fn checked_add(self, rhs: usize) -> Option<usize> {
        self.checked_add(rhs)
    }

    fn checked_mul(self, rhs: usize) -> Option<usize> {
        self.checked_mul(rhs)
    }

    fn ty() -> IntegerType {
        IntegerType::Usize
    }
}

impl sealed::Sealed for i8 {}

impl FromIntegerLiteral for i8 {
    ghost of = { λ n. pos n };

    ghost number = { λ n. n };

    ghost integer_type = { I8 };

    ghost greatest = { 2 ^ 7 - 1 };

    ghost greatest_is = { refl };

    ghost holds_digits = { Prim.search rules };

    fn from_small_number(n: u8) -> i8 {
        n as i8
    }

    fn from_number(n: u64) -> Option<i8> {
        i8::try_from(n).ok()
    }

    fn checked_add(self, rhs: i8) -> Option<i8> {
        self.checked_add(rhs)
    }

    fn checked_mul(self, rhs: i8) -> Option<i8> {
        self.checked_mul(rhs)
    }

    fn ty() -> IntegerType {
        IntegerType::I8
    }
}

impl sealed::Sealed for i16 {}

impl FromIntegerLiteral for i16 {
    ghost of = { λ n. pos n };

    ghost number = { λ n. n };

    ghost integer_type = { I16 };

    ghost greatest = { 2 ^ 15 - 1 };

    ghost greatest_is = { refl };

    ghost holds_digits = { Prim.search rules };

    fn from_small_number(n: u8) -> i16 {
        i16::from(n)
    }

    fn from_number(n: u64) -> Option<i16> {
        i16::try_from(n).ok()
    }

    fn checked_add(self, rhs: i16) -> Option<i16> {
        self.checked_add(rhs)
    }

    fn checked_mul(self, rhs: i16) -> Option<i16> {
        self.checked_mul(rhs)
    }

    fn ty() -> IntegerType {
        IntegerType::I16
    }
}

impl sealed::Sealed for i32 {}

impl FromIntegerLiteral for i32 {
    ghost of = { λ n. pos n };

    ghost number = { λ n. n };

    ghost integer_type = { I32 };

    ghost greatest = { 2 ^ 31 - 1 };

    ghost greatest_is = { refl };

    ghost holds_digits = { Prim.search rules };

    fn from_small_number(n: u8) -> i32 {
        i32::from(n)
    }

    fn from_number(n: u64) -> Option<i32> {
        i32::try_from(n).ok()
    }

    fn checked_add(self, rhs: i32) -> Option<i32> {
        self.checked_add(rhs)
    }

    fn checked_mul(self, rhs: i32) -> Option<i32> {
        self.checked_mul(rhs)
    }

    fn ty() -> IntegerType {
        IntegerType::I32
    }
}

impl sealed::Sealed for i64 {}

impl FromIntegerLiteral for i64 {
    ghost of = { λ n. pos n };

    ghost number = { λ n. n };

    ghost integer_type = { I64 };

    ghost greatest = { 2 ^ 63 - 1 };

    ghost greatest_is = { refl };

    ghost holds_digits = { Prim.search rules };

    fn from_small_number(n: u8) -> i64 {
        i64::from(n)
    }

    fn from_number(n: u64) -> Option<i64> {
        i64::try_from(n).ok()
    }

    fn checked_add(self, rhs: i64) -> Option<i64> {
        self.checked_add(rhs)
    }

    fn checked_mul(self, rhs: i64) -> Option<i64> {
        self.checked_mul(rhs)
    }

    fn ty() -> IntegerType {
        IntegerType::I64
    }
}

impl sealed::Sealed for i128 {}

impl FromIntegerLiteral for i128 {
    ghost of = { λ n. pos n };

    ghost number = { λ n. n };

    ghost integer_type = { I128 };

    ghost greatest = { 2 ^ 127 - 1 };

    ghost greatest_is = { refl };

    ghost holds_digits = { Prim.search rules };

    fn from_small_number(n: u8) -> i128 {
        i128::from(n)
    }

    fn from_number(n: u64) -> Option<i128> {
        Some(i128::from(n))
    }

    fn checked_add(self, rhs: i128) -> Option<i128> {
        self.checked_add(rhs)
    }

    fn checked_mul(self, rhs: i128) -> Option<i128> {
        self.checked_mul(rhs)
    }

    fn ty() -> IntegerType {
        IntegerType::I128
    }
}

impl sealed::Sealed for isize {}

impl FromIntegerLiteral for isize {
    ghost of = { λ n. pos n };

    ghost number = { λ n. n };

    ghost integer_type = { Isize };

    ghost greatest = { 2 ^ 63 - 1 };

    ghost greatest_is = { refl };

    ghost holds_digits = { Prim.search rules };

    fn from_small_number(n: u8) -> isize {
        isize::from(n)
    }

    fn from_number(n: u64) -> Option<isize> {
        isize::try_from(n).ok()
    }

    fn checked_add(self, rhs: isize) -> Option<isize> {
        self.checked_add(rhs)
    }

    fn checked_mul(self, rhs: isize) -> Option<isize> {
        self.checked_mul(rhs)
    }

    fn ty() -> IntegerType {
        IntegerType::Isize
    }
}
