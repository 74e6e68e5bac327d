//! The sizes of the types over `&str`, in bytes. The checker evaluates each line.
use litrs::{
    BoolLit, ByteLit, ByteStringLit, CStringLit, CharLit, FloatLit, IntegerLit, Literal,
    ParseError, StringLit,
};

const _: () = prove!(size_of::<ParseError>() == 40);

const _: () = prove!(size_of::<Literal<&str>>() == 64);

const _: () = prove!(size_of::<Result<Literal<&str>, ParseError>>() == 72);

const _: () = prove!(size_of::<BoolLit>() == 1);

const _: () = prove!(size_of::<IntegerLit<&str>>() == 40);

const _: () = prove!(size_of::<FloatLit<&str>>() == 40);

const _: () = prove!(size_of::<CharLit<&str>>() == 32);

const _: () = prove!(size_of::<ByteLit<&str>>() == 32);

const _: () = prove!(size_of::<StringLit<&str>>() == 56);

const _: () = prove!(size_of::<ByteStringLit<&str>>() == 56);

const _: () = prove!(size_of::<CStringLit<&str>>() == 48);
