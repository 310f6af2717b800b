//! The builtin types, after rust-analyzer's `builtin_type.rs`.
ghost use Rattle.std.specs.Prelude.{◌≡◌, Some};
ghost use Rattle.hir_ids.specs.BuiltinType.{int_text, uint_text, float_text, builtin_text, int_named, uint_named, float_named, other_named, builtin_named, all_builtin_types};

use crate::name::Name;
use std::fmt::{Display, Formatter, Write};

/// A signed integer type.
#[derive(Clone, Copy, Debug, PartialEq, Eq, PartialOrd, Ord, Hash)]
pub enum BuiltinInt {
    Isize,
    I8,
    I16,
    I32,
    I64,
    I128,
}

impl BuiltinInt {
    /// The type with this suffix of a literal, which is its name.
    pub fn from_suffix(suffix: &str) -> Option<BuiltinInt>
        ensures value { result ≡ int_named suffix.now }
    {
        match suffix {
            "isize" => Some(BuiltinInt::Isize),
            "i8" => Some(BuiltinInt::I8),
            "i16" => Some(BuiltinInt::I16),
            "i32" => Some(BuiltinInt::I32),
            "i64" => Some(BuiltinInt::I64),
            "i128" => Some(BuiltinInt::I128),
            _ => None,
        }
    }

    /// The same of a name.
    pub fn from_suffix_sym(suffix: &Name) -> Option<BuiltinInt>
        ensures value { result ≡ int_named suffix.now }
    {
        BuiltinInt::from_suffix(suffix.as_str())
    }

    /// The type's name.
    pub fn as_str(&self) -> &'static str
        ensures value { result.now ≡ int_text self.now }
    {
        match *self {
            BuiltinInt::Isize => "isize",
            BuiltinInt::I8 => "i8",
            BuiltinInt::I16 => "i16",
            BuiltinInt::I32 => "i32",
            BuiltinInt::I64 => "i64",
            BuiltinInt::I128 => "i128",
        }
    }
}

/// An unsigned integer type.
#[derive(Clone, Copy, Debug, PartialEq, Eq, PartialOrd, Ord, Hash)]
pub enum BuiltinUint {
    Usize,
    U8,
    U16,
    U32,
    U64,
    U128,
}

impl BuiltinUint {
    /// The type with this suffix of a literal, which is its name.
    pub fn from_suffix(suffix: &str) -> Option<BuiltinUint>
        ensures value { result ≡ uint_named suffix.now }
    {
        match suffix {
            "usize" => Some(BuiltinUint::Usize),
            "u8" => Some(BuiltinUint::U8),
            "u16" => Some(BuiltinUint::U16),
            "u32" => Some(BuiltinUint::U32),
            "u64" => Some(BuiltinUint::U64),
            "u128" => Some(BuiltinUint::U128),
            _ => None,
        }
    }

    /// The same of a name.
    pub fn from_suffix_sym(suffix: &Name) -> Option<BuiltinUint>
        ensures value { result ≡ uint_named suffix.now }
    {
        BuiltinUint::from_suffix(suffix.as_str())
    }

    /// The type's name.
    pub fn as_str(&self) -> &'static str
        ensures value { result.now ≡ uint_text self.now }
    {
        match *self {
            BuiltinUint::Usize => "usize",
            BuiltinUint::U8 => "u8",
            BuiltinUint::U16 => "u16",
            BuiltinUint::U32 => "u32",
            BuiltinUint::U64 => "u64",
            BuiltinUint::U128 => "u128",
        }
    }
}

/// A floating-point type.
#[derive(Clone, Copy, Debug, PartialEq, Eq, PartialOrd, Ord, Hash)]
pub enum BuiltinFloat {
    F16,
    F32,
    F64,
    F128,
}

impl BuiltinFloat {
    /// The type with this suffix of a literal, which is its name.
    pub fn from_suffix(suffix: &str) -> Option<BuiltinFloat>
        ensures value { result ≡ float_named suffix.now }
    {
        match suffix {
            "f16" => Some(BuiltinFloat::F16),
            "f32" => Some(BuiltinFloat::F32),
            "f64" => Some(BuiltinFloat::F64),
            "f128" => Some(BuiltinFloat::F128),
            _ => None,
        }
    }

    /// The type's name.
    pub fn as_str(&self) -> &'static str
        ensures value { result.now ≡ float_text self.now }
    {
        match *self {
            BuiltinFloat::F16 => "f16",
            BuiltinFloat::F32 => "f32",
            BuiltinFloat::F64 => "f64",
            BuiltinFloat::F128 => "f128",
        }
    }
}

/// A builtin type.
#[derive(Clone, Copy, Debug, PartialEq, Eq, PartialOrd, Ord, Hash)]
pub enum BuiltinType {
    Char,
    Bool,
    Str,
    Int(BuiltinInt),
    Uint(BuiltinUint),
    Float(BuiltinFloat),
}

impl BuiltinType {
    /// The builtin type that this name stands for.
    pub fn by_name(name: &Name) -> Option<BuiltinType>
        ensures value { result ≡ builtin_named name.now }
    {
        let text = name.as_str();
        if let Some(found) = by_other_name(text) {
            return Some(found);
        }
        if let Some(kind) = BuiltinInt::from_suffix(text) {
            return Some(BuiltinType::Int(kind));
        }
        if let Some(kind) = BuiltinUint::from_suffix(text) {
            return Some(BuiltinType::Uint(kind));
        }
        if let Some(kind) = BuiltinFloat::from_suffix(text) {
            return Some(BuiltinType::Float(kind));
        }
        None
    }

    /// The type's name.
    pub fn as_str(&self) -> &'static str
        ensures value { result.now ≡ builtin_text self.now }
    {
        match self {
            BuiltinType::Char => "char",
            BuiltinType::Bool => "bool",
            BuiltinType::Str => "str",
            BuiltinType::Int(kind) => kind.as_str(),
            BuiltinType::Uint(kind) => kind.as_str(),
            BuiltinType::Float(kind) => kind.as_str(),
        }
    }

    /// The type's name, as a name.
    pub fn as_name(&self) -> Name
        ensures value { result ≡ builtin_text self.now }
    {
        Name::of_builtin(*self)
    }
}

/// All builtin types.
pub fn all_builtin_types() -> [BuiltinType; 19]
    ensures value { result ≡ all_builtin_types }
{
    [
        BuiltinType::Char,
        BuiltinType::Bool,
        BuiltinType::Str,
        BuiltinType::Int(BuiltinInt::Isize),
        BuiltinType::Int(BuiltinInt::I8),
        BuiltinType::Int(BuiltinInt::I16),
        BuiltinType::Int(BuiltinInt::I32),
        BuiltinType::Int(BuiltinInt::I64),
        BuiltinType::Int(BuiltinInt::I128),
        BuiltinType::Uint(BuiltinUint::Usize),
        BuiltinType::Uint(BuiltinUint::U8),
        BuiltinType::Uint(BuiltinUint::U16),
        BuiltinType::Uint(BuiltinUint::U32),
        BuiltinType::Uint(BuiltinUint::U64),
        BuiltinType::Uint(BuiltinUint::U128),
        BuiltinType::Float(BuiltinFloat::F16),
        BuiltinType::Float(BuiltinFloat::F32),
        BuiltinType::Float(BuiltinFloat::F64),
        BuiltinType::Float(BuiltinFloat::F128),
    ]
}

impl Display for BuiltinInt {
    ghost output = { λ kind. Some (int_text kind) };

    fn fmt<W: Write>(&self, f: &mut Formatter<W>) -> std::fmt::Result {
        f.write_str(self.as_str())
    }
}

impl Display for BuiltinUint {
    ghost output = { λ kind. Some (uint_text kind) };

    fn fmt<W: Write>(&self, f: &mut Formatter<W>) -> std::fmt::Result {
        f.write_str(self.as_str())
    }
}

impl Display for BuiltinFloat {
    ghost output = { λ kind. Some (float_text kind) };

    fn fmt<W: Write>(&self, f: &mut Formatter<W>) -> std::fmt::Result {
        f.write_str(self.as_str())
    }
}

impl Display for BuiltinType {
    ghost output = { λ builtin. Some (builtin_text builtin) };

    fn fmt<W: Write>(&self, f: &mut Formatter<W>) -> std::fmt::Result {
        f.write_str(self.as_str())
    }
}

/// The builtin type that is no number and has this name.
fn by_other_name(name: &str) -> Option<BuiltinType>
    ensures value { result ≡ other_named name.now }
{
    match name {
        "char" => Some(BuiltinType::Char),
        "bool" => Some(BuiltinType::Bool),
        "str" => Some(BuiltinType::Str),
        _ => None,
    }
}
