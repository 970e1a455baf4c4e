//! Types of C (C17 6.2.5).
ghost use Rattle.std.specs.Prelude.{◌≡◌, ◌≤◌, ◌++◌, map, length, take, drop, IfOk, OnOk};
ghost use Rattle.types_rules.specs.Types as types;
ghost use Rattle.types_rules.specs.Limits as limit;
ghost use Rattle.types_rules.specs.Profile.{most_lengths};
ghost use Rattle.types_rules.specs.Declarators as declarators;
ghost use Rattle.types_scopes.specs.Types.{base_of, type_of, kind_of, signature_of, length_list};

use mc_limits::MOST_NESTING;
use mc_value::{IntType, MOST_CELLS};
use std::alloc::{AllocError, Global};

// The lengths that a type keeps: enough to see that it nests too deep.
const MOST_LENGTHS: usize = MOST_NESTING as usize + 2;

/// A type that is no array: void, an integer type, or the structure type with this number.
#[derive(Clone, Copy)]
pub enum Base {
    Void,
    Integer(IntType),
    Tagged(usize),
}

/// A type: so many elements of so many elements .. of its base, the outermost length first. `const`
/// qualifies the base (C17 6.7.3p9).
pub struct CType {
    pub base: Base,
    pub is_const: bool,
    pub lengths: Vec<u32>,
}

impl Drop for CType {
    fn drop(self) {
        let Self {
            base: _,
            is_const: _,
            lengths: _,
        } = self;
    }
}

/// What a parameter takes (C17 6.7.6.3).
#[derive(Drop)]
pub enum ParameterKind {
    /// An integer or a structure.
    Value(Base),
    /// An array with elements of this type.
    Array(CType),
}

/// The type of a function.
#[derive(Drop)]
pub struct Signature {
    pub result: Base,
    pub parameters: Vec<ParameterKind>,
}

// The number of an integer type.
fn order(of: IntType) -> u32
    ensures { result ≡ types.order_of of }
{
    match of {
        IntType::Bool => 0,
        IntType::Char => 1,
        IntType::SChar => 2,
        IntType::UChar => 3,
        IntType::Short => 4,
        IntType::UShort => 5,
        IntType::Int => 6,
        IntType::UInt => 7,
        IntType::Long => 8,
        IntType::ULong => 9,
        IntType::LLong => 10,
        IntType::ULLong => 11,
    }
}

// Whether two integer types are one (C17 6.2.5p14).
fn same_integer(a: IntType, b: IntType) -> bool
    ensures { result ≡ types.same_integer a b }
{
    order(a) == order(b)
}

/// Whether two bases are one. Takes no memory.
pub fn same_base(a: Base, b: Base) -> bool
    ensures { result ≡ types.same_base (base_of a) (base_of b) }
{
    match a {
        Base::Void => match b {
            Base::Void => true,
            Base::Integer(_) => false,
            Base::Tagged(_) => false,
        },
        Base::Integer(left) => match b {
            Base::Integer(right) => same_integer(left, right),
            Base::Void => false,
            Base::Tagged(_) => false,
        },
        Base::Tagged(left) => match b {
            Base::Tagged(right) => left == right,
            Base::Void => false,
            Base::Integer(_) => false,
        },
    }
}

/// Whether two lists of lengths are one. Takes no memory.
pub fn same_lengths(a: &[u32], b: &[u32]) -> bool
    ensures { result ≡ types.same_lengths a.now b.now }
{
    let mut left = b;
    for length in a {
        let [first, later @ ..] = left else {
            return false;
        };
        if length != first {
            return false;
        }
        left = later;
    }
    left.is_empty()
}

// Adds the lengths of a list, but no more than a type keeps.
fn add_lengths(lengths: &mut Vec<u32>, more: &[u32]) -> Result<(), AllocError>
    requires { length lengths.old.items ≤ most_lengths }
    ensures { OnOk result
        (lengths.new.items ≡ take most_lengths (lengths.old.items ++ more.now)) }
{
    let room = MOST_LENGTHS - lengths.len();
    let (kept, _) = more.split_at(room.min(more.len()));
    lengths.extend_from_slice(kept)?;
    Ok(())
}

impl CType {
    /// A type that is no array, without `const`. Takes no memory.
    pub fn plain(alloc: Global, base: Base) -> CType
        ensures { type_of result ≡ types.plain (base_of base) }
    {
        CType {
            base,
            is_const: false,
            lengths: Vec::new(alloc),
        }
    }

    /// The same type.
    pub fn try_clone(&self) -> Result<CType, AllocError>
        ensures { IfOk result (λ r. type_of r ≡ type_of self.now) }
    {
        let lengths = self.lengths.clone()?;
        Ok(CType {
            base: self.base,
            is_const: self.is_const,
            lengths,
        })
    }

    /// Whether one of its lengths passes the limit. Takes no memory.
    pub fn is_long(&self) -> bool
        ensures { result ≡ limit.is_long self.now.lengths.items }
    {
        for length in &self.lengths {
            if *length > MOST_CELLS {
                return true;
            }
        }
        false
    }

    /// Whether two types are one but for their qualifiers. Takes no memory.
    pub fn same_unqualified(&self, other: &CType) -> bool
        ensures { result ≡ types.same_unqualified (type_of self.now) (type_of other.now) }
    {
        same_base(self.base, other.base) && same_lengths(&self.lengths, &other.lengths)
    }

    /// Whether two types are one. Takes no memory.
    pub fn same_type(&self, other: &CType) -> bool
        ensures { result ≡ types.same_type (type_of self.now) (type_of other.now) }
    {
        self.same_unqualified(other) && self.is_const == other.is_const
    }

    /// The type with `const` too, where it is asked for. Takes no memory.
    pub fn qualified(self, is_const: bool) -> CType
        ensures { type_of result ≡ types.qualified is_const (type_of self) }
    {
        let Self {
            base,
            is_const: before,
            lengths,
        } = self;
        CType {
            base,
            is_const: before || is_const,
            lengths,
        }
    }

    /// The type of the elements of an array: the type without its first length. Takes no memory.
    pub fn element(self) -> CType
        ensures { type_of result ≡ record (type_of self) { lengths = drop 1 self.lengths.items } }
    {
        let Self {
            base,
            is_const,
            mut lengths,
        } = self;
        if !lengths.is_empty() {
            lengths.remove(0);
        }
        CType {
            base,
            is_const,
            lengths,
        }
    }

    /// An array of so many elements .. of the type, the first length in front where it stands
    /// apart. A type keeps two lengths more than arrays may nest: enough to see that it passes the
    /// limit.
    pub fn array_of(
        alloc: Global,
        front: Option<u32>,
        rest: &[u32],
        of: &CType,
    ) -> Result<CType, AllocError>
        ensures { IfOk result (λ r. type_of r
            ≡ declarators.array_of (length_list front) rest.now (type_of of.now)) }
    {
        let mut lengths = front_lengths(alloc, front)?;
        add_lengths(&mut lengths, rest)?;
        add_lengths(&mut lengths, &of.lengths)?;
        Ok(CType {
            base: of.base,
            is_const: of.is_const,
            lengths,
        })
    }
}

// The length that stands apart, where there is one.
fn front_lengths(alloc: Global, front: Option<u32>) -> Result<Vec<u32>, AllocError>
    ensures { IfOk result (λ r. r.items ≡ length_list front) }
{
    let mut lengths = Vec::new(alloc);
    if let Some(length) = front {
        lengths.push(length)?;
    }
    Ok(lengths)
}

impl ParameterKind {
    /// The same kind.
    pub fn try_clone(&self) -> Result<ParameterKind, AllocError>
        ensures { IfOk result (λ r. kind_of r ≡ kind_of self.now) }
    {
        match self {
            ParameterKind::Value(base) => Ok(ParameterKind::Value(*base)),
            ParameterKind::Array(element) => {
                let element = element.try_clone()?;
                Ok(ParameterKind::Array(element))
            }
        }
    }
}

// Whether two parameters take the same.
fn same_parameter(a: &ParameterKind, b: &ParameterKind) -> bool
    ensures { result ≡ types.same_parameter (kind_of a.now) (kind_of b.now) }
{
    match a {
        ParameterKind::Value(left) => match b {
            ParameterKind::Value(right) => same_base(*left, *right),
            ParameterKind::Array(_) => false,
        },
        ParameterKind::Array(left) => match b {
            ParameterKind::Array(right) => left.same_type(right),
            ParameterKind::Value(_) => false,
        },
    }
}

// Whether two lists of parameters take the same.
fn same_parameters(a: &[ParameterKind], b: &[ParameterKind]) -> bool
    ensures { result ≡ types.same_parameters (map kind_of a.now) (map kind_of b.now) }
{
    let mut left = b;
    for kind in a {
        let [first, later @ ..] = left else {
            return false;
        };
        if !same_parameter(kind, first) {
            return false;
        }
        left = later;
    }
    left.is_empty()
}

impl Signature {
    /// Whether two functions have one type (C17 6.7p4, 6.7.6.3p15). Takes no memory.
    pub fn same_signature(&self, other: &Signature) -> bool
        ensures { result ≡ types.same_signature (signature_of self.now) (signature_of other.now) }
    {
        same_base(self.result, other.result) && same_parameters(&self.parameters, &other.parameters)
    }
}
