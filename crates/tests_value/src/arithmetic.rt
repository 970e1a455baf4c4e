//! Worked values. Those of operations that C defines were computed by gcc on x86-64 Linux.

ghost use Rattle.std.specs.Prelude.{◌≡◌, ◌+◌, IfOk, IsTrue};
ghost use Rattle.mc_value.specs.IntTypes.{InRange};
ghost use Rattle.mc_value.specs.Conversions.{promoted};
ghost use Rattle.mc_value.specs.ObjectTypes.{cells_of};

use IntType::{Bool, Char, Int, LLong, Long, SChar, Short, UChar, UInt, ULLong, ULong, UShort};
use ShiftOp::{Left, Right};
use mc_value::{
    BinOp, IntType, ObjType, ShiftOp, Trap, UnOp, binary, cells, common, convert, promote, shift,
    unary,
};
use std::alloc::Global;
use std::sync::Arc;
use std::test::Fail;

static TYPES: [IntType; 12] = [
    Bool, Char, SChar, UChar, Short, UShort, Int, UInt, Long, ULong, LLong, ULLong,
];

/// What each number becomes in each of the types.
static CONVERTED: [(i128, &str); 8] = [
    (
        -1,
        "1 -1 -1 255 -1 65535 -1 4294967295 -1 18446744073709551615 -1 18446744073709551615",
    ),
    (255, "1 -1 -1 255 255 255 255 255 255 255 255 255"),
    (256, "1 0 0 0 256 256 256 256 256 256 256 256"),
    (
        -129,
        "1 127 127 127 -129 65407 -129 4294967167 -129 18446744073709551487 -129 18446744073709551487",
    ),
    (
        2147483648,
        "1 0 0 0 0 0 -2147483648 2147483648 2147483648 2147483648 2147483648 2147483648",
    ),
    (
        9223372036854775808,
        "1 0 0 0 0 0 0 0 -9223372036854775808 9223372036854775808 -9223372036854775808 9223372036854775808",
    ),
    (
        18446744073709551615,
        "1 -1 -1 255 -1 65535 -1 4294967295 -1 18446744073709551615 -1 18446744073709551615",
    ),
    (0, "0 0 0 0 0 0 0 0 0 0 0 0"),
];

/// What each type is promoted to.
const PROMOTED: &str = "Int Int Int Int Int Int Int UInt Long ULong LLong ULLong";

/// The common type of each type with each.
static COMMON: [&str; 12] = [
    "Int Int Int Int Int Int Int UInt Long ULong LLong ULLong",
    "Int Int Int Int Int Int Int UInt Long ULong LLong ULLong",
    "Int Int Int Int Int Int Int UInt Long ULong LLong ULLong",
    "Int Int Int Int Int Int Int UInt Long ULong LLong ULLong",
    "Int Int Int Int Int Int Int UInt Long ULong LLong ULLong",
    "Int Int Int Int Int Int Int UInt Long ULong LLong ULLong",
    "Int Int Int Int Int Int Int UInt Long ULong LLong ULLong",
    "UInt UInt UInt UInt UInt UInt UInt UInt Long ULong LLong ULLong",
    "Long Long Long Long Long Long Long Long Long ULong LLong ULLong",
    "ULong ULong ULong ULong ULong ULong ULong ULong ULong ULong ULLong ULLong",
    "LLong LLong LLong LLong LLong LLong LLong LLong LLong ULLong LLong ULLong",
    "ULLong ULLong ULLong ULLong ULLong ULLong ULLong ULLong ULLong ULLong ULLong ULLong",
];

static BINARY_OPERATORS: [BinOp; 14] = [
    BinOp::Mul,
    BinOp::Div,
    BinOp::Rem,
    BinOp::Add,
    BinOp::Sub,
    BinOp::Lt,
    BinOp::Gt,
    BinOp::Le,
    BinOp::Ge,
    BinOp::Eq,
    BinOp::Ne,
    BinOp::And,
    BinOp::Xor,
    BinOp::Or,
];

/// Two types of one width, two operands, and what each operator gives for them.
static BINARY: [([IntType; 2], i128, i128, &str); 20] = [
    (
        [Int, Int],
        -2147483648,
        2147483647,
        "Overflow -1 -1 -1 Overflow 1 0 1 0 0 1 0 -1 -1",
    ),
    (
        [Int, Int],
        2147483647,
        -1,
        "-2147483647 -2147483647 0 2147483646 Overflow 0 1 0 1 0 1 2147483647 -2147483648 -1",
    ),
    (
        [Int, Int],
        -2147483648,
        -1,
        "Overflow Overflow Overflow Overflow -2147483647 1 0 1 0 0 1 -2147483648 2147483647 -1",
    ),
    (
        [Int, Int],
        2147483647,
        0,
        "0 Division Division 2147483647 2147483647 0 1 0 1 0 1 0 2147483647 2147483647",
    ),
    (
        [UInt, UInt],
        0,
        4294967295,
        "0 0 0 4294967295 1 1 0 1 0 0 1 0 4294967295 4294967295",
    ),
    (
        [UInt, UInt],
        4294967295,
        4294967295,
        "1 1 0 4294967294 0 0 0 1 1 1 0 4294967295 0 4294967295",
    ),
    ([UInt, UInt], 0, 1, "0 0 0 1 4294967295 1 0 1 0 0 1 0 1 1"),
    (
        [UInt, UInt],
        4294967295,
        0,
        "0 Division Division 4294967295 4294967295 0 1 0 1 0 1 0 4294967295 4294967295",
    ),
    (
        [Long, LLong],
        -9223372036854775808,
        9223372036854775807,
        "Overflow -1 -1 -1 Overflow 1 0 1 0 0 1 0 -1 -1",
    ),
    (
        [Long, LLong],
        9223372036854775807,
        -1,
        "-9223372036854775807 -9223372036854775807 0 9223372036854775806 Overflow 0 1 0 1 0 1 9223372036854775807 -9223372036854775808 -1",
    ),
    (
        [Long, LLong],
        -9223372036854775808,
        -1,
        "Overflow Overflow Overflow Overflow -9223372036854775807 1 0 1 0 0 1 -9223372036854775808 9223372036854775807 -1",
    ),
    (
        [Long, LLong],
        9223372036854775807,
        0,
        "0 Division Division 9223372036854775807 9223372036854775807 0 1 0 1 0 1 0 9223372036854775807 9223372036854775807",
    ),
    (
        [ULong, ULLong],
        0,
        18446744073709551615,
        "0 0 0 18446744073709551615 1 1 0 1 0 0 1 0 18446744073709551615 18446744073709551615",
    ),
    (
        [ULong, ULLong],
        18446744073709551615,
        18446744073709551615,
        "1 1 0 18446744073709551614 0 0 0 1 1 1 0 18446744073709551615 0 18446744073709551615",
    ),
    (
        [ULong, ULLong],
        0,
        1,
        "0 0 0 1 18446744073709551615 1 0 1 0 0 1 0 1 1",
    ),
    (
        [ULong, ULLong],
        18446744073709551615,
        0,
        "0 Division Division 18446744073709551615 18446744073709551615 0 1 0 1 0 1 0 18446744073709551615 18446744073709551615",
    ),
    ([Int, Int], 5, -1, "-5 -5 0 4 6 0 1 0 1 0 1 5 -6 -1"),
    ([Int, Int], -7, 2, "-14 -3 -1 -5 -9 1 0 1 0 0 1 0 -5 -5"),
    ([Int, Int], 7, -2, "-14 -3 1 5 9 0 1 0 1 0 1 6 -7 -1"),
    ([Int, Int], 12, 10, "120 1 2 22 2 0 1 0 1 0 1 8 6 14"),
];

static UNARY_OPERATORS: [UnOp; 4] = [UnOp::Plus, UnOp::Minus, UnOp::Flip, UnOp::Not];

/// Two types of one width, an operand, and what each operator gives for it.
static UNARY: [([IntType; 2], i128, &str); 8] = [
    ([Int, Int], -2147483648, "-2147483648 Overflow 2147483647 0"),
    (
        [Int, Int],
        2147483647,
        "2147483647 -2147483647 -2147483648 0",
    ),
    ([UInt, UInt], 0, "0 0 4294967295 1"),
    ([UInt, UInt], 4294967295, "4294967295 1 0 0"),
    (
        [Long, LLong],
        -9223372036854775808,
        "-9223372036854775808 Overflow 9223372036854775807 0",
    ),
    (
        [Long, LLong],
        9223372036854775807,
        "9223372036854775807 -9223372036854775807 -9223372036854775808 0",
    ),
    ([ULong, ULLong], 0, "0 0 18446744073709551615 1"),
    (
        [ULong, ULLong],
        18446744073709551615,
        "18446744073709551615 1 0 0",
    ),
];

static COUNTS: [i128; 6] = [-1, 0, 31, 32, 63, 64];

/// An operator, two types of one width, an operand, and what it gives for each count.
static SHIFTS: [(ShiftOp, [IntType; 2], i128, &str); 24] = [
    (Left, [Int, Int], 1, "Shift 1 Shift Shift Shift Shift"),
    (Left, [Int, Int], -1, "Shift Shift Shift Shift Shift Shift"),
    (Left, [Int, Int], 0, "Shift 0 0 Shift Shift Shift"),
    (
        Right,
        [Int, Int],
        -2147483648,
        "Shift -2147483648 -1 Shift Shift Shift",
    ),
    (
        Right,
        [Int, Int],
        2147483647,
        "Shift 2147483647 0 Shift Shift Shift",
    ),
    (Right, [Int, Int], -1, "Shift -1 -1 Shift Shift Shift"),
    (
        Left,
        [UInt, UInt],
        1,
        "Shift 1 2147483648 Shift Shift Shift",
    ),
    (
        Left,
        [UInt, UInt],
        4294967295,
        "Shift 4294967295 2147483648 Shift Shift Shift",
    ),
    (Left, [UInt, UInt], 0, "Shift 0 0 Shift Shift Shift"),
    (Right, [UInt, UInt], 0, "Shift 0 0 Shift Shift Shift"),
    (
        Right,
        [UInt, UInt],
        4294967295,
        "Shift 4294967295 1 Shift Shift Shift",
    ),
    (Right, [UInt, UInt], 1, "Shift 1 0 Shift Shift Shift"),
    (
        Left,
        [Long, LLong],
        1,
        "Shift 1 2147483648 4294967296 Shift Shift",
    ),
    (
        Left,
        [Long, LLong],
        -1,
        "Shift Shift Shift Shift Shift Shift",
    ),
    (Left, [Long, LLong], 0, "Shift 0 0 0 0 Shift"),
    (
        Right,
        [Long, LLong],
        -9223372036854775808,
        "Shift -9223372036854775808 -4294967296 -2147483648 -1 Shift",
    ),
    (
        Right,
        [Long, LLong],
        9223372036854775807,
        "Shift 9223372036854775807 4294967295 2147483647 0 Shift",
    ),
    (Right, [Long, LLong], -1, "Shift -1 -1 -1 -1 Shift"),
    (
        Left,
        [ULong, ULLong],
        1,
        "Shift 1 2147483648 4294967296 9223372036854775808 Shift",
    ),
    (
        Left,
        [ULong, ULLong],
        18446744073709551615,
        "Shift 18446744073709551615 18446744071562067968 18446744069414584320 9223372036854775808 Shift",
    ),
    (Left, [ULong, ULLong], 0, "Shift 0 0 0 0 Shift"),
    (Right, [ULong, ULLong], 0, "Shift 0 0 0 0 Shift"),
    (
        Right,
        [ULong, ULLong],
        18446744073709551615,
        "Shift 18446744073709551615 8589934591 4294967295 1 Shift",
    ),
    (Right, [ULong, ULLong], 1, "Shift 1 0 0 0 Shift"),
];

/// Whether an operator may be asked for the value in the type.
fn is_operand(t: IntType, v: i128) -> bool
    ensures type_promoted { IsTrue result → promoted t ≡ t }
    ensures inside { IsTrue result → InRange t v }
{
    promote(t) == t && convert(v, t) == v
}

/// Whether an outcome is the one with this name.
fn is_outcome(alloc: Global, outcome: Result<i128, Trap>, want: &str) -> Result<bool, Fail> {
    let text = match outcome {
        Ok(value) => format!(in alloc; "{value}")?,
        Err(trap) => format!(in alloc; "{trap:?}")?,
    };
    Ok(text.as_str() == want)
}

fn is_type(alloc: Global, t: IntType, want: &str) -> Result<bool, Fail> {
    let text = format!(in alloc; "{t:?}")?;
    Ok(text.as_str() == want)
}

fn convert_agrees(alloc: Global, number: i128, wants: &str) -> Result<bool, Fail> {
    let mut agrees = true;
    for (t, want) in TYPES.iter().zip(wants.split(' ')) {
        agrees = agrees && is_outcome(alloc, Ok(convert(number, *t)), want)?;
    }
    Ok(agrees)
}

fn common_agrees(alloc: Global, a: IntType, wants: &str) -> Result<bool, Fail> {
    let mut agrees = true;
    for (b, want) in TYPES.iter().zip(wants.split(' ')) {
        agrees = agrees && is_type(alloc, common(a, *b), want)?;
    }
    Ok(agrees)
}

fn binary_agrees(alloc: Global, t: IntType, a: i128, b: i128, wants: &str) -> Result<bool, Fail> {
    if !is_operand(t, a) || !is_operand(t, b) {
        return Ok(false);
    }
    let mut agrees = true;
    for (op, want) in BINARY_OPERATORS.iter().zip(wants.split(' ')) {
        agrees = agrees && is_outcome(alloc, binary(*op, t, a, b), want)?;
    }
    Ok(agrees)
}

fn unary_agrees(alloc: Global, t: IntType, a: i128, wants: &str) -> Result<bool, Fail> {
    if !is_operand(t, a) {
        return Ok(false);
    }
    let mut agrees = true;
    for (op, want) in UNARY_OPERATORS.iter().zip(wants.split(' ')) {
        agrees = agrees && is_outcome(alloc, unary(*op, t, a), want)?;
    }
    Ok(agrees)
}

fn shift_agrees(
    alloc: Global,
    op: ShiftOp,
    t: IntType,
    a: i128,
    wants: &str,
) -> Result<bool, Fail> {
    if !is_operand(t, a) {
        return Ok(false);
    }
    let mut agrees = true;
    for (count, want) in COUNTS.iter().zip(wants.split(' ')) {
        agrees = agrees && is_outcome(alloc, shift(op, t, a, *count), want)?;
    }
    Ok(agrees)
}

#[test]
fn converts(rt: HostRuntime) -> Result<(), Fail> {
    for (number, wants) in &CONVERTED {
        assert!(rt; convert_agrees(rt.alloc(), *number, wants)?, "{number}");
    }
    for (a, wants) in TYPES.iter().zip(COMMON.iter()) {
        assert!(rt; common_agrees(rt.alloc(), *a, wants)?, "{a:?}");
    }
    for (t, want) in TYPES.iter().zip(PROMOTED.split(' ')) {
        assert!(rt; is_type(rt.alloc(), promote(*t), want)?, "{t:?}");
    }
    Ok(())
}

#[test]
fn operates(rt: HostRuntime) -> Result<(), Fail> {
    for (types, a, b, wants) in &BINARY {
        for t in types {
            assert!(rt;
                binary_agrees(rt.alloc(), *t, *a, *b, wants)?,
                "{t:?} {a} {b}"
            );
        }
    }
    for (types, a, wants) in &UNARY {
        for t in types {
            assert!(rt; unary_agrees(rt.alloc(), *t, *a, wants)?, "{t:?} {a}");
        }
    }
    for (op, types, a, wants) in &SHIFTS {
        for t in types {
            assert!(rt;
                shift_agrees(rt.alloc(), *op, *t, *a, wants)?,
                "{t:?} {a} {op:?}"
            );
        }
    }
    Ok(())
}

/// A structure of `count` characters and an array of three arrays of two numbers.
fn record(alloc: Global, count: u32) -> Result<ObjType, Fail>
    ensures { IfOk result (λ t. cells_of t ≡ count + 6) }
{
    let pair = ObjType::Array {
        element: Arc::new(alloc, ObjType::Int(Int))?,
        length: 2,
    };
    let pairs = ObjType::Array {
        element: Arc::new(alloc, pair)?,
        length: 3,
    };
    let characters = ObjType::Array {
        element: Arc::new(alloc, ObjType::Int(Char))?,
        length: count,
    };
    Ok(ObjType::Struct {
        number: 0,
        members: Arc::new(alloc, vec![in alloc; characters, pairs]?)?,
    })
}

#[test]
fn counts_cells(rt: HostRuntime) -> Result<(), Fail> {
    assert_eq!(rt; cells(&record(rt.alloc(), 4)?), 10);
    assert_eq!(rt; cells(&record(rt.alloc(), 65530)?), 65536);
    assert_eq!(rt; cells(&ObjType::Int(Bool)), 1);
    Ok(())
}
