//! Small trees by hand. Expected numbers were counted from the rules.
use mc_typed::{
    Argument, Expression, FunctionCall, Inputs, Name, Operator, Place, ReturnValue, Slot, Span,
    Statement, levels_of_body, share,
};
use mc_value::{BinOp, IntType, ObjType};
use std::alloc::{AllocError, Global};
use std::sync::Arc;
use std::test::Fail;

const NOWHERE: Span = Span { start: 0, end: 0 };

fn parameter() -> Expression {
    Expression::Read {
        place: Place::Local {
            slot: Slot {
                object: 0,
                start: 0,
            },
            span: NOWHERE,
        },
        of: IntType::Int,
    }
}

fn constant(value: i128) -> Expression {
    Expression::Constant {
        value,
        of: IntType::Int,
        span: NOWHERE,
    }
}

// `n ? f(n - 1) : 0`
fn recursion(alloc: Global) -> Result<Expression, AllocError> {
    let less = Expression::Binary {
        operator: Operator::Binary(BinOp::Sub),
        of: IntType::Int,
        left: Box::new(alloc, parameter())?,
        right: Box::new(alloc, constant(1))?,
        span: NOWHERE,
    };
    let call = FunctionCall {
        function: 0,
        arguments: vec![in alloc; Argument::Number { value: less }]?,
        result: None,
        span: NOWHERE,
    };
    let chosen = Expression::Call {
        call,
        of: IntType::Int,
    };
    Ok(Expression::Choice {
        test: Box::new(alloc, parameter())?,
        chosen: Box::new(alloc, chosen)?,
        other: Box::new(alloc, constant(0))?,
        of: IntType::Int,
        span: NOWHERE,
    })
}

fn levels_of_return(alloc: Global, value: Expression) -> Result<u32, AllocError> {
    let body = vec![in alloc;
        Statement::Return {
            value: ReturnValue::Number { value },
            span: NOWHERE,
            bit: None,
            exit: None,
        },
    ]?;
    Ok(levels_of_body(&body))
}

#[test]
fn counts_levels(rt: HostRuntime) -> Result<(), Fail> {
    let alloc = rt.alloc();
    assert_eq!(rt; levels_of_return(alloc, recursion(alloc)?)?, 6);
    let mut deep = parameter();
    for _level in 0..797 {
        deep = Expression::Not {
            operand: Box::new(alloc, deep)?,
            span: NOWHERE,
        };
    }
    assert_eq!(rt; levels_of_return(alloc, deep)?, 800);
    Ok(())
}

#[test]
fn shares_types(rt: HostRuntime) -> Result<(), Fail> {
    let alloc = rt.alloc();
    let row = ObjType::Array {
        element: Arc::new(alloc, ObjType::Int(IntType::Char))?,
        length: 3,
    };
    let pair = ObjType::Struct {
        number: 7,
        members: Arc::new(alloc, vec![in alloc; share(&row)?, row]?)?,
    };
    let shared = share(&pair)?;
    match &shared {
        ObjType::Struct { number, members } => {
            assert_eq!(rt; *number, 7);
            assert_eq!(rt; members.len(), 2);
        }
        ObjType::Int(_) | ObjType::Array { .. } => assert!(rt; false, "another type"),
    }
    Ok(())
}

#[test]
fn keeps_names_and_inputs(rt: HostRuntime) -> Result<(), Fail> {
    let alloc = rt.alloc();
    let name = Name::new(b"t1".to_vec(alloc)?);
    assert_eq!(rt; name.bytes(), b"t1".as_slice());
    let inputs = Inputs::new([-5, 7].to_vec(alloc)?);
    assert_eq!(rt; inputs.numbers(), [-5, 7].as_slice());
    Ok(())
}
