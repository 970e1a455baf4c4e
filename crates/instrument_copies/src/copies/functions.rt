//! Functions without probes.
ghost use Rattle.std.specs.Prelude.{◌≡◌, map, IfOk};
ghost use Rattle.mc_typed.specs.Layout.{object_type_of};
ghost use Rattle.mc_typed.specs.Views as plain;
ghost use Rattle.mc_probe.specs.Views as probed;
ghost use Rattle.mc_probe.specs.Bare.{bare_function};

use crate::copies::statements::statements;
use mc_typed::{Function, Object, ParameterType, ResultType, share};
use std::alloc::{AllocError, Global};

fn parameter(tree: &ParameterType) -> Result<ParameterType, AllocError>
    ensures { IfOk result (λ c. plain.parameter_of c ≡ plain.parameter_of tree.now) }
{
    match tree {
        ParameterType::Int(of) => Ok(ParameterType::Int(*of)),
        ParameterType::Structure(whole) => {
            let object_type = share(whole)?;
            Ok(ParameterType::Structure(object_type))
        }
        ParameterType::Array(element) => {
            let object_type = share(element)?;
            Ok(ParameterType::Array(object_type))
        }
    }
}

/// Copies of the types of parameters.
pub fn parameters(alloc: Global, trees: &[ParameterType]) -> Result<Vec<ParameterType>, AllocError>
    ensures { IfOk result (λ c.
        map plain.parameter_of c.items ≡ map plain.parameter_of trees.now) }
{
    let mut copies = Vec::with_capacity(alloc, trees.len())?;
    for tree in trees {
        let copy = parameter(tree)?;
        copies.push(copy)?;
    }
    Ok(copies)
}

/// A copy of the type of a result.
pub fn result_type(tree: &ResultType) -> Result<ResultType, AllocError>
    ensures { IfOk result (λ c. plain.result_of c ≡ plain.result_of tree.now) }
{
    match tree {
        ResultType::Void => Ok(ResultType::Void),
        ResultType::Int(of) => Ok(ResultType::Int(*of)),
        ResultType::Structure(whole) => {
            let object_type = share(whole)?;
            Ok(ResultType::Structure(object_type))
        }
    }
}

fn object(tree: &Object) -> Result<Object, AllocError>
    ensures { IfOk result (λ c. plain.object_of c ≡ plain.object_of tree.now) }
{
    let object_type = share(&tree.object_type)?;
    Ok(Object {
        object_type,
        cells: tree.cells,
        start: tree.start,
    })
}

/// Copies of the objects of a function.
pub fn local_objects(alloc: Global, trees: &[Object]) -> Result<Vec<Object>, AllocError>
    ensures { IfOk result (λ c. map plain.object_of c.items ≡ map plain.object_of trees.now) }
{
    let mut copies = Vec::with_capacity(alloc, trees.len())?;
    for tree in trees {
        let copy = object(tree)?;
        copies.push(copy)?;
    }
    Ok(copies)
}

fn function<'a>(alloc: Global, tree: &Function<'a>) -> Result<Function<'a>, AllocError>
    ensures { IfOk result (λ c.
        probed.function_of c ≡ bare_function (plain.function_of tree.now)) }
{
    let parameters = parameters(alloc, &tree.parameters)?;
    let result = result_type(&tree.result)?;
    let objects = local_objects(alloc, &tree.objects)?;
    let body = statements(alloc, &tree.body)?;
    Ok(Function {
        name: tree.name,
        name_span: tree.name_span,
        parameters,
        result,
        objects,
        body,
        closing: tree.closing,
        registers: 0,
        entry: None,
        exit: None,
    })
}

/// Copies of functions.
pub(super) fn all_functions<'a>(
    alloc: Global,
    trees: &[Function<'a>],
) -> Result<Vec<Function<'a>>, AllocError>
    ensures { IfOk result (λ c. map probed.function_of c.items
        ≡ map bare_function (map plain.function_of trees.now)) }
{
    let mut copies = Vec::with_capacity(alloc, trees.len())?;
    for tree in trees {
        let copy = function(alloc, tree)?;
        copies.push(copy)?;
    }
    Ok(copies)
}
