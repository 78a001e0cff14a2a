//! Which methods can be started.

ghost use Rattle.std.specs.Prelude.{◌≡◌, IfOk, map};
ghost use Rattle.tree.specs.Trees.{method_tree};
ghost use Rattle.declarations.specs.Owning.{is_lent, any_lent, can_start};

use std::alloc::{AllocError, Global};
use tree::{Method, Parameter, Type};

/// The method that a call names, and whether it can be started.
#[derive(Clone, Copy)]
pub struct Callee<'a> {
    pub method: &'a Method,
    pub startable: bool,
}

fn is_lent(parameter: &Parameter) -> bool
    ensures { result ≡ is_lent parameter.now }
{
    matches!(parameter.ty, Type::Heap(_)) && !parameter.claims
}

/// Returns whether one of these parameters is of the exchange heap and not claimed.
fn any_lent(parameters: &[Parameter]) -> bool
    ensures { result ≡ any_lent parameters.now }
{
    for parameter in parameters {
        if is_lent(parameter) {
            return true;
        }
    }
    false
}

fn can_start(method: &Method) -> bool
    ensures { result ≡ can_start (method_tree method.now) }
{
    method.result.is_none() && !any_lent(&method.params)
}

/// Returns whether each of these methods can be started, in order.
pub(crate) fn startable_methods(alloc: Global, methods: &[Method]) -> Result<Vec<bool>, AllocError>
    ensures { IfOk result (λ startable. startable.items ≡ map can_start (map method_tree methods.now)) }
{
    let mut startable = Vec::new(alloc);
    for method in methods {
        startable.push(can_start(method))?;
    }
    Ok(startable)
}
