//! The types of the exchange heap in structs and in the signatures of methods and messages.

use crate::members::Members;
use std::alloc::{AllocError, Global};
use tree::{Field, Heap, Message, MessageParameter, Method, Parameter, Type};

/// Returns the types of the exchange heap in these structs and in the signatures of these methods and messages, in order.
pub(crate) fn signature_types(
    alloc: Global,
    items: &[Members<'_>],
) -> Result<Vec<Heap>, AllocError> {
    let mut types = Vec::new(alloc);
    for members in items {
        match members {
            Members::Contract(declared) => add_messages(&declared.outline.messages, &mut types)?,
            Members::Struct(fields) => add_fields(&fields.owning, &mut types)?,
            Members::Class(methods) => add_methods(methods.list, &mut types)?,
        }
    }
    Ok(types)
}

fn add_messages(messages: &[&Message], types: &mut Vec<Heap>) -> Result<(), AllocError> {
    for message in messages {
        add_params(&message.params, types)?;
    }
    Ok(())
}

fn add_params(params: &[MessageParameter], types: &mut Vec<Heap>) -> Result<(), AllocError> {
    for param in params {
        add_type(param.ty, types)?;
    }
    Ok(())
}

fn add_fields(fields: &[Field], types: &mut Vec<Heap>) -> Result<(), AllocError> {
    for field in fields {
        add_type(field.ty, types)?;
    }
    Ok(())
}

fn add_methods(methods: &[Method], types: &mut Vec<Heap>) -> Result<(), AllocError> {
    for method in methods {
        if let Some(result) = method.result {
            add_type(result, types)?;
        }
        add_parameters(&method.params, types)?;
    }
    Ok(())
}

fn add_parameters(parameters: &[Parameter], types: &mut Vec<Heap>) -> Result<(), AllocError> {
    for parameter in parameters {
        add_type(parameter.ty, types)?;
    }
    Ok(())
}

fn add_type(written: Type, types: &mut Vec<Heap>) -> Result<(), AllocError> {
    if let Type::Heap(heap) = written {
        types.push(heap)?;
    }
    Ok(())
}
