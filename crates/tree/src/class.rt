//! Syntax trees of structs and classes.

use crate::item::Access;
use crate::statement::Block;
use crate::types::Type;
use source::Span;

/// struct = "rep" "struct" ID "{" { field } "}" .
#[derive(Drop)]
pub struct Struct {
    pub name: Span,
    pub fields: Vec<Field>,
    pub close: Span,
}

/// field = [ access ] type ID ";" .
#[derive(Clone, Copy)]
pub struct Field {
    pub access: Option<Access>,
    pub ty: Type,
    pub name: Span,
}

/// class = "class" ID "{" { method } "}" .
#[derive(Drop)]
pub struct Class {
    pub name: Span,
    pub methods: Vec<Method>,
    pub close: Span,
}

/// method = [ access ] "static" ( "void" | type ) ID "(" [ parameter { "," parameter } ] ")" block .
#[derive(Drop)]
pub struct Method {
    pub access: Option<Access>,
    /// `None` if it is `void`.
    pub result: Option<Type>,
    pub name: Span,
    pub open: Span,
    pub params: Vec<Parameter>,
    pub body: Block,
}

/// parameter = [ "[" "Claims" "]" ] type ID .
#[derive(Clone, Copy)]
pub struct Parameter {
    pub claims: bool,
    pub ty: Type,
    pub name: Span,
}
