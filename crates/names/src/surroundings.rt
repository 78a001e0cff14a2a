//! The surroundings of a statement, and what is in scope there.

use crate::variables::ScopeVariables;
use declarations::{ClassMethods, Scope};
use std::alloc::Global;
use tree::Type;

/// The program, the class and the result type of the method, and whether `break` and `continue` are allowed.
#[derive(Clone, Copy)]
pub(crate) struct Surroundings<'s, 'a> {
    pub(crate) alloc: Global,
    pub(crate) scope: &'s Scope<'a>,
    pub(crate) methods: &'s ClassMethods<'a>,
    pub(crate) result: Option<Type>,
    pub(crate) breaks: bool,
    pub(crate) continues: bool,
}

impl<'s, 'a> Surroundings<'s, 'a> {
    ghost use Rattle.names.specs.Bodies as bodies;
    ghost use Rattle.names.specs.Frames.{AreSurroundings, IsContext, IsNameFrame};
    ghost use Rattle.names.specs.Variables.{NameFrame};

    /// Returns what a name can mean here, with these variables in scope.
    pub(crate) fn context<'t>(&self, variables: &'t ScopeVariables<'a>) -> NameContext<'t, 'a>
    where
        's: 't,
        ensures { (m : bodies.Surroundings) (f : NameFrame) → AreSurroundings m self.now → IsNameFrame m.program.text f variables.now
            → IsContext m.program f result }
    {
        NameContext {
            alloc: self.alloc,
            scope: self.scope,
            variables,
        }
    }
}

/// What a name can mean: the declarations of the program, and the variables in scope.
#[derive(Clone, Copy)]
pub(crate) struct NameContext<'s, 'a> {
    pub(crate) alloc: Global,
    pub(crate) scope: &'s Scope<'a>,
    pub(crate) variables: &'s ScopeVariables<'a>,
}
