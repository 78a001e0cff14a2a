//! The variables of a frame, as instructions mention them.

ghost use Rattle.std.specs.Prelude.{◌≡◌, ◌∷◌, [], IfErr, OnErr, OnOk, Some, set, ℕ};
ghost use Rattle.program.specs.Methods.{method_model};
ghost use Rattle.program.specs.Scopes.{outer_of};
ghost use Rattle.rules.specs.Programs.{model_of};
ghost use Rattle.rules.specs.Scopes.{declared_between, is_this};
ghost use Rattle.machine.specs.Answers.{with_variables};
ghost use Rattle.machine.specs.Bindings.{AllMayTake};
ghost use Rattle.machine.specs.Frames.{address, bound_to, out_of_scope, type_at, variables_of};
ghost use Rattle.machine.specs.Frames as told;
ghost use Rattle.machine.specs.Views.{StillTakes, CanTake, frame_model, variables_model};
ghost use Rattle.machine.specs.World.{let_go, read};

use crate::halts::Refusal;
use crate::variables::Variables;
use crate::worlds::Frame;
use program::{Argument, HeapType, Mention, Method, MethodId, StructId, VarId};
use rules::Program;

impl Frame {
    /// Returns the address that a variable has, if any.
    pub fn has(&self, v: Mention) -> Option<usize>
        ensures { result ≡ read (frame_model self.now).variables v.variable.0 }
    {
        self.variables.has(v.variable)
    }

    /// Returns the address that a variable has, 0 if it has none, which no step of the machine reads.
    pub fn address(&self, v: Mention) -> usize
        ensures { result ≡ address (read (frame_model self.now).variables v.variable.0) }
    {
        self.has(v).unwrap_or(0)
    }

    /// Allocates what `put` needs to give a variable something. What the variable has stays.
    pub(crate) fn list(&mut self, v: Mention) -> Result<(), Refusal>
        ensures same { frame_model self.new ≡ frame_model self.old }
        ensures takes { OnOk result (CanTake self.new.variables v.variable.0) }
        ensures still { StillTakes self.old.variables self.new.variables }
        ensures memory { IfErr result (λ refusal. refusal ≡ Refusal.Memory) }
    {
        self.variables.list(v.variable)?;
        Ok(())
    }

    /// Replaces what a variable has. It never allocates, so call `list` first if the variable is given something.
    pub(crate) fn put(&mut self, v: Mention, x: Option<usize>)
        requires takes { (a : ℕ) → x ≡ Some a → CanTake self.old.variables v.variable.0 }
        ensures put { frame_model self.new ≡ with_variables (frame_model self.old) (set (frame_model self.old).variables v.variable.0 x) }
        ensures still { StillTakes self.old.variables self.new.variables }
    {
        self.variables.put(v.variable, x);
    }

    /// Replaces what the target has, if there is a target, after allocating what that needs. An error changes nothing.
    pub(crate) fn take(&mut self, target: Option<Mention>, x: Option<usize>) -> Result<(), Refusal>
        ensures taken { OnOk result (frame_model self.new
            ≡ with_variables (frame_model self.old) (told.put (frame_model self.old).variables target x)) }
        ensures same { OnErr result (frame_model self.new ≡ frame_model self.old) }
        ensures memory { IfErr result (λ refusal. refusal ≡ Refusal.Memory) }
    {
        if let Some(v) = target {
            self.list(v)?;
            self.put(v, x);
        }
        Ok(())
    }
}

/// Returns the type of a variable of a method, struct 0 if there is no such variable.
pub fn type_at(program: &Program, method: MethodId, v: VarId) -> HeapType
    ensures { result ≡ type_at (variables_of (model_of program.now) method.0) v.0 }
{
    if let Some(method) = program.methods().get(method.0 as usize) {
        if let Some(variable) = method.variables.get(v.0) {
            return variable.ty;
        }
    }
    HeapType::Struct(StructId(0))
}

/// Returns the next variable of the exchange heap outwards in scope.
fn outer_of(method: &Method, variable: VarId) -> Option<VarId>
    ensures { result ≡ outer_of (method_model method.now).variables variable }
{
    method.variables.get(variable.0)?.outer
}

/// Whether `other` is this variable.
fn is_this(variable: VarId, other: Option<VarId>) -> bool
    ensures { result ≡ is_this variable other }
{
    match other {
        Some(other) => variable.0 == other.0,
        None => false,
    }
}

/// Empties the variables that go out of scope: from `last` outwards, up to `outer` and without it.
pub(crate) fn forgets(
    variables: &mut Variables,
    method: &Method,
    outer: Option<VarId>,
    last: Option<VarId>,
)
    ensures { variables_model variables.new
        ≡ out_of_scope (variables_model variables.old) (declared_between (method_model method.now) outer last) }
{
    let mut at = last;
    for _ in 0..method.variables.len() {
        let Some(variable) = at else {
            return;
        };
        if is_this(variable, outer) {
            return;
        }
        variables.put(variable, None);
        at = outer_of(method, variable);
    }
}

/// Empties the variable of an argument, if it is claimed.
fn lets_one_go(variables: &mut Variables, argument: Argument)
    ensures gone { variables_model variables.new ≡ let_go (variables_model variables.old) (argument ∷ []) }
    ensures still { StillTakes variables.old variables.new }
{
    if argument.claimed {
        variables.put(argument.mention.variable, None);
    }
}

/// Empties the variables of the claimed arguments.
pub(crate) fn lets_go(variables: &mut Variables, arguments: &[Argument])
    ensures gone { variables_model variables.new ≡ let_go (variables_model variables.old) arguments.now }
    ensures still { StillTakes variables.old variables.new }
{
    for argument in arguments {
        lets_one_go(variables, *argument);
    }
}

/// Allocates what `bind` needs to give something to each variable that a case binds.
pub(crate) fn list_bound(variables: &mut Variables, targets: &[VarId]) -> Result<(), Refusal>
    ensures same { variables_model variables.new ≡ variables_model variables.old }
    ensures takes { OnOk result (AllMayTake variables.new.count variables.new.bindings.items targets.now) }
    ensures memory { IfErr result (λ refusal. refusal ≡ Refusal.Memory) }
{
    for variable in targets {
        variables.list(*variable)?;
    }
    Ok(())
}

/// Gives the variables that a case binds what its message brings, in order.
pub(crate) fn bind(variables: &mut Variables, targets: &[VarId], payload: &[usize])
    requires takes { AllMayTake variables.old.count variables.old.bindings.items targets.now }
    ensures { variables_model variables.new ≡ bound_to (variables_model variables.old) targets.now payload.now }
{
    for number in 0..targets.len().min(payload.len()) {
        variables.put(targets[number], Some(payload[number]));
    }
}
