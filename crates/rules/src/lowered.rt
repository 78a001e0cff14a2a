//! A program: its methods, its contracts, and the graph of each method.

ghost use Rattle.std.specs.Prelude.{◌≡◌, ◌<◌, ◌≤◌, IfOk, IsSomeAnd, Some, length, map, slice_get};
ghost use Rattle.std.proofs.Props.{props};
ghost use Rattle.contracts.specs.Sounds.{sound_parts};
ghost use Rattle.flow.specs.Graphs.{graph_model};
ghost use Rattle.flow.specs.Lowering.{graph_of};
ghost use Rattle.program.specs.Methods.{method_model};
ghost use Rattle.program.specs.Parts.{contract_model};
ghost use Rattle.program.specs.Programs.{contracts_model, methods_model, program_model, type_lists};
ghost use Rattle.program.specs.WellFormed as formed;
ghost use Rattle.program.specs.WellFormed.{IsWellFormed, parameters};
ghost use Rattle.program.specs.declared.limits.TheConstants.{MOST_METHODS, MOST_VARIABLES};
ghost use Rattle.rules.specs.Repeats.{again_in, repeated_in};

use crate::repeats::{Repeats, repeats_of};
use contracts::Sound;
use flow::{Graph, lower};
use program::{Contract, ContractId, HeapType, Method, MethodId, Methods, Role};
use source::Memory;
use std::alloc::Global;

/// The methods of a text in order, which are well formed, its contracts, which are sound, and for each method its graph and the repeated
/// arguments of its calls and starts.
#[derive(Drop)]
pub struct Program {
    pub(crate) methods: Methods,
    pub(crate) sounds: Vec<Sound>,
    graphs: Vec<Graph>,
    repeats: Vec<Repeats>,
    pub(crate) parameters: Vec<Vec<HeapType>>,
    ghost sound: { map sound_parts sounds.items ≡ map (λ c. c.parts) (contracts_model methods) },
    ghost lowered: { map graph_model graphs.items ≡ map graph_of (methods_model methods) },
    ghost told: { map repeated_in repeats.items ≡ map (λ m. again_in (graph_of m)) (methods_model methods) } by { Prim.hlevel props },
    ghost asked: { type_lists parameters.items ≡ map (λ m. map (λ v. v.ty) (formed.parameters m)) (methods_model methods) },
}

impl Program {
    ghost use Rattle.rules.specs.Programs.{is_entry, model_of};

    /// Makes the program of these methods, with a sound contract for each of theirs, in order.
    ///
    /// # Errors
    /// `Memory` if out of memory.
    pub fn new(alloc: Global, methods: Methods, sounds: Vec<Sound>) -> Result<Program, Memory>
        requires sound { map sound_parts sounds.items ≡ map (λ c. c.parts) (contracts_model methods) }
        ensures { IfOk result (λ p. model_of p ≡ program_model methods) }
    {
        let graphs = graphs_of(alloc, methods.list())?;
        let repeats = repeats_of(alloc, &graphs)?;
        let parameters = parameters_of(alloc, methods.list())?;
        Ok(Program {
            methods,
            sounds,
            graphs,
            repeats,
            parameters,
        })
    }

    /// Returns its methods, in order of the text. There are at most `MOST_METHODS`.
    pub fn methods(&self) -> &[Method]
        ensures methods { map method_model result.now ≡ (model_of self.now).methods }
        ensures few { length (model_of self.now).methods ≤ MOST_METHODS }
    {
        self.methods.list()
    }

    /// Returns its contracts with their names, in order of the text.
    pub fn contracts(&self) -> &[Contract]
        ensures { map contract_model result.now ≡ (model_of self.now).contracts }
    {
        self.methods.contracts().contracts.as_slice()
    }

    /// Returns its contracts, in order of the text. Each meets the four conditions.
    pub fn sounds(&self) -> &[Sound]
        ensures { map sound_parts result.now ≡ map (λ c. c.parts) (model_of self.now).contracts }
    {
        self.sounds.as_slice()
    }

    /// Returns one of its contracts.
    pub fn sound(&self, contract: ContractId) -> &Sound
        requires there { contract.0 < length (model_of self.now).contracts }
        ensures { IsSomeAnd (slice_get (model_of self.now).contracts contract.0) (λ c. sound_parts result.now ≡ c.parts) }
    {
        &self.sounds[contract.0 as usize]
    }

    /// Returns the graph of a method.
    pub fn graph(&self, method: MethodId) -> &Graph
        requires there { method.0 < length (model_of self.now).methods }
        ensures { IsSomeAnd (slice_get (model_of self.now).methods method.0) (λ m. graph_model result.now ≡ graph_of m) }
    {
        &self.graphs[method.0 as usize]
    }

    /// Returns the repeated arguments of a method's calls and starts.
    pub(crate) fn repeats(&self, method: MethodId) -> &Repeats
        requires there { method.0 < length (model_of self.now).methods }
        ensures { IsSomeAnd (slice_get (model_of self.now).methods method.0) (λ m. repeated_in result.now ≡ again_in (graph_of m)) }
    {
        &self.repeats[method.0 as usize]
    }

    /// Returns whether `replay` may begin with a method: it returns nothing and has no parameter of any type, numbers included.
    pub fn is_entry(&self, method: MethodId) -> bool
        requires there { method.0 < length (model_of self.now).methods }
        ensures { IsSomeAnd (slice_get (model_of self.now).methods method.0) (λ m. result ≡ is_entry m) }
    {
        let method = self.method(method);
        !method.gives && !method.takes
    }

    /// Returns one of its methods.
    pub(crate) fn method(&self, method: MethodId) -> &Method
        requires there { method.0 < length (model_of self.now).methods }
        ensures method { slice_get (model_of self.now).methods method.0 ≡ Some (method_model result.now) }
        ensures few { length result.now.variables.items ≤ MOST_VARIABLES }
        ensures well_formed { IsWellFormed (model_of self.now) (method_model result.now) }
    {
        self.methods.method(method)
    }
}

/// Returns the graph of each of these methods.
fn graphs_of(alloc: Global, methods: &[Method]) -> Result<Vec<Graph>, Memory>
    ensures { IfOk result (λ graphs. map graph_model graphs.items ≡ map graph_of (map method_model methods.now)) }
{
    let mut graphs = Vec::new(alloc);
    for method in methods {
        graphs.push(lower(alloc, method)?)?;
    }
    Ok(graphs)
}

/// Returns whether a method gets a variable with this role from its caller.
fn is_parameter(role: Role) -> bool
    ensures { result ≡ formed.is_parameter role }
{
    match role {
        Role::Lent | Role::Claimed => true,
        Role::Local => false,
    }
}

/// Returns the types of a method's parameters of the exchange heap.
fn types_of(alloc: Global, method: &Method) -> Result<Vec<HeapType>, Memory>
    ensures { IfOk result (λ types. types.items ≡ map (λ v. v.ty) (parameters (method_model method.now))) }
{
    let mut types = Vec::new(alloc);
    for variable in &method.variables {
        if is_parameter(variable.role) {
            types.push(variable.ty)?;
        }
    }
    Ok(types)
}

/// Returns the types of the parameters of the exchange heap of each of these methods.
fn parameters_of(alloc: Global, methods: &[Method]) -> Result<Vec<Vec<HeapType>>, Memory>
    ensures { IfOk result (λ types. type_lists types.items ≡ map (λ m. map (λ v. v.ty) (parameters m)) (map method_model methods.now)) }
{
    let mut parameters = Vec::new(alloc);
    for method in methods {
        parameters.push(types_of(alloc, method)?)?;
    }
    Ok(parameters)
}
