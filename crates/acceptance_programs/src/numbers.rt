//! Methods with numbers for their names, and their layout.

use flow::{Entrance, Instr, lower};
use names::{MOST_CONTRACTS, resolve};
use program::{Action, Awaited, Channel, Mention, Method, MethodId, Methods, VarId, Variable};
use source::{Memory, Place, lex};
use std::alloc::Global;
use std::test::Fail;
use syntax::parse;
use wellformed::well_formed_methods;

/// A program with each form of statement that has an endpoint.
const CHANNELS: &str = "contract Q { in message A(); state S: ; }
contract Put { out message X(D* in ExHeap d, int k); in message Y(); state S: X! -> Y? -> E; state E: ; }
rep struct C { }
rep struct D { int n; }
class K {
static void F([Claims] Put.Exp:E e, int[] in ExHeap a) {
Put.Imp i; Put.Exp x; D* in ExHeap d;
Put.NewChannel(out i, out x);
x.SendX(d, a[0]);
switch receive {
case i.X(b, k): delete b; break;
case i.ChannelClosed(): delete i;
}
} }";

/// Returns the methods of a text, its contracts and what its messages bring.
fn methods_of(alloc: Global, text: &str) -> Result<Methods, Fail> {
    let tokens = lex(alloc, text.as_bytes())?;
    let tree = parse(alloc, &tokens)?;
    let resolved = resolve(alloc, &tree, text.as_bytes())?;
    if resolved.contracts.len() > MOST_CONTRACTS {
        return Err(Fail::from("too many contracts"));
    }
    Ok(well_formed_methods(alloc, &tree, text.as_bytes(), resolved)?)
}

/// Writes variables as their numbers.
fn variable_list(alloc: Global, variables: &[VarId]) -> Result<String, Memory> {
    let mut line = String::new(alloc);
    for variable in variables {
        line.push_str(&format!(in alloc; " {}", variable.0)?)?;
    }
    Ok(line)
}

/// Writes mentions as the numbers of their variables.
fn mention_list(alloc: Global, mentions: &[Mention]) -> Result<String, Memory> {
    let mut line = String::new(alloc);
    for mention in mentions {
        line.push_str(&format!(in alloc; " {}", mention.variable.0)?)?;
    }
    Ok(line)
}

/// Writes a case of a switch.
fn case_line(alloc: Global, case: &Entrance) -> Result<String, Memory> {
    let endpoint = case.endpoint.variable.0;
    let bound = variable_list(alloc, &case.targets)?;
    match case.awaited {
        Awaited::Message(message) => Ok(format!(in alloc;
            ", {endpoint} message {} binds{bound} to {}",
            message.0, case.next
        )?),
        Awaited::Closed => Ok(format!(in alloc; ", {endpoint} closed to {}", case.next)?),
    }
}

/// Writes an instruction in a line: its place if it has one of its own, what it is about, and where the method goes on.
fn line_of(alloc: Global, instruction: &Instr) -> Result<String, Memory> {
    match instruction {
        Instr::Send(sending) => {
            let Place { line, col } = sending.place;
            let given = mention_list(alloc, &sending.payloads)?;
            Ok(format!(in alloc;
                "{line}:{col} send {} on {} gives{given} to {}",
                sending.message.0, sending.endpoint.variable.0, sending.next
            )?)
        }
        Instr::Act { action, next } => {
            let line = action_line(alloc, *action)?;
            Ok(format!(in alloc; "{line} to {next}")?)
        }
        Instr::Switch { place, cases } => switch_line(alloc, *place, cases.list()),
        Instr::Forget { forget, next } => {
            let Place { line, col } = forget.place;
            Ok(format!(in alloc; "{line}:{col} forget from {} to {next}", forget.last.0)?)
        }
        Instr::Return(returning) => {
            let Place { line, col } = returning.place;
            Ok(format!(in alloc; "{line}:{col} return")?)
        }
        _ => Ok(String::from_str(alloc, "another")?),
    }
}

/// Writes an action: its place if it has one of its own, and what it is about.
fn action_line(alloc: Global, action: Action) -> Result<String, Memory> {
    match action {
        Action::NewChannel(channel) => channel_line(alloc, channel),
        Action::Use(at) => Ok(format!(in alloc; "use {}", at.variable.0)?),
        Action::Delete(at) => Ok(format!(in alloc; "delete {}", at.variable.0)?),
        Action::Move { .. } | Action::Exchange(_) => Ok(String::from_str(alloc, "another")?),
    }
}

fn channel_line(alloc: Global, channel: Channel) -> Result<String, Memory> {
    let Place { line, col } = channel.place;
    let (first, second) = (channel.first.variable.0, channel.second.variable.0);
    Ok(format!(in alloc;
        "{line}:{col} channel of {} in {first} and {second}",
        channel.contract.0
    )?)
}

fn switch_line(alloc: Global, place: Place, cases: &[Entrance]) -> Result<String, Memory> {
    let Place { line, col } = place;
    let mut text = format!(in alloc; "{line}:{col} switch")?;
    for case in cases {
        text.push_str(&case_line(alloc, case)?)?;
    }
    Ok(text)
}

/// Writes a variable in a line.
fn variable_line(alloc: Global, variable: &Variable) -> Result<String, Memory> {
    let name = String::from_utf8_lossy(alloc, &variable.name)?;
    Ok(format!(in alloc; "{name} {:?} {:?}", variable.role, variable.ty)?)
}

/// Writes the variables of a method and its instructions, in lines.
fn method_lines(alloc: Global, method: &Method) -> Result<String, Memory> {
    let mut lines = String::new(alloc);
    for variable in &method.variables {
        lines.push_str(&format!(in alloc; "{}\n", variable_line(alloc, variable)?)?)?;
    }
    let graph = lower(alloc, method)?;
    for (point, instruction) in graph.instructions.iter().enumerate() {
        let line = line_of(alloc, instruction)?;
        lines.push_str(&format!(in alloc; "{point}: {line}\n")?)?;
    }
    lines.push_str(&format!(in alloc; "begins at {}\n", graph.first)?)?;
    Ok(lines)
}

#[test]
fn channels_in_numbers(rt: HostRuntime) -> Result<(), Fail> {
    let wanted = "e Claimed Endpoint { contract: ContractId(1), side: Exp, state: StateId(3) }
a Lent Array(Int)
i Local Endpoint { contract: ContractId(1), side: Imp, state: StateId(1) }
x Local Endpoint { contract: ContractId(1), side: Exp, state: StateId(1) }
d Local Struct(StructId(1))
b Local Struct(StructId(1))
0: 14:1 return
1: delete 2 to 0
2: 12:1 forget from 5 to 0
3: 11:27 forget from 5 to 0
4: delete 5 to 3
5: 10:1 switch, 2 message 1 binds 5 to 4, 2 closed to 1
6: 9:3 send 1 on 3 gives 4 to 5
7: use 1 to 6
8: 8:5 channel of 1 in 2 and 3 to 7
begins at 8
";
    match methods_of(rt.alloc(), CHANNELS)?.list().get(0) {
        Some(method) => assert_eq!(rt; method_lines(rt.alloc(), method)?.as_str(), wanted),
        None => assert!(rt; false),
    }
    Ok(())
}

#[test]
fn what_messages_bring(rt: HostRuntime) -> Result<(), Fail> {
    let methods = methods_of(rt.alloc(), CHANNELS)?;
    let mut lines = String::new(rt.alloc());
    for types in methods.messages() {
        for ty in types {
            lines.push_str(&format!(in rt.alloc(); "{ty:?} ")?)?;
        }
        lines.push_str("\n")?;
    }
    assert_eq!(rt; lines.as_str(), "\nStruct(StructId(1)) \n\n");
    assert!(rt; methods.contracts().contracts.len() == 2);
    Ok(())
}

#[test]
fn result_that_is_an_endpoint(rt: HostRuntime) -> Result<(), Fail> {
    let text = "contract Q { in message A(); state S: A? -> T; state T: ; }
class K { static Q.Imp:T F([Claims] Q.Imp:T i) { return i; } static int G() { return 1; } }";
    let mut lines = String::new(rt.alloc());
    for method in methods_of(rt.alloc(), text)?.list() {
        lines.push_str(&format!(in rt.alloc(); "{} {:?}\n", method.gives, method.result)?)?;
    }
    let wanted = "true Some(Endpoint { contract: ContractId(0), side: Imp, state: StateId(1) })
true None
";
    assert_eq!(rt; lines.as_str(), wanted);
    Ok(())
}

#[test]
fn method_of_a_number(rt: HostRuntime) -> Result<(), Fail> {
    let methods = methods_of(rt.alloc(), CHANNELS)?;
    if methods.list().is_empty() {
        return Err(Fail::from("no method"));
    }
    assert!(rt; methods.method(MethodId(0)).variables.len() == 6);
    Ok(())
}
