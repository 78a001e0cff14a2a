//! The programs of the tests, and how they are read.

ghost use Rattle.std.specs.Prelude.{◌≡◌, ◌<◌, IfOk, length};
ghost use Rattle.rules.specs.Programs.{model_of};

use contracts::{Judged, Sound, edges};
use names::{MOST_CONTRACTS, resolve};
use program::ContractId;
use rules::Program;
use source::lex;
use std::alloc::Global;
use std::test::Fail;
use syntax::parse;
use wellformed::well_formed_methods;

/// A method that claims `p`, moves it to `q`, frees `q` and reads `q`.
pub(crate) const FREED_AND_READ: &str = "class K { static void F([Claims] int[] in ExHeap p) {
int[] in ExHeap q; int n;
q = p; delete q; n = q[0];
} }";

/// Each block is freed on one branch of an `if`. So eight rows reach the end, and each block may be the first that is
/// left there.
pub(crate) const FREED_ON_ONE_WAY: &str = "rep struct D { int n; }
class K {
static void F(bool b) {
D* in ExHeap p = new[ExHeap] D(); if (b) { delete p; }
D* in ExHeap q = new[ExHeap] D(); if (b) { delete q; }
D* in ExHeap r = new[ExHeap] D(); if (b) { delete r; }
}
}";

/// A method that sends once and frees its end.
pub(crate) const ASKS: &str =
    "contract Ping { in message Req(); out message Rep(); state Start: Req? -> Pend; state Pend: Rep! -> Start; }
class K { static void F([Claims] Ping.Imp i) { i.SendReq(); delete i; } }";

/// A method that waits for the reply, or for the close of its end, and frees its end.
pub(crate) const WAITS: &str =
    "contract Ping { in message Req(); out message Rep(); state Start: Req? -> Pend; state Pend: Rep! -> Start; }
class K { static void F([Claims] Ping.Imp:Pend i) {
switch receive { case i.Rep(): break; case i.ChannelClosed(): break; } delete i; } }";

/// A process serves, and its client asks it once.
pub(crate) const SERVES: &str =
    "contract Ping { in message Req(); out message Rep(); state Start: Req? -> Pend; state Pend: Rep! -> Start; }
class K {
static void Main() {
Ping.Imp i; Ping.Exp e;
Ping.NewChannel(out i, out e);
start K.Serve(e);
i.SendReq();
switch receive {
case i.Rep(): break;
case i.ChannelClosed(): break;
}
delete i;
}
static void Serve([Claims] Ping.Exp:Start e) {
while (true) {
switch receive {
case e.Req(): e.SendRep(); break;
case e.ChannelClosed(): delete e; return;
}
}
}
}";

/// A message arrives for which there is no case.
pub(crate) const ANSWERS_AN_ERROR: &str =
    "contract Q { in message Req(); out message Reply(); out message Error(); state S: Req? -> P; \
        state P: one { Reply! -> S; Error! -> S; } }
class K {
static void Main() {
Q.Imp i; Q.Exp e;
Q.NewChannel(out i, out e);
i.SendReq();
switch receive { case e.Req(): e.SendError(); break; case e.ChannelClosed(): break; }
switch receive { case i.Reply(): break; case i.ChannelClosed(): break; }
delete i; delete e;
}
}";

/// A process makes a channel and frees both ends.
pub(crate) const MAKES_A_CHANNEL: &str =
    "contract Ping { in message Req(); out message Rep(); state Start: Req? -> Pend; state Pend: Rep! -> Start; }
class K {
static void Main() {
Ping.Imp i; Ping.Exp e;
Ping.NewChannel(out i, out e);
delete i; delete e;
}
}";

/// Two processes are started, each of which waits for a request from the other before it sends one.
pub(crate) const WAIT_FOR_EACH_OTHER: &str =
    "contract Ping { in message Req(); out message Rep(); state Start: Req? -> Pend; state Pend: Rep! -> Start; }
class K {
static void Main() {
Ping.Imp i; Ping.Exp e; Ping.NewChannel(out i, out e);
Ping.Imp j; Ping.Exp f; Ping.NewChannel(out j, out f);
start K.Play(e, j);
start K.Play(f, i);
}
static void Play([Claims] Ping.Exp mine, [Claims] Ping.Imp other) {
switch receive { case mine.Req(): mine.SendRep(); break; case mine.ChannelClosed(): break; }
other.SendReq();
delete other; delete mine;
}
}";

/// A page is in the queue of an end that is deleted.
pub(crate) const LOSES_A_PAGE: &str = "rep struct Page { int words; }
contract Box { in message Put(Page* in ExHeap page); state Open: Put? -> Shut; state Shut: ; }
class K {
static void Main() {
Box.Imp i; Box.Exp e;
Box.NewChannel(out i, out e);
Page* in ExHeap page = new[ExHeap] Page();
i.SendPut(page);
delete i; delete e;
}
}";

/// Returns the program of a text without contracts that has one method.
pub(crate) fn only(alloc: Global, text: &str) -> Result<Program, Fail>
    ensures { IfOk result (λ p. length (model_of p).methods ≡ 1) }
{
    let tokens = lex(alloc, text.as_bytes())?;
    let tree = parse(alloc, &tokens)?;
    let contracts = resolve(alloc, &tree, text.as_bytes())?;
    if contracts.contracts.len() > MOST_CONTRACTS {
        return Err(Fail::from("too many contracts"));
    }
    let methods = well_formed_methods(alloc, &tree, text.as_bytes(), contracts)?;
    if !methods.contracts().contracts.is_empty() {
        return Err(Fail::from("contracts"));
    }
    let sounds = Vec::new(alloc);
    let program = Program::new(alloc, methods, sounds)?;
    if program.methods().len() != 1 {
        return Err(Fail::from("not one method"));
    }
    Ok(program)
}

/// Returns the program of a text with one contract and at least one method.
pub(crate) fn with_one_contract(alloc: Global, text: &str) -> Result<Program, Fail>
    ensures contracts { IfOk result (λ p. length (model_of p).contracts ≡ 1) }
    ensures methods { IfOk result (λ p. 0 < length (model_of p).methods) }
{
    let tokens = lex(alloc, text.as_bytes())?;
    let tree = parse(alloc, &tokens)?;
    let resolved = resolve(alloc, &tree, text.as_bytes())?;
    if resolved.contracts.len() != 1 {
        return Err(Fail::from("not one contract"));
    }
    let contract = edges(&resolved, ContractId(0));
    let Judged::Sound(sound) = Sound::judge(alloc, contract)? else {
        return Err(Fail::from("not sound"));
    };
    let mut sounds = Vec::new(alloc);
    sounds.push(sound)?;
    let methods = well_formed_methods(alloc, &tree, text.as_bytes(), resolved)?;
    let program = Program::new(alloc, methods, sounds)?;
    if program.methods().is_empty() {
        return Err(Fail::from("no method"));
    }
    Ok(program)
}
