//! Programs with blocks and endpoints, which the tests check and run.

/// A block is freed twice.
pub(crate) const FREED_TWICE: &str =
    "rep struct D { int n; } class K { static void F() { D* in ExHeap p = new[ExHeap] D(); delete p; delete p; } }";

/// A claimed block is handed to another variable, and freed there.
pub(crate) const HANDED_ON: &str =
    "rep struct D { int n; } class K { static void F([Claims] D* in ExHeap p) { D* in ExHeap q = p; q.n = 1; delete q; } \
        static void G() { } }";

/// A block is freed on one branch of an `if`.
pub(crate) const FREED_ON_ONE_WAY: &str =
    "rep struct D { int n; }\nclass K {\nstatic void F(bool b) {\nD* in ExHeap p = new[ExHeap] D();\nif (b) { delete p; }\n}\n}";

/// A block is freed on both branches.
pub(crate) const FREED_ON_BOTH_WAYS: &str =
    "rep struct D { int n; }\nclass K {\nstatic void F(bool b) {\nD* in ExHeap p = new[ExHeap] D();\n\
        if (b) { delete p; } else { delete p; }\n}\n}";

/// A block is kept when a loop is left.
pub(crate) const KEPT_AT_A_BREAK: &str =
    "rep struct D { int n; }\nclass K {\nstatic void F(bool b) {\nwhile (b) {\nD* in ExHeap p = new[ExHeap] D();\nif (b) { break; }\n\
        delete p;\n}\n}\n}";

/// A block is freed in each turn of a loop.
pub(crate) const FREED_IN_A_LOOP: &str =
    "rep struct D { int n; }\nclass K {\nstatic void F(bool b) {\nD* in ExHeap p = new[ExHeap] D();\nwhile (b) { delete p; }\n}\n}";

/// A claimed block is given twice in one call.
pub(crate) const CLAIMED_TWICE: &str =
    "rep struct D { int n; }\nclass K {\nstatic void F([Claims] D* in ExHeap a, [Claims] D* in ExHeap b) { delete a; delete b; }\n\
        static void G([Claims] D* in ExHeap x) {\nF(x, x);\n}\n}";

/// A method ends without giving what it owes, and its caller frees the result.
pub(crate) const NOTHING_GIVEN: &str =
    "rep struct D { int n; }\nclass K {\nstatic D* in ExHeap H() { }\nstatic void F() {\nD* in ExHeap p = H();\ndelete p;\n}\n}";

/// Two processes: one asks over a channel, and the other replies until the channel is closed.
pub(crate) const ASKED: &str =
    "contract Ping { in message Req(); out message Rep(); state Start: Req? -> Pend; state Pend: Rep! -> Start; }
class K {
static void Main() {
Ping.Imp i; Ping.Exp e;
Ping.NewChannel(out i, out e);
start K.Serve(e);
i.SendReq();
switch receive {
case i.Rep(): break;
case i.ChannelClosed(): break;
}
delete i;
}
static void Serve([Claims] Ping.Exp:Start e) {
while (true) {
switch receive {
case e.Req(): e.SendRep(); break;
case e.ChannelClosed(): delete e; return;
}
}
}
}";

/// Four methods, each of which frees its block twice.
pub(crate) const FOUR: &str = "rep struct D { int n; }
class K {
static void A([Claims] D* in ExHeap p) { delete p; delete p; }
static void B([Claims] D* in ExHeap p) { delete p; delete p; }
static void C([Claims] D* in ExHeap p) { delete p; delete p; }
static void D([Claims] D* in ExHeap p) { delete p; delete p; }
}";

/// An end is sent along the other one, to itself.
pub(crate) const SENDS_AN_END: &str =
    "contract W { out message M(W.Imp:S x); state S: M! -> E; state E: ; }
class K {
static void Main() {
W.Imp i; W.Exp e;
W.NewChannel(out i, out e);
e.SendM(i);
delete e;
}
}";

/// A block is read after it was sent.
pub(crate) const READS_WHAT_IT_SENT: &str = "rep struct D { int n; }
contract Put { out message X(D* in ExHeap d); state S: X! -> E; state E: ; }
class K {
static void Main() {
Put.Imp i; Put.Exp e;
Put.NewChannel(out i, out e);
D* in ExHeap p = new[ExHeap] D();
e.SendX(p);
int k = p.n;
delete i; delete e;
}
}";

/// The block in a field is exchanged with another one, which is then freed with the block around the field.
pub(crate) const EXCHANGES: &str = "rep struct D { int n; }
rep struct B { int n; D* in ExHeap d; }
class K {
static void Main() {
D* in ExHeap p = new[ExHeap] D();
B* in ExHeap b = new[ExHeap] B(p);
p = new[ExHeap] D();
exchange(b.d, p);
delete p;
delete b;
}
}";
