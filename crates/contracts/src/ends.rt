//! What the two ends of a channel can do.

ghost use Rattle.contracts.specs.TwoEnds.{HeldAlways, NeverLonger, OnceAsLong};

/// The law of the two ends of a channel of a sound contract, which begin in its first state with both queues empty. After any
/// sends and receives along its edges one queue is empty, and the other, front first, is a walk from the state of the end that
/// receives it to the state of its peer. No sends and receives make a queue longer than its bound, and some make it as long.
pub fn two_ends()
    ensures held { HeldAlways }
    ensures bounded { NeverLonger }
    ensures reached { OnceAsLong }
{}
