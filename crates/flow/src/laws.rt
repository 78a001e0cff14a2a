//! Laws of graphs.

ghost use Rattle.std.specs.Thread.{IsSync};
ghost use Rattle.flow.specs.contracts.graph.Graph as graph;

use crate::graph::Graph;

/// Threads may share a graph by reference.
pub fn threads_share_a_graph()
    ensures { IsSync graph.the_row }
{
    shared::<Graph>();
}

/// Values of this type may be shared.
fn shared<T: Sync>()
    ensures { IsSync T.row }
{}
