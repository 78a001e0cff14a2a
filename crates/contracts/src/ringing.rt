//! Which vertices are on a ring.

ghost use Rattle.std.specs.Prelude.{◌≡◌, ◌==◌, ◌≤◌, length, map, not, IfOk, OnOk};
ghost use Rattle.contracts.specs.Graphs.{groups, InRange};
ghost use Rattle.contracts.specs.Peeling.{AreHeights, IsPeeled};
ghost use Rattle.contracts.specs.Rings.{AreRings};
ghost use Rattle.program.specs.declared.limits.TheConstants.{MOST_STATES};

use crate::components::components_of;
use crate::groups::Groups;
use crate::heights::{all_heights, are_known};
use std::alloc::{AllocError, Global};

/// Returns whether each vertex is on a ring, and finds the missing heights. If all are known, there is no ring and no search.
pub fn rings(
    alloc: Global,
    graph: &Groups<usize>,
    heights: &mut [Option<u32>],
) -> Result<Vec<bool>, AllocError>
    requires few { length (groups graph.now) ≤ MOST_STATES }
    requires range { InRange (groups graph.now) }
    requires peeled { IsPeeled (groups graph.now) heights.old }
    ensures heights { OnOk result (AreHeights (groups graph.now) heights.new) }
    ensures rings { IfOk result (λ rings. AreRings (groups graph.now) rings.items) }
{
    if are_known(heights) {
        return Ok(vec![in alloc; false; graph.len()]?);
    }
    let found = components_of(alloc, graph)?;
    all_heights(graph, &found.order, heights);
    Ok(found.rings)
}

/// Returns for each group whether it has items.
pub fn nonempty_groups(alloc: Global, graph: &Groups<usize>) -> Result<Vec<bool>, AllocError>
    ensures { IfOk result (λ marks. marks.items ≡ map (λ group. not (length group == 0)) (groups graph.now)) }
{
    let mut marks = Vec::with_capacity(alloc, graph.len())?;
    for v in 0..graph.len() {
        marks.push(!graph.group(v).is_empty())?;
    }
    Ok(marks)
}
