//! The rule table's line for a switch.

ghost use Rattle.std.specs.Prelude.{◌≡◌, [], ◌++◌, ◌<◌, All, IfOk, Ok, OnOk, flat_map, map};
ghost use Rattle.std.specs.List.{list_all};
ghost use Rattle.flow.specs.Cases.{first_mentions};
ghost use Rattle.flow.specs.Graphs as graphs;
ghost use Rattle.flow.specs.Graphs.{cases_model};
ghost use Rattle.program.specs.declared.limits.TheConstants.{MOST_STATES};
ghost use Rattle.rules.specs.Endpoints.{declared_leaf};
ghost use Rattle.rows.specs.Leaves.{IsNumbered};
ghost use Rattle.rules.specs.Mentions.{require_owned};
ghost use Rattle.rows.specs.Rows.{row_model};
ghost use Rattle.rules.specs.Steps.{pair_model};
ghost use Rattle.rules.specs.Switches as table;
ghost use Rattle.rules.specs.Switches.{bound_leaves};
ghost use Rattle.rules.specs.Checks.{StandsFor};
ghost use Rattle.rules.specs.Sites.{FollowsHere, method_of, program_of, row_of};

use crate::breach::{Breach, Reason};
use crate::checks::require_owned;
use crate::endpoints::{declared_leaf, type_of};
use crate::here::Here;
use crate::onward::Onward;
use flow::Cases;
use program::{Edge, HeapType, Mention, VarId};
use rows::{Leaf, Row, Spare};
use source::{Memory, Place};

/// Applies a switch, which waits. It continues at a case for each message that may arrive at one of its endpoints, and for the close of
/// each.
///
/// # Errors
/// `Memory` if out of memory for its rows.
pub(crate) fn switch(
    here: &Here<'_>,
    place: Place,
    cases: &Cases,
    spare: &mut Spare,
) -> Result<Onward, Memory>
    ensures { IfOk result
        (λ o. FollowsHere here.now (graphs.Switch place (cases_model cases.now)) (Ok o)) }
{
    match require_cases(here, place, cases) {
        Ok(()) => Ok(Onward::Ways(ways(here, cases, spare)?)),
        Err(breach) => Ok(Onward::Found(breach)),
    }
}

/// Checks that each endpoint has something, that they are not all to send, and that each message that may arrive has a case.
fn require_cases(here: &Here<'_>, place: Place, cases: &Cases) -> Result<(), Breach>
    ensures { StandsFor result
        (table.switch_checks (program_of here.now) (method_of here.now) (row_of here.now) place
        (cases_model cases.now)) }
{
    require_all_owned(here, cases.endpoints())?;
    if are_to_send(here, cases.endpoints()) {
        return Err(Breach::at(place, Reason::NothingToReceive));
    }
    require_all_covered(here, cases)
}

/// Checks that each endpoint has something.
fn require_all_owned(here: &Here<'_>, endpoints: &[Mention]) -> Result<(), Breach>
    ensures { StandsFor result
        (map (require_owned (row_of here.now)) endpoints.now) }
{
    for endpoint in endpoints {
        require_owned(here, *endpoint)?;
    }
    Ok(())
}

/// Returns whether an endpoint is in a state in which it sends.
fn is_to_send(here: &Here<'_>, endpoint: Mention) -> bool
    ensures { result ≡ table.is_to_send (program_of here.now) (method_of here.now) (row_of here.now)
        endpoint }
{
    match here.row.leaf(endpoint.variable) {
        Leaf::State(state) => {
            let ty = type_of(here.site.method, endpoint.variable);
            here.site.program.sends(ty, state)
        }
        Leaf::Nothing | Leaf::Block | Leaf::CutOff => false,
    }
}

/// Returns whether all endpoints are in a state in which they send.
fn are_to_send(here: &Here<'_>, endpoints: &[Mention]) -> bool
    ensures { result ≡ list_all
        (table.is_to_send (program_of here.now) (method_of here.now) (row_of here.now)) endpoints.now }
{
    endpoints.iter().all(|endpoint| is_to_send(here, *endpoint))
}

/// Returns the edges along which an endpoint may receive in its state, in order of the contract.
fn awaited_edges<'a>(here: &Here<'a>, endpoint: Mention) -> &'a [Edge]
    ensures edges { result.now ≡ table.awaited_edges (program_of here.now) (method_of here.now)
        (row_of here.now) endpoint }
    ensures numbered { All (λ e. e.to.0 < MOST_STATES) result.now }
{
    match here.row.leaf(endpoint.variable) {
        Leaf::State(state) => {
            let ty = type_of(here.site.method, endpoint.variable);
            here.site.program.edges_in(ty, state)
        }
        Leaf::Nothing | Leaf::Block | Leaf::CutOff => &[],
    }
}

/// Checks that each message that may arrive at an endpoint has a case.
fn require_covered(here: &Here<'_>, cases: &Cases, endpoint: Mention) -> Result<(), Breach>
    ensures { StandsFor result
        (table.cover_checks (program_of here.now) (method_of here.now) (row_of here.now)
        (cases_model cases.now)
        endpoint) }
{
    let Mention { variable, place } = endpoint;
    let awaited = awaited_edges(here, endpoint);
    for edge in awaited {
        if cases.find(variable, Some(edge.message)).is_none() {
            let (endpoint, message) = (variable, edge.message);
            return Err(Breach::at(place, Reason::NotCovered { endpoint, message }));
        }
    }
    Ok(())
}

/// Checks that each message that may arrive at one of the endpoints has a case.
fn require_all_covered(here: &Here<'_>, cases: &Cases) -> Result<(), Breach>
    ensures { StandsFor result
        (flat_map (table.cover_checks (program_of here.now) (method_of here.now) (row_of here.now)
        (cases_model cases.now)) (first_mentions [] (cases_model cases.now))) }
{
    let endpoints = cases.endpoints();
    for endpoint in endpoints {
        require_covered(here, cases, *endpoint)?;
    }
    Ok(())
}

/// Gives the variables that a case binds what the message brings.
fn bind(row: &mut Row, targets: &[VarId], types: &[HeapType])
    requires numbered { All (λ ty. IsNumbered (declared_leaf ty)) types.now }
    ensures { row_model row.new ≡ bound_leaves (row_model row.old) targets.now types.now }
{
    for number in 0..targets.len().min(types.len()) {
        row.set(targets[number], declared_leaf(types[number]));
    }
}

/// Adds the pair with which a switch continues on the message of an edge.
fn receive(
    here: &Here<'_>,
    cases: &Cases,
    endpoint: VarId,
    edge: Edge,
    spare: &mut Spare,
    pairs: &mut Vec<(usize, Row)>,
) -> Result<(), Memory>
    requires numbered { edge.to.0 < MOST_STATES }
    ensures { OnOk result (map pair_model pairs.new.items ≡ map pair_model pairs.old.items
        ++ table.receive_pairs (program_of here.now) (method_of here.now) (row_of here.now)
        (cases_model cases.now) endpoint.0 edge) }
{
    if let Some(case) = cases.find(endpoint, Some(edge.message)) {
        let mut row = spare.copy_of(here.row)?;
        row.set(endpoint, Leaf::State(edge.to.0));
        bind(
            &mut row,
            &case.targets,
            here.site.program.payload_types(edge.message),
        );
        pairs.push((case.next, row))?;
    }
    Ok(())
}

/// Adds the pair with which a switch continues on the close of an endpoint, which is then cut off.
fn close(
    here: &Here<'_>,
    cases: &Cases,
    endpoint: VarId,
    spare: &mut Spare,
    pairs: &mut Vec<(usize, Row)>,
) -> Result<(), Memory>
    ensures { OnOk result (map pair_model pairs.new.items ≡ map pair_model pairs.old.items
        ++ table.close_pairs (program_of here.now) (method_of here.now) (row_of here.now)
        (cases_model cases.now) endpoint.0) }
{
    if let Some(case) = cases.find(endpoint, None) {
        let mut row = spare.copy_of(here.row)?;
        row.set(endpoint, Leaf::CutOff);
        pairs.push((case.next, row))?;
    }
    Ok(())
}

/// Adds the pairs with which a switch continues on what may arrive at an endpoint.
fn come_at(
    here: &Here<'_>,
    cases: &Cases,
    endpoint: Mention,
    spare: &mut Spare,
    pairs: &mut Vec<(usize, Row)>,
) -> Result<(), Memory>
    ensures { OnOk result (map pair_model pairs.new.items ≡ map pair_model pairs.old.items
        ++ table.comes_at (program_of here.now) (method_of here.now) (row_of here.now)
        (cases_model cases.now) endpoint) }
{
    let edges = awaited_edges(here, endpoint);
    for edge in edges {
        receive(here, cases, endpoint.variable, *edge, spare, pairs)?;
    }
    close(here, cases, endpoint.variable, spare, pairs)
}

/// Returns the pairs with which a switch continues, endpoint by endpoint.
///
/// # Errors
/// `Memory` if out of memory.
fn ways(here: &Here<'_>, cases: &Cases, spare: &mut Spare) -> Result<Vec<(usize, Row)>, Memory>
    ensures { IfOk result (λ pairs. map pair_model pairs.items
        ≡ table.switch_pairs (program_of here.now) (method_of here.now) (row_of here.now)
        (cases_model cases.now)) }
{
    let mut pairs = spare.no_pairs();
    let endpoints = cases.endpoints();
    for endpoint in endpoints {
        come_at(here, cases, *endpoint, spare, &mut pairs)?;
    }
    Ok(pairs)
}
