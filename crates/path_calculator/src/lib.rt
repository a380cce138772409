// The query, of ends and tables that were found good: both searches, from entering to empty heaps.
#![tactic(auto)]

ghost use Rattle.turns.specs.Turning.{of};
ghost use Rattle.path_calculator.specs.Searching.{Fresh, SearchingOf, SearchedOf};

use halves::{Ends, Half};
use tables::FastGraph;
use turns::Best;

// What the labels hold is of earlier queries: no stamp is of this base, or of a later one.
pub fn search(
    g: &FastGraph<'_>,
    sources: &Ends<'_>,
    targets: &Ends<'_>,
    fwd: &mut Half<'_>,
    bwd: &mut Half<'_>,
) -> Best
    requires { Fresh fwd.old bwd.old × SearchingOf g.now sources.now targets.now fwd.old bwd.old }
    ensures { SearchedOf g.now sources.now targets.now fwd.old bwd.old fwd.new bwd.new (of result) }
{
    let best = ends::first_step(sources, targets);
    fwd.enter(sources);
    bwd.enter(targets);
    let n = g.num_nodes;
    let fwd_entries = g.fwd.starts[n];
    let bwd_entries = g.bwd.starts[n];
    let fuel = sources.nodes.len()
        + targets.nodes.len()
        + fwd_entries as usize
        + bwd_entries as usize;
    rounds::rounds(g, fwd, bwd, best, fuel)
}
