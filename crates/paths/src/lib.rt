// The walk through a meeting node: up the labels of either side, each entry opened on the way. The two halves are mirror images, one
// with its chain in front and the other behind, and share no more than a step up.
#![tactic(auto)]

ghost use Rattle.std.specs.Prelude.{[], ◌∷◌, ◌≡◌};
ghost use Rattle.rules.specs.Columns.{forward, backward};
ghost use Rattle.tables.specs.Lent.{hierarchy_of};
ghost use Rattle.unpacking.specs.Written.{Put};
ghost use Rattle.paths.specs.Climbs.{Climbing, Climbed, Extracting, Extracted};

use halves::SideLabels;
use rules::INVALID;
use tables::FastGraph;
use unpacking::{unpack_bwd, unpack_fwd};

// The forward half: the chain of parents of v, its end first.
fn climb_fwd(
    g: &FastGraph<'_>,
    half: &SideLabels<'_>,
    v: usize,
    path: &mut [u32],
    at: usize,
    limit: usize,
) -> usize
    requires { Climbing (hierarchy_of g.now) forward half.now.labels.now half.now.base v «at» limit }
    ensures { Climbed (hierarchy_of g.now) forward half.now.labels.now half.now.base v «at» limit result path.old path.new }
{
    let own = half.load(v);
    let via = own.via;
    let parent = own.parent;
    if via == INVALID as u64 {
        return 0;
    }
    let first = climb_fwd(g, half, parent as usize, path, at, limit);
    let then = unpack_fwd(g, via as u32, path, at + first, limit - first);
    first + then
}

// One node, where there is room for it and the limit is not met.
fn put_node(path: &mut [u32], at: usize, limit: usize, node: u32) -> usize
    ensures { Put (node ∷ []) «at» limit result path.old path.new }
{
    if limit == 0 {
        return 0;
    }
    if at < path.len() {
        path[at] = node;
    }
    1
}

// The backward half, its end last, which is a node of the walk.
fn climb_bwd(
    g: &FastGraph<'_>,
    half: &SideLabels<'_>,
    v: usize,
    path: &mut [u32],
    at: usize,
    limit: usize,
) -> usize
    requires { Climbing (hierarchy_of g.now) backward half.now.labels.now half.now.base v «at» limit }
    ensures { Climbed (hierarchy_of g.now) backward half.now.labels.now half.now.base v «at» limit result path.old path.new }
{
    let own = half.load(v);
    let via = own.via;
    let parent = own.parent;
    if via == INVALID as u64 {
        return put_node(path, at, limit, v as u32);
    }
    let first = unpack_bwd(g, via as u32, path, at, limit);
    let then = climb_bwd(g, half, parent as usize, path, at + first, limit - first);
    first + then
}

// Both halves, as far as the limit.
pub fn extract_nodes(
    g: &FastGraph<'_>,
    fwd: &SideLabels<'_>,
    bwd: &SideLabels<'_>,
    v: usize,
    path: &mut [u32],
    limit: usize,
) -> usize
    requires { (bwd.now.base ≡ fwd.now.base) × Extracting (hierarchy_of g.now) fwd.now.labels.now bwd.now.labels.now fwd.now.base v limit }
    ensures { Extracted (hierarchy_of g.now) fwd.now.labels.now bwd.now.labels.now fwd.now.base v limit result path.old path.new }
{
    let first = climb_fwd(g, fwd, v, path, 0, limit);
    let then = climb_bwd(g, bwd, v, path, first, limit - first);
    first + then
}
