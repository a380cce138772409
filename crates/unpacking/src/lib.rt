// Unpacking: the nodes of the walk that an entry opens into.
//
// A forward entry opens into one backward and one forward entry, and so does a backward one, each of a node of lower rank: two
// functions that call each other (document 01's form for this place). They write where there is room, as far as a limit, and
// return how many nodes there were: with no room at all they count. So a walk is measured before anything is written, and no
// longer than it takes to pass the limit.
#![tactic(auto)]

ghost use Rattle.rules.specs.Columns.{forward, backward};
ghost use Rattle.tables.specs.Lent.{hierarchy_of};
ghost use Rattle.unpacking.specs.Written.{Unpacking, Wrote};

use rules::INVALID;
use tables::FastGraph;

#[cycle(unpack_bwd_unpack_fwd)]
pub fn unpack_fwd(g: &FastGraph<'_>, e: u32, path: &mut [u32], at: usize, limit: usize) -> usize
    requires { Unpacking (hierarchy_of g.now) forward e «at» limit }
    ensures { Wrote (hierarchy_of g.now) forward e «at» limit result path.old path.new }
{
    if limit == 0 {
        return 0;
    }
    let k = e as usize;
    let a = g.fwd.ins[k];
    if a == INVALID {
        if at < path.len() {
            path[at] = g.fwd.bases[k];
        }
        return 1;
    }
    let first = unpack_bwd(g, a, path, at, limit);
    let then = unpack_fwd(g, g.fwd.outs[k], path, at + first, limit - first);
    first + then
}

#[cycle(unpack_bwd_unpack_fwd)]
pub fn unpack_bwd(g: &FastGraph<'_>, e: u32, path: &mut [u32], at: usize, limit: usize) -> usize
    requires { Unpacking (hierarchy_of g.now) backward e «at» limit }
    ensures { Wrote (hierarchy_of g.now) backward e «at» limit result path.old path.new }
{
    if limit == 0 {
        return 0;
    }
    let k = e as usize;
    let a = g.bwd.ins[k];
    if a == INVALID {
        if at < path.len() {
            path[at] = g.bwd.neighbours[k];
        }
        return 1;
    }
    let first = unpack_bwd(g, a, path, at, limit);
    let then = unpack_fwd(g, g.bwd.outs[k], path, at + first, limit - first);
    first + then
}
