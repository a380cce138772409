// Lists of arcs through a lent pool, where the Rust has vectors: each arc is in two of them.
//
// Place i of the pool is six numbers of `arcs`, from 6 * i on: tail, head and centre of its arc, the next place in its tail's list,
// the next in its head's list, and the next among the freed; its weight is `weights[i]`. A node v has four numbers of `nodes`, from
// 4 * v on: first and last of its out list, first and last of its in list. INVALID ends a list.
//
// Out list and in list are sides 0 and 1 of one layout, so each step is written once for both. A side is a number, since places are
// counted with it.
#![tactic(auto)]

ghost use Rattle.std.specs.Prelude.{◌≡◌, List, ℕ, ◌+◌, ◌*◌, ◌-◌, ◌<◌, ◌≤◌, eqb, length, set};
ghost use Rattle.rules.specs.Numbers.{invalid};
ghost use Rattle.rules.specs.Lists.{In};
ghost use Rattle.lists.specs.Memory.{memory, first, last, arc};
ghost use Rattle.lists.specs.Steps.{follow as followed, append as appended, unlink as unlinked, write, put};
ghost use Rattle.lists.specs.Walks.{column, Walk, before as before_in, found};
ghost use Rattle.lists.specs.Promises.{Room, Open, CanTake};

use rules::INVALID;

// In the list of `node`, `next` follows `before`; where that is INVALID, it is the first.
fn follow(arcs: &mut [u32], nodes: &mut [u32], side: usize, node: usize, before: u32, next: u32)
    requires { Open (memory arcs.old nodes.old) side node before }
    ensures { memory arcs.new nodes.new ≡ followed (memory arcs.old nodes.old) side node before next }
{
    if before == INVALID {
        nodes[4 * node + 2 * side] = next;
    } else {
        arcs[6 * before as usize + (3 + side)] = next;
    }
}

// Place `place` goes to the end of the list of `node`.
fn append(arcs: &mut [u32], nodes: &mut [u32], side: usize, node: usize, place: u32)
    requires { Open (memory arcs.old nodes.old) side node (last (memory arcs.old nodes.old) side node) × Room (memory arcs.old nodes.old) place }
    ensures { memory arcs.new nodes.new ≡ appended (memory arcs.old nodes.old) side node place }
{
    let end = nodes[4 * node + (2 * side + 1)];
    arcs[6 * place as usize + (3 + side)] = INVALID;
    follow(arcs, nodes, side, node, end, place);
    nodes[4 * node + (2 * side + 1)] = place;
}

// Place `place`, which follows `before`, leaves the list of `node`.
pub fn unlink(
    arcs: &mut [u32],
    nodes: &mut [u32],
    side: usize,
    node: usize,
    place: u32,
    before: u32,
)
    requires { Open (memory arcs.old nodes.old) side node before × Room (memory arcs.old nodes.old) place }
    ensures { memory arcs.new nodes.new ≡ unlinked (memory arcs.old nodes.old) side node place before }
{
    let next = arcs[6 * place as usize + (3 + side)];
    follow(arcs, nodes, side, node, before, next);
    if next == INVALID {
        nodes[4 * node + (2 * side + 1)] = before;
    }
}

// What stands before `place` in the list of side `side` that starts at `start`: INVALID where it is the first.
pub fn predecessor(arcs: &[u32], side: usize, start: u32, place: u32) -> u32
    requires { (side < 2) × ((l : List ℕ) × Walk arcs.now (3 + side) start l × In place l) }
    ensures { (l : List ℕ) → Walk arcs.now (3 + side) start l → In place l → result ≡ before_in invalid place l }
{
    let mut before = INVALID;
    let mut at = start;
    while at != place {
        before = at;
        at = arcs[6 * at as usize + (3 + side)];
    }
    before
}

// The first place, in the out list that starts at `start`, of an arc to `head`: INVALID where there is none.
pub fn find_arc(arcs: &[u32], start: u32, head: u32) -> u32
    requires { (l : List ℕ) × Walk arcs.now 3 start l }
    ensures { (l : List ℕ) → Walk arcs.now 3 start l → result ≡ found (λ i. eqb (column arcs.now 1 i) head) l }
{
    let mut at = start;
    while at != INVALID {
        let i = 6 * at as usize;
        if arcs[i + 1] == head {
            return at;
        }
        at = arcs[i + 3];
    }
    INVALID
}

// Writes an arc at a place.
fn write_arc(
    arcs: &mut [u32],
    weights: &mut [u64],
    place: u32,
    tail: u32,
    head: u32,
    weight: u64,
    centre: u32,
)
    requires { (6 * place + 6 ≤ length arcs.old) × (place < length weights.old) }
    ensures { (arcs.new ≡ write arcs.old place (arc tail head weight centre)) × (weights.new ≡ set weights.old place weight) }
{
    let at = place as usize;
    arcs[6 * at] = tail;
    arcs[6 * at + 1] = head;
    arcs[6 * at + 2] = centre;
    weights[at] = weight;
}

// Writes an arc at a place that held none, and puts it at the end of both lists.
pub fn put_arc(
    arcs: &mut [u32],
    weights: &mut [u64],
    nodes: &mut [u32],
    place: u32,
    tail: u32,
    head: u32,
    weight: u64,
    centre: u32,
)
    requires { CanTake (memory arcs.old nodes.old) weights.old place (arc tail head weight centre) }
    ensures { (memory arcs.new nodes.new ≡ put (memory arcs.old nodes.old) place (arc tail head weight centre)) ×
        (weights.new ≡ set weights.old place weight) }
{
    write_arc(arcs, weights, place, tail, head, weight, centre);
    append(arcs, nodes, 0, tail as usize, place);
    append(arcs, nodes, 1, head as usize, place);
}
