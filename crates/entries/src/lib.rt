// Writes the entries of a rank: a node's list into the columns of a table, from the rank's start onward.
#![tactic(auto)]

ghost use Rattle.std.specs.Prelude.{List, ◌≡◌, ℕ, ◌+◌, ◌≤◌, ◌<◌, length};
ghost use Rattle.rules.specs.Graph.{Arc};
ghost use Rattle.rules.specs.Build.{Level};
ghost use Rattle.lists.specs.Memory.{memory};
ghost use Rattle.lists.specs.Walks.{Walk, Reads};
ghost use Rattle.marks.specs.Lent.{table_at};
ghost use Rattle.entries.specs.Laid.{four, part_of};
ghost use Rattle.entries.specs.Lent.{KeptOuts};
ghost use Rattle.entries.specs.Promises.{Writable, Writes, Layable, Lays};

use marks::TableMut;
use rules::INVALID;

// How many arcs a list has from a place on.
pub fn list_length(arcs: &[u32], side: usize, first: u32) -> usize
    requires { (side < 2) × ((places : List ℕ) × Walk arcs.now (3 + side) first places) }
    ensures { (places : List ℕ) → Walk arcs.now (3 + side) first places → result ≡ length places }
{
    let mut count = 0;
    let mut place = first;
    while place != INVALID {
        place = arcs[6 * place as usize + (3 + side)];
        count += 1;
    }
    count
}

// Writes the list of v on one side over the front of the columns. The list is a chain of places, so that its end is met and not
// counted. A centre waits in the column of the first numbers.
fn write_entries(
    arcs: &[u32],
    weights: &[u64],
    side: usize,
    first: u32,
    v: u32,
    bases: &mut [u32],
    neighbours: &mut [u32],
    entry_weights: &mut [u64],
    centres: &mut [u32],
)
    requires { (nodes : List ℕ) × (list : List Arc) × Writable (memory arcs.now nodes) weights.now side first list
        (four bases.old neighbours.old entry_weights.old centres.old) }
    ensures { Writes arcs.now weights.now side first v
        (four bases.old neighbours.old entry_weights.old centres.old)
        (four bases.new neighbours.new entry_weights.new centres.new) }
{
    let mut place = first;
    let mut e = 0;
    while place != INVALID {
        let i = place as usize;
        bases[e] = v;
        neighbours[e] = arcs[6 * i + 1 - side];
        entry_weights[e] = weights[i];
        centres[e] = arcs[6 * i + 2];
        place = arcs[6 * i + (3 + side)];
        e += 1;
    }
}

// Rule 2 for one table: the rank starts at `at`, and its entries are written from there onward.
pub fn lay_rank(
    arcs: &[u32],
    weights: &[u64],
    side: usize,
    first: u32,
    v: u32,
    r: usize,
    at: usize,
    table: &mut TableMut<'_>,
)
    requires { (nodes : List ℕ) × (list : List Arc) × Layable (memory arcs.now nodes) weights.now side first list r at
        (part_of (table_at table.old)) }
    ensures lays { Lays arcs.now weights.now side first v r at (part_of (table_at table.old)) (part_of (table_at table.new)) }
    ensures kept { KeptOuts table.old table.new }
{
    table.starts[r] = at as u32;
    write_entries(
        arcs,
        weights,
        side,
        first,
        v,
        &mut table.bases[at..],
        &mut table.neighbours[at..],
        &mut table.weights[at..],
        &mut table.ins[at..],
    );
}
