// Rule 5: at the end each centre becomes two numbers, and the order's inverse is written.
#![tactic(auto)]

ghost use Rattle.std.specs.Prelude.{List, ℕ, ◌+◌, ◌≤◌, ◌<◌, length, get_or};
ghost use Rattle.rules.specs.Columns.{Side};
ghost use Rattle.rules.specs.Refusals.{BuildCall};
ghost use Rattle.rules.specs.Build.{Raw, Building};
ghost use Rattle.finish.specs.Promises.{Seekable, Sought, Inverse, Ranks, Ended};
ghost use Rattle.finish.specs.Lent.{OpeningAt, OpensAt, FinishingAt, FinishesAt, EndingAt};

use rules::INVALID;

// The first entry of a rank to, or from, u; where the rank ends if there is none.
fn get_edge_id(starts: &[u32], neighbours: &[u32], r: u32, u: u32) -> u32
    requires { Seekable starts.now (length neighbours.now) r }
    ensures { Sought starts.now neighbours.now r u result }
{
    let begin = starts[r as usize];
    let end = starts[r as usize + 1];
    for e in begin..end {
        if neighbours[e as usize] == u {
            return e;
        }
    }
    // Starts may fall where no table rule was checked: then the rank is empty, and ends where it begins.
    end.max(begin)
}

// What an entry's numbers are looked up in: the ranks, and of either table where a rank's entries start and whom they meet.
#[derive(Clone, Copy)]
struct Laid<'a, 'b> {
    ranks: &'a [u32],
    fwd_starts: &'a [u32],
    fwd_neighbours: &'b [u32],
    bwd_starts: &'a [u32],
    bwd_neighbours: &'b [u32],
}

// The two numbers of an entry.
#[derive(Clone, Copy)]
struct Numbers {
    into: u32,
    out: u32,
}

// The backward entry of the centre from the tail, and its forward entry to the head. Without a centre both are invalid.
fn open_entry(laid: Laid<'_, '_>, centre: u32, tail: u32, head: u32) -> Numbers
    requires { (c : BuildCall) × (b : Building) × (s : Side) × (x : Raw) × OpeningAt c b s x centre tail head laid }
    ensures { OpensAt centre tail head laid.entry result }
{
    if centre == INVALID {
        return Numbers {
            into: INVALID,
            out: INVALID,
        };
    }
    let r = laid.ranks[centre as usize];
    let into = get_edge_id(laid.bwd_starts, laid.bwd_neighbours, r, tail);
    let out = get_edge_id(laid.fwd_starts, laid.fwd_neighbours, r, head);
    Numbers { into, out }
}

// The entries of one table, whose centres wait in the column of the first numbers.
fn finish_table(
    laid: Laid<'_, '_>,
    count: usize,
    tails: &[u32],
    heads: &[u32],
    ins: &mut [u32],
    outs: &mut [u32],
)
    requires { (c : BuildCall) × (b : Building) × (s : Side) × FinishingAt c b s count laid
        tails.now heads.now ins.old outs.old }
    ensures { FinishesAt count laid.entry tails.now heads.now ins.old outs.old ins.new outs.new }
{
    for e in 0..count {
        let numbers = open_entry(laid, ins[e], tails[e], heads[e]);
        ins[e] = numbers.into;
        outs[e] = numbers.out;
    }
}

// The order's inverse.
fn write_ranks(order: &[u32], ranks: &mut [u32])
    requires { (n : ℕ) × Inverse n order.now ranks.old }
    ensures { Ranks order.now ranks.old ranks.new }
{
    for (r, node) in order.iter().enumerate() {
        ranks[*node as usize] = r as u32;
    }
}

// A table whose entries are laid, as it is lent to rule 5: the last start and the numbers are written, the entries' ends only read.
#[derive(Drop)]
pub struct LaidTable<'a, 'b> {
    pub starts: &'a mut [u32],
    pub ins: &'a mut [u32],
    pub outs: &'a mut [u32],
    pub bases: &'b [u32],
    pub neighbours: &'b [u32],
}

// The order's inverse, the last starts, and both tables, of so many entries.
pub fn finish_contraction(
    n: usize,
    order: &[u32],
    fwd_count: usize,
    bwd_count: usize,
    ranks: &mut [u32],
    fwd: LaidTable<'_, '_>,
    bwd: LaidTable<'_, '_>,
)
    requires { (c : BuildCall) × (b : Building) × EndingAt c b n order.now fwd_count bwd_count ranks.old fwd bwd }
    ensures { (c : BuildCall) (b : Building) → EndingAt c b n order.now fwd_count bwd_count ranks.old fwd.entry bwd.entry →
        Ended c b ranks.new
        fwd.exit.0.now fwd.exit.1.0.now fwd.exit.1.1.0.now bwd.exit.0.now bwd.exit.1.0.now bwd.exit.1.1.0.now }
{
    let LaidTable {
        starts: fwd_starts,
        ins: fwd_ins,
        outs: fwd_outs,
        bases: fwd_bases,
        neighbours: fwd_neighbours,
    } = fwd;
    let LaidTable {
        starts: bwd_starts,
        ins: bwd_ins,
        outs: bwd_outs,
        bases: bwd_bases,
        neighbours: bwd_neighbours,
    } = bwd;
    write_ranks(order, ranks);
    fwd_starts[n] = fwd_count as u32;
    bwd_starts[n] = bwd_count as u32;
    let laid = Laid {
        ranks,
        fwd_starts,
        fwd_neighbours,
        bwd_starts,
        bwd_neighbours,
    };
    finish_table(
        laid,
        fwd_count,
        fwd_bases,
        fwd_neighbours,
        fwd_ins,
        fwd_outs,
    );
    finish_table(
        laid,
        bwd_count,
        bwd_neighbours,
        bwd_bases,
        bwd_ins,
        bwd_outs,
    );
}
