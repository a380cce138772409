// The build in a given order: document 01's call, whole.
#![tactic(auto)]

ghost use Rattle.std.specs.Prelude.{◌≡◌, ◌≤◌, OnOk};
ghost use Rattle.rules.specs.Refusals.{BuildCall};
ghost use Rattle.rules.specs.Build.{Step, Building, built, build};
ghost use Rattle.rules.specs.Refused.{code};
ghost use Rattle.input_graph.specs.Given.{links};
ghost use Rattle.search.specs.Searching.{Lent};
ghost use Rattle.marks.specs.Tables.{table_of, hierarchy};
ghost use Rattle.marks.specs.Lent.{table_at, KeptColumns};
ghost use Rattle.node_contractor.specs.Work.{Work};
ghost use Rattle.contraction.specs.Ranks.{given, call, staged};
ghost use Rattle.finish.specs.Lent.{KeptEntries};
ghost use Rattle.fast_graph_builder.specs.Promises.{answer, run, lengths, Inside, Closing, Passed};

use contraction::Ranked;
use finish::LaidTable;
use graph::preparation_graph::{Pool, PreparationGraph};
use marks::TableMut;
use refusals::Lengths;
use rules::{INVALID, Refusal};
use search::witness_search::{LentSearch, WitnessSearch};

// A pool above what n nodes can ever use is as good as that.
fn pool_inside(n: usize, pool: u64) -> u32
    requires { n ≤ 1024 }
    ensures { Inside n pool result }
{
    if n == 0 {
        return 0;
    }
    let most = n * (n - 1);
    if (most as u64) < pool {
        return most as u32;
    }
    pool as u32
}

// What is left after the ranks: rule 5, or the marks of a refusal.
fn close(
    n: usize,
    order: &[u32],
    ranked: Result<Ranked, Refusal>,
    ranks: &mut [u32],
    fwd: &mut TableMut<'_>,
    bwd: &mut TableMut<'_>,
) -> Result<(), Refusal>
    requires { (c : BuildCall) × (s : Step Building) × (m : Lent) × (w : Work) × Closing c s m n order.now (staged w ranked)
        (hierarchy ranks.old (table_at fwd.old) (table_at bwd.old)) }
    ensures closes { (c : BuildCall) (s : Step Building) (m : Lent) (w : Work) → Closing c s m n order.now (staged w ranked)
        (hierarchy ranks.old (table_at fwd.old) (table_at bwd.old)) →
        answer (code result) (hierarchy ranks.new (table_at fwd.new) (table_at bwd.new)) ≡ built c s }
    ensures fwd_kept { KeptColumns fwd.old fwd.new }
    ensures bwd_kept { KeptColumns bwd.old bwd.new }
    ensures fwd_entries { OnOk result (KeptEntries fwd.old fwd.new) }
    ensures bwd_entries { OnOk result (KeptEntries bwd.old bwd.new) }
{
    match ranked {
        Ok(ranked) => {
            let fwd_starts = &mut *fwd.starts;
            let fwd_bases = &mut *fwd.bases;
            let fwd_neighbours = &mut *fwd.neighbours;
            let fwd_ins = &mut *fwd.ins;
            let fwd_outs = &mut *fwd.outs;
            let bwd_starts = &mut *bwd.starts;
            let bwd_bases = &mut *bwd.bases;
            let bwd_neighbours = &mut *bwd.neighbours;
            let bwd_ins = &mut *bwd.ins;
            let bwd_outs = &mut *bwd.outs;
            let fwd_laid = LaidTable {
                starts: fwd_starts,
                ins: fwd_ins,
                outs: fwd_outs,
                bases: fwd_bases,
                neighbours: fwd_neighbours,
            };
            let bwd_laid = LaidTable {
                starts: bwd_starts,
                ins: bwd_ins,
                outs: bwd_outs,
                bases: bwd_bases,
                neighbours: bwd_neighbours,
            };
            finish::finish_contraction(n, order, ranked.fwd, ranked.bwd, ranks, fwd_laid, bwd_laid);
            Ok(())
        }
        Err(refusal) => {
            marks::mark_all(ranks, fwd, bwd);
            Err(refusal)
        }
    }
}

// Rules 1 to 5 of a call that rows 1 to 9 let pass.
fn build_checked(
    n: usize,
    tails: &[u32],
    heads: &[u32],
    link_weights: &[u32],
    order: &[u32],
    limit: u32,
    pool: u64,
    ranks: &mut [u32],
    fwd: &mut TableMut<'_>,
    bwd: &mut TableMut<'_>,
    arcs: &mut [u32],
    weights: &mut [u64],
    nodes: &mut [u32],
    labels: &mut [u64],
    heap: &mut [u64],
) -> Result<(), Refusal>
    requires { Passed (call (given n (links tails.now heads.now link_weights.now) order.now (hierarchy ranks.old (table_at fwd.old) (table_at bwd.old))
        (lengths arcs.old weights.old nodes.old labels.old heap.old)) limit pool) }
    ensures runs { answer (code result) (hierarchy ranks.new (table_at fwd.new) (table_at bwd.new)) ≡
        run (call (given n (links tails.now heads.now link_weights.now) order.now (hierarchy ranks.old (table_at fwd.old) (table_at bwd.old))
        (lengths arcs.old weights.old nodes.old labels.old heap.old)) limit pool) }
    ensures fwd_kept { KeptColumns fwd.old fwd.new }
    ensures bwd_kept { KeptColumns bwd.old bwd.new }
{
    let inside = pool_inside(n, pool);
    let mut graph = PreparationGraph {
        arcs,
        weights,
        nodes,
        pool: inside,
        state: Pool {
            free: INVALID,
            fresh: 0,
        },
    };
    let mut search = LentSearch {
        labels,
        heap,
        round: WitnessSearch {
            base: 0,
            len: 0,
            settled: 0,
            avoid: INVALID,
        },
    };
    let ranked = contraction::contraction(
        &mut graph,
        &mut search,
        n,
        tails,
        heads,
        link_weights,
        order,
        limit,
        fwd,
        bwd,
    );
    close(n, order, ranked, ranks, fwd, bwd)
}

// Builds a hierarchy in the given order. Whatever is handed in, the answer is a refusal, or a hierarchy.
pub fn build_with_order(
    n: usize,
    tails: &[u32],
    heads: &[u32],
    link_weights: &[u32],
    order: &[u32],
    limit: u32,
    pool: u64,
    ranks: &mut [u32],
    fwd_starts: &mut [u32],
    fwd_bases: &mut [u32],
    fwd_neighbours: &mut [u32],
    fwd_weights: &mut [u64],
    fwd_ins: &mut [u32],
    fwd_outs: &mut [u32],
    bwd_starts: &mut [u32],
    bwd_bases: &mut [u32],
    bwd_neighbours: &mut [u32],
    bwd_weights: &mut [u64],
    bwd_ins: &mut [u32],
    bwd_outs: &mut [u32],
    arcs: &mut [u32],
    weights: &mut [u64],
    nodes: &mut [u32],
    labels: &mut [u64],
    heap: &mut [u64],
) -> Result<(), Refusal>
    ensures { answer (code result) (hierarchy ranks.new
        (table_of fwd_starts.new fwd_bases.new fwd_neighbours.new fwd_weights.new fwd_ins.new fwd_outs.new)
        (table_of bwd_starts.new bwd_bases.new bwd_neighbours.new bwd_weights.new bwd_ins.new bwd_outs.new)) ≡
        build (call (given n (links tails.now heads.now link_weights.now) order.now (hierarchy ranks.old
        (table_of fwd_starts.old fwd_bases.old fwd_neighbours.old fwd_weights.old fwd_ins.old fwd_outs.old)
        (table_of bwd_starts.old bwd_bases.old bwd_neighbours.old bwd_weights.old bwd_ins.old bwd_outs.old))
        (lengths arcs.old weights.old nodes.old labels.old heap.old)) limit pool) }
{
    refusals::refusal(n, tails, heads, link_weights, order)?;
    let mut fwd = TableMut {
        starts: fwd_starts,
        bases: fwd_bases,
        neighbours: fwd_neighbours,
        weights: fwd_weights,
        ins: fwd_ins,
        outs: fwd_outs,
    };
    let mut bwd = TableMut {
        starts: bwd_starts,
        bases: bwd_bases,
        neighbours: bwd_neighbours,
        weights: bwd_weights,
        ins: bwd_ins,
        outs: bwd_outs,
    };
    if refusals::lent_short(
        n,
        pool,
        ranks.len(),
        Lengths::of(&fwd),
        Lengths::of(&bwd),
        arcs.len(),
        weights.len(),
        nodes.len(),
        labels.len(),
        heap.len(),
    ) {
        return Err(Refusal::Lent);
    }
    build_checked(
        n,
        tails,
        heads,
        link_weights,
        order,
        limit,
        pool,
        ranks,
        &mut fwd,
        &mut bwd,
        arcs,
        weights,
        nodes,
        labels,
        heap,
    )
}
