// The library that a gateway links: document 01's calls and the record program under names of one prefix.
//
// Each function is one call of the one that it is named after, whose contract it has. None asks anything of its caller. A hierarchy's
// columns are written out in each, field by field: a function of fourteen places would hide two that are exchanged.
#![tactic(auto)]

ghost use Rattle.std.specs.Prelude.{[], ◌∷◌, ◌≡◌, length};
ghost use Rattle.rules.specs.Refusals.{check_refusal};
ghost use Rattle.rules.specs.Build.{build};
ghost use Rattle.rules.specs.Query.{query};
ghost use Rattle.rules.specs.Program.{program};
ghost use Rattle.input_graph.specs.Given.{links};
ghost use Rattle.marks.specs.Tables.{table_of, hierarchy};
ghost use Rattle.contraction.specs.Ranks.{given, call as build_call};
ghost use Rattle.fast_graph_builder.specs.Promises.{answer as built, lengths};
ghost use Rattle.tables.specs.Lent.{columns, lent};
ghost use Rattle.path_calculator.specs.Searching.{call as query_call};
ghost use Rattle.query.specs.Answers.{answer, Tells};
ghost use Rattle.calc_paths.specs.Many.{calc_paths};
ghost use Rattle.calc_paths.specs.Filling.{columns_of, paths_call, answered};
ghost use Rattle.text.specs.Wrote.{Wrote};

use halves::{Ends, Half};
use tables::{FastGraph, Table};

// The build in a given order.
#[unsafe(no_mangle)]
pub extern "C" fn ratmanoep_build_with_order(
    n: usize,
    tails: &[u32],
    heads: &[u32],
    link_weights: &[u32],
    order: &[u32],
    limit: u32,
    pool: u64,
    ranks: &mut [u32],
    fwd_starts: &mut [u32],
    fwd_bases: &mut [u32],
    fwd_neighbours: &mut [u32],
    fwd_weights: &mut [u64],
    fwd_ins: &mut [u32],
    fwd_outs: &mut [u32],
    bwd_starts: &mut [u32],
    bwd_bases: &mut [u32],
    bwd_neighbours: &mut [u32],
    bwd_weights: &mut [u64],
    bwd_ins: &mut [u32],
    bwd_outs: &mut [u32],
    arcs: &mut [u32],
    weights: &mut [u64],
    nodes: &mut [u32],
    labels: &mut [u64],
    heap: &mut [u64],
) -> u32
    ensures { built result (hierarchy ranks.new
        (table_of fwd_starts.new fwd_bases.new fwd_neighbours.new fwd_weights.new fwd_ins.new fwd_outs.new)
        (table_of bwd_starts.new bwd_bases.new bwd_neighbours.new bwd_weights.new bwd_ins.new bwd_outs.new)) ≡
        build (build_call (given n (links tails.now heads.now link_weights.now) order.now (hierarchy ranks.old
        (table_of fwd_starts.old fwd_bases.old fwd_neighbours.old fwd_weights.old fwd_ins.old fwd_outs.old)
        (table_of bwd_starts.old bwd_bases.old bwd_neighbours.old bwd_weights.old bwd_ins.old bwd_outs.old))
        (lengths arcs.old weights.old nodes.old labels.old heap.old)) limit pool) }
{
    rules::number(fast_graph_builder::build_with_order(
        n,
        tails,
        heads,
        link_weights,
        order,
        limit,
        pool,
        ranks,
        fwd_starts,
        fwd_bases,
        fwd_neighbours,
        fwd_weights,
        fwd_ins,
        fwd_outs,
        bwd_starts,
        bwd_bases,
        bwd_neighbours,
        bwd_weights,
        bwd_ins,
        bwd_outs,
        arcs,
        weights,
        nodes,
        labels,
        heap,
    ))
}

// The table check.
#[unsafe(no_mangle)]
pub extern "C" fn ratmanoep_check_tables(
    n: usize,
    ranks: &[u32],
    fwd_starts: &[u32],
    fwd_bases: &[u32],
    fwd_neighbours: &[u32],
    fwd_weights: &[u64],
    fwd_ins: &[u32],
    fwd_outs: &[u32],
    bwd_starts: &[u32],
    bwd_bases: &[u32],
    bwd_neighbours: &[u32],
    bwd_weights: &[u64],
    bwd_ins: &[u32],
    bwd_outs: &[u32],
) -> u32
    ensures { result ≡ check_refusal n (lent ranks.now (columns fwd_starts.now fwd_bases.now fwd_neighbours.now fwd_weights.now fwd_ins.now fwd_outs.now) (columns bwd_starts.now bwd_bases.now bwd_neighbours.now bwd_weights.now bwd_ins.now bwd_outs.now)) }
{
    let g = FastGraph {
        num_nodes: n,
        ranks,
        fwd: Table {
            starts: fwd_starts,
            bases: fwd_bases,
            neighbours: fwd_neighbours,
            weights: fwd_weights,
            ins: fwd_ins,
            outs: fwd_outs,
        },
        bwd: Table {
            starts: bwd_starts,
            bases: bwd_bases,
            neighbours: bwd_neighbours,
            weights: bwd_weights,
            ins: bwd_ins,
            outs: bwd_outs,
        },
    };
    rules::number(tables::check_tables(&g))
}

// The query: number and weight go to lent numbers, and the walk to the front of the path; returns how many places that is.
#[unsafe(no_mangle)]
pub extern "C" fn ratmanoep_calc_path(
    n: usize,
    ranks: &[u32],
    fwd_starts: &[u32],
    fwd_bases: &[u32],
    fwd_neighbours: &[u32],
    fwd_weights: &[u64],
    fwd_ins: &[u32],
    fwd_outs: &[u32],
    bwd_starts: &[u32],
    bwd_bases: &[u32],
    bwd_neighbours: &[u32],
    bwd_weights: &[u64],
    bwd_ins: &[u32],
    bwd_outs: &[u32],
    sources: &[u32],
    source_offsets: &[u64],
    targets: &[u32],
    target_offsets: &[u64],
    path: &mut [u32],
    number: &mut u32,
    weight: &mut u64,
    fwd_labels: &mut [u64],
    bwd_labels: &mut [u64],
    fwd_heap: &mut [u64],
    bwd_heap: &mut [u64],
) -> usize
    ensures { Tells (query (query_call n (lent ranks.now (columns fwd_starts.now fwd_bases.now fwd_neighbours.now fwd_weights.now fwd_ins.now fwd_outs.now) (columns bwd_starts.now bwd_bases.now bwd_neighbours.now bwd_weights.now bwd_ins.now bwd_outs.now)) sources.now source_offsets.now targets.now target_offsets.now path.old (length fwd_labels.old ∷ length bwd_labels.old ∷ length fwd_heap.old ∷ length bwd_heap.old ∷ []))) (answer number.new weight.new result) path.new }
{
    let g = FastGraph {
        num_nodes: n,
        ranks,
        fwd: Table {
            starts: fwd_starts,
            bases: fwd_bases,
            neighbours: fwd_neighbours,
            weights: fwd_weights,
            ins: fwd_ins,
            outs: fwd_outs,
        },
        bwd: Table {
            starts: bwd_starts,
            bases: bwd_bases,
            neighbours: bwd_neighbours,
            weights: bwd_weights,
            ins: bwd_ins,
            outs: bwd_outs,
        },
    };
    let sources = Ends {
        nodes: sources,
        offsets: source_offsets,
    };
    let targets = Ends {
        nodes: targets,
        offsets: target_offsets,
    };
    let mut fwd = Half::new(fwd_labels, fwd_heap);
    let mut bwd = Half::new(bwd_labels, bwd_heap);
    query::fill_path(
        &g, &sources, &targets, path, number, weight, &mut fwd, &mut bwd,
    )
}

// Many routes of one hierarchy, after one check of its tables.
#[unsafe(no_mangle)]
pub extern "C" fn ratmanoep_calc_paths(
    n: usize,
    ranks: &[u32],
    fwd_starts: &[u32],
    fwd_bases: &[u32],
    fwd_neighbours: &[u32],
    fwd_weights: &[u64],
    fwd_ins: &[u32],
    fwd_outs: &[u32],
    bwd_starts: &[u32],
    bwd_bases: &[u32],
    bwd_neighbours: &[u32],
    bwd_weights: &[u64],
    bwd_ins: &[u32],
    bwd_outs: &[u32],
    sources: &[u32],
    targets: &[u32],
    numbers: &mut [u32],
    weights: &mut [u64],
    lengths: &mut [u32],
    paths: &mut [u32],
    fwd_labels: &mut [u64],
    bwd_labels: &mut [u64],
    fwd_heap: &mut [u64],
    bwd_heap: &mut [u64],
) -> u32
    ensures { answered result (columns_of numbers.new weights.new lengths.new paths.new) ≡ calc_paths (paths_call n (lent ranks.now (columns fwd_starts.now fwd_bases.now fwd_neighbours.now fwd_weights.now fwd_ins.now fwd_outs.now) (columns bwd_starts.now bwd_bases.now bwd_neighbours.now bwd_weights.now bwd_ins.now bwd_outs.now)) sources.now targets.now (columns_of numbers.old weights.old lengths.old paths.old) (length fwd_labels.old ∷ length bwd_labels.old ∷ length fwd_heap.old ∷ length bwd_heap.old ∷ [])) }
{
    let g = FastGraph {
        num_nodes: n,
        ranks,
        fwd: Table {
            starts: fwd_starts,
            bases: fwd_bases,
            neighbours: fwd_neighbours,
            weights: fwd_weights,
            ins: fwd_ins,
            outs: fwd_outs,
        },
        bwd: Table {
            starts: bwd_starts,
            bases: bwd_bases,
            neighbours: bwd_neighbours,
            weights: bwd_weights,
            ins: bwd_ins,
            outs: bwd_outs,
        },
    };
    let mut fwd = Half::new(fwd_labels, fwd_heap);
    let mut bwd = Half::new(bwd_labels, bwd_heap);
    rules::number(calc_paths::calc_paths(
        &g, sources, targets, numbers, weights, lengths, paths, &mut fwd, &mut bwd,
    ))
}

// The record program: its lines go to the front of what is lent, as far as there is room; returns their length.
#[unsafe(no_mangle)]
pub extern "C" fn ratmanoep_answer_records(input: &[u8], out: &mut [u8]) -> usize
    ensures { Wrote out.old 0 (program input.now) result out.new }
{
    gateway::answer_records(input, out)
}
