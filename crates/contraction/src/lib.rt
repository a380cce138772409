// Rules 1 to 4 over the whole order: the ranks are laid into both tables, and each node is contracted in its turn.
#![tactic(auto)]

ghost use Rattle.std.specs.Prelude.{List, ℕ, ◌+◌};
ghost use Rattle.rules.specs.Columns.{Links, Hierarchy};
ghost use Rattle.rules.specs.Build.{Building};
ghost use Rattle.input_graph.specs.Given.{links};
ghost use Rattle.graph.specs.Promises.{Kept};
ghost use Rattle.search.specs.Promises.{Kept as SearchKept};
ghost use Rattle.node_contractor.specs.Work.{work, slices};
ghost use Rattle.entries.specs.Lent.{KeptOuts};
ghost use Rattle.contraction.specs.Ranks.{Given, given, staged};
ghost use Rattle.contraction.specs.Lent.{parts_at};
ghost use Rattle.contraction.specs.Promises.{Stepping, Steps, Starting, Starts, Accepting, Comes};

use entries::{lay_rank, list_length};
use graph::preparation_graph::PreparationGraph;
use marks::TableMut;
use node_contractor::contract_node;
use rules::Refusal;
use search::witness_search::LentSearch;

// The entries so far of either table.
#[derive(Clone, Copy)]
pub struct Ranked {
    pub fwd: usize,
    pub bwd: usize,
}

// Rules 2 to 4 for the node of a rank.
fn rank_step(
    graph: &mut PreparationGraph,
    search: &mut LentSearch,
    limit: u32,
    r: usize,
    v: u32,
    ranked: Ranked,
    fwd: &mut TableMut<'_>,
    bwd: &mut TableMut<'_>,
) -> Result<Ranked, Refusal>
    requires { (g : Given) × (b : Building) × (vs : List ℕ) × Stepping g b vs limit graph.old.pool r v
        (parts_at fwd.old bwd.old) (slices graph.old search.old) (work graph.old search.old) ranked.fwd ranked.bwd }
    ensures steps { Steps limit graph.old.pool r v
        (parts_at fwd.old bwd.old) (slices graph.old search.old) (work graph.old search.old) ranked.fwd ranked.bwd
        (parts_at fwd.new bwd.new) (slices graph.new search.new) (staged (work graph.new search.new) result) }
    ensures kept { Kept graph.old graph.new }
    ensures search_kept { SearchKept search.old search.new }
    ensures fwd_kept { KeptOuts fwd.old fwd.new }
    ensures bwd_kept { KeptOuts bwd.old bwd.new }
{
    let first_out = graph.nodes[4 * v as usize];
    let first_in = graph.nodes[4 * v as usize + 2];
    let arcs = &mut *graph.arcs;
    let weights = &mut *graph.weights;
    let more_fwd = list_length(arcs, 0, first_out);
    let more_bwd = list_length(arcs, 1, first_in);
    if fwd.bases.len() - ranked.fwd < more_fwd {
        return Err(Refusal::Entries);
    }
    if bwd.bases.len() - ranked.bwd < more_bwd {
        return Err(Refusal::Entries);
    }
    lay_rank(arcs, weights, 0, first_out, v, r, ranked.fwd, fwd);
    lay_rank(arcs, weights, 1, first_in, v, r, ranked.bwd, bwd);
    contract_node(graph, search, v, limit)?;
    Ok(Ranked {
        fwd: ranked.fwd + more_fwd,
        bwd: ranked.bwd + more_bwd,
    })
}

// Each node of the order in its turn.
fn run_contraction_with_order(
    graph: &mut PreparationGraph,
    search: &mut LentSearch,
    limit: u32,
    order: &[u32],
    fwd: &mut TableMut<'_>,
    bwd: &mut TableMut<'_>,
) -> Result<Ranked, Refusal>
    requires { (n : ℕ) × (l : Links) × (h : Hierarchy) × (s : List ℕ) × Starting (given n l order.now h s) limit graph.old.pool
        (parts_at fwd.old bwd.old) (slices graph.old search.old) (work graph.old search.old) }
    ensures starts { Starts limit graph.old.pool order.now
        (parts_at fwd.old bwd.old) (slices graph.old search.old) (work graph.old search.old)
        (parts_at fwd.new bwd.new) (slices graph.new search.new) (staged (work graph.new search.new) result) }
    ensures kept { Kept graph.old graph.new }
    ensures search_kept { SearchKept search.old search.new }
    ensures fwd_kept { KeptOuts fwd.old fwd.new }
    ensures bwd_kept { KeptOuts bwd.old bwd.new }
{
    let mut ranked = Ranked { fwd: 0, bwd: 0 };
    for (r, v) in order.iter().enumerate() {
        ranked = rank_step(graph, search, limit, r, *v, ranked, fwd, bwd)?;
    }
    Ok(ranked)
}

// Rules 1 to 4.
pub fn contraction(
    graph: &mut PreparationGraph,
    search: &mut LentSearch,
    n: usize,
    tails: &[u32],
    heads: &[u32],
    link_weights: &[u32],
    order: &[u32],
    limit: u32,
    fwd: &mut TableMut<'_>,
    bwd: &mut TableMut<'_>,
) -> Result<Ranked, Refusal>
    requires { (h : Hierarchy) × (s : List ℕ) × Accepting (given n (links tails.now heads.now link_weights.now) order.now h s) limit graph.old.pool
        (parts_at fwd.old bwd.old) (slices graph.old search.old) }
    ensures comes { Comes n (links tails.now heads.now link_weights.now) order.now limit graph.old.pool
        (parts_at fwd.old bwd.old) (slices graph.old search.old)
        (parts_at fwd.new bwd.new) (slices graph.new search.new) (staged (work graph.new search.new) result) }
    ensures kept { Kept graph.old graph.new }
    ensures search_kept { SearchKept search.old search.new }
    ensures fwd_kept { KeptOuts fwd.old fwd.new }
    ensures bwd_kept { KeptOuts bwd.old bwd.new }
{
    graph.from_input_graph(n, tails, heads, link_weights)?;
    search.clear(n);
    run_contraction_with_order(graph, search, limit, order, fwd, bwd)
}
