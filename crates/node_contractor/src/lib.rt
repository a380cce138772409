// Contracts a node: shortcuts between its neighbours, where no witness makes them needless, and then its arcs go.
#![tactic(auto)]

ghost use Rattle.std.specs.Prelude.{List, ℕ, ◌≤◌};
ghost use Rattle.rules.specs.Graph.{Arc};
ghost use Rattle.rules.specs.Search.{Search};
ghost use Rattle.graph.specs.Promises.{told, Kept};
ghost use Rattle.search.specs.Promises.{Kept as SearchKept};
ghost use Rattle.search.specs.Searching.{most_sum, lent};
ghost use Rattle.search.specs.declared.witness_search.WitnessSearch.{WitnessSearch};
ghost use Rattle.node_contractor.specs.Work.{with_round, work, slices};
ghost use Rattle.node_contractor.specs.Promises.{Pairing, Adds, Pairs, Leaving, Leaves, Coming, Comes, Contractible, Handles, Contracts};

use graph::preparation_graph::PreparationGraph;
use rules::{INVALID, MAX_WEIGHT, Refusal};
use search::witness_search::LentSearch;

// Adds or reduces the arc of a pair that has no witness. A sum above 2^40 is none that an arc may weigh: an arc of the same ends is
// kept (it weighs less, so that none is reduced), and where there is none that is refusal 12. Refusal 10 where no place is left.
fn add_shortcut(
    graph: &mut PreparationGraph,
    v: u32,
    tail: u32,
    head: u32,
    sum: u64,
) -> Result<(), Refusal>
    requires { (labels heap : List ℕ) × (r : WitnessSearch) × (n : ℕ) × (g : List Arc) × (s : Search) ×
        Pairing (lent graph.old.arcs.now graph.old.weights.now graph.old.nodes.now labels heap) graph.old.pool (with_round graph.old r) v tail head n g s }
    ensures adds { (labels heap : List ℕ) (r : WitnessSearch) (limit : ℕ) →
        Adds (lent graph.old.arcs.now graph.old.weights.now graph.old.nodes.now labels heap)
        (lent graph.new.arcs.now graph.new.weights.now graph.new.nodes.now labels heap) graph.old.pool (with_round graph.old r) v tail head sum limit
        (told (with_round graph.new r) result) }
    ensures kept { Kept graph.old graph.new }
{
    let heavy = MAX_WEIGHT < sum;
    if heavy {
        if graph.reduce_edge(tail, head, sum, v) {
            return Ok(());
        }
        return Err(Refusal::Sum);
    }
    graph.add_or_reduce_edge(tail, head, sum, v)
}

// One pair: dropped where both ends are the same, or where there is a witness.
fn handle_pair(
    graph: &mut PreparationGraph,
    search: &mut LentSearch,
    v: u32,
    tail: u32,
    head: u32,
    sum: u64,
    limit: u32,
) -> Result<(), Refusal>
    requires { (n : ℕ) × (g : List Arc) × (s : Search) × Pairing (slices graph.old search.old) graph.old.pool (work graph.old search.old) v tail head n g s × (sum ≤ most_sum) }
    ensures pairs { Pairs (slices graph.old search.old) (slices graph.new search.new) graph.old.pool (work graph.old search.old) v tail head sum limit (told (work graph.new search.new) result) }
    ensures kept { Kept graph.old graph.new }
    ensures search_kept { SearchKept search.old search.new }
{
    let same = tail == head;
    if same {
        return Ok(());
    }
    let arcs = graph.read();
    let found = search.find_max_weight(&arcs, head, sum, limit);
    let witness = found <= sum;
    if witness {
        return Ok(());
    }
    add_shortcut(graph, v, tail, head, sum)
}

// The pairs of one in-arc, from `tail` and of weight `weight`, with each out-arc of v. Arcs come meanwhile, none of them to a list
// of v.
fn handle_out_arcs(
    graph: &mut PreparationGraph,
    search: &mut LentSearch,
    v: u32,
    tail: u32,
    weight: u64,
    limit: u32,
) -> Result<(), Refusal>
    requires { (n : ℕ) × (g : List Arc) × (a : Arc) × (s : Search) × Leaving (slices graph.old search.old) graph.old.pool (work graph.old search.old) v tail weight n g a s }
    ensures leaves { Leaves (slices graph.old search.old) (slices graph.new search.new) graph.old.pool (work graph.old search.old) v tail weight limit (told (work graph.new search.new) result) }
    ensures kept { Kept graph.old graph.new }
    ensures search_kept { SearchKept search.old search.new }
{
    let mut place = graph.nodes[4 * v as usize];
    while place != INVALID {
        let i = place as usize;
        place = graph.arcs[6 * i + 3];
        let head = graph.arcs[6 * i + 1];
        let sum = weight + graph.weights[i];
        handle_pair(graph, search, v, tail, head, sum, limit)?;
    }
    Ok(())
}

// One in-arc, with a search of its own.
fn handle_in_arc(
    graph: &mut PreparationGraph,
    search: &mut LentSearch,
    v: u32,
    tail: u32,
    weight: u64,
    limit: u32,
) -> Result<(), Refusal>
    requires { (n : ℕ) × (g : List Arc) × (a : Arc) × Coming (slices graph.old search.old) graph.old.pool (work graph.old search.old) v tail weight n g a }
    ensures comes { Comes (slices graph.old search.old) (slices graph.new search.new) graph.old.pool (work graph.old search.old) v tail weight limit (told (work graph.new search.new) result) }
    ensures kept { Kept graph.old graph.new }
    ensures search_kept { SearchKept search.old search.new }
{
    search.init(tail, v);
    handle_out_arcs(graph, search, v, tail, weight, limit)
}

// Each in-arc of v with each of its out-arcs, adding shortcuts. The relevance of a node is a count of the same pairs, and wants a
// second function in this place, which adds none.
fn handle_shortcuts(
    graph: &mut PreparationGraph,
    search: &mut LentSearch,
    v: u32,
    limit: u32,
) -> Result<(), Refusal>
    requires { (n : ℕ) × (g : List Arc) × Contractible (slices graph.old search.old) graph.old.pool (work graph.old search.old) v n g }
    ensures handles { Handles (slices graph.old search.old) (slices graph.new search.new) graph.old.pool (work graph.old search.old) v limit (told (work graph.new search.new) result) }
    ensures kept { Kept graph.old graph.new }
    ensures search_kept { SearchKept search.old search.new }
{
    let mut place = graph.nodes[4 * v as usize + 2];
    while place != INVALID {
        let i = place as usize;
        place = graph.arcs[6 * i + 4];
        let tail = graph.arcs[6 * i];
        let weight = graph.weights[i];
        handle_in_arc(graph, search, v, tail, weight, limit)?;
    }
    Ok(())
}

// Adds the shortcuts of v and removes its arcs.
pub fn contract_node(
    graph: &mut PreparationGraph,
    search: &mut LentSearch,
    v: u32,
    limit: u32,
) -> Result<(), Refusal>
    requires { (n : ℕ) × (g : List Arc) × Contractible (slices graph.old search.old) graph.old.pool (work graph.old search.old) v n g }
    ensures contracts { Contracts (slices graph.old search.old) (slices graph.new search.new) graph.old.pool (work graph.old search.old) v limit (told (work graph.new search.new) result) }
    ensures kept { Kept graph.old graph.new }
    ensures search_kept { SearchKept search.old search.new }
{
    handle_shortcuts(graph, search, v, limit)?;
    graph.disconnect(v);
    Ok(())
}
