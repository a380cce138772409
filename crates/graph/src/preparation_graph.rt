// The preparation graph: its arcs in a lent pool, each in two lists (crates/lists says how they lie).
ghost use Rattle.std.specs.Prelude.{◌≡◌, List, [], ◌∷◌, ◌++◌, ℕ, ◌+◌, ◌*◌, ◌-◌, ◌<◌, ◌≤◌, length, OnErr};
ghost use Rattle.rules.specs.Numbers.{invalid};
ghost use Rattle.graph.specs.declared.preparation_graph.Pool.{Pool as State};
ghost use Rattle.rules.specs.Graph.{Arc, add_or_reduce, disconnect as without_node};
ghost use Rattle.lists.specs.Memory.{memory, first, arc};
ghost use Rattle.graph.specs.Stands.{Stands};
ghost use Rattle.rules.specs.Build.{graph_of};
ghost use Rattle.input_graph.specs.Given.{links, Between};
ghost use Rattle.graph.specs.Promises.{Spacious, TookIn, Addable, HoldsSome, Answers, Reduces, Drops, Clears, told, Kept};

use lists::{find_arc, predecessor, put_arc, unlink};
use rules::{INVALID, Refusal};

// What goes with the slices: the first of the freed places, and how many places were ever used.
#[derive(Clone, Copy)]
pub struct Pool {
    pub free: u32,
    pub fresh: u32,
}

// The graph in lent slices, of which `pool` places are for arcs.
#[derive(Drop)]
pub struct PreparationGraph<'a> {
    pub arcs: &'a mut [u32],
    pub weights: &'a mut [u64],
    pub nodes: &'a mut [u32],
    pub pool: u32,
    pub state: Pool,
}

// A graph's slices, to be read.
#[derive(Clone, Copy)]
pub struct Arcs<'a> {
    pub arcs: &'a [u32],
    pub weights: &'a [u64],
    pub nodes: &'a [u32],
}

// A graph of n nodes with no arc.
pub fn clear(nodes: &mut [u32], n: usize) -> Pool
    requires { 4 * n ≤ length nodes.old }
    ensures { (arcs weights : List ℕ) (pool : ℕ) → pool ≤ invalid → 6 * pool ≤ length arcs → pool ≤ length weights →
        Stands n pool (memory arcs nodes.new) weights result [] }
{
    nodes[..4 * n].fill(INVALID);
    Pool {
        free: INVALID,
        fresh: 0,
    }
}

// Looks for an arc of the same ends. One that is heavier takes the weight and the centre, in its place.
pub fn reduce_edge(
    arcs: &mut [u32],
    weights: &mut [u64],
    nodes: &[u32],
    tail: u32,
    head: u32,
    weight: u64,
    centre: u32,
) -> bool
    requires { (n pool : ℕ) × (state : State) × (g : List Arc) ×
        Addable n pool (memory arcs.old nodes.now) weights.old state (arc tail head weight centre) g }
    ensures { (n pool : ℕ) (state : State) (g : List Arc)
        (x : Addable n pool (memory arcs.old nodes.now) weights.old state (arc tail head weight centre) g) →
        Reduces n pool (memory arcs.old nodes.now) weights.old (memory arcs.new nodes.now)
        weights.new state x.stands.ids (arc tail head weight centre) g result }
{
    let place = find_arc(arcs, nodes[4 * tail as usize], head);
    if place == INVALID {
        return false;
    }
    let at = place as usize;
    if weight < weights[at] {
        weights[at] = weight;
        arcs[6 * at + 2] = centre;
    }
    true
}

// Removes the first arc in the list of `node` from both of its lists, and frees its place, which it returns.
fn remove_first(arcs: &mut [u32], nodes: &mut [u32], side: usize, node: usize, free: u32) -> u32
    requires { (side < 2) × (first (memory arcs.old nodes.old) side node ≡ invalid → ⊥) × HoldsSome (memory arcs.old nodes.old) free node }
    ensures { Drops (memory arcs.old nodes.old) (memory arcs.new nodes.new) free result side node }
{
    let place = nodes[4 * node + 2 * side];
    let other = 1 - side;
    let far = arcs[6 * place as usize + other] as usize;
    let before = predecessor(arcs, other, nodes[4 * far + 2 * other], place);
    unlink(arcs, nodes, other, far, place, before);
    unlink(arcs, nodes, side, node, place, INVALID);
    arcs[6 * place as usize + 5] = free;
    place
}

// Removes every arc in the list of `node`. Returns the first of the freed places.
fn remove_side(arcs: &mut [u32], nodes: &mut [u32], side: usize, node: usize, free: u32) -> u32
    requires { (side < 2) × HoldsSome (memory arcs.old nodes.old) free node }
    ensures { Clears (memory arcs.old nodes.old) (memory arcs.new nodes.new) free result side node }
{
    let mut freed = free;
    while nodes[4 * node + 2 * side] != INVALID {
        freed = remove_first(arcs, nodes, side, node, freed);
    }
    freed
}

impl<'a> PreparationGraph<'a> {
    // The slices, to be read.
    pub fn read(&self) -> Arcs<'_>
        ensures arcs { result.arcs.now ≡ self.now.arcs.now }
        ensures weights { result.weights.now ≡ self.now.weights.now }
        ensures nodes { result.nodes.now ≡ self.now.nodes.now }
    {
        Arcs {
            arcs: self.arcs,
            weights: self.weights,
            nodes: self.nodes,
        }
    }

    // The graph of the links, each at the end of its lists in turn. Refusal 10 where there are more of them than places.
    pub fn from_input_graph(
        &mut self,
        n: usize,
        tails: &[u32],
        heads: &[u32],
        link_weights: &[u32],
    ) -> Result<(), Refusal>
        requires { Spacious n self.old.pool (memory self.old.arcs.now self.old.nodes.now) self.old.weights.now × Between n tails.now heads.now link_weights.now }
        ensures took_in { TookIn n self.old.pool (memory self.new.arcs.now self.new.nodes.now) self.new.weights.now
            (graph_of (links tails.now heads.now link_weights.now)) (told self.new.state result) }
        ensures kept { Kept self.old self.new }
    {
        self.state = clear(self.nodes, n);
        for ((tail, head), weight) in tails.iter().zip(heads).zip(link_weights) {
            self.add_edge_or_shortcut(*tail, *head, u64::from(*weight), INVALID)?;
        }
        Ok(())
    }

    // Adds an arc, in the first of the freed places, else in one that was never used. Refusal 10 where no place is left.
    pub fn add_edge_or_shortcut(
        &mut self,
        tail: u32,
        head: u32,
        weight: u64,
        centre: u32,
    ) -> Result<(), Refusal>
        requires { (n : ℕ) × (g : List Arc) × Addable n self.old.pool (memory self.old.arcs.now self.old.nodes.now) self.old.weights.now self.old.state (arc tail head weight centre) g }
        ensures answers { (n : ℕ) (g : List Arc)
            (x : Addable n self.old.pool (memory self.old.arcs.now self.old.nodes.now) self.old.weights.now self.old.state (arc tail head weight centre) g) →
            Answers n self.old.pool (memory self.old.arcs.now self.old.nodes.now) self.old.weights.now (memory self.new.arcs.now self.new.nodes.now)
            self.new.weights.now x.stands.ids (g ++ arc tail head weight centre ∷ []) (told self.new.state result) }
        ensures refused { OnErr result (self.new.state ≡ self.old.state) }
        ensures kept { Kept self.old self.new }
    {
        let Pool { free, fresh } = self.state;
        let arcs = &mut *self.arcs;
        let weights = &mut *self.weights;
        let nodes = &mut *self.nodes;
        if free != INVALID {
            let rest = arcs[6 * free as usize + 5];
            put_arc(arcs, weights, nodes, free, tail, head, weight, centre);
            self.state = Pool { free: rest, fresh };
            return Ok(());
        }
        if fresh < self.pool {
            put_arc(arcs, weights, nodes, fresh, tail, head, weight, centre);
            self.state = Pool {
                free,
                fresh: fresh + 1,
            };
            return Ok(());
        }
        Err(Refusal::Pool)
    }

    // Reduces an arc of the same ends, or adds one where there is none.
    pub fn add_or_reduce_edge(
        &mut self,
        tail: u32,
        head: u32,
        weight: u64,
        centre: u32,
    ) -> Result<(), Refusal>
        requires { (n : ℕ) × (g : List Arc) × Addable n self.old.pool (memory self.old.arcs.now self.old.nodes.now) self.old.weights.now self.old.state (arc tail head weight centre) g }
        ensures answers { (n : ℕ) (g : List Arc)
            (x : Addable n self.old.pool (memory self.old.arcs.now self.old.nodes.now) self.old.weights.now self.old.state (arc tail head weight centre) g) →
            Answers n self.old.pool (memory self.old.arcs.now self.old.nodes.now) self.old.weights.now (memory self.new.arcs.now self.new.nodes.now)
            self.new.weights.now x.stands.ids (add_or_reduce (arc tail head weight centre) g) (told self.new.state result) }
        ensures refused { OnErr result (self.new.state ≡ self.old.state) }
        ensures kept { Kept self.old self.new }
    {
        let reduced = self.reduce_edge(tail, head, weight, centre);
        if reduced {
            return Ok(());
        }
        self.add_edge_or_shortcut(tail, head, weight, centre)
    }

    // `reduce_edge` in these slices.
    pub fn reduce_edge(&mut self, tail: u32, head: u32, weight: u64, centre: u32) -> bool
        requires { (n pool : ℕ) × (state : State) × (g : List Arc) ×
            Addable n pool (memory self.old.arcs.now self.old.nodes.now) self.old.weights.now state (arc tail head weight centre) g }
        ensures reduces { (n pool : ℕ) (state : State) (g : List Arc)
            (x : Addable n pool (memory self.old.arcs.now self.old.nodes.now) self.old.weights.now state (arc tail head weight centre) g) →
            Reduces n pool (memory self.old.arcs.now self.old.nodes.now) self.old.weights.now (memory self.new.arcs.now self.new.nodes.now)
            self.new.weights.now state x.stands.ids (arc tail head weight centre) g result }
        ensures state { self.new.state ≡ self.old.state }
        ensures nodes { self.new.nodes.now ≡ self.old.nodes.now }
        ensures kept { Kept self.old self.new }
    {
        let arcs = &mut *self.arcs;
        let weights = &mut *self.weights;
        let nodes = &mut *self.nodes;
        reduce_edge(arcs, weights, nodes, tail, head, weight, centre)
    }

    // Removes every arc of v.
    pub fn disconnect(&mut self, v: u32)
        requires { (n pool : ℕ) × (w : List ℕ) × (g : List Arc) × Stands n pool (memory self.old.arcs.now self.old.nodes.now) w self.old.state g × (v < n) }
        ensures without { (n pool : ℕ) (w : List ℕ) (g : List Arc) → Stands n pool (memory self.old.arcs.now self.old.nodes.now) w self.old.state g →
            v < n → Stands n pool (memory self.new.arcs.now self.new.nodes.now) w self.new.state (without_node g v) }
        ensures weights { self.new.weights.now ≡ self.old.weights.now }
        ensures kept { Kept self.old self.new }
    {
        let node = v as usize;
        let arcs = &mut *self.arcs;
        let nodes = &mut *self.nodes;
        let free = remove_side(arcs, nodes, 0, node, self.state.free);
        let free = remove_side(arcs, nodes, 1, node, free);
        self.state.free = free;
    }
}
