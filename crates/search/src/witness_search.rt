// The witness search: from one start, avoiding one node, for one target and limit after another.
//
// Labels are two numbers a node: the weight at 2 * v and a stamp at 2 * v + 1. A search has a base: a stamp below it is of an
// earlier search, the base itself says that v has a label, and the number after it that v is settled. So a new search clears
// nothing. The graph's arcs are read where they stand: a node's out-arcs are a chain of places.
ghost use Rattle.std.specs.Prelude.{false, ◌||◌, ◌≡◌, ℕ, ◌+◌, ◌*◌, ◌≤◌, eqb, leb, length};
ghost use Rattle.search.specs.Labels.{label_at, settled_at, put_label, Stamped};
ghost use Rattle.search.specs.Searching.{lent};
ghost use Rattle.search.specs.Promises.{Some, Offering, Offered, Crossed, Relaxing, Relaxes, Settling, Settles, Asked, Taking, Takes, Turns, Runs, Asks, Finds, Starting, Starts, found, progress, SameStart, SameRound, OnlyLabels, Kept};

use graph::preparation_graph::Arcs;
use rules::{INVALID, WEIGHT_MAX};

// What lasts over all targets of one start, which avoids one node: `len` entries are in the heap, `settled` nodes were settled.
#[derive(Clone, Copy)]
pub struct WitnessSearch {
    pub base: u64,
    pub len: usize,
    pub settled: u64,
    pub avoid: u32,
}

// A search in lent labels and a lent heap.
#[derive(Drop)]
pub struct LentSearch<'a> {
    pub labels: &'a mut [u64],
    pub heap: &'a mut [u64],
    pub round: WitnessSearch,
}

fn clear_labels(labels: &mut [u64], num_nodes: usize)
    requires { 2 * num_nodes ≤ length labels.old }
    ensures { Stamped num_nodes labels.new 0 }
{
    for v in 0..num_nodes {
        labels[2 * v + 1] = 0;
    }
}

impl LentSearch<'_> {
    // The label of v; the no-weight mark where it has none.
    fn get_current_weight(&self, v: usize) -> u64
        requires { 2 * (v + 1) ≤ length self.now.labels.now }
        ensures { result ≡ label_at self.now.labels.now self.now.round.base v }
    {
        if self.round.base <= self.labels[2 * v + 1] {
            self.labels[2 * v]
        } else {
            WEIGHT_MAX
        }
    }

    fn is_settled(&self, v: usize) -> bool
        requires { 2 * (v + 1) ≤ length self.now.labels.now }
        ensures { result ≡ settled_at self.now.labels.now self.now.round.base v }
    {
        self.round.base < self.labels[2 * v + 1]
    }

    // A settled node stays settled: only a stamp of an earlier search changes. It is stored either way, so that no branch is guessed.
    fn update_node(&mut self, v: usize, weight: u64)
        requires { 2 * (v + 1) ≤ length self.old.labels.now }
        ensures label { self.new.labels.now ≡ put_label self.old.labels.now self.old.round.base v weight }
        ensures rest { OnlyLabels self.old self.new }
    {
        let mut stamp = self.labels[2 * v + 1];
        let earlier = stamp < self.round.base;
        if earlier {
            stamp = self.round.base;
        }
        self.labels[2 * v] = weight;
        self.labels[2 * v + 1] = stamp;
    }

    // Labels only fall.
    fn offer(&mut self, v: usize, weight: u64)
        requires { Offering self.old.labels.now self.old.heap.now self.old.round.len v }
        ensures offered { Offered self.old.labels.now self.old.heap.now self.new.labels.now self.new.heap.now self.old.round.base self.old.round.len self.new.round.len v weight }
        ensures round { SameRound self.old.round self.new.round }
        ensures kept { Kept self.old self.new }
    {
        if weight < self.get_current_weight(v) {
            self.update_node(v, weight);
            heap::push(self.heap, self.round.len, weight, v as u64);
            self.round.len += 1;
        }
    }

    // One arc: nothing is offered to the avoided node.
    fn relax_arc(&mut self, head: u32, weight: u64)
        requires { Offering self.old.labels.now self.old.heap.now self.old.round.len head }
        ensures crossed { Crossed self.old.labels.now self.old.heap.now self.new.labels.now self.new.heap.now self.old.round.base self.old.round.avoid self.old.round.len self.new.round.len head weight }
        ensures round { SameRound self.old.round self.new.round }
        ensures kept { Kept self.old self.new }
    {
        let avoided = head == self.round.avoid;
        if avoided {
            return;
        }
        self.offer(head as usize, weight);
    }

    // The arcs of the chain from `first` on, which leave a node that left the heap with `weight`. The next place is read first, so that
    // it is at hand when the arc is done.
    fn relax(&mut self, graph: &Arcs<'_>, first: u32, weight: u64)
        requires { Some (Relaxing graph.now.arcs.now graph.now.weights.now self.old.labels.now self.old.heap.now self.old.round.base self.old.round.len first weight) }
        ensures relaxes { Relaxes graph.now.arcs.now graph.now.weights.now self.old.labels.now self.old.heap.now self.new.labels.now self.new.heap.now self.old.round.base self.old.round.avoid self.old.round.len self.new.round.len first weight }
        ensures round { SameRound self.old.round self.new.round }
        ensures kept { Kept self.old self.new }
    {
        let mut place = first;
        while place != INVALID {
            let i = place as usize;
            place = graph.arcs[6 * i + 3];
            self.relax_arc(graph.arcs[6 * i + 1], weight + graph.weights[i]);
        }
    }

    // A whole node. That it is settled is no matter to its arcs, so it is marked first.
    fn settle(&mut self, graph: &Arcs<'_>, v: usize, weight: u64)
        requires { Some (Settling (lent graph.now.arcs.now graph.now.weights.now graph.now.nodes.now self.old.labels.now self.old.heap.now) self.old.round.base self.old.round.len v weight) }
        ensures settles { Settles (lent graph.now.arcs.now graph.now.weights.now graph.now.nodes.now self.old.labels.now self.old.heap.now) self.new.labels.now self.new.heap.now self.old.round.base self.old.round.avoid self.old.round.len self.new.round.len v weight }
        ensures round { SameRound self.old.round self.new.round }
        ensures kept { Kept self.old self.new }
    {
        self.labels[2 * v + 1] = self.round.base + 1;
        self.relax(graph, graph.nodes[4 * v], weight);
    }

    // Whether the search stops after v: the target was labelled within the limit, or is v.
    fn reached(&self, v: usize, target: usize, weight_limit: u64) -> bool
        requires { 2 * (target + 1) ≤ length self.now.labels.now }
        ensures { result ≡ (leb (label_at self.now.labels.now self.now.round.base target) weight_limit || eqb v target) }
    {
        if self.get_current_weight(target) <= weight_limit {
            return true;
        }
        v == target
    }

    // Before the first search labels may hold anything: their stamps are cleared, once.
    pub fn clear(&mut self, num_nodes: usize)
        requires { 2 * num_nodes ≤ length self.old.labels.now }
        ensures cleared { (self.new.round.base ≡ 0) × Stamped num_nodes self.new.labels.now 0 }
        ensures heap { self.new.heap.now ≡ self.old.heap.now }
        ensures kept { Kept self.old self.new }
    {
        clear_labels(self.labels, num_nodes);
        self.round = WitnessSearch {
            base: 0,
            len: 0,
            settled: 0,
            avoid: INVALID,
        };
    }

    // The search of a new start and avoided node: its base is above every stamp.
    pub fn init(&mut self, start: u32, avoid: u32)
        requires { (n : ℕ) × Starting self.old.labels.now self.old.heap.now self.old.round.base start n }
        ensures starts { Starts self.old.labels.now self.old.heap.now self.new.labels.now self.new.heap.now self.old.round.base start avoid self.new.round }
        ensures kept { Kept self.old self.new }
    {
        let base = self.round.base + 2;
        self.round = WitnessSearch {
            base,
            len: 0,
            settled: 0,
            avoid,
        };
        self.update_node(start as usize, 0);
        heap::push(self.heap, 0, 0, start as u64);
        self.round.len = 1;
    }

    // The first entry leaves. That of a settled node is passed over. Whether the search goes on.
    fn take(&mut self, graph: &Arcs<'_>, target: usize, weight_limit: u64) -> bool
        requires { Some (Taking (lent graph.now.arcs.now graph.now.weights.now graph.now.nodes.now self.old.labels.now self.old.heap.now) self.old.round.base self.old.round.len self.old.round.settled target weight_limit) }
        ensures takes { Takes (lent graph.now.arcs.now graph.now.weights.now graph.now.nodes.now self.old.labels.now self.old.heap.now) self.new.labels.now self.new.heap.now self.old.round.base self.old.round.avoid self.old.round.len self.old.round.settled target weight_limit
            (progress self.new.round result) }
        ensures round { SameStart self.old.round self.new.round }
        ensures kept { Kept self.old self.new }
    {
        let top = heap::pop(self.heap, self.round.len);
        self.round.len -= 1;
        let v = top.node as usize;
        if self.is_settled(v) {
            return true;
        }
        self.settle(graph, v, top.weight);
        self.round.settled += 1;
        !self.reached(v, target, weight_limit)
    }

    // One turn, and whether the search goes on. It stops, tested in this order, with its heap empty, its settled count at
    // `settled_nodes_limit`, or the next weight above `weight_limit`.
    fn turn(
        &mut self,
        graph: &Arcs<'_>,
        target: usize,
        weight_limit: u64,
        settled_nodes_limit: u32,
    ) -> bool
        requires { Some (Asked (lent graph.now.arcs.now graph.now.weights.now graph.now.nodes.now self.old.labels.now self.old.heap.now) self.old.round.base self.old.round.len self.old.round.settled target weight_limit) }
        ensures turns { Turns (lent graph.now.arcs.now graph.now.weights.now graph.now.nodes.now self.old.labels.now self.old.heap.now) self.new.labels.now self.new.heap.now self.old.round.base self.old.round.avoid self.old.round.len self.old.round.settled target weight_limit settled_nodes_limit
            (progress self.new.round result) }
        ensures round { SameStart self.old.round self.new.round }
        ensures kept { Kept self.old self.new }
    {
        if self.round.len == 0 {
            return false;
        }
        if settled_nodes_limit as u64 <= self.round.settled {
            return false;
        }
        let heap = &mut *self.heap;
        if weight_limit < heap::peek(heap).weight {
            return false;
        }
        self.take(graph, target, weight_limit)
    }

    // Turns until one ends the search. No more entries can leave than `left`. It shows that the loop ends, and nothing reads it, so
    // the compiled loop is without it.
    fn run(&mut self, graph: &Arcs<'_>, target: usize, weight_limit: u64, settled_nodes_limit: u32)
        requires { Some (Asked (lent graph.now.arcs.now graph.now.weights.now graph.now.nodes.now self.old.labels.now self.old.heap.now) self.old.round.base self.old.round.len self.old.round.settled target weight_limit) }
        ensures runs { Runs (lent graph.now.arcs.now graph.now.weights.now graph.now.nodes.now self.old.labels.now self.old.heap.now) self.new.labels.now self.new.heap.now self.old.round.base self.old.round.avoid self.old.round.len self.old.round.settled target weight_limit settled_nodes_limit
            (progress self.new.round false) }
        ensures round { SameStart self.old.round self.new.round }
        ensures kept { Kept self.old self.new }
    {
        let mut left = graph.weights.len() + 1;
        'turns: loop {
            let on = self.turn(graph, target, weight_limit, settled_nodes_limit);
            if !on {
                return;
            }
            left -= 1;
        }
    }

    // A bound on the least weight from the start to the target: the target's label. It answers at once where the target is settled
    // or labelled within the limit.
    pub fn find_max_weight(
        &mut self,
        graph: &Arcs<'_>,
        target: u32,
        weight_limit: u64,
        settled_nodes_limit: u32,
    ) -> u64
        requires { Some (Asks (lent graph.now.arcs.now graph.now.weights.now graph.now.nodes.now self.old.labels.now self.old.heap.now) self.old.round target weight_limit) }
        ensures finds { Finds (lent graph.now.arcs.now graph.now.weights.now graph.now.nodes.now self.old.labels.now self.old.heap.now) self.new.labels.now self.new.heap.now self.old.round target weight_limit settled_nodes_limit
            (found result self.new.round) }
        ensures kept { Kept self.old self.new }
    {
        let v = target as usize;
        let weight = self.get_current_weight(v);
        if weight <= weight_limit {
            return weight;
        }
        if self.is_settled(v) {
            return weight;
        }
        self.run(graph, v, weight_limit, settled_nodes_limit);
        self.get_current_weight(v)
    }
}
