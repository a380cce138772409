// One side's search of a query, in two lent slices: its labels and its heap.
//
// A label is four numbers a node: weight, parent, the entry that it came along, and a stamp. A query has a base: a stamp below it is
// of an earlier query, the base itself says that the node has a label, and the number after it that the node is settled. So a query
// clears nothing, and what it costs does not grow with the nodes.
#![tactic(auto)]

ghost use Rattle.std.specs.Prelude.{◌≡◌, ◌+◌, ◌*◌, ◌^◌, ◌<◌, ◌≤◌, ltb, length};
ghost use Rattle.rules.specs.Query.{lower};
ghost use Rattle.halves.specs.Labels.{of, label, seen, stamp, put_label, put_settled, Before};
ghost use Rattle.halves.specs.Slices.{lengths_of, Started, SameHeap, OfferingTo, OffersTo, RelaxingFrom, RelaxesFrom, EnteringInto, EntersInto};

use rules::{INVALID, WEIGHT_MAX};

// Sources, or targets, as they are lent: nodes, and an offset of each.
#[derive(Clone, Copy)]
pub struct Ends<'a> {
    pub nodes: &'a [u32],
    pub offsets: &'a [u64],
}

#[derive(Clone, Copy)]
pub struct Label {
    pub weight: u64,
    pub parent: u64,
    pub via: u64,
}

impl Label {
    // The label after an offer: itself, or what is offered where that weighs strictly less.
    pub fn lower(self, weight: u64, parent: u64, via: u64) -> Label
        ensures { of result ≡ lower (label weight parent via) (of self) }
    {
        if weight < self.weight {
            return Label {
                weight,
                parent,
                via,
            };
        }
        self
    }
}

// One side's labels, to be read.
#[derive(Clone, Copy)]
pub struct SideLabels<'a> {
    pub labels: &'a [u64],
    pub base: u64,
}

impl SideLabels<'_> {
    // The label of v; document 01's marks where it has none, so that an offer needs no case of its own.
    pub fn load(&self, v: usize) -> Label
        requires { 4 * (v + 1) ≤ length self.now.labels.now }
        ensures { of result ≡ seen self.now.labels.now self.now.base v }
    {
        if self.labels[4 * v + 3] < self.base {
            return Label {
                weight: WEIGHT_MAX,
                parent: INVALID as u64,
                via: INVALID as u64,
            };
        }
        Label {
            weight: self.labels[4 * v],
            parent: self.labels[4 * v + 1],
            via: self.labels[4 * v + 2],
        }
    }

    // The weight of it alone.
    pub fn get_weight(&self, v: usize) -> u64
        requires { 4 * (v + 1) ≤ length self.now.labels.now }
        ensures { result ≡ (seen self.now.labels.now self.now.base v).weight }
    {
        if self.labels[4 * v + 3] < self.base {
            return WEIGHT_MAX;
        }
        self.labels[4 * v]
    }

    pub fn is_settled(&self, v: usize) -> bool
        requires { 4 * (v + 1) ≤ length self.now.labels.now }
        ensures { result ≡ ltb self.now.base (stamp self.now.labels.now v) }
    {
        self.base < self.labels[4 * v + 3]
    }
}

// How long the slices of one side are.
#[derive(Clone, Copy)]
pub struct Lengths {
    pub labels: usize,
    pub heap: usize,
}

// A side's search: `len` items are in its heap, and `base` is the query's.
#[derive(Drop)]
pub struct Half<'a> {
    pub labels: &'a mut [u64],
    pub heap: &'a mut [u64],
    pub base: u64,
    pub len: usize,
}

impl<'a> Half<'a> {
    // What is lent for one side's searches.
    pub fn new(labels: &'a mut [u64], heap: &'a mut [u64]) -> Half<'a>
        ensures holds { (result.labels.now ≡ labels.old) × (result.heap.now ≡ heap.old) }
        ensures same_slices { (result.labels.ghost_name ≡ labels.entry.ghost_name) × (result.heap.ghost_name ≡ heap.entry.ghost_name) }
    {
        Half {
            labels,
            heap,
            base: 1,
            len: 0,
        }
    }
}

impl Half<'_> {
    // Begins a search of this base, with an empty heap. That no stamp is of the base is asked where it is searched.
    pub fn start(&mut self, base: u64)
        ensures { Started self.old base self.new }
    {
        self.base = base;
        self.len = 0;
    }

    pub fn lengths(&self) -> Lengths
        ensures { result ≡ lengths_of self.now }
    {
        Lengths {
            labels: self.labels.len(),
            heap: self.heap.len(),
        }
    }

    // Its labels, to be read while it is lent.
    pub fn read(&self) -> SideLabels<'_>
        ensures labels { result.labels.now ≡ self.now.labels.now }
        ensures base { result.base ≡ self.now.base }
    {
        SideLabels {
            labels: self.labels,
            base: self.base,
        }
    }

    pub fn load(&self, v: usize) -> Label
        requires { 4 * (v + 1) ≤ length self.now.labels.now }
        ensures { of result ≡ seen self.now.labels.now self.now.base v }
    {
        self.read().load(v)
    }

    pub fn get_weight(&self, v: usize) -> u64
        requires { 4 * (v + 1) ≤ length self.now.labels.now }
        ensures { result ≡ (seen self.now.labels.now self.now.base v).weight }
    {
        self.read().get_weight(v)
    }

    pub fn is_settled(&self, v: usize) -> bool
        requires { 4 * (v + 1) ≤ length self.now.labels.now }
        ensures { result ≡ ltb self.now.base (stamp self.now.labels.now v) }
    {
        self.read().is_settled(v)
    }

    // A settled node stays settled: only a stamp of an earlier query changes.
    fn update_node(&mut self, v: usize, label: Label)
        requires { 4 * (v + 1) ≤ length self.old.labels.now }
        ensures label { self.new.labels.now ≡ put_label self.old.labels.now self.old.base v (of label) }
        ensures rest { SameHeap self.old self.new }
    {
        let mut stamp = self.labels[4 * v + 3];
        if stamp < self.base {
            stamp = self.base;
        }
        self.labels[4 * v] = label.weight;
        self.labels[4 * v + 1] = label.parent;
        self.labels[4 * v + 2] = label.via;
        self.labels[4 * v + 3] = stamp;
    }

    pub fn set_settled(&mut self, v: usize)
        requires { (4 * (v + 1) ≤ length self.old.labels.now) × (self.old.base + 1 < 2 ^ 64) }
        ensures mark { self.new.labels.now ≡ put_settled self.old.labels.now self.old.base v }
        ensures rest { SameHeap self.old self.new }
    {
        self.labels[4 * v + 3] = self.base + 1;
    }

    // Labels only fall.
    pub fn offer(&mut self, v: usize, label: Label)
        requires { OfferingTo self.old v }
        ensures { OffersTo self.old self.new v (of label) }
    {
        let own = self.load(v);
        if label.weight < own.weight {
            self.update_node(v, own.lower(label.weight, label.parent, label.via));
            heap::push(self.heap, self.len, label.weight, v as u64);
            self.len += 1;
        }
    }

    // Offers along the entries from `begin` to `end` of a node that left the heap with `weight`.
    pub fn relax(
        &mut self,
        neighbours: &[u32],
        weights: &[u64],
        node: u64,
        weight: u64,
        begin: usize,
        end: usize,
    )
        requires { RelaxingFrom neighbours.now weights.now self.old weight begin end }
        ensures { RelaxesFrom neighbours.now weights.now self.old self.new node weight begin end }
    {
        for e in begin..end {
            let label = Label {
                weight: weight + weights[e],
                parent: node,
                via: e as u64,
            };
            self.offer(neighbours[e] as usize, label);
        }
    }

    // Sources, or targets, enter an empty heap: each is its own parent.
    pub fn enter(&mut self, ends: &Ends<'_>)
        requires { (self.old.len ≡ 0) × EnteringInto ends.now self.old }
        ensures { EntersInto ends.now self.old self.new }
    {
        for (k, node) in ends.nodes.iter().enumerate() {
            let label = Label {
                weight: ends.offsets[k],
                parent: *node as u64,
                via: INVALID as u64,
            };
            self.offer(*node as usize, label);
        }
    }
}

// Stamps that are of no query.
pub fn clear(n: usize, labels: &mut [u64])
    requires { 4 * n ≤ length labels.old }
    ensures { Before n 1 labels.new }
{
    for v in 0..n {
        labels[4 * v + 3] = 0;
    }
}
