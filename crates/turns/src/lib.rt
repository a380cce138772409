// One turn of a query: a side settles one node, or finds that there is none to settle. One function serves both sides, its own table
// and the other handed in accordingly.
#![tactic(auto)]

ghost use Rattle.std.specs.Prelude.{◌≡◌, ◌+◌, ◌*◌, ◌^◌, ◌<◌, ◌≤◌, ltb, length};
ghost use Rattle.rules.specs.Numbers.{no_weight};
ghost use Rattle.rules.specs.Query.{improve};
ghost use Rattle.halves.specs.Labels.{seen};
ghost use Rattle.turns.specs.Turning.{of, best, SettlingIn, SettlesIn, TurningOn, TurnsOn};

use halves::{Half, SideLabels};
use rules::WEIGHT_MAX;
use tables::{Sided, Table};

// The best sum so far and its meeting node; the marks where there is none, as document 01 has it: any sum is then smaller, with no
// case of its own.
#[derive(Clone, Copy)]
pub struct Best {
    pub sum: u64,
    pub node: u32,
}

impl Best {
    // The best after another sum: itself, or that sum where it is strictly smaller.
    pub fn improve(self, sum: u64, node: u32) -> Best
        ensures { of result ≡ improve sum node (of self) }
    {
        if sum < self.sum {
            return Best { sum, node };
        }
        self
    }
}

// Whether a label and an entry make strictly less than what was taken out. No sum is formed with the mark.
fn less(label: u64, entry: u64, weight: u64) -> bool
    ensures { result ≡ ltb (label + entry) weight }
{
    if weight <= label {
        return false;
    }
    entry < weight - label
}

// A settled node with a label on the other side may set the best sum.
fn meet(facing: &SideLabels<'_>, v: usize, weight: u64, best: Best) -> Best
    requires { (4 * (v + 1) ≤ length facing.now.labels.now) × (v < 2 ^ 32) ×
        ((seen facing.now.labels.now facing.now.base v).weight < no_weight → weight + (seen facing.now.labels.now facing.now.base v).weight < 2 ^ 64) }
    ensures { of result ≡ improve (weight + (seen facing.now.labels.now facing.now.base v).weight) v (of best) }
{
    let across = facing.get_weight(v);
    let apart = across == WEIGHT_MAX;
    if apart {
        return best;
    }
    best.improve(weight + across, v as u32)
}

// Offers along the node's entries, and marks it.
fn settle(own: &Table<'_>, half: &mut Half<'_>, v: usize, weight: u64, begin: usize, end: usize)
    requires { SettlingIn own.now half.old v weight begin end }
    ensures { SettlesIn own.now half.old half.new v weight begin end }
{
    half.relax(own.neighbours, own.weights, v as u64, weight, begin, end);
    half.set_settled(v);
}

// It ends at the first item that it settles, or at one heavier than the best, which is taken out and lost, or with its heap empty.
pub fn turn(t: &Sided<'_>, half: &mut Half<'_>, facing: &SideLabels<'_>, best: Best) -> Best
    requires { (facing.now.base ≡ half.old.base) × TurningOn t.now half.old facing.now.labels.now best.sum }
    ensures { TurnsOn t.now half.old facing.now.labels.now (of best) half.new (of result) }
{
    let mut best = best;
    'outer: while 0 < half.len {
        let top = heap::pop(half.heap, half.len);
        half.len -= 1;
        let v = top.node as usize;
        let weight = top.weight;
        if half.is_settled(v) {
            continue 'outer;
        }
        if best.sum < weight {
            break 'outer;
        }
        let r = t.ranks[v] as usize;
        for e in t.other.starts[r] as usize..t.other.starts[r + 1] as usize {
            if less(
                half.get_weight(t.other.neighbours[e] as usize),
                t.other.weights[e],
                weight,
            ) {
                continue 'outer;
            }
        }
        settle(
            &t.own,
            half,
            v,
            weight,
            t.own.starts[r] as usize,
            t.own.starts[r + 1] as usize,
        );
        best = meet(facing, v, weight, best);
        break 'outer;
    }
    best
}
