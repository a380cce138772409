// Refusals 1 to 9 of a build, before any work.
#![tactic(auto)]

ghost use Rattle.std.specs.Prelude.{Bool, ◌||◌, List, [], ◌∷◌, ◌≡◌, ℕ, ◌≤◌};
ghost use Rattle.rules.specs.Columns.{Hierarchy};
ghost use Rattle.rules.specs.Refusals.{short, build_scratch};
ghost use Rattle.rules.specs.Refused.{code};
ghost use Rattle.input_graph.specs.Given.{links};
ghost use Rattle.refusals.specs.Measures.{lent_short_by, Refuses};
ghost use Rattle.refusals.specs.Lent.{lengths_at, uneven_in};

use marks::TableMut;
use rules::Refusal;

// How long a table's columns are.
#[derive(Clone, Copy)]
pub struct Lengths {
    pub starts: usize,
    pub bases: usize,
    pub neighbours: usize,
    pub weights: usize,
    pub ins: usize,
    pub outs: usize,
}

impl Lengths {
    // Of columns as they are lent.
    pub fn of(table: &TableMut<'_>) -> Lengths
        ensures { result ≡ lengths_at table.now }
    {
        Lengths {
            starts: table.starts.len(),
            bases: table.bases.len(),
            neighbours: table.neighbours.len(),
            weights: table.weights.len(),
            ins: table.ins.len(),
            outs: table.outs.len(),
        }
    }

    // Whether there are too few starts for n nodes, or the columns are unequal.
    #[tactic(auto, unfolding(crate::specs::Measures::uneven_by))]
    fn uneven(self, n: usize) -> bool
        ensures { result ≡ uneven_in n self }
    {
        self.starts <= n
            || self.neighbours != self.bases
            || self.weights != self.bases
            || self.ins != self.bases
            || self.outs != self.bases
    }
}

// Whether scratch of these lengths is below its formulas. No length reaches six times a pool of 2^62, so that nothing wraps.
#[tactic(auto, unfolding(rules::specs::Refusals::short, rules::specs::Refusals::build_scratch))]
fn scratch_short(
    n: usize,
    pool: u64,
    arcs: usize,
    weights: usize,
    nodes: usize,
    labels: usize,
    heap: usize,
) -> bool
    requires { n ≤ 1024 }
    ensures { result ≡ short (build_scratch n pool) (arcs ∷ weights ∷ nodes ∷ labels ∷ heap ∷ []) }
{
    3074457345618258602 < pool
        || (arcs as u64) < 6 * pool
        || (weights as u64) < pool
        || nodes < 4 * n
        || labels < 2 * n
        || (heap as u64) < 2 * (pool + 1)
}

// Row 9, by the lengths of what is lent.
#[tactic(auto, unfolding(crate::specs::Measures::lent_short_by))]
pub fn lent_short(
    n: usize,
    pool: u64,
    ranks: usize,
    fwd: Lengths,
    bwd: Lengths,
    arcs: usize,
    weights: usize,
    nodes: usize,
    labels: usize,
    heap: usize,
) -> bool
    requires { n ≤ 1024 }
    ensures { result ≡ lent_short_by n pool ranks (uneven_in n fwd) (uneven_in n bwd) (arcs ∷ weights ∷ nodes ∷ labels ∷ heap ∷ []) }
{
    ranks < n
        || fwd.uneven(n)
        || bwd.uneven(n)
        || scratch_short(n, pool, arcs, weights, nodes, labels, heap)
}

// The lowest of rows 1 to 8 that is met.
pub fn refusal(
    n: usize,
    tails: &[u32],
    heads: &[u32],
    weights: &[u32],
    order: &[u32],
) -> Result<(), Refusal>
    ensures { Refuses n (links tails.now heads.now weights.now) order.now (code result) }
{
    input_graph::check_graph(n, tails, heads, weights)?;
    if order.len() != n {
        return Err(Refusal::OrderLength);
    }
    if permutation::each_once(n, order) {
        return Ok(());
    }
    Err(Refusal::Order)
}
