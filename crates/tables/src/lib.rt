// The columns of a hierarchy, as a caller lends them, and whether they keep the table rules (refusal 20).
//
// One pass over the used entries; nothing lent is written, and no number is trusted before it was compared: entries are looked at
// only once both tables' starts are known to lie within their columns. That no neighbour stands twice among a node's entries (request 7)
// is seen in the same pass, by a mark for each node in the frame: no scratch, and no entry is looked at again.
#![tactic(auto)]

ghost use Rattle.std.specs.Prelude.{◌≡◌, ℕ, suc, ◌+◌, ◌≤◌, ◌<◌, length, get_or};
ghost use Rattle.rules.specs.Lists.{Decides};
ghost use Rattle.rules.specs.Columns.{EquallyLong};
ghost use Rattle.rules.specs.Refused.{code};
ghost use Rattle.rules.specs.TableRules.{EntryRules};
ghost use Rattle.rules.specs.Refusals.{check_refusal};
ghost use Rattle.tables.specs.Lent.{columns_of, hierarchy_of, seen_from, side_of, sided_of, entry_of, read};
ghost use Rattle.tables.specs.Shapes.{Shape, ShapedSided, Readable, Opening, RankRules, Earlier, EntriesRules};

use rules::{INVALID, MAX_NODES, MAX_WEIGHT, Refusal};

#[derive(Clone, Copy, Debug, PartialEq, Eq)]
pub enum Side {
    Forward,
    Backward,
}

// A table's columns: where the entries of a rank start, and five numbers of each entry.
#[derive(Clone, Copy)]
pub struct Table<'a> {
    pub starts: &'a [u32],
    pub bases: &'a [u32],
    pub neighbours: &'a [u32],
    pub weights: &'a [u64],
    pub ins: &'a [u32],
    pub outs: &'a [u32],
}

// A hierarchy as it is lent.
#[derive(Clone, Copy)]
pub struct FastGraph<'a> {
    pub num_nodes: usize,
    pub ranks: &'a [u32],
    pub fwd: Table<'a>,
    pub bwd: Table<'a>,
}

// One table of a hierarchy and the other beside it: what a function that serves both sides is handed.
#[derive(Clone, Copy)]
pub struct Sided<'a> {
    pub num_nodes: usize,
    pub ranks: &'a [u32],
    pub own: Table<'a>,
    pub other: Table<'a>,
}

#[derive(Clone, Copy)]
struct Entry {
    base: u32,
    neighbour: u32,
    weight: u64,
    in_number: u32,
    out_number: u32,
}

impl<'a> FastGraph<'a> {
    pub fn seen_from(&self, side: Side) -> Sided<'a>
        ensures { result ≡ seen_from self.now side }
    {
        match side {
            Side::Forward => Sided {
                num_nodes: self.num_nodes,
                ranks: self.ranks,
                own: self.fwd,
                other: self.bwd,
            },
            Side::Backward => Sided {
                num_nodes: self.num_nodes,
                ranks: self.ranks,
                own: self.bwd,
                other: self.fwd,
            },
        }
    }
}

impl Table<'_> {
    fn entry(&self, e: usize) -> Entry
        requires { EquallyLong (columns_of self.now) × (e < length self.now.bases.now) }
        ensures { entry_of result ≡ read (columns_of self.now) e }
    {
        Entry {
            base: self.bases[e],
            neighbour: self.neighbours[e],
            weight: self.weights[e],
            in_number: self.ins[e],
            out_number: self.outs[e],
        }
    }
}

// Whether the first n + 1 starts never fall.
fn never_fall(n: usize, starts: &[u32]) -> bool
    requires { suc n ≤ length starts.now }
    ensures { Decides result ((r : ℕ) → r < n → get_or starts.now r 0 ≤ get_or starts.now (suc r) 0) }
{
    for r in 0..n {
        if starts[r + 1] < starts[r] {
            return false;
        }
    }
    true
}

// Whether a table's columns are equally long, and its starts begin at 0, never fall and end within them.
fn shaped(n: usize, t: &Table<'_>) -> bool
    requires { n ≤ 1024 }
    ensures { Decides result (Shape n (columns_of t.now)) }
{
    let room = t.bases.len();
    if t.neighbours.len() != room {
        return false;
    }
    if t.weights.len() != room {
        return false;
    }
    if t.ins.len() != room {
        return false;
    }
    if t.outs.len() != room {
        return false;
    }
    if t.starts.len() <= n {
        return false;
    }
    if t.starts[0] != 0 {
        return false;
    }
    if room < t.starts[n] as usize {
        return false;
    }
    never_fall(n, t.starts)
}

// Whether the backward entry a and the forward entry b are used entries of one node of a rank below r, lead from tail to it and
// from it to head, and weigh together as much as is given.
fn opens(
    n: usize,
    ranks: &[u32],
    fwd: &Table<'_>,
    bwd: &Table<'_>,
    r: usize,
    tail: u32,
    head: u32,
    weight: u64,
    a: u32,
    b: u32,
) -> bool
    requires { (n ≤ 1024) × Readable n (columns_of fwd.now) × Readable n (columns_of bwd.now) }
    ensures { Decides result (Opening n ranks.now (columns_of fwd.now) (columns_of bwd.now) r tail head weight a b) }
{
    if bwd.starts[n] <= a {
        return false;
    }
    if fwd.starts[n] <= b {
        return false;
    }
    let i = a as usize;
    let o = b as usize;
    let middle = bwd.bases[i];
    if fwd.bases[o] != middle {
        return false;
    }
    let m = middle as usize;
    if ranks.len() <= m {
        return false;
    }
    if r <= ranks[m] as usize {
        return false;
    }
    if bwd.neighbours[i] != tail {
        return false;
    }
    if fwd.neighbours[o] != head {
        return false;
    }
    let first = bwd.weights[i];
    if weight < first {
        return false;
    }
    fwd.weights[o] == weight - first
}

// Whether an entry of rank r keeps the rules of its side.
fn passes(side: Side, v: &Sided<'_>, r: usize, e: Entry) -> bool
    requires { ShapedSided v.now × (r < v.now.num_nodes) }
    ensures { Decides result (EntryRules v.now.num_nodes (sided_of side v.now) (side_of side) r (entry_of e)) }
{
    let n = v.num_nodes;
    if n <= e.base as usize {
        return false;
    }
    if v.ranks[e.base as usize] as usize != r {
        return false;
    }
    if n <= e.neighbour as usize {
        return false;
    }
    if v.ranks[e.neighbour as usize] as usize <= r {
        return false;
    }
    let weightless = e.weight == 0;
    if weightless {
        return false;
    }
    let heavy = MAX_WEIGHT < e.weight;
    if heavy {
        return false;
    }
    if e.in_number == INVALID {
        if e.out_number == INVALID {
            return true;
        }
    }
    match side {
        Side::Forward => opens(
            n,
            v.ranks,
            &v.own,
            &v.other,
            r,
            e.base,
            e.neighbour,
            e.weight,
            e.in_number,
            e.out_number,
        ),
        Side::Backward => opens(
            n,
            v.ranks,
            &v.other,
            &v.own,
            r,
            e.neighbour,
            e.base,
            e.weight,
            e.in_number,
            e.out_number,
        ),
    }
}

// Whether the entries of rank r keep the rules, and no two lead to one neighbour. A node's mark is one more than the last rank
// that led to it.
fn rank_passes(side: Side, v: &Sided<'_>, r: usize, marks: &mut [u32; MAX_NODES]) -> bool
    requires { ShapedSided v.now × (r < v.now.num_nodes) × Earlier (r + 1) marks.old }
    ensures { Decides result (RankRules v.now.num_nodes (sided_of side v.now) (side_of side) r (get_or v.now.own.starts.now r 0) (get_or v.now.own.starts.now (r + 1) 0)) × Earlier (r + 1 + 1) marks.new }
{
    let mark = (r + 1) as u32;
    let begin = v.own.starts[r] as usize;
    let end = v.own.starts[r + 1] as usize;
    for i in begin..end {
        let e = v.own.entry(i);
        if !passes(side, v, r, e) {
            return false;
        }
        let u = e.neighbour as usize;
        if marks[u] == mark {
            return false;
        }
        marks[u] = mark;
    }
    true
}

// Whether the used entries of a table keep the rules, rank by rank. No table's marks are another's: an entry each way is a link both ways.
fn entries_pass(side: Side, v: &Sided<'_>) -> bool
    requires { ShapedSided v.now }
    ensures { Decides result (EntriesRules v.now.num_nodes (sided_of side v.now) (side_of side)) }
{
    let mut marks = [0u32; MAX_NODES];
    for r in 0..v.num_nodes {
        if !rank_passes(side, v, r, &mut marks) {
            return false;
        }
    }
    true
}

// The table check: refused where a table rule is broken. Any numbers in columns of any lengths may be handed in.
pub fn check_tables(g: &FastGraph<'_>) -> Result<(), Refusal>
    ensures { code result ≡ check_refusal g.now.num_nodes (hierarchy_of g.now) }
{
    let n = g.num_nodes;
    if MAX_NODES < n {
        return Err(Refusal::Tables);
    }
    if g.ranks.len() < n {
        return Err(Refusal::Tables);
    }
    if !shaped(n, &g.fwd) {
        return Err(Refusal::Tables);
    }
    if !shaped(n, &g.bwd) {
        return Err(Refusal::Tables);
    }
    if !permutation::each_once(n, g.ranks) {
        return Err(Refusal::Tables);
    }
    if !entries_pass(Side::Forward, &g.seen_from(Side::Forward)) {
        return Err(Refusal::Tables);
    }
    if !entries_pass(Side::Backward, &g.seen_from(Side::Backward)) {
        return Err(Refusal::Tables);
    }
    Ok(())
}
