// Sources and targets of a query: whether they can be taken, and the first step, over equal nodes of both.
#![tactic(auto)]

ghost use Rattle.std.specs.Prelude.{◌≡◌, ◌<◌, ◌≤◌, ltb, length, get_or};
ghost use Rattle.rules.specs.Lists.{all};
ghost use Rattle.rules.specs.Refusals.{ends_fit, offset_fits};
ghost use Rattle.rules.specs.Query.{coincide, coincide_all, first_step};
ghost use Rattle.turns.specs.Turning.{of, best};
ghost use Rattle.ends.specs.Given.{end, end_of, ends_of, list_of, Small, AllSmall, none};

use halves::Ends;
use rules::WEIGHT_MAX;
use turns::Best;

// One of them.
#[derive(Clone, Copy)]
struct End {
    node: u32,
    offset: u64,
}

// None, more than 16, or columns that differ.
pub fn ends_fit(ends: &Ends<'_>) -> bool
    ensures { result ≡ ends_fit (ends_of ends.now) }
{
    let count = ends.nodes.len();
    if count == 0 {
        return false;
    }
    if rules::MAX_ENDS < count {
        return false;
    }
    ends.offsets.len() == count
}

pub fn all_below(n: usize, nodes: &[u32]) -> bool
    ensures { result ≡ all (λ v. ltb v n) nodes.now }
{
    for v in nodes {
        if n <= *v as usize {
            return false;
        }
    }
    true
}

// Whether an offset is at most 2^40, or the mark.
fn offset_fits(offset: u64) -> bool
    ensures { result ≡ offset_fits offset }
{
    let light = offset <= rules::MAX_WEIGHT;
    if light {
        return true;
    }
    offset == WEIGHT_MAX
}

pub fn offsets_fit(offsets: &[u64]) -> bool
    ensures { result ≡ all offset_fits offsets.now }
{
    for offset in offsets {
        if !offset_fits(*offset) {
            return false;
        }
    }
    true
}

fn end_at(ends: &Ends<'_>, k: usize) -> End
    requires { AllSmall (ends_of ends.now) × (k < length ends.now.nodes.now) }
    ensures { end_of result ≡ end (get_or ends.now.nodes.now k 0) (get_or ends.now.offsets.now k 0) }
{
    End {
        node: ends.nodes[k],
        offset: ends.offsets[k],
    }
}

// Equal nodes that count may set the best sum.
fn coincide(source: End, target: End, best: Best) -> Best
    requires { Small source.offset × Small target.offset }
    ensures { of result ≡ coincide (end_of source) (end_of target) (of best) }
{
    if source.node != target.node {
        return best;
    }
    if source.offset == WEIGHT_MAX {
        return best;
    }
    if target.offset == WEIGHT_MAX {
        return best;
    }
    best.improve(source.offset + target.offset, target.node)
}

// A source beside each target.
fn coincide_all(source: End, targets: &Ends<'_>, best: Best) -> Best
    requires { Small source.offset × AllSmall (ends_of targets.now) }
    ensures { of result ≡ coincide_all (end_of source) (list_of targets.now) (of best) }
{
    let mut best = best;
    for k in 0..targets.nodes.len() {
        best = coincide(source, end_at(targets, k), best);
    }
    best
}

// Each source beside each target.
pub fn first_step(sources: &Ends<'_>, targets: &Ends<'_>) -> Best
    requires { AllSmall (ends_of sources.now) × AllSmall (ends_of targets.now) }
    ensures { of result ≡ first_step (list_of sources.now) (list_of targets.now) none }
{
    let mut best = Best {
        sum: WEIGHT_MAX,
        node: rules::INVALID,
    };
    for k in 0..sources.nodes.len() {
        best = coincide_all(end_at(sources, k), targets, best);
    }
    best
}
