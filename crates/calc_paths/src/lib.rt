// Many routes of one hierarchy: its tables are checked once and the labels cleared once, so that a pair costs what its search costs.
//
// Scratch is two halves, as of a query.
#![tactic(auto)]

ghost use Rattle.std.specs.Prelude.{[], ◌∷◌, ◌≡◌, ◌*◌, length, get_or};
ghost use Rattle.rules.specs.Refusals.{first_met, short};
ghost use Rattle.rules.specs.Refused.{code};
ghost use Rattle.tables.specs.Lent.{hierarchy_of};
ghost use Rattle.halves.specs.Slices.{AsLong};
ghost use Rattle.path_calculator.specs.Searching.{Fresh};
ghost use Rattle.query.specs.Routes.{answer_of, lengths_lent, scratch_of};
ghost use Rattle.calc_paths.specs.Many.{many_rows, answers, calc_paths};
ghost use Rattle.calc_paths.specs.Filling.{columns_of, paths_call, answered, PairingOn, PairedOn, FillingOn, FilledOn, Fillable};

use halves::{Ends, Half, Lengths};
use query::ShortestPath;
use rules::Refusal;
use tables::FastGraph;

// Whether less is lent for the answers than so many pairs take. A product may be more than 64 bits hold, so the places are divided.
fn answers_short(
    n: usize,
    pairs: usize,
    numbers: usize,
    weights: usize,
    lengths: usize,
    paths: usize,
) -> bool
    ensures { result ≡ short (pairs ∷ pairs ∷ pairs ∷ pairs * n ∷ []) (numbers ∷ weights ∷ lengths ∷ paths ∷ []) }
{
    if numbers < pairs {
        return true;
    }
    if weights < pairs {
        return true;
    }
    if lengths < pairs {
        return true;
    }
    if n == 0 {
        return false;
    }
    paths / n < pairs
}

// The first row that the whole call meets. Of what is lent only the lengths matter.
fn refusal(
    g: &FastGraph<'_>,
    sources: usize,
    targets: usize,
    numbers: usize,
    weights: usize,
    lengths: usize,
    paths: usize,
    fwd: Lengths,
    bwd: Lengths,
) -> Result<(), Refusal>
    ensures { code result ≡ first_met (many_rows g.now.num_nodes (hierarchy_of g.now) sources targets (numbers ∷ weights ∷ lengths ∷ paths ∷ []) (lengths_lent fwd bwd)) }
{
    tables::check_tables(g)?;
    if sources != targets {
        return Err(Refusal::Ends);
    }
    if answers_short(g.num_nodes, sources, numbers, weights, lengths, paths) {
        return Err(Refusal::Room);
    }
    if query::lent_short(g, g.num_nodes, fwd, bwd) {
        return Err(Refusal::Room);
    }
    Ok(())
}

// One pair, with n places of its own.
fn calc_pair(
    g: &FastGraph<'_>,
    source: u32,
    target: u32,
    path: &mut [u32],
    fwd: &mut Half<'_>,
    bwd: &mut Half<'_>,
) -> Result<Option<ShortestPath>, Refusal>
    requires { Fresh fwd.old bwd.old × PairingOn g.now path.old fwd.old bwd.old }
    ensures { PairedOn g.now source target path.old fwd.old bwd.old (answer_of result) path.new fwd.new bwd.new }
{
    if g.num_nodes <= source as usize {
        return Err(Refusal::EndNode);
    }
    let outside = g.num_nodes <= target as usize;
    if outside {
        return Err(Refusal::EndNode);
    }
    let source = Ends {
        nodes: &[source],
        offsets: &[0],
    };
    let target = Ends {
        nodes: &[target],
        offsets: &[0],
    };
    query::route(g, &source, &target, path, fwd, bwd)
}

// Pair k, its answer put in its places.
fn fill_pair(
    g: &FastGraph<'_>,
    sources: &[u32],
    targets: &[u32],
    k: usize,
    numbers: &mut [u32],
    weights: &mut [u64],
    lengths: &mut [u32],
    paths: &mut [u32],
    fwd: &mut Half<'_>,
    bwd: &mut Half<'_>,
)
    requires { FillingOn g.now sources.now targets.now k (columns_of numbers.old weights.old lengths.old paths.old) fwd.old bwd.old }
    ensures { FilledOn g.now (get_or sources.now k 0) (get_or targets.now k 0) k (columns_of numbers.old weights.old lengths.old paths.old) fwd.old bwd.old (columns_of numbers.new weights.new lengths.new paths.new) fwd.new bwd.new }
{
    let begin = k * g.num_nodes;
    let end = begin + g.num_nodes;
    fwd.start(2 * k as u64 + 1);
    bwd.start(2 * k as u64 + 1);
    let part = &mut paths[begin..end];
    let answer = calc_pair(g, sources[k], targets[k], part, fwd, bwd);
    let (number, weight, count) = query::numbers(answer);
    numbers[k] = number;
    weights[k] = weight;
    lengths[k] = count as u32;
}

// Each pair, from the first on.
fn fill_all(
    g: &FastGraph<'_>,
    sources: &[u32],
    targets: &[u32],
    numbers: &mut [u32],
    weights: &mut [u64],
    lengths: &mut [u32],
    paths: &mut [u32],
    fwd: &mut Half<'_>,
    bwd: &mut Half<'_>,
)
    requires { Fillable (paths_call g.now.num_nodes (hierarchy_of g.now) sources.now targets.now (columns_of numbers.old weights.old lengths.old paths.old) (scratch_of fwd.old bwd.old)) fwd.old.labels.now bwd.old.labels.now }
    ensures fills { columns_of numbers.new weights.new lengths.new paths.new ≡ answers (paths_call g.now.num_nodes (hierarchy_of g.now) sources.now targets.now (columns_of numbers.old weights.old lengths.old paths.old) (scratch_of fwd.old bwd.old)) }
    ensures fwd_kept { AsLong fwd.old fwd.new }
    ensures bwd_kept { AsLong bwd.old bwd.new }
{
    for k in 0..sources.len() {
        fill_pair(
            g, sources, targets, k, numbers, weights, lengths, paths, fwd, bwd,
        );
    }
}

// For each pair a number, a weight, how many places its walk has, and the walk in the front of its own n places. The whole
// call may be refused, and then changes nothing. Nothing is asked of the caller.
pub fn calc_paths(
    g: &FastGraph<'_>,
    sources: &[u32],
    targets: &[u32],
    numbers: &mut [u32],
    weights: &mut [u64],
    lengths: &mut [u32],
    paths: &mut [u32],
    fwd: &mut Half<'_>,
    bwd: &mut Half<'_>,
) -> Result<(), Refusal>
    ensures answers { answered (code result) (columns_of numbers.new weights.new lengths.new paths.new) ≡ calc_paths (paths_call g.now.num_nodes (hierarchy_of g.now) sources.now targets.now (columns_of numbers.old weights.old lengths.old paths.old) (scratch_of fwd.old bwd.old)) }
    ensures fwd_kept { AsLong fwd.old fwd.new }
    ensures bwd_kept { AsLong bwd.old bwd.new }
{
    refusal(
        g,
        sources.len(),
        targets.len(),
        numbers.len(),
        weights.len(),
        lengths.len(),
        paths.len(),
        fwd.lengths(),
        bwd.lengths(),
    )?;
    halves::clear(g.num_nodes, fwd.labels);
    halves::clear(g.num_nodes, bwd.labels);
    fill_all(
        g, sources, targets, numbers, weights, lengths, paths, fwd, bwd,
    );
    // What the halves hold is left as it is: each call clears what it reads.
    Ok(())
}
