// The query: refusals, the search, and the walk handed back.
//
// Scratch is two halves, one of each side: labels and a heap. Whatever search they were of before, a query begins its own.
#![tactic(auto)]

ghost use Rattle.std.specs.Prelude.{◌≡◌, ◌<◌, ◌≤◌, length, get_or};
ghost use Rattle.rules.specs.Refused.{code};
ghost use Rattle.rules.specs.Refusals.{query_refusal};
ghost use Rattle.rules.specs.Query.{query};
ghost use Rattle.tables.specs.Lent.{hierarchy_of};
ghost use Rattle.halves.specs.Slices.{AsLong};
ghost use Rattle.ends.specs.Given.{ends_of};
ghost use Rattle.path_calculator.specs.Searching.{Fresh, call_of};
ghost use Rattle.query.specs.Rows.{ends_refusal, room_short};
ghost use Rattle.query.specs.Answers.{answer, Tells, Hands, Handing, HandedBack};
ghost use Rattle.query.specs.Routes.{answer_of, lengths_lent, scratch_of, RoutingOn, RoutedOn};

use halves::{Ends, Half, Lengths, SideLabels};
use rules::{INVALID, Refusal, WEIGHT_MAX};
use tables::FastGraph;

// The first of rows 21 to 23 that is met.
fn check_ends(n: usize, sources: &Ends<'_>, targets: &Ends<'_>) -> Result<(), Refusal>
    ensures { code result ≡ ends_refusal n (ends_of sources.now) (ends_of targets.now) }
{
    if !ends::ends_fit(sources) {
        return Err(Refusal::Ends);
    }
    if !ends::ends_fit(targets) {
        return Err(Refusal::Ends);
    }
    if !ends::all_below(n, sources.nodes) {
        return Err(Refusal::EndNode);
    }
    if !ends::all_below(n, targets.nodes) {
        return Err(Refusal::EndNode);
    }
    if !ends::offsets_fit(sources.offsets) {
        return Err(Refusal::Offset);
    }
    if !ends::offsets_fit(targets.offsets) {
        return Err(Refusal::Offset);
    }
    Ok(())
}

// Whether a length that is lent is below what row 24 asks.
pub fn lent_short(g: &FastGraph<'_>, path: usize, fwd: Lengths, bwd: Lengths) -> bool
    requires { (g.now.num_nodes ≤ 1024) × (g.now.num_nodes < length g.now.fwd.starts.now) × (g.now.num_nodes < length g.now.bwd.starts.now) }
    ensures { result ≡ room_short g.now.num_nodes (get_or g.now.fwd.starts.now g.now.num_nodes 0) (get_or g.now.bwd.starts.now g.now.num_nodes 0) path fwd.labels bwd.labels fwd.heap bwd.heap }
{
    let n = g.num_nodes;
    if path < n {
        return true;
    }
    if fwd.labels < 4 * n {
        return true;
    }
    if bwd.labels < 4 * n {
        return true;
    }
    if fwd.heap < 2 * (g.fwd.starts[n] as usize + rules::MAX_ENDS) {
        return true;
    }
    bwd.heap < 2 * (g.bwd.starts[n] as usize + rules::MAX_ENDS)
}

// The first row that is met. Of scratch only the lengths matter.
pub fn refusal(
    g: &FastGraph<'_>,
    sources: &Ends<'_>,
    targets: &Ends<'_>,
    path: &[u32],
    fwd: Lengths,
    bwd: Lengths,
) -> Result<(), Refusal>
    ensures { code result ≡ query_refusal (call_of g.now sources.now targets.now path.now (lengths_lent fwd bwd)) }
{
    tables::check_tables(g)?;
    check_ends(g.num_nodes, sources, targets)?;
    if lent_short(g, path.len(), fwd, bwd) {
        return Err(Refusal::Room);
    }
    Ok(())
}

// A route: its weight, and how many places of the path are the walk.
#[derive(Clone, Copy)]
pub struct ShortestPath {
    pub weight: u64,
    pub count: usize,
}

// The walk through v, counted before anything is written: refusal 25 leaves the path alone.
fn hand_back(
    g: &FastGraph<'_>,
    fwd: &SideLabels<'_>,
    bwd: &SideLabels<'_>,
    v: usize,
    sum: u64,
    path: &mut [u32],
) -> Result<Option<ShortestPath>, Refusal>
    requires { (bwd.now.base ≡ fwd.now.base) × Handing g.now.num_nodes (hierarchy_of g.now) fwd.now.labels.now bwd.now.labels.now fwd.now.base v }
    ensures { HandedBack g.now.num_nodes (hierarchy_of g.now) fwd.now.labels.now bwd.now.labels.now fwd.now.base v sum (answer_of result) path.old path.new }
{
    let room = path.len();
    let count = paths::extract_nodes(g, fwd, bwd, v, &mut path[..0], room + 1);
    if room < count {
        return Err(Refusal::Walk);
    }
    let written = paths::extract_nodes(g, fwd, bwd, v, path, count);
    Ok(Some(ShortestPath {
        weight: sum,
        count: written,
    }))
}

// The route of a query that rows 20 to 24 let pass, over labels of earlier queries: no stamp is of this base, or of a later one.
pub fn route(
    g: &FastGraph<'_>,
    sources: &Ends<'_>,
    targets: &Ends<'_>,
    path: &mut [u32],
    fwd: &mut Half<'_>,
    bwd: &mut Half<'_>,
) -> Result<Option<ShortestPath>, Refusal>
    requires { Fresh fwd.old bwd.old × RoutingOn (call_of g.now sources.now targets.now path.old) fwd.old bwd.old }
    ensures { RoutedOn (call_of g.now sources.now targets.now path.old) fwd.old bwd.old (answer_of result) path.new fwd.new bwd.new }
{
    let best = path_calculator::search(g, sources, targets, fwd, bwd);
    if best.node == INVALID {
        return Ok(None);
    }
    hand_back(
        g,
        &fwd.read(),
        &bwd.read(),
        best.node as usize,
        best.sum,
        path,
    )
}

// The whole query: the refusals, then the route. Labels are cleared, so that whatever the slices held does not matter; 1 is then a base
// of which no stamp is. Nothing is asked of the caller.
pub fn calc_path(
    g: &FastGraph<'_>,
    sources: &Ends<'_>,
    targets: &Ends<'_>,
    path: &mut [u32],
    fwd: &mut Half<'_>,
    bwd: &mut Half<'_>,
) -> Result<Option<ShortestPath>, Refusal>
    ensures tells { Tells (query (call_of g.now sources.now targets.now path.old (scratch_of fwd.old bwd.old))) (answer_of result) path.new }
    ensures fwd_kept { AsLong fwd.old fwd.new }
    ensures bwd_kept { AsLong bwd.old bwd.new }
{
    refusal(g, sources, targets, path, fwd.lengths(), bwd.lengths())?;
    halves::clear(g.num_nodes, fwd.labels);
    halves::clear(g.num_nodes, bwd.labels);
    fwd.start(1);
    bwd.start(1);
    route(g, sources, targets, path, fwd, bwd)
}

// The number, the weight and the count of an answer: 0, the mark and 0 where they are not its own.
pub fn numbers(answer: Result<Option<ShortestPath>, Refusal>) -> (u32, u64, usize)
    ensures { (result.0 ≡ (answer_of answer).number) × (result.1 ≡ (answer_of answer).weight) × (result.2 ≡ (answer_of answer).count) }
{
    match answer {
        Ok(Some(route)) => (0, route.weight, route.count),
        Ok(None) => (0, WEIGHT_MAX, 0),
        Err(refusal) => (refusal.into(), WEIGHT_MAX, 0),
    }
}

// The query, its walk left in the front of the path; returns how many places that is. Nothing is asked of the caller.
pub fn fill_path(
    g: &FastGraph<'_>,
    sources: &Ends<'_>,
    targets: &Ends<'_>,
    path: &mut [u32],
    number: &mut u32,
    weight: &mut u64,
    fwd: &mut Half<'_>,
    bwd: &mut Half<'_>,
) -> usize
    ensures tells { Tells (query (call_of g.now sources.now targets.now path.old (scratch_of fwd.old bwd.old))) (answer number.new weight.new result) path.new }
    ensures fwd_kept { AsLong fwd.old fwd.new }
    ensures bwd_kept { AsLong bwd.old bwd.new }
{
    let (answered, least, count) = numbers(calc_path(g, sources, targets, path, fwd, bwd));
    *number = answered;
    *weight = least;
    count
}

// The same in the paper's form: the filled front part of the path, exactly the walk or empty, number and weight in lent numbers.
// A contract cannot speak of what lies beyond a returned part; `fill_path` says what every place of the path holds.
pub fn calc_path_multiple_sources_and_targets<'a>(
    g: &FastGraph<'_>,
    sources: &Ends<'_>,
    targets: &Ends<'_>,
    path: &'a mut [u32],
    number: &mut u32,
    weight: &mut u64,
    fwd: &mut Half<'_>,
    bwd: &mut Half<'_>,
) -> &'a mut [u32]
    ensures hands { Hands (query (call_of g.now sources.now targets.now path.old (scratch_of fwd.old bwd.old))) result.now number.new weight.new }
    ensures fwd_kept { AsLong fwd.old fwd.new }
    ensures bwd_kept { AsLong bwd.old bwd.new }
{
    let count = fill_path(g, sources, targets, path, number, weight, fwd, bwd);
    &mut path[..count]
}
