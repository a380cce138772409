// Refusals 1 to 6: whether columns of numbers are the links of a graph of n nodes.
#![tactic(auto)]

ghost use Rattle.std.specs.Prelude.{◌≡◌, ◌||◌, eqb, leb};
ghost use Rattle.std.specs.List.{list_any, zip};
ghost use Rattle.rules.specs.Lists.{any};
ghost use Rattle.rules.specs.Columns.{link_list};
ghost use Rattle.rules.specs.Refusals.{graph_refusal};
ghost use Rattle.rules.specs.Refused.{code};
ghost use Rattle.input_graph.specs.Given.{links, Even, bad_in, earlier, rises};

use rules::Refusal;

// Row 3: whether a link names a node that is none of n.
fn names_above(n: usize, tails: &[u32], heads: &[u32]) -> bool
    ensures { result ≡ list_any (λ l. leb n l.0 || leb n l.1) (zip tails.now heads.now) }
{
    tails
        .iter()
        .zip(heads)
        .any(|(tail, head)| n <= *tail as usize || n <= *head as usize)
}

// Row 4: whether a link is a loop.
fn has_loop(tails: &[u32], heads: &[u32]) -> bool
    ensures { result ≡ list_any (λ l. eqb l.0 l.1) (zip tails.now heads.now) }
{
    tails.iter().zip(heads).any(|(tail, head)| tail == head)
}

// Row 5: whether a link weighs nothing.
fn has_zero(weights: &[u32]) -> bool
    ensures { result ≡ list_any (λ w. eqb w 0) weights.now }
{
    weights.iter().any(|weight| *weight == 0)
}

// Whether row 3, 4 or 5 finds any link bad.
pub fn any_bad(row: u32, n: usize, tails: &[u32], heads: &[u32], weights: &[u32]) -> bool
    requires { Even tails.now heads.now weights.now }
    ensures { result ≡ any (bad_in row n) (link_list (links tails.now heads.now weights.now)) }
{
    match row {
        3 => names_above(n, tails, heads),
        4 => has_loop(tails, heads),
        _ => has_zero(weights),
    }
}

// Row 6: whether each link goes strictly before the next, by tail and then head.
fn ascend(tails: &[u32], heads: &[u32]) -> bool
    ensures { result ≡ rises earlier (zip tails.now heads.now) }
{
    tails
        .iter()
        .zip(heads)
        .is_sorted_by(|link, next| link < next)
}

// The lowest of rows 1 to 6 that is met.
pub fn check_graph(n: usize, tails: &[u32], heads: &[u32], weights: &[u32]) -> Result<(), Refusal>
    ensures { code result ≡ graph_refusal n (links tails.now heads.now weights.now) }
{
    if rules::MAX_NODES < n {
        return Err(Refusal::Nodes);
    }
    let count = tails.len();
    if heads.len() != count || weights.len() != count || rules::MAX_LINKS < count {
        return Err(Refusal::Links);
    }
    if names_above(n, tails, heads) {
        return Err(Refusal::LinkEnd);
    }
    if has_loop(tails, heads) {
        return Err(Refusal::Loop);
    }
    if has_zero(weights) {
        return Err(Refusal::LinkWeight);
    }
    if ascend(tails, heads) {
        Ok(())
    } else {
        Err(Refusal::Unsorted)
    }
}
