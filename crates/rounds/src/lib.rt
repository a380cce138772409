// Forward and backward turns, one after the other, until both heaps are empty.
#![tactic(auto)]

ghost use Rattle.std.specs.Prelude.{◌≡◌};
ghost use Rattle.tables.specs.Lent.{turned};
ghost use Rattle.turns.specs.Turning.{of};
ghost use Rattle.rounds.specs.Rounds.{RoundingOn, RoundedOn, RunningOn, RanOn};

use halves::Half;
use tables::{FastGraph, Side, Sided};
use turns::{Best, turn};

// A forward turn, then a backward turn.
fn round(
    ahead: &Sided<'_>,
    back: &Sided<'_>,
    fwd: &mut Half<'_>,
    bwd: &mut Half<'_>,
    best: Best,
) -> Best
    requires { (back.now ≡ turned ahead.now) × (bwd.old.base ≡ fwd.old.base) × RoundingOn ahead.now fwd.old bwd.old (of best) }
    ensures { RoundedOn ahead.now fwd.old bwd.old (of best) fwd.new bwd.new (of result) }
{
    let met = turn(ahead, fwd, &bwd.read(), best);
    turn(back, bwd, &fwd.read(), met)
}

// Each round takes an item out, so `fuel`, which is enough for all of them, counts them down; nothing else reads it.
pub fn rounds(
    g: &FastGraph<'_>,
    fwd: &mut Half<'_>,
    bwd: &mut Half<'_>,
    best: Best,
    fuel: usize,
) -> Best
    requires { (bwd.old.base ≡ fwd.old.base) × RunningOn g.now fwd.old bwd.old (of best) fuel }
    ensures { RanOn g.now fwd.old bwd.old (of best) fuel fwd.new bwd.new (of result) }
{
    let ahead = g.seen_from(Side::Forward);
    let back = g.seen_from(Side::Backward);
    let mut best = best;
    let mut left = fuel;
    while 0 < fwd.len + bwd.len {
        best = round(&ahead, &back, fwd, bwd, best);
        left -= 1;
    }
    best
}
