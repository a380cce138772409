// The places of a hierarchy that are lent to be written, and the mark of its column for each of them.
#![tactic(auto)]

ghost use Rattle.std.specs.Prelude.{◌≡◌};
ghost use Rattle.rules.specs.Columns.{marked_table, marked};
ghost use Rattle.marks.specs.Tables.{hierarchy};
ghost use Rattle.marks.specs.Lent.{table_at, KeptColumns};

use rules::{INVALID, WEIGHT_MAX};

// A table's columns, as they are lent to be written.
#[derive(Drop)]
pub struct TableMut<'a> {
    pub starts: &'a mut [u32],
    pub bases: &'a mut [u32],
    pub neighbours: &'a mut [u32],
    pub weights: &'a mut [u64],
    pub ins: &'a mut [u32],
    pub outs: &'a mut [u32],
}

impl TableMut<'_> {
    // Every place of a table set to the mark of its column.
    fn mark(&mut self)
        ensures marks { table_at self.new ≡ marked_table (table_at self.old) }
        ensures kept { KeptColumns self.old self.new }
    {
        self.starts.fill(INVALID);
        self.bases.fill(INVALID);
        self.neighbours.fill(INVALID);
        self.weights.fill(WEIGHT_MAX);
        self.ins.fill(INVALID);
        self.outs.fill(INVALID);
    }
}

// After refusals 10 to 12: every lent place.
pub fn mark_all(ranks: &mut [u32], fwd: &mut TableMut<'_>, bwd: &mut TableMut<'_>)
    ensures marks { hierarchy ranks.new (table_at fwd.new) (table_at bwd.new)
        ≡ marked (hierarchy ranks.old (table_at fwd.old) (table_at bwd.old)) }
    ensures fwd_kept { KeptColumns fwd.old fwd.new }
    ensures bwd_kept { KeptColumns bwd.old bwd.new }
{
    ranks.fill(INVALID);
    fwd.mark();
    bwd.mark();
}
