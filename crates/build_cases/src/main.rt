// The builds of the repository's fixed list (oracle/fixed/build.bin), which holds the Rust's tables and the refusals: how many give
// the list's number and leave every lent place as it says.
#![tactic(auto)]

ghost use Rattle.std.specs.Prelude.{◌≤◌};

use fixed::{Number, Reader};
use std::io;

// What stands before a build's columns (oracle/README.md, "A build"): the lengths of what is given and lent, what fills the lent
// places, and what the build leaves, so many of its places used and the rest as it says. A table has five columns.
#[derive(Clone, Copy)]
struct Head {
    nodes: u32,
    tails: u32,
    heads: u32,
    weights: u32,
    order: u32,
    limit: u32,
    pool: u32,
    ranks: u32,
    fwd_starts: u32,
    bwd_starts: u32,
    fwd: [u32; 5],
    bwd: [u32; 5],
    filled: u32,
    number: u32,
    fwd_entries: u32,
    bwd_entries: u32,
    used_ranks: u32,
    used_starts: u32,
    rest: u32,
    weight_rest: u64,
}

fn read_lengths(list: &mut Reader) -> [u32; 5] {
    let mut lengths = [0; 5];
    list.column(&mut lengths);
    lengths
}

fn read_head(list: &mut Reader) -> Head {
    Head {
        nodes: list.number(),
        tails: list.number(),
        heads: list.number(),
        weights: list.number(),
        order: list.number(),
        limit: list.number(),
        pool: list.number(),
        ranks: list.number(),
        fwd_starts: list.number(),
        bwd_starts: list.number(),
        fwd: read_lengths(list),
        bwd: read_lengths(list),
        filled: list.number(),
        number: list.number(),
        fwd_entries: list.number(),
        bwd_entries: list.number(),
        used_ranks: list.number(),
        used_starts: list.number(),
        rest: list.number(),
        weight_rest: list.number(),
    }
}

// A length, as far as the program has places.
fn places(length: u32) -> usize
    ensures { result ≤ 64 }
{
    length.min(64) as usize
}

// A table's starts and its five columns.
#[derive(Drop)]
struct Table {
    starts: [u32; 64],
    bases: [u32; 64],
    neighbours: [u32; 64],
    weights: [u64; 64],
    ins: [u32; 64],
    outs: [u32; 64],
}

fn filled(number: u32) -> Table {
    Table {
        starts: [number; 64],
        bases: [number; 64],
        neighbours: [number; 64],
        weights: [u64::from(number); 64],
        ins: [number; 64],
        outs: [number; 64],
    }
}

// Whether the places that were lent of a column hold the list's next numbers, so many as are used, and then the rest.
fn agrees<T: Number + PartialEq>(
    list: &mut Reader,
    column: &[T; 64],
    lent: u32,
    used: u32,
    rest: T,
) -> bool
    requires { T.SIZE ≤ 8 }
{
    let lent = lent as usize;
    let used = used as usize;
    let same = list.matches(&column[..lent.min(64)], used, rest);
    same && lent <= 64 && used <= lent
}

fn table_agrees(list: &mut Reader, table: &Table, lent: &[u32; 5], used: u32, head: &Head) -> bool {
    let bases = agrees(list, &table.bases, lent[0], used, head.rest);
    let neighbours = agrees(list, &table.neighbours, lent[1], used, head.rest);
    let weights = agrees(list, &table.weights, lent[2], used, head.weight_rest);
    let ins = agrees(list, &table.ins, lent[3], used, head.rest);
    let outs = agrees(list, &table.outs, lent[4], used, head.rest);
    bases && neighbours && weights && ins && outs
}

// Whether what a build leaves is what the list has next.
fn all_agree(
    list: &mut Reader,
    head: &Head,
    number: u32,
    ranks: &[u32; 64],
    fwd: &Table,
    bwd: &Table,
) -> bool {
    let starts = head.used_starts;
    let same_ranks = agrees(list, ranks, head.ranks, head.used_ranks, head.rest);
    let fwd_starts = agrees(list, &fwd.starts, head.fwd_starts, starts, head.rest);
    let bwd_starts = agrees(list, &bwd.starts, head.bwd_starts, starts, head.rest);
    let same_fwd = table_agrees(list, fwd, &head.fwd, head.fwd_entries, head);
    let same_bwd = table_agrees(list, bwd, &head.bwd, head.bwd_entries, head);
    number == head.number && same_ranks && fwd_starts && bwd_starts && same_fwd && same_bwd
}

// Whether a build leaves what the list has next. It is compared where it lies: a value that is returned would be copied place by place.
// The scratch is enough for 25 nodes and a pool of 72, and holds rubbish.
fn build(
    list: &mut Reader,
    head: &Head,
    tails: &[u32],
    heads: &[u32],
    weights: &[u32],
    order: &[u32],
) -> bool {
    let mut ranks = [head.filled; 64];
    let mut fwd = filled(head.filled);
    let mut bwd = filled(head.filled);
    let mut arcs = [7u32; 432];
    let mut arc_weights = [7u64; 72];
    let mut nodes = [7u32; 100];
    let mut labels = [7u64; 50];
    let mut heap = [7u64; 146];
    let outcome = fast_graph_builder::build_with_order(
        head.nodes as usize,
        tails,
        heads,
        weights,
        order,
        head.limit,
        u64::from(head.pool),
        &mut ranks[..places(head.ranks)],
        &mut fwd.starts[..places(head.fwd_starts)],
        &mut fwd.bases[..places(head.fwd[0])],
        &mut fwd.neighbours[..places(head.fwd[1])],
        &mut fwd.weights[..places(head.fwd[2])],
        &mut fwd.ins[..places(head.fwd[3])],
        &mut fwd.outs[..places(head.fwd[4])],
        &mut bwd.starts[..places(head.bwd_starts)],
        &mut bwd.bases[..places(head.bwd[0])],
        &mut bwd.neighbours[..places(head.bwd[1])],
        &mut bwd.weights[..places(head.bwd[2])],
        &mut bwd.ins[..places(head.bwd[3])],
        &mut bwd.outs[..places(head.bwd[4])],
        &mut arcs,
        &mut arc_weights,
        &mut nodes,
        &mut labels,
        &mut heap,
    );
    all_agree(list, head, rules::number(outcome), &ranks, &fwd, &bwd)
}

// Whether the program has places for the links and the order.
fn fits(head: &Head) -> bool {
    head.tails <= 64 && head.heads <= 64 && head.weights <= 64 && head.order <= 64
}

// Whether the list's next build is as it says. One that the program has no places for ends the list.
fn replay(list: &mut Reader) -> bool {
    let head = read_head(list);
    if !fits(&head) {
        list.bytes(usize::MAX);
        return false;
    }
    let mut tails = [0; 64];
    let mut heads = [0; 64];
    let mut weights = [0; 64];
    let mut order = [0; 64];
    let tails = &mut tails[..places(head.tails)];
    let heads = &mut heads[..places(head.heads)];
    let weights = &mut weights[..places(head.weights)];
    let order = &mut order[..places(head.order)];
    list.column(tails);
    list.column(heads);
    list.column(weights);
    list.column(order);
    build(list, &head, tails, heads, weights, order)
}

// A build that does not agree is named.
fn replay_all(rt: &impl Print, mut list: Reader) -> io::Result<()> {
    list.bytes(4);
    let builds: u32 = list.number();
    let mut agree: u32 = 0;
    for i in 0..builds {
        if replay(&mut list) {
            agree += 1;
        } else {
            println!(rt; "not as listed: build {i}")?;
        }
    }
    println!(rt;
        "{builds} builds: {agree} give the list's number and leave every lent place as it says"
    )
}

fn main(rt: HostRuntime) -> io::Result<()> {
    let mut space = [0u8; 65536];
    let count = input::fill(&mut rt.stdin(), &mut space)?;
    replay_all(
        &rt,
        Reader {
            rest: &space[..count],
        },
    )
}
