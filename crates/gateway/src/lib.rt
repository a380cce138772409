// The record program as one function over bytes.
#![tactic(auto)]

ghost use Rattle.std.specs.Prelude.{◌+◌, ◌^◌, ◌≤◌, ◌<◌, length};
ghost use Rattle.rules.specs.Query.{query};
ghost use Rattle.rules.specs.Program.{u16_at, query_call, answering, answer_line, program};
ghost use Rattle.rules.specs.Refused.{code};
ghost use Rattle.tables.specs.Lent.{hierarchy_of};
ghost use Rattle.fast_graph_builder.specs.Promises.{answer};
ghost use Rattle.query.specs.Answers.{Tells};
ghost use Rattle.query.specs.Routes.{answer_of};
ghost use Rattle.records.specs.Onward.{onward};
ghost use Rattle.text.specs.Wrote.{Fits, Wrote};
ghost use Rattle.gather.specs.Gathering.{Begun};
ghost use Rattle.gateway.specs.Answering.{Small, Closed, Limited, Followed, AtLimit, Limits, after, Blank};

use gather::gather;
use halves::{Ends, Half};
use query::ShortestPath;
use records::{kind_at, u16_at, u32_at};
use rules::{Refusal, WEIGHT_MAX};
use tables::{FastGraph, Table};
use text::{bad_record, built_line, refused_line, route_line, too_long};

// One query, on scratch of its own.
fn ask(
    g: &FastGraph<'_>,
    source: u32,
    target: u32,
    path: &mut [u32],
) -> Result<Option<ShortestPath>, Refusal>
    requires { Small g.now.num_nodes (hierarchy_of g.now) × Blank path.old }
    ensures { Tells (query (query_call g.now.num_nodes (hierarchy_of g.now) source target)) (answer_of result) path.new }
{
    let mut fl = [0u64; 128];
    let mut bl = [0u64; 128];
    let mut fh = [0u64; 1024];
    let mut bh = [0u64; 1024];
    let n = g.num_nodes;
    let f = 2 * (g.fwd.starts[n] as usize + 16);
    let b = 2 * (g.bwd.starts[n] as usize + 16);
    let source = Ends {
        nodes: &[source],
        offsets: &[0],
    };
    let target = Ends {
        nodes: &[target],
        offsets: &[0],
    };
    query::calc_path(
        g,
        &source,
        &target,
        path,
        &mut Half::new(&mut fl[..4 * n], &mut fh[..f]),
        &mut Half::new(&mut bl[..4 * n], &mut bh[..b]),
    )
}

// The line of a query's record.
fn answer_record(input: &[u8], at: usize, g: &FastGraph<'_>, out: &mut [u8], end: usize) -> usize
    requires { Small g.now.num_nodes (hierarchy_of g.now) × («at» + 6 < 2 ^ 64) × Fits end (answer_line (query (query_call g.now.num_nodes (hierarchy_of g.now) (u16_at input.now («at» + 3)) (u16_at input.now («at» + 5))))) }
    ensures { Wrote out.old end (answer_line (query (query_call g.now.num_nodes (hierarchy_of g.now) (u16_at input.now («at» + 3)) (u16_at input.now («at» + 5))))) result out.new }
{
    let mut path = [0u32; 32];
    let source = u16_at(input, at + 3);
    let target = u16_at(input, at + 5);
    match ask(g, source, target, &mut path) {
        Ok(Some(route)) => route_line(out, end, route.weight, &path[..route.count]),
        Ok(None) => route_line(out, end, WEIGHT_MAX, &path[..0]),
        Err(refusal) => refused_line(out, end, refusal.into()),
    }
}

// The records after the build.
fn answer_all(input: &[u8], at: usize, g: &FastGraph<'_>, out: &mut [u8], end: usize) -> usize
    requires { Small g.now.num_nodes (hierarchy_of g.now) × (length input.now ≤ 16384) × Fits end (onward input.now «at» (answering g.now.num_nodes (hierarchy_of g.now))) }
    ensures { Wrote out.old end (onward input.now «at» (answering g.now.num_nodes (hierarchy_of g.now))) result out.new }
{
    let mut at = at;
    let mut end = end;
    while at < input.len() {
        if kind_at(input, at) != 5 {
            return bad_record(out, end, at);
        }
        end = answer_record(input, at, g, out, end);
        at += 7;
    }
    end
}

// A refused build stops the program.
fn after_build(
    outcome: Result<(), Refusal>,
    input: &[u8],
    at: usize,
    g: &FastGraph<'_>,
    out: &mut [u8],
) -> usize
    requires { Closed input.now «at» g.now.num_nodes (code outcome) (hierarchy_of g.now) }
    ensures { Wrote out.old 0 (after input.now «at» g.now.num_nodes (answer (code outcome) (hierarchy_of g.now))) result out.new }
{
    match outcome {
        Ok(()) => {
            let n = g.num_nodes;
            let end = built_line(out, 0, g.fwd.starts[n], g.bwd.starts[n]);
            answer_all(input, at, g, out, end)
        }
        Err(refusal) => refused_line(out, 0, refusal.into()),
    }
}

// Room for 32 nodes: 992 live arcs, and half as many entries a table. Columns: f of the forward table, b of the backward one; s starts,
// b bases, m neighbours, w weights, i and o the two numbers.
fn build_records(
    input: &[u8],
    at: usize,
    n: usize,
    tails: &[u32],
    heads: &[u32],
    weights: &[u32],
    order: &[u32],
    limit: u32,
    out: &mut [u8],
) -> usize
    requires { Limited input.now «at» n tails.now heads.now weights.now order.now limit }
    ensures { Followed input.now «at» n tails.now heads.now weights.now order.now limit out.old result out.new }
{
    let mut ranks = [0u32; 32];
    let mut fs = [0u32; 33];
    let mut fb = [0u32; 496];
    let mut fm = [0u32; 496];
    let mut fw = [0u64; 496];
    let mut fi = [0u32; 496];
    let mut fo = [0u32; 496];
    let mut bs = [0u32; 33];
    let mut bb = [0u32; 496];
    let mut bm = [0u32; 496];
    let mut bw = [0u64; 496];
    let mut bi = [0u32; 496];
    let mut bo = [0u32; 496];
    let mut arcs = [0u32; 5952];
    let mut arc_weights = [0u64; 992];
    let mut nodes = [0u32; 128];
    let mut labels = [0u64; 64];
    let mut heap = [0u64; 1986];
    let outcome = fast_graph_builder::build_with_order(
        n,
        tails,
        heads,
        weights,
        order,
        limit,
        992,
        &mut ranks,
        &mut fs,
        &mut fb,
        &mut fm,
        &mut fw,
        &mut fi,
        &mut fo,
        &mut bs,
        &mut bb,
        &mut bm,
        &mut bw,
        &mut bi,
        &mut bo,
        &mut arcs,
        &mut arc_weights,
        &mut nodes[..4 * n],
        &mut labels[..2 * n],
        &mut heap,
    );
    let g = FastGraph {
        num_nodes: n,
        ranks: &ranks,
        fwd: Table {
            starts: &fs,
            bases: &fb,
            neighbours: &fm,
            weights: &fw,
            ins: &fi,
            outs: &fo,
        },
        bwd: Table {
            starts: &bs,
            bases: &bb,
            neighbours: &bm,
            weights: &bw,
            ins: &bi,
            outs: &bo,
        },
    };
    after_build(outcome, input, at, &g, out)
}

// At record 4.
fn at_limit(
    input: &[u8],
    at: usize,
    n: u32,
    tails: &[u32],
    heads: &[u32],
    weights: &[u32],
    order: &[u32],
    out: &mut [u8],
) -> usize
    requires { AtLimit input.now «at» n tails.now heads.now weights.now order.now }
    ensures { Limits input.now «at» n tails.now heads.now weights.now order.now out.old result out.new }
{
    if 32 < n {
        return refused_line(out, 0, Refusal::Nodes.into());
    }
    if 256 < tails.len() {
        return refused_line(out, 0, Refusal::Links.into());
    }
    build_records(
        input,
        at + 7,
        n as usize,
        tails,
        heads,
        weights,
        order,
        u32_at(input, at + 3),
        out,
    )
}

// What gathers links and order: the places are those that 16,384 bytes can fill.
fn gather_all(input: &[u8], out: &mut [u8]) -> usize
    requires { (length input.now ≤ 16384) × Begun input.now × Fits 0 (program input.now) }
    ensures { Wrote out.old 0 (program input.now) result out.new }
{
    let mut tails = [0u32; 1490];
    let mut heads = [0u32; 1490];
    let mut weights = [0u32; 1490];
    let mut order = [0u32; 3277];
    let g = gather(input, &mut tails, &mut heads, &mut weights, &mut order);
    let links = g.links;
    let orders = g.orders;
    let at = g.at;
    if kind_at(input, at) != 4 {
        return bad_record(out, 0, at);
    }
    at_limit(
        input,
        at,
        u16_at(input, 3),
        &tails[..links],
        &heads[..links],
        &weights[..links],
        &order[..orders],
        out,
    )
}

// Writes the program's lines into the front of what is lent, as far as there is room, and returns their length.
pub fn answer_records(input: &[u8], out: &mut [u8]) -> usize
    ensures { Wrote out.old 0 (program input.now) result out.new }
{
    if 16384 < input.len() {
        return too_long(out, 0);
    }
    if kind_at(input, 0) != 1 {
        return bad_record(out, 0, 0);
    }
    gather_all(input, out)
}
