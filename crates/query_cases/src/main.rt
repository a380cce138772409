// The hierarchies and queries of the repository's fixed list (oracle/fixed/query.bin), which holds the Rust's answers and the
// refusals: how many checks and queries answer as the list says, every place of the path with them.
#![tactic(auto)]

ghost use Rattle.std.specs.Prelude.{◌<◌, ◌^◌, length};

use fixed::{Number, Reader};
use halves::Half;
use std::io;
use tables::{FastGraph, Table};

// How many queries a hierarchy has, how many of them answered as the list says, and whether its check did.
#[derive(Clone, Copy)]
struct Replayed {
    asks: u32,
    agree: u32,
    checked: bool,
}

// The columns of a hierarchy, in the order of the list.
#[derive(Clone, Copy)]
enum Column {
    Ranks,
    FwdStarts,
    BwdStarts,
    FwdBases,
    FwdNeighbours,
    FwdWeights,
    FwdIns,
    FwdOuts,
    BwdBases,
    BwdNeighbours,
    BwdWeights,
    BwdIns,
    BwdOuts,
}

// A hierarchy of the list: its nodes, how long its columns are, the check's number, how many queries it has, and its columns. Each
// column has 64 places of one array, from 64 times its own place on, and the weights have an array of theirs. They are not an array
// each, since a longer column goes on into the next one's places: such a list is answered as it always was.
#[derive(Drop)]
struct Hierarchy {
    nodes: u32,
    lengths: [u32; 13],
    number: u32,
    asks: u32,
    narrow: [u32; 832],
    wide: [u64; 128],
}

// What stands before a query's columns: how many ends there are, the places of the path and what fills them, and what is answered.
#[derive(Clone, Copy)]
struct Listed {
    sources: u32,
    targets: u32,
    places: u32,
    filled: u32,
    number: u32,
    length: u32,
    weight: u64,
}

// Sources, or targets.
#[derive(Drop)]
struct Ends {
    count: u32,
    nodes: [u32; 32],
    offsets: [u64; 32],
}

// So many places from one on, as far as there are.
fn part<T>(places: &[T], at: usize, count: u32) -> &[T]
    requires { length places.now < 2 ^ 63 }
{
    let rest = places.get(at..).unwrap_or_default();
    &rest[..rest.len().min(count as usize)]
}

// The list's next numbers, as far as there are places for them.
fn fill<T: Number>(list: &mut Reader, places: &mut [T], count: u32) {
    let count = places.len().min(count as usize);
    list.column(&mut places[..count]);
}

// Over places that hold 0. They are lent, since a hierarchy that is returned would be copied place by place.
fn read_hierarchy(list: &mut Reader, hierarchy: &mut Hierarchy) {
    hierarchy.nodes = list.number();
    list.column(&mut hierarchy.lengths);
    hierarchy.number = list.number();
    hierarchy.asks = list.number();
    for (i, length) in hierarchy.lengths.iter().enumerate() {
        if i == Column::FwdWeights as usize {
            fill(list, &mut hierarchy.wide, *length);
        } else if i == Column::BwdWeights as usize {
            fill(list, &mut hierarchy.wide[64..], *length);
        } else {
            fill(list, &mut hierarchy.narrow[64 * i..], *length);
        }
    }
}

fn read_listed(list: &mut Reader) -> Listed {
    Listed {
        sources: list.number(),
        targets: list.number(),
        places: list.number(),
        filled: list.number(),
        number: list.number(),
        length: list.number(),
        weight: list.number(),
    }
}

// So many as are counted, over places that hold 0.
fn read_ends(list: &mut Reader, ends: &mut Ends) {
    fill(list, &mut ends.nodes, ends.count);
    fill(list, &mut ends.offsets, ends.count);
}

impl Ends {
    fn given(&self) -> halves::Ends<'_> {
        halves::Ends {
            nodes: part(&self.nodes, 0, self.count),
            offsets: part(&self.offsets, 0, self.count),
        }
    }
}

impl Hierarchy {
    fn column(&self, which: Column) -> &[u32] {
        let i = which as usize;
        part(&self.narrow, 64 * i, self.lengths[i])
    }

    fn weights(&self, which: Column, at: usize) -> &[u64] {
        part(&self.wide, at, self.lengths[which as usize])
    }

    fn fwd_weights(&self) -> &[u64] {
        self.weights(Column::FwdWeights, 0)
    }

    fn bwd_weights(&self) -> &[u64] {
        self.weights(Column::BwdWeights, 64)
    }

    fn graph(&self) -> FastGraph<'_> {
        FastGraph {
            num_nodes: self.nodes as usize,
            ranks: self.column(Column::Ranks),
            fwd: Table {
                starts: self.column(Column::FwdStarts),
                bases: self.column(Column::FwdBases),
                neighbours: self.column(Column::FwdNeighbours),
                weights: self.fwd_weights(),
                ins: self.column(Column::FwdIns),
                outs: self.column(Column::FwdOuts),
            },
            bwd: Table {
                starts: self.column(Column::BwdStarts),
                bases: self.column(Column::BwdBases),
                neighbours: self.column(Column::BwdNeighbours),
                weights: self.bwd_weights(),
                ins: self.column(Column::BwdIns),
                outs: self.column(Column::BwdOuts),
            },
        }
    }

    // One query, over scratch that holds rubbish: its number, its weight, and how many places of the path are the walk.
    fn ask(&self, sources: &Ends, targets: &Ends, path: &mut [u32]) -> (u32, u64, usize) {
        let mut fwd_labels = [18446744073709551615u64; 256];
        let mut bwd_labels = [9223372036854775808u64; 256];
        let mut fwd_heap = [18446744073709551615u64; 256];
        let mut bwd_heap = [7u64; 256];
        let mut number = 0;
        let mut weight = 0;
        let count = query::fill_path(
            &self.graph(),
            &sources.given(),
            &targets.given(),
            path,
            &mut number,
            &mut weight,
            &mut Half::new(&mut fwd_labels, &mut fwd_heap),
            &mut Half::new(&mut bwd_labels, &mut bwd_heap),
        );
        (number, weight, count)
    }

    // Whether the list's next query answers as it says, over the whole path. One with more places than the program has is not asked.
    fn replay_query(&self, list: &mut Reader) -> bool {
        let listed = read_listed(list);
        let mut sources = Ends {
            count: listed.sources,
            nodes: [0; 32],
            offsets: [0; 32],
        };
        let mut targets = Ends {
            count: listed.targets,
            nodes: [0; 32],
            offsets: [0; 32],
        };
        read_ends(list, &mut sources);
        read_ends(list, &mut targets);
        let mut path = [listed.filled; 64];
        let (number, weight, count) = match path.get_mut(..listed.places as usize) {
            Some(path) => self.ask(&sources, &targets, path),
            None => (0, 0, 0),
        };
        let mut walk = Reader {
            rest: list.bytes(4 * listed.length as usize),
        };
        number == listed.number
            && weight == listed.weight
            && count == listed.length as usize
            && walk.matches(&path, listed.length as usize, listed.filled)
    }
}

fn replay(list: &mut Reader) -> Replayed {
    let mut hierarchy = Hierarchy {
        nodes: 0,
        lengths: [0; 13],
        number: 0,
        asks: 0,
        narrow: [0; 832],
        wide: [0; 128],
    };
    read_hierarchy(list, &mut hierarchy);
    let checked = rules::number(tables::check_tables(&hierarchy.graph())) == hierarchy.number;
    let mut agree = 0;
    for _ in 0..hierarchy.asks {
        if hierarchy.replay_query(list) {
            agree += 1;
        }
    }
    Replayed {
        asks: hierarchy.asks,
        agree,
        checked,
    }
}

fn replay_all(rt: &impl Print, mut list: Reader) -> io::Result<()> {
    list.bytes(4);
    let hierarchies: u32 = list.number();
    let mut checks: u32 = 0;
    let mut agree: u64 = 0;
    let mut asks: u64 = 0;
    for _ in 0..hierarchies {
        let one = replay(&mut list);
        checks += u32::from(one.checked);
        agree += u64::from(one.agree);
        asks += u64::from(one.asks);
    }
    println!(rt; "{checks} of {hierarchies} checks and {agree} of {asks} queries are the list's")
}

fn main(rt: HostRuntime) -> io::Result<()> {
    let mut space = [0u8; 65536];
    let count = input::fill(&mut rt.stdin(), &mut space)?;
    replay_all(
        &rt,
        Reader {
            rest: &space[..count],
        },
    )
}
