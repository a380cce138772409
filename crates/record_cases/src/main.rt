// The inputs of the repository's fixed list of the record program (oracle/fixed/make-records), which holds the oracle's lines: for how many
// the same bytes are written.
#![tactic(auto)]

use fixed::Reader;
use std::io;

// Whether just the list's lines are written, into a buffer that holds rubbish and is long enough for the list's answers.
fn agrees(input: &[u8], listed: &[u8]) -> bool {
    let mut out = [255u8; 4096];
    let length = gateway::answer_records(input, &mut out);
    out.get(..length) == Some(listed)
}

fn replay(list: &mut Reader) -> bool {
    let takes: u32 = list.number();
    let gives: u32 = list.number();
    let input = list.bytes(takes as usize);
    let lines = list.bytes(gives as usize);
    agrees(input, lines)
}

fn replay_all(rt: &impl Print, mut list: Reader) -> io::Result<()> {
    list.bytes(4);
    let cases: u32 = list.number();
    let mut agree: u32 = 0;
    for _ in 0..cases {
        if replay(&mut list) {
            agree += 1;
        }
    }
    println!(rt; "{agree} of {cases} inputs are answered with the list's lines")
}

fn main(rt: HostRuntime) -> io::Result<()> {
    let mut space = [0u8; 65536];
    let count = input::fill(&mut rt.stdin(), &mut space)?;
    replay_all(
        &rt,
        Reader {
            rest: &space[..count],
        },
    )
}
