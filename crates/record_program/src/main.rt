// The gateway's record program: standard input to its end, the lines to standard output.
#![tactic(auto)]

use std::io;

// The first bytes of what was written; there are never more than the buffer holds.
fn write_lines(rt: &impl Print, out: &[u8], length: usize) -> io::Result<()> {
    if out.len() < length {
        return Ok(());
    }
    rt.write_all(&out[..length])
}

// 65,536 bytes are read at most: more than 16,384 are too long, however many follow.
fn main(rt: HostRuntime) -> io::Result<()> {
    let mut space = [0u8; 65536];
    let count = input::fill(&mut rt.stdin(), &mut space)?;
    let mut out = [0u8; 278545];
    let length = gateway::answer_records(&space[..count], &mut out);
    write_lines(&rt, &out, length)
}
