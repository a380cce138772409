// Reads an input into lent room.
#![tactic(auto)]

ghost use Rattle.std.specs.Prelude.{◌≤◌, ◌<◌, ℕ, length, take, IfOk, IfErr};
ghost use Rattle.std.specs.Io.KnownBytes.{Consumes, IsAtEnd};

use std::io::{self, Read};

// Fills the space from its front with what is read, until it is full or the input ends, and returns how many bytes there were. Where
// a read fails, what was read until then stands at the front.
pub fn fill<R: Read>(input: &mut R, space: &mut [u8]) -> io::Result<usize>
    ensures bound { IfOk result (λ count. count ≤ length space.new) }
    ensures bytes { IfOk result (λ count. Consumes (R.remaining input.old) (R.remaining input.new) (take count space.new)) }
    ensures end { IfOk result (λ count. count < length space.new → IsAtEnd (R.remaining input.new)) }
    ensures failed { IfErr result (λ e. (count : ℕ) × (count ≤ length space.new) × Consumes (R.remaining input.old) (R.remaining input.new) (take count space.new)) }
{
    let mut end = 0;
    // A read says how far it came: no `for` counts these places.
    while end < space.len() {
        let count = input.read(&mut space[end..])?;
        if count == 0 {
            return Ok(end);
        }
        end += count;
    }
    Ok(end)
}
