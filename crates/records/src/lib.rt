// Records: the bytes 6E 74, a kind, and a body of little-endian numbers. Each kind has one length.
#![tactic(auto)]

ghost use Rattle.std.specs.Prelude.{◌≡◌, ◌+◌, ◌^◌, ◌≤◌, ◌<◌, get_or, drop};
ghost use Rattle.rules.specs.Program.{record_length, u16_at, u32_at};
ghost use Rattle.records.specs.Kinds.{whole_kind, Below};

// Past the end a byte is 0.
fn byte_at(input: &[u8], at: usize) -> u8
    ensures { result ≡ get_or input.now «at» 0 }
{
    input.get(at).copied().unwrap_or(0)
}

pub fn u16_at(input: &[u8], at: usize) -> u32
    requires { «at» + 1 < 2 ^ 64 }
    ensures { Below 65536 (u16_at input.now «at») result }
{
    u32::from(u16::from_le_bytes([byte_at(input, at), byte_at(input, at + 1)]))
}

pub fn u32_at(input: &[u8], at: usize) -> u32
    requires { «at» + 3 < 2 ^ 64 }
    ensures { result ≡ u32_at input.now «at» }
{
    u32::from_le_bytes([
        byte_at(input, at),
        byte_at(input, at + 1),
        byte_at(input, at + 2),
        byte_at(input, at + 3),
    ])
}

// 0 for a wrong kind, as the definition has it: no length is 0.
#[tactic(auto, unfolding(rules::specs::Program::record_length))]
fn record_length(kind: u8) -> usize
    ensures { result ≡ record_length kind }
{
    match kind {
        1 => 5,
        2 => 11,
        3 => 5,
        4 => 7,
        5 => 7,
        0 => 0,
        6..=255 => 0,
    }
}

// The kind of the record that stands at an offset, or 0 where none stands there whole. It stays a byte and no `Option`: document 01 asks
// for a match on the kind byte, with ranges for the refused kinds, and 0 is one of them.
pub fn kind_at(input: &[u8], at: usize) -> u8
    ensures { result ≡ whole_kind (drop «at» input.now) }
{
    let end = input.len();
    if end <= at {
        return 0;
    }
    if end - at < 3 {
        return 0;
    }
    if input[at] != 0x6E {
        return 0;
    }
    if input[at + 1] != 0x74 {
        return 0;
    }
    let kind = input[at + 2];
    let length = record_length(kind);
    if length == 0 {
        return 0;
    }
    if end - at < length {
        return 0;
    }
    kind
}
