// The lines of the record program, written into a lent buffer from a place on, as far as there is room. Each function returns the place after
// what it wrote. The buffer and the place stay two parameters: of a struct that held both each contract would say what its field lends.
#![tactic(auto)]

ghost use Rattle.std.specs.Prelude.{[], ◌∷◌, ◌++◌};
ghost use Rattle.rules.specs.Lists.{flat_map};
ghost use Rattle.rules.specs.Program.{decimal, line, word_too_long, space, bad_record, refused_line, counts_line, route_line};
ghost use Rattle.text.specs.Wrote.{Fits, Wrote};

fn put(out: &mut [u8], at: usize, byte: u8) -> usize
    requires { Fits «at» (byte ∷ []) }
    ensures { Wrote out.old «at» (byte ∷ []) result out.new }
{
    if out.len() <= at {
        return at + 1;
    }
    out[at] = byte;
    at + 1
}

fn put_word(out: &mut [u8], at: usize, word: &[u8]) -> usize
    requires { Fits «at» word.now }
    ensures { Wrote out.old «at» word.now result out.new }
{
    let mut end = at;
    for byte in word {
        end = put(out, end, *byte);
    }
    end
}

// The last digit is the remainder by ten. By hand, since no formatter of the library stops at the room and counts on.
fn put_decimal(out: &mut [u8], at: usize, n: u64) -> usize
    requires { Fits «at» (decimal n) }
    ensures { Wrote out.old «at» (decimal n) result out.new }
{
    if n < 10 {
        return put(out, at, b'0' + n as u8);
    }
    let end = put_decimal(out, at, n / 10);
    put(out, end, b'0' + (n % 10) as u8)
}

pub fn too_long(out: &mut [u8], at: usize) -> usize
    requires { Fits «at» (line word_too_long) }
    ensures { Wrote out.old «at» (line word_too_long) result out.new }
{
    put_word(out, at, b"too long\n")
}

// A word, a number, and the end of the line.
fn put_told(out: &mut [u8], at: usize, word: &[u8], n: u64) -> usize
    requires { Fits «at» (line (word.now ++ decimal n)) }
    ensures { Wrote out.old «at» (line (word.now ++ decimal n)) result out.new }
{
    let end = put_word(out, at, word);
    let end = put_decimal(out, end, n);
    put(out, end, b'\n')
}

pub fn bad_record(out: &mut [u8], at: usize, offset: usize) -> usize
    requires { Fits «at» (bad_record offset) }
    ensures { Wrote out.old «at» (bad_record offset) result out.new }
{
    put_told(out, at, b"bad record ", offset as u64)
}

pub fn refused_line(out: &mut [u8], at: usize, number: u32) -> usize
    requires { Fits «at» (refused_line number) }
    ensures { Wrote out.old «at» (refused_line number) result out.new }
{
    put_told(out, at, b"refused ", number as u64)
}

pub fn built_line(out: &mut [u8], at: usize, fwd: u32, bwd: u32) -> usize
    requires { Fits «at» (counts_line fwd bwd) }
    ensures { Wrote out.old «at» (counts_line fwd bwd) result out.new }
{
    let end = put_word(out, at, b"built ");
    let end = put_decimal(out, end, fwd as u64);
    put_told(out, end, b" ", bwd as u64)
}

// A node of a walk, with a blank before it.
fn put_node(out: &mut [u8], at: usize, node: u32) -> usize
    requires { Fits «at» (space ∷ decimal node) }
    ensures { Wrote out.old «at» (space ∷ decimal node) result out.new }
{
    let end = put(out, at, b' ');
    put_decimal(out, end, node as u64)
}

fn put_nodes(out: &mut [u8], at: usize, walk: &[u32]) -> usize
    requires { Fits «at» (flat_map (λ u. space ∷ decimal u) walk.now) }
    ensures { Wrote out.old «at» (flat_map (λ u. space ∷ decimal u) walk.now) result out.new }
{
    let mut end = at;
    for node in walk {
        end = put_node(out, end, *node);
    }
    end
}

// A route has a node, so an empty walk is "none".
pub fn route_line(out: &mut [u8], at: usize, weight: u64, walk: &[u32]) -> usize
    requires { Fits «at» (route_line weight walk.now) }
    ensures { Wrote out.old «at» (route_line weight walk.now) result out.new }
{
    if walk.is_empty() {
        return put_word(out, at, b"none\n");
    }
    let end = put_word(out, at, b"route ");
    let end = put_decimal(out, end, weight);
    let end = put(out, end, b':');
    let end = put_nodes(out, end, walk);
    put(out, end, b'\n')
}
