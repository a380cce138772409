// The records before the build: links and order entries, as far as they come in their sequence.
#![tactic(auto)]

ghost use Rattle.std.specs.Prelude.{◌+◌, ◌^◌, ◌<◌, length, MatchOption};
ghost use Rattle.gather.specs.Gathering.{Rooms, Gathering, More, Begun, Done, LinkPut};

use records::{kind_at, u16_at, u32_at};

// How many links and order entries there are, and the offset of the next record.
#[derive(Clone, Copy)]
pub struct Gathered {
    pub links: usize,
    pub orders: usize,
    pub at: usize,
}

// The columns stay parameters of their own: what is promised speaks of each of them as the caller lent it.
fn put_link(
    input: &[u8],
    at: usize,
    k: usize,
    tails: &mut [u32],
    heads: &mut [u32],
    weights: &mut [u32],
)
    requires { («at» + 10 < 2 ^ 64) × (k < length tails.old) × (k < length heads.old) × (k < length weights.old) }
    ensures { LinkPut input.now «at» k tails.old heads.old weights.old tails.new heads.new weights.new }
{
    tails[k] = u16_at(input, at + 3);
    heads[k] = u16_at(input, at + 5);
    weights[k] = u32_at(input, at + 7);
}

// One record more, of kind 2 or 3; `None` where none stands there or it is misplaced.
fn gather_record(
    input: &[u8],
    g: Gathered,
    tails: &mut [u32],
    heads: &mut [u32],
    weights: &mut [u32],
    order: &mut [u32],
) -> Option<Gathered>
    requires { Rooms input.now tails.old heads.old weights.old order.old × Gathering input.now g tails.old heads.old weights.old order.old }
    ensures { MatchOption result (More input.now g g tails.new heads.new weights.new order.new)
        (λ r. (g.at < r.at) × More input.now g r tails.new heads.new weights.new order.new) }
{
    let at = g.at;
    let links = g.links;
    let orders = g.orders;
    let kind = kind_at(input, at);
    match kind {
        2 => {
            let late = orders != 0;
            if late {
                return None;
            }
            put_link(input, at, links, tails, heads, weights);
            Some(Gathered {
                links: links + 1,
                orders: 0,
                at: at + 11,
            })
        }
        3 => {
            order[orders] = u16_at(input, at + 3);
            Some(Gathered {
                links,
                orders: orders + 1,
                at: at + 5,
            })
        }
        0..=1 | 4..=255 => None,
    }
}

// From the record after the first on.
pub fn gather(
    input: &[u8],
    tails: &mut [u32],
    heads: &mut [u32],
    weights: &mut [u32],
    order: &mut [u32],
) -> Gathered
    requires { Rooms input.now tails.old heads.old weights.old order.old × Begun input.now }
    ensures { Done input.now result tails.new heads.new weights.new order.new }
{
    let mut g = Gathered {
        links: 0,
        orders: 0,
        at: 5,
    };
    while let Some(more) = gather_record(input, g, tails, heads, weights, order) {
        g = more;
    }
    g
}
