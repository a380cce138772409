// A binary heap of items, each a weight and a node, in one lent slice. The smallest weight leaves first, ties by smaller node.
//
// Item i is the weight at 2 * i and the node at 2 * i + 1; its parent is item (i - 1) / 2. How many items there are is the
// caller's to keep. An item that moves is held in hand, and its place is a gap until it is put down: a step is one store.
#![tactic(auto)]

ghost use Rattle.std.specs.Prelude.{◌≡◌, ◌+◌, ◌*◌, ◌-◌, ◌/◌, ◌<◌, ◌≤◌, length};
ghost use Rattle.rules.specs.Heap.{leaves_first};
ghost use Rattle.heap.specs.Items.{of, pair, item, items};
ghost use Rattle.heap.specs.Shape.{Ordered};
ghost use Rattle.heap.specs.Promises.{Pushed, Popped};
ghost use Rattle.heap.specs.Gaps.{put, Gap, Above, Leads, Sunk, Filled};

#[derive(Clone, Copy)]
pub struct Item {
    pub weight: u64,
    pub node: u64,
}

// The item at i.
fn load(heap: &[u64], i: usize) -> Item
    requires { 2 * (i + 1) ≤ length heap.now }
    ensures { of result ≡ item heap.now i }
{
    Item {
        weight: heap[2 * i],
        node: heap[2 * i + 1],
    }
}

// Puts x at i.
fn store(heap: &mut [u64], i: usize, x: Item)
    requires { 2 * (i + 1) ≤ length heap.old }
    ensures { heap.new ≡ put heap.old i (of x) }
{
    heap[2 * i] = x.weight;
    heap[2 * i + 1] = x.node;
}

// Copies an item into a gap, which leaves a gap where it was.
fn shift(heap: &mut [u64], from: usize, to: usize)
    requires { (2 * (from + 1) ≤ length heap.old) × (2 * (to + 1) ≤ length heap.old) }
    ensures { heap.new ≡ put heap.old to (item heap.old from) }
{
    let x = load(heap, from);
    store(heap, to, x);
}

// Whether the item at i may leave before x. Nodes are compared only on a tie, which is rare: that branch is guessed well, and
// the answer by weight is a number that `leading` adds without a branch.
fn first(heap: &[u64], i: usize, x: Item) -> bool
    requires { 2 * (i + 1) ≤ length heap.now }
    ensures { result ≡ leaves_first (item heap.now i) (of x) }
{
    let weight = heap[2 * i];
    if weight == x.weight {
        heap[2 * i + 1] <= x.node
    } else {
        weight < x.weight
    }
}

// Of the two children of the item at i, the one that leaves before the other.
fn leading(heap: &[u64], len: usize, i: usize) -> usize
    requires { (i < (len - 1) / 2) × (2 * len ≤ length heap.now) }
    ensures { Leads (items heap.now len) i result }
{
    let left = 2 * i + 1;
    left + first(heap, left + 1, load(heap, left)) as usize
}

// Moves the gap at the root down to an item with no child, and returns where that is. The last item, which is to fill the gap,
// would seldom stay higher, so it is not asked on the way.
fn sink(heap: &mut [u64], len: usize) -> usize
    requires { (2 * len ≤ length heap.old) × Gap (items heap.old len) 0 }
    ensures { Sunk heap.old heap.new len result }
{
    let pairs = (len - 1) / 2;
    let mut gap = 0;
    while gap < pairs {
        let child = leading(heap, len, gap);
        shift(heap, child, gap);
        gap = child;
    }
    // The last item may be an only child.
    if gap < len / 2 {
        shift(heap, len - 1, gap);
        return len - 1;
    }
    gap
}

// Puts x into the gap at i, or further up: items that x may leave before move down. Of `len` only the contract speaks.
fn rise(heap: &mut [u64], len: usize, i: usize, x: Item)
    requires { (2 * len ≤ length heap.old) × Gap (items heap.old len) i × Above (of x) (items heap.old len) i }
    ensures { Filled heap.old heap.new len i (of x) }
{
    let mut gap = i;
    while 0 < gap {
        let above = (gap - 1) / 2;
        if first(heap, above, x) {
            break;
        }
        shift(heap, above, gap);
        gap = above;
    }
    store(heap, gap, x);
}

// Adds an item to the `len` there are.
pub fn push(heap: &mut [u64], len: usize, weight: u64, node: u64)
    requires { (2 * (len + 1) ≤ length heap.old) × Ordered (items heap.old len) }
    ensures { Pushed heap.old heap.new len (pair weight node) }
{
    rise(heap, len + 1, len, Item { weight, node });
}

// Takes out the item that leaves first, of the `len` there are.
pub fn pop(heap: &mut [u64], len: usize) -> Item
    requires { (1 ≤ len) × (2 * len ≤ length heap.old) × Ordered (items heap.old len) }
    ensures { Popped heap.old heap.new len (of result) }
{
    let top = load(heap, 0);
    let left = len - 1;
    if 0 < left {
        let last = load(heap, left);
        let gap = sink(heap, left);
        rise(heap, left, gap, last);
    }
    top
}

// The item that leaves first.
pub fn peek(heap: &[u64]) -> Item
    requires { 2 ≤ length heap.now }
    ensures { of result ≡ item heap.now 0 }
{
    load(heap, 0)
}
