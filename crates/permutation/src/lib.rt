// Whether numbers name each of the nodes once: refusal 8 asks it of an order, refusal 20 of the ranks.
#![tactic(auto)]

ghost use Rattle.std.specs.Prelude.{◌≡◌, ◌≤◌, length, take};
ghost use Rattle.rules.specs.Numbers.{max_nodes};
ghost use Rattle.permutation.specs.Once.{each_once};

// Whether each of the first n numbers is below n, and no two are the same. A flag for each node, in the frame: no scratch, and
// each number is looked at once.
pub fn each_once(n: usize, numbers: &[u32]) -> bool
    requires { (n ≤ max_nodes) × (n ≤ length numbers.now) }
    ensures { result ≡ each_once n (take n numbers.now) }
{
    let mut seen = [false; rules::MAX_NODES];
    for number in &numbers[..n] {
        let v = *number as usize;
        if n <= v || seen[v] {
            return false;
        }
        seen[v] = true;
    }
    true
}
