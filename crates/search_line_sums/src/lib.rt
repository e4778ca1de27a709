// Sums at the places of a line: a list of numbers, one a place.
#![tactic(auto)]

ghost use Rattle.std.specs.Prelude.{◌≡◌, ℕ, ◌+◌, ◌*◌, ◌<◌, ◌≤◌, ltb, length, get_or};
ghost use Rattle.model.specs.Bounded.{any_below};
ghost use Rattle.model.specs.Lent.{column_bound};
ghost use Rattle.model.specs.Guided.{weight_bound};
ghost use Rattle.search_laws.specs.BoundedSearch.{below_bound};
ghost use Rattle.search_line_sums.specs.Answers.{found_answer, NoneBelow};
ghost use Rattle.search_line_sums.specs.Added.{LineAdded};

// The sums that are compared at once.
const BLOCK: usize = 8;

// The least sum below a bound and the smallest coordinate that has it.
#[derive(Clone, Copy)]
pub struct Least {
    pub sum: u32,
    pub at: u32,
}

// Whether one of four sums, from a place on, is below the bound: all are compared at once.
fn four_below(sums: &[u32], at: usize, bound: u32) -> bool
    requires { at + 4 ≤ length sums.now }
    ensures { result ≡ any_below 4 (λ k. ltb (get_or sums.now (at + k) 0) bound) }
{
    (sums[at] < bound) | (sums[at + 1] < bound) | (sums[at + 2] < bound) | (sums[at + 3] < bound)
}

// Whether some sum is below the bound, where none before the given place is.
fn below_from(sums: &[u32], from: usize, bound: u32) -> bool
    requires { NoneBelow sums.now bound from }
    ensures { result ≡ any_below (length sums.now) (λ a. ltb (get_or sums.now a 0) bound) }
{
    sums[from..].iter().any(|sum| *sum < bound)
}

// Whether some sum is below the bound.
pub fn any_below(sums: &[u32], bound: u32) -> bool
    ensures { result ≡ any_below (length sums.now) (λ a. ltb (get_or sums.now a 0) bound) }
{
    let blocks = sums.len() / BLOCK;
    for block in 0..blocks {
        let a = block * BLOCK;
        if four_below(sums, a, bound) | four_below(sums, a + 4, bound) {
            return true;
        }
    }
    below_from(sums, blocks * BLOCK, bound)
}

// Adds the penalties of a line of weight 1, as most are: nothing is multiplied.
fn add_once(sums: &mut [u32], low: usize, line: &[u8])
    requires fact_1 { low + length line.now ≤ length sums.old }
    requires fact_2 { ((a : ℕ) → get_or sums.old a 0 ≤ 1073741824) }
    ensures { LineAdded 1 low line.now sums.old sums.new }
{
    for (k, penalty) in line.iter().enumerate() {
        sums[low + k] += *penalty as u32;
    }
}

// Adds weight × penalty to the sums from place `low` on, whatever the weight.
fn add_weighted(sums: &mut [u32], low: usize, line: &[u8], weight: u32)
    requires fact_1 { low + length line.now ≤ length sums.old }
    requires fact_2 { weight ≤ weight_bound }
    requires fact_3 { ((a : ℕ) → get_or sums.old a 0 ≤ 1073741824) }
    ensures { LineAdded weight low line.now sums.old sums.new }
{
    for (k, penalty) in line.iter().enumerate() {
        sums[low + k] += weight * (*penalty as u32);
    }
}

// Adds weight × penalty to the sums from place `low` on.
pub fn add_line(sums: &mut [u32], low: usize, line: &[u8], weight: u32)
    requires fact_1 { low + length line.now ≤ length sums.old }
    requires fact_2 { weight ≤ weight_bound }
    requires fact_3 { ((a : ℕ) → get_or sums.old a 0 ≤ 1073741824) }
    ensures { LineAdded weight low line.now sums.old sums.new }
{
    let once = weight == 1;
    if once {
        add_once(sums, low, line);
        return;
    }
    add_weighted(sums, low, line, weight);
}

// The least sum below the bound and the first place that has it, sum after sum.
fn least_of(sums: &[u32], bound: u32) -> Option<Least>
    requires { length sums.now ≤ column_bound }
    ensures { result ≡ found_answer (below_bound (λ a. get_or sums.now a 0) (length sums.now) bound) }
{
    let mut low = bound;
    let mut at: usize = 0;
    for (a, sum) in sums.iter().enumerate() {
        if *sum < low {
            low = *sum;
            at = a;
        }
    }
    if low < bound {
        return Some(Least {
            sum: low,
            at: at as u32,
        });
    }
    None
}

// The least sum below the bound and the first place that has it. Most searches have none, which is told faster than the least is found.
pub fn least_below(sums: &[u32], bound: u32) -> Option<Least>
    requires { length sums.now ≤ column_bound }
    ensures { result ≡ found_answer (below_bound (λ a. get_or sums.now a 0) (length sums.now) bound) }
{
    if !any_below(sums, bound) {
        return None;
    }
    least_of(sums, bound)
}
