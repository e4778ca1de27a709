// Sums over the table of pair penalties (64 x 64 entries, that of pieces i and k at i * 64 + k and at k * 64 + i) and the weights beside
// it, which stand in the order of the pairs; and the weights that rise after a round. Document 01, 'No-fit rows and penalty' and 'Descent
// and guidance'. The number of pieces is n.
#![tactic(auto)]

ghost use Rattle.std.specs.Prelude.{◌≡◌, List, ℕ, ◌+◌, ◌*◌, ◌<◌, ◌≤◌, ◌^◌, length, replicate};
ghost use Rattle.model.specs.Layout.{Job, Layout, pairs, piece_sum, weighted_sum, plain_sum};
ghost use Rattle.model.specs.Guided.{raised};
ghost use Rattle.model.specs.Lent.{piece_bound};
ghost use Rattle.descent_laws.specs.Claims.{ValidWeights};
ghost use Rattle.search_laws.specs.Pairs.{row_start, pair_index, row_part};
ghost use Rattle.search_laws.specs.PieceSum.{weight_between};
ghost use Rattle.search_laws.specs.Table.{PenaltyTable};
ghost use Rattle.search_laws.specs.Raising.{Raising};
ghost use Rattle.search_sums.specs.Table.{Weighed, table_cost, raised_at};

use layout_places::numbers::pair_count;
use model::{PAIR_BOUND, PIECE_BOUND, WEIGHT_BOUND};

// The position of the pair (i, k), i below k, among the pairs of n pieces.
pub fn pair_index(n: usize, i: usize, k: usize) -> usize
    requires { (n ≤ piece_bound) × ((i < k) × (k < n)) }
    ensures { result ≡ pair_index n i k }
{
    n * i - i * (i + 1) / 2 + (k - (i + 1))
}

// The weight of pieces i and k; 0 where they are one.
pub fn weight_between(weights: &[u32], n: usize, i: usize, k: usize) -> u64
    requires fact_1 { (n ≤ piece_bound) × ((i < n) × (k < n)) }
    requires fact_2 { length weights.now ≡ length (pairs n) }
    ensures weight { result ≡ weight_between n weights.now i k }
    ensures small { result < 2 ^ 32 }
{
    if i == k {
        return 0;
    }
    if i < k {
        return weights[pair_index(n, i, k)] as u64;
    }
    weights[pair_index(n, k, i)] as u64
}

// The part of pieces i and k in a sum. Most pairs have no penalty, and of those no weight is looked up.
fn cost_between(weights: &[u32], n: usize, i: usize, k: usize, penalty: u8) -> u64
    requires fact_1 { (n ≤ piece_bound) × ((i < n) × (k < n)) }
    requires fact_2 { length weights.now ≡ length (pairs n) }
    ensures cost { result ≡ weight_between n weights.now i k * penalty }
    ensures small { result ≤ 2 ^ 40 }
{
    if penalty == 0 {
        return 0;
    }
    weight_between(weights, n, i, k) * (penalty as u64)
}

// Piece i's pair sum.
pub fn row_sum(penalties: &[u8], weights: &[u32], n: usize, i: usize) -> u64
    requires fact_1 { Weighed n penalties.now weights.now }
    requires fact_2 { i < n }
    ensures { (j : Job) (v : Layout) → j.size.count ≡ n → PenaltyTable j v n penalties.now → result ≡ piece_sum j weights.now v i }
{
    let mut sum = 0;
    for k in 0..n {
        sum += cost_between(weights, n, i, k, penalties[i * PIECE_BOUND + k]);
    }
    sum
}

// The part of the pairs (i, i + 1), (i, i + 2), .. in the weighted sum. Their weights begin at `from`.
fn row_part(penalties: &[u8], weights: &[u32], n: usize, i: usize, from: usize) -> u64
    requires fact_1 { Weighed n penalties.now weights.now }
    requires fact_2 { (i < n) × (from ≡ row_start n i) }
    ensures part { result ≡ row_part n (table_cost penalties.now i) weights.now i from }
    ensures small { result ≤ 2 ^ 46 }
{
    let mut sum = 0;
    let mut at = from;
    for k in i + 1..n {
        sum += (weights[at] as u64) * (penalties[i * PIECE_BOUND + k] as u64);
        at += 1;
    }
    sum
}

// The weighted sum.
pub fn total(penalties: &[u8], weights: &[u32], n: usize) -> u64
    requires { Weighed n penalties.now weights.now }
    ensures { (j : Job) (v : Layout) → j.size.count ≡ n → PenaltyTable j v n penalties.now → result ≡ weighted_sum j weights.now v }
{
    let mut sum = 0;
    let mut from = 0;
    for i in 0..n {
        sum += row_part(penalties, weights, n, i, from);
        from += n - (i + 1);
    }
    sum
}

// Weights 1 for every pair of 64 pieces.
fn ones() -> [u32; PAIR_BOUND]
    ensures { result ≡ replicate 2016 1 }
{
    [1u32; PAIR_BOUND]
}

// The plain sum: the weighted sum by weights 1.
pub fn plain_total(penalties: &[u8], n: usize) -> u64
    requires { (n ≤ piece_bound) × (length penalties.now ≡ 4096) }
    ensures { (j : Job) (v : Layout) → j.size.count ≡ n → PenaltyTable j v n penalties.now → result ≡ plain_sum j v }
{
    let weights = ones();
    let count = pair_count(n);
    total(penalties, &weights[..count], n)
}

// Raises the weight at a position by 1 where the pair's penalty is not 0; 65,535 stays.
fn raise_pair(weights: &mut [u32], at: usize, penalty: u8)
    requires { at < length weights.old }
    ensures { weights.new ≡ raised_at weights.old at penalty }
{
    if penalty == 0 {
        return;
    }
    let below = weights[at] < WEIGHT_BOUND;
    if below {
        weights[at] += 1;
    }
}

// Raises the weights of the pairs (i, i + 1), (i, i + 2), .. that conflict. They begin at `from`.
fn raise_row(penalties: &[u8], weights: &mut [u32], n: usize, i: usize, from: usize)
    requires fact_1 { Weighed n penalties.now weights.old }
    requires fact_2 { (i < n) × (from ≡ row_start n i) }
    ensures { (j : Job) (v : Layout) (ws : List ℕ) → j.size.count ≡ n → PenaltyTable j v n penalties.now → ValidWeights j ws → Raising j v ws from weights.old → Raising j v ws (row_start n (i + 1)) weights.new }
{
    let mut at = from;
    for k in i + 1..n {
        raise_pair(weights, at, penalties[i * PIECE_BOUND + k]);
        at += 1;
    }
}

// Raises the weight of each pair that conflicts.
pub fn raise(penalties: &[u8], weights: &mut [u32], n: usize)
    requires { Weighed n penalties.now weights.old }
    ensures { (j : Job) (v : Layout) → j.size.count ≡ n → PenaltyTable j v n penalties.now → ValidWeights j weights.old → weights.new ≡ raised j v weights.old }
{
    let mut from = 0;
    for i in 0..n {
        raise_row(penalties, weights, n, i, from);
        from += n - (i + 1);
    }
}
