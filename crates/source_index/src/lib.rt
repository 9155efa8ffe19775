// The names that a text declares, brought into order so that each is found by halves. Whether all of them are is tried
// afterwards: whoever uses the order goes by the trial, and not by how it was made.

#![tactic(auto)]

ghost use Rattle.std.specs.Prelude.{true, ◌≡◌, ℕ, ◌≤◌, ◌<◌, ◌-◌, length, get_or};
ghost use Rattle.lib_base.specs.Basics.{All};
ghost use Rattle.source_coding.specs.Places.{name_at};
ghost use Rattle.source_names.specs.Known.{cells_meant, meaning_number};
ghost use Rattle.source_index.specs.Index.{MeaningsPut, AllFound};
ghost use Rattle.source_coding.specs.Bounds.{name_limit};
ghost use Rattle.source_names.specs.Units.{meaning_limit};
ghost use Rattle.spec_language.specs.Limits.{behaviour_limit};

use source_names::{CELL, found_in, index_of, name_size, order_at};
use std::cmp::Ordering;

// The number of a behaviour's first cell; 0 past the list's end.
fn cell_at(firsts: &[usize], i: usize) -> usize
    requires { All (λ k. k ≤ behaviour_limit) firsts.now }
    ensures value { result ≡ get_or firsts.now i 0 }
    ensures upper_bound { result ≤ behaviour_limit }
{
    firsts.get(i).copied().unwrap_or(0)
}

// The number for a behaviour or a row from its first cell to the next one's.
fn cells_number(first: usize, next: usize) -> usize
    requires first_le_behaviour_limit { first ≤ behaviour_limit }
    requires next_le_behaviour_limit { next ≤ behaviour_limit }
    ensures value { result ≡ cells_meant first (next - first) }
    ensures upper_bound { result < meaning_limit }
{
    if next < first + 2 {
        return first + CELL;
    }
    first + (next - first) * CELL
}

// The number that tells what the j-th name means.
fn meaning_number(j: usize, params: usize, firsts: &[usize]) -> usize
    requires j_le_name_limit { j ≤ name_limit }
    requires all { All (λ k. k ≤ behaviour_limit) firsts.now }
    ensures value { result ≡ meaning_number params firsts.now j }
    ensures upper_bound { result < meaning_limit }
{
    if j < params {
        return j;
    }
    let first = cell_at(firsts, j - params);
    let next = cell_at(firsts, j - params + 1);
    cells_number(first, next)
}

// For each of these places the number that tells what its name means, by where that is among the names declared.
pub fn put_meanings(
    text: &[u8],
    names: &[usize],
    params: usize,
    firsts: &[usize],
    places: &[usize],
    meanings: &mut [usize],
)
    requires names_len_bound { length names.now ≤ name_limit }
    requires all { All (λ k. k ≤ behaviour_limit) firsts.now }
    requires places_in_bounds { length places.now ≤ length meanings.old }
    requires all_2 { All (λ m. m < meaning_limit) meanings.old }
    ensures { MeaningsPut text.now names.now params firsts.now
        places.now (length places.now) meanings.old meanings.new }
{
    for k in 0..places.len() {
        let j = index_of(text, places[k], names);
        meanings[k] = meaning_number(j, params, firsts);
    }
}

// Each name is found among these places, where all are in order, and each of them is a name's.
pub fn all_found(text: &[u8], names: &[usize], places: &[usize]) -> bool
    requires { length places.now ≡ length names.now }
    ensures { result ≡ true → AllFound text.now names.now places.now (length names.now) }
{
    let n = places.len();
    for j in 0..n {
        if n <= found_in(text, names[j], places, n) {
            return false;
        }
        if n <= index_of(text, places[j], names) {
            return false;
        }
    }
    true
}

// Whether the name of n bytes at p belongs before the one at q.
fn belongs_before(text: &[u8], p: usize, n: usize, q: usize) -> bool
    requires { n ≡ length (name_at text.now p) }
{
    if text.len() < q {
        return false;
    }
    order_at(text, p, n, q) == Ordering::Less
}

// A name's place goes among the first k, which are in order.
fn insert_name(text: &[u8], p: usize, places: &mut [usize], k: usize)
    requires { k < length places.old }
    ensures { length places.new ≡ length places.old }
{
    let n = name_size(text, p);
    let mut i = k;
    while 0 < i {
        let q = places[i - 1];
        if !belongs_before(text, p, n, q) {
            places[i] = p;
            return;
        }
        places[i] = q;
        i = i - 1;
    }
    places[0] = p;
}

// The names' places in the order of the names, as many as there is room for.
pub fn put_in_order(text: &[u8], names: &[usize], places: &mut [usize])
    requires { length names.now ≤ length places.old }
    ensures { length places.new ≡ length places.old }
{
    for k in 0..names.len() {
        insert_name(text, names[k], places, k);
    }
}
