// Names by the places where they stand in a text: whether two are the same, and which of several is one. The bytes of
// the name that is looked up are counted once.

#![tactic(auto)]

ghost use Rattle.std.specs.Prelude.{◌≡◌, ◌+◌, ◌≤◌, ◌<◌, length};
ghost use Rattle.source_language.specs.Tokens.{same};
ghost use Rattle.source_language.specs.Limits.{among};
ghost use Rattle.source_coding.specs.Places.{name_at, names_held, index_in};
ghost use Rattle.source_names.specs.Bytes.{same_bytes};
ghost use Rattle.source_names.specs.Search.{order_of_bytes, order_at, seek, found_in};
ghost use Rattle.source_names.specs.Units.{halvings};

use source_tokens::{in_word, word_end};
use std::cmp::Ordering;
use text_marks::byte_at;

// In the number that tells what a name means, so much stands for each cell that it has; a parameter has none.
pub const CELL: usize = 128;

// So many halves make one of all names.
const STEPS: usize = 7;

// How many bytes the name at a place has.
pub fn name_size(text: &[u8], p: usize) -> usize
    ensures { result ≡ length (name_at text.now p) }
{
    if text.len() < p {
        return 0;
    }
    word_end(text, p) - p
}

// The n bytes at both places are the same. All are read, also behind a difference, so that they can be read at once.
fn alike(text: &[u8], p: usize, q: usize, n: usize) -> bool
    requires n_in_bounds { p + n ≤ length text.now }
    requires n_in_bounds_2 { q + n ≤ length text.now }
    ensures { result ≡ same_bytes text.now p q n }
{
    let mut r = true;
    for k in 0..n {
        r = r & (text[p + k] == text[q + k]);
    }
    r
}

// The same. Most names differ in the last byte, which is read first.
fn same_bytes(text: &[u8], p: usize, q: usize, n: usize) -> bool
    requires n_in_bounds { p + n ≤ length text.now }
    requires n_in_bounds_2 { q + n ≤ length text.now }
    requires n_nonzero { 0 < n }
    ensures { result ≡ same_bytes text.now p q n }
{
    let last = n - 1;
    if text[p + last] != text[q + last] {
        return false;
    }
    alike(text, p, q, n)
}

// The same name stands at both places; the one at p has n bytes.
fn same_name(text: &[u8], p: usize, n: usize, q: usize) -> bool
    requires { n ≡ length (name_at text.now p) }
    ensures { result ≡ same (name_at text.now p) (name_at text.now q) }
{
    if n == 0 {
        return !in_word(byte_at(text, q));
    }
    if text.len() < q {
        return false;
    }
    if text.len() - q < n {
        return false;
    }
    if !same_bytes(text, p, q, n) {
        return false;
    }
    !in_word(byte_at(text, q + n))
}

// The name at p is among those at the first n places.
pub fn is_among(text: &[u8], p: usize, places: &[usize], n: usize) -> bool
    requires { n ≤ length places.now }
    ensures { result ≡ among (name_at text.now p) (names_held text.now places.now n) }
{
    index_of(text, p, &places[0..n]) < n
}

// Which of the names at these places is the one at p, from 0; their number where none is. Nothing is counted where no
// names are known yet.
pub fn index_of(text: &[u8], p: usize, places: &[usize]) -> usize
    ensures value { result ≡ index_in text.now places.now (name_at text.now p) }
    ensures upper_bound { result ≤ length places.now }
{
    if places.len() == 0 {
        return 0;
    }
    let n = name_size(text, p);
    for i in 0..places.len() {
        if same_name(text, p, n, places[i]) {
            return i;
        }
    }
    places.len()
}

// A byte of a name and another one at the same place, where the other name may have ended: that is asked only of a byte
// above.
fn byte_order(b: u8, c: u8) -> Ordering
    ensures { result ≡ order_of_bytes b c }
{
    if b < c {
        if in_word(c) {
            return Ordering::Less;
        }
    }
    Ordering::Greater
}

// How the name of n bytes at p stands to the one at q: names are in order by their first bytes that differ.
pub fn order_at(text: &[u8], p: usize, n: usize, q: usize) -> Ordering
    requires n_value { n ≡ length (name_at text.now p) }
    requires q_in_bounds { q ≤ length text.now }
    ensures { result ≡ order_at text.now q (name_at text.now p) }
{
    for k in 0..n {
        let b = text[p + k];
        let c = byte_at(text, q + k);
        if b != c {
            return byte_order(b, c);
        }
    }
    if in_word(byte_at(text, q + n)) {
        return Ordering::Less;
    }
    Ordering::Equal
}

// Which of the first `top` names the one of n bytes at p is, where these are in order; `top` where it is not met.
fn sought(text: &[u8], p: usize, n: usize, places: &[usize], top: usize) -> usize
    requires n_value { n ≡ length (name_at text.now p) }
    requires top_in_bounds { top ≤ length places.now }
    ensures { result ≡ seek text.now places.now (name_at text.now p) top halvings 0 top }
{
    let mut lo = 0;
    let mut hi = top;
    let mut steps = STEPS;
    while 0 < steps {
        if hi <= lo {
            return top;
        }
        let mid = (lo + hi) / 2;
        let q = places[mid];
        if text.len() < q {
            return top;
        }
        steps = steps - 1;
        match order_at(text, p, n, q) {
            Ordering::Less => {
                hi = mid;
            }
            Ordering::Equal => {
                return mid;
            }
            Ordering::Greater => {
                lo = mid + 1;
            }
        }
    }
    top
}

// Which of the names at these places is the one at p, from 0: the first `sorted`, which are in order, are searched by
// halves, those behind them one after another. Their number where none is.
pub fn found_in(text: &[u8], p: usize, places: &[usize], sorted: usize) -> usize
    requires { sorted ≤ length places.now }
    ensures { result ≡ found_in text.now places.now sorted (name_at text.now p) }
{
    let k = sought(text, p, name_size(text, p), places, sorted);
    if k < sorted {
        return k;
    }
    sorted + index_of(text, p, &places[sorted..places.len()])
}
