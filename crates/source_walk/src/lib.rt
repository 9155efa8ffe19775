// What describing a sheet asks of its behaviours as a whole: the first cell of each behaviour's row, and how many
// parameters they need. Time: first cells are noted in one pass over the behaviours' fields, parameters counted in one
// over their bytes. Places are those of sheet_walk.

#![tactic(auto)]

ghost use Rattle.std.specs.Prelude.{◌≡◌, ◌<◌, ◌≤◌, length, get_or, drop};
ghost use Rattle.source_walk.specs.Fields.{needed_after, needed_in};
ghost use Rattle.source_walk.specs.Heads.{OwnFrom, CellsNoted, HeadsOf};
ghost use Rattle.lib_base.specs.Words.{byte_values, highest_byte};

use sheet_field::tags;
use sheet_walk::Scanner;
use std::array;

// How many numbers a byte can be.
pub const BYTE: usize = sheet_field::sizes::HIGH;

// Each behaviour as the first cell of its own field.
fn own_heads() -> [u8; BYTE]
    ensures { OwnFrom result 0 }
{
    array::from_fn(|i| i as u8)
}

// Notes j as the first cell of the n behaviours from j on.
fn note_cells(heads: &mut [u8; BYTE], j: usize, n: usize)
    requires { (j < byte_values) × (n ≤ highest_byte) }
    ensures { CellsNoted heads.old heads.new j n }
{
    heads[j..BYTE.min(j + n)].fill(j as u8);
}

// The first cell of each behaviour's field, where the behaviours stand from the place `first` on.
pub fn heads_from(s: &[u8], first: usize) -> [u8; BYTE]
    requires { first ≤ length s.now }
    ensures { HeadsOf s.now first result }
{
    let mut heads = own_heads();
    let mut j = 0usize;
    for at in sheet_walk::field_places(s, first) {
        if BYTE <= j {
            break;
        }
        let n = sheet_walk::cells_at(s, at);
        note_cells(&mut heads, j, n);
        j += n;
    }
    heads
}

// The parameters needed after a byte, n before it.
fn needed_after(scanner: &Scanner, n: usize, b: u8) -> usize
    requires { n ≤ byte_values }
    ensures value { result ≡ needed_after scanner.now.tag scanner.now.left n b }
    ensures upper_bound { result ≤ byte_values }
{
    if scanner.is_number(tags::PARAMETER) {
        return n.max((b as usize) + 1);
    }
    n
}

// How many parameters the behaviours from a place on need.
pub fn needed_from(s: &[u8], first: usize) -> usize
    requires { first ≤ length s.now }
    ensures value { result ≡ needed_in 0 0 0 (drop first s.now) }
    ensures upper_bound { result ≤ byte_values }
{
    let mut scanner = Scanner::default();
    let mut n = 0usize;
    for &b in &s[first..] {
        n = needed_after(&scanner, n, b);
        scanner.pass(b);
    }
    n
}
