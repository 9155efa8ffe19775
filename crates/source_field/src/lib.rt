// A formula that is read: its field's bytes are counted whatever fits, and written where they do.

#![tactic(auto)]

ghost use Rattle.std.specs.Prelude.{◌≡◌, ◌≤◌, length};
ghost use Rattle.source_field.specs.Fields.{under_by, applied_by, headed_in, Headable};
ghost use Rattle.sheet_field.specs.Sizes.{longest_value};

use lib_order::larger_size;
use sheet_field::sizes;
use source_coding::faults::Fault;

// A formula read: the place behind it, how deep it nests, the end of its field, and the first fault of its names, if
// there is one.
#[derive(Clone, Copy, Drop)]
pub struct Formula {
    pub next: usize,
    pub depth: usize,
    pub end: usize,
    pub stray: Option<Fault>,
}

pub type Read = Result<Formula, Fault>;

// Where a reading stands: the place in the text, the end of the bytes that are written; how many of the names' places
// are in order; the cells of the row whose handler this is, else 0; and how many formulas may still nest here.
#[derive(Clone, Copy)]
pub struct Cursor {
    pub at: usize,
    pub end: usize,
    pub sorted: usize,
    pub cells: usize,
    pub room: usize,
}

// A reading after others that nest d deep and whose names' first fault is `stray`.
pub fn under(d: usize, stray: Option<Fault>, r: Read) -> Read
    ensures { result ≡ under_by d stray r }
{
    let formula = r?;
    Ok(Formula {
        depth: larger_size(d, formula.depth),
        stray: stray.or(formula.stray),
        ..formula
    })
}

// The arguments from `start` on become an application of function f; those before r's nest d deep, and `stray` is their
// names' first fault.
pub fn close(f: u8, start: usize, d: usize, stray: Option<Fault>, r: Read, out: &mut [u8]) -> Read
    requires headable { Headable start d r }
    requires out_len_bound { length out.old ≤ longest_value }
    ensures value { result ≡ applied_by d stray r }
    ensures out_after { out.new ≡ headed_in f start r out.old }
{
    let formula = under(d, stray, r)?;
    sheet_write::wrap_application(out, start, formula.end, f);
    Ok(Formula {
        depth: formula.depth + 1,
        end: formula.end + sizes::BYTE_HEAD,
        ..formula
    })
}
