// Writing a sheet's fields into a buffer (01, "The sheet"). Each is written from place n on where it fits, and not at
// all where it does not: the caller counts its bytes.

#![tactic(auto)]

ghost use Rattle.std.specs.Prelude.{◌≡◌, [], ◌∷◌, ◌≤◌, ◌<◌, ◌+◌, length};
ghost use Rattle.std.proofs.lemmas.List.Edits.{sets};
ghost use Rattle.spec_language.specs.Grammar.{field, word};
ghost use Rattle.sheet_write.specs.Writes.{header, fitted, shifted, as_application, as_field, event_bytes, viewer_bytes, start_bytes};
ghost use Rattle.lib_base.specs.Words.{byte_values, half_values, word_bytes};
ghost use Rattle.sheet_field.specs.Sizes.{longest_value};
ghost use Rattle.sheet_write.specs.Places.{place_limit, row_place_limit};

use sheet_field::{places, sizes, tags};

// In place of the byte that says who may send or see, where there is none: a number, as the reader of the text hands it
// on (source_declarations).
pub const UNSAID: u64 = lib_word::BYTE_VALUES as u64;

// Where a handler's event and phase stand in its field, and where a row's field 04 ends in its value.
const EVENT: usize = sizes::HEADER + places::EVENT;

const PHASE: usize = sizes::HEADER + places::PHASE;

const ROW_START: usize = places::START + sizes::WORD_FIELD;

// The header of a field: its tag, and how many bytes its value has.
fn put_header(out: &mut [u8], n: usize, tag: u8, bytes: usize)
    requires n_in_bounds { n + 3 ≤ length out.old }
    requires bytes_lt_half_values { bytes < half_values }
    ensures { out.new ≡ sets out.old n (header tag bytes) }
{
    out[n] = tag;
    lib_word::put_half(out, n + places::LENGTH, bytes as u16);
}

// A field with its value: a number of one byte, an event's two, or a word.
#[tactic(auto, using(lib_base::proofs::Pick::branches), unfolding(crate::specs::Writes::fitted))]
fn put_field(out: &mut [u8], n: usize, tag: u8, value: &[u8])
    requires n_le_place_limit { n ≤ place_limit }
    requires value_bound { length value.now ≤ word_bytes }
    ensures { out.new ≡ fitted out.old n (field tag value.now) }
{
    let at = n + sizes::HEADER;
    if out.len() < at + value.len() {
        return;
    }
    put_header(out, n, tag, value.len());
    out[at..at + value.len()].copy_from_slice(value);
}

// A field of one byte: a name, a parameter, or who may see a behaviour.
pub fn put_byte_field(out: &mut [u8], n: usize, tag: u8, b: u8)
    requires { n ≤ place_limit }
    ensures { out.new ≡ fitted out.old n (field tag (b ∷ [])) }
{
    put_field(out, n, tag, &[b]);
}

// A field of a word, the high byte first: a constant or a start value.
#[tactic(auto, using(crate::proofs::Laws::word_is))]
pub fn put_word_field(out: &mut [u8], n: usize, tag: u8, w: u32)
    requires { n ≤ place_limit }
    ensures { out.new ≡ fitted out.old n (field tag (word w)) }
{
    put_field(out, n, tag, &w.to_be_bytes());
}

// An event's field, by its rank and who may send it; the place behind it.
#[tactic(auto, using(lib_base::proofs::Pick::branches), unfolding(crate::specs::Writes::event_bytes))]
pub fn put_event(out: &mut [u8], n: usize, rank: u8, senders: u64) -> usize
    requires { n ≤ place_limit }
    ensures value { result ≡ n + length (event_bytes rank senders) }
    ensures out_after { out.new ≡ fitted out.old n (event_bytes rank senders) }
{
    if senders == UNSAID {
        put_byte_field(out, n, tags::EVENT, rank);
        return n + sizes::BYTE_FIELD;
    }
    put_field(out, n, tags::EVENT, &[rank, (senders % UNSAID) as u8]);
    n + sizes::PAIR_FIELD
}

// Who may see a behaviour, where it is said; the place behind it.
#[tactic(auto, using(lib_base::proofs::Pick::branches))]
pub fn put_viewers(out: &mut [u8], n: usize, viewers: u64) -> usize
    requires n_le_place_limit { n ≤ place_limit }
    requires viewers_le_byte_values { viewers ≤ byte_values }
    ensures value { result ≡ n + length (viewer_bytes viewers) }
    ensures out_after { out.new ≡ fitted out.old n (viewer_bytes viewers) }
{
    if viewers == UNSAID {
        return n;
    }
    put_byte_field(out, n, tags::VIEWERS, viewers as u8);
    n + sizes::BYTE_FIELD
}

// A row's count of cells, where there are any, and the value that it or an active starts with; the place behind them.
#[tactic(auto, using(lib_base::proofs::Pick::branches), unfolding(crate::specs::Writes::fitted))]
pub fn put_start(out: &mut [u8], n: usize, w: u32, cells: usize) -> usize
    requires n_le_row_place_limit { n ≤ row_place_limit }
    requires cells_lt_byte_values { cells < byte_values }
    ensures value { result ≡ n + length (start_bytes cells w) }
    ensures out_after { out.new ≡ fitted out.old n (start_bytes cells w) }
{
    if cells == 0 {
        put_word_field(out, n, tags::START, w);
        return n + sizes::WORD_FIELD;
    }
    if out.len() < n + ROW_START {
        return n + ROW_START;
    }
    out[n] = cells as u8;
    put_word_field(out, n + places::START, tags::START, w);
    n + ROW_START
}

// The event and the phase of the handler whose field begins at place n.
#[tactic(auto, using(lib_base::proofs::Pick::branches), unfolding(crate::specs::Writes::fitted))]
pub fn put_handler(out: &mut [u8], n: usize, event: u8, phase: u8)
    requires { n ≤ place_limit }
    ensures { out.new ≡ fitted out.old (n + 3) (event ∷ phase ∷ []) }
{
    if out.len() < n + sizes::HANDLER_HEAD {
        return;
    }
    out[n + EVENT] = event;
    out[n + PHASE] = phase;
}

// The header of the field from place n to `end`, in front of its value.
#[tactic(auto, using(lib_base::proofs::Pick::branches), unfolding(crate::specs::Writes::as_field))]
pub fn enclose(out: &mut [u8], n: usize, end: usize, tag: u8)
    requires n_bound { n + 3 ≤ end }
    requires out_len_bound { length out.old ≤ longest_value }
    ensures { out.new ≡ as_field tag n end out.old }
{
    if out.len() < end {
        return;
    }
    put_header(out, n, tag, end - n - sizes::HEADER);
}

// The bytes from `start` to `end` go on by an application's head.
fn shift(out: &mut [u8], start: usize, end: usize)
    requires start_le_end { start ≤ end }
    requires word_bytes_in_bounds { end + word_bytes ≤ length out.old }
    ensures { out.new ≡ shifted start end out.old }
{
    out.copy_within(start..end, start + sizes::BYTE_HEAD);
}

// The arguments from `start` to `end` become an application of function f.
#[tactic(auto, using(lib_base::proofs::Pick::branches), unfolding(crate::specs::Writes::as_application))]
pub fn wrap_application(out: &mut [u8], start: usize, end: usize, f: u8)
    requires start_le_end { start ≤ end }
    requires end_le_place_limit { end ≤ place_limit }
    requires out_len_bound { length out.old ≤ longest_value }
    ensures { out.new ≡ as_application f start end out.old }
{
    if out.len() < end + sizes::BYTE_HEAD {
        return;
    }
    shift(out, start, end);
    put_header(out, start, tags::APPLICATION, end - start + 1);
    out[start + sizes::HEADER] = f;
}
