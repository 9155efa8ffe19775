// A sheet's text becomes its bytes at the start of a lent buffer: 2 ^ 32 and their number, or the first fault by kind,
// line and column. A formula may name what is declared behind it: a look over the text tells the names that it seems to
// declare, and then it is read with these known. Where it turns out to declare others, it is read again with those.

#![tactic(auto)]

ghost use Rattle.std.specs.Prelude.{◌≡◌, ◌<◌, ◌≤◌, ◌+◌, length};
ghost use Rattle.text_formula.specs.Answer.{answered};
ghost use Rattle.source_language.specs.Reader.{read_text};
ghost use Rattle.source_coding.specs.Places.{meaning_in};
ghost use Rattle.source_behaviours.specs.Whole.{NamesUsable, TextRead};
ghost use Rattle.source_assemble.specs.AssembleNumber.{assemble_number};
ghost use Rattle.source_assemble.specs.Assemble.{RoomToRead, line_after, column_after, place_told, fault_numbered};
ghost use Rattle.source_assemble.specs.Assemble.{TellsFault, ToldAs, NamesResolved, sheet_answer, ReadRight};
ghost use Rattle.source_coding.specs.Bounds.{name_limit, text_bytes};
ghost use Rattle.source_coding.specs.Faults.{kind_unit};
ghost use Rattle.spec_language.specs.Limits.{sheet_bytes};

use source_behaviours::Reading;
use source_coding::faults::{Fault, Kind};
use source_coding::{faults, limits};
use source_hint::{hint_of, is_right};
use spec_language::{answers, limits as sheet};

// The line and the column after a byte.
#[tactic(auto, using(lib_base::proofs::Pick::branches))]
fn line_after(line: u64, b: u8) -> u64
    requires { line ≤ text_bytes }
    ensures value { result ≡ line_after line b }
    ensures upper_bound { result ≤ line + 1 }
{
    if b == b'\n' {
        return line + 1;
    }
    line
}

#[tactic(auto, using(lib_base::proofs::Pick::branches))]
fn column_after(column: u64, b: u8) -> u64
    requires { column ≤ text_bytes }
    ensures value { result ≡ column_after column b }
    ensures upper_bound { result ≤ column + 1 }
{
    if b == b'\n' {
        return 1;
    }
    column + 1
}

// Line and column of the byte with so many before it, counted from 1, in one number.
fn place_told(text: &[u8], place: usize) -> u64
    requires place_in_bounds { place ≤ length text.now }
    requires place_le_text_bytes { place ≤ text_bytes }
    ensures value { result ≡ place_told text.now place }
    ensures upper_bound { result < kind_unit }
{
    let mut line = 1u64;
    let mut column = 1u64;
    for &b in &text[..place] {
        line = line_after(line, b);
        column = column_after(column, b);
    }
    line * faults::TOLD_LINE + column
}

// A fault as the call answers it.
fn fault_told(text: &[u8], fault: Fault) -> u64
    requires { TellsFault (length text.now) fault }
    ensures { result ≡ fault_numbered text.now fault }
{
    fault.kind.number() * faults::TOLD_KIND + place_told(text, fault.place)
}

// The sheet's n bytes to the buffer, unless they are too many for a sheet or for the buffer.
fn put_result(text: &[u8], n: usize, out: &[u8], buffer: &mut [u8]) -> Result<usize, Fault>
    requires text_len_bound { length text.now ≤ text_bytes }
    requires out_len { length out.now ≡ sheet_bytes }
    ensures { ToldAs text.now result buffer.new (sheet_answer text.now n out.now buffer.old) }
{
    if sheet::SHEET_BYTES < n {
        return Err(Fault {
            kind: Kind::LongSheet,
            place: text.len(),
        });
    }
    if buffer.len() < n {
        return Err(Fault {
            kind: Kind::ShortBuffer,
            place: text.len(),
        });
    }
    buffer[..n].copy_from_slice(&out[..n]);
    Ok(n)
}

// What a reading found that had the right names: the first fault of a name, or the sheet.
fn put_read(
    text: &[u8],
    end: usize,
    stray: Option<Fault>,
    out: &[u8],
    buffer: &mut [u8],
) -> Result<usize, Fault>
    requires text_len_bound { length text.now ≤ text_bytes }
    requires out_len { length out.now ≡ sheet_bytes }
    requires read_right { ReadRight text.now buffer.old out.now end stray }
    ensures { ToldAs text.now result buffer.new (assemble_number text.now buffer.old) }
{
    if let Some(fault) = stray {
        return Err(fault);
    }
    put_result(text, end, out, buffer)
}

// The text is read where names mean what these say. They are brought into order; where a trial does not find each of
// them so, they are looked up one after another.
fn read_with(
    text: &[u8],
    names: &[usize],
    params: usize,
    firsts: &[usize],
    declared: &mut [usize],
    starts: &mut [usize],
    out: &mut [u8],
) -> Result<Reading, Fault>
    requires text_len_bound { length text.now ≤ text_bytes }
    requires names_usable { NamesUsable names.now params firsts.now }
    requires room_to_read { RoomToRead declared.old starts.old out.old }
    ensures text_read { TextRead text.now
        (meaning_in text.now names.now params firsts.now) out.old
        out.new declared.new starts.new result (read_text text.now) }
    ensures declared_len { (length declared.new ≡ name_limit) × (length out.new ≡ sheet_bytes) }
{
    let mut places = [0usize; limits::NAMES];
    let mut meanings = [0usize; limits::NAMES];
    let n = names.len();
    source_index::put_in_order(text, names, &mut places);
    source_index::put_meanings(text, names, params, firsts, &places[..n], &mut meanings);
    if source_index::all_found(text, names, &places[..n]) {
        return source_behaviours::read_at(text, &places[..n], n, &meanings, declared, starts, out);
    }
    source_index::put_meanings(text, names, params, firsts, names, &mut meanings);
    source_behaviours::read_at(text, names, 0, &meanings, declared, starts, out)
}

// The second run, where the hint was wrong: names mean what the first one found.
fn second_run(
    text: &[u8],
    names: &[usize],
    params: usize,
    firsts: &[usize],
    out: &mut [u8],
    buffer: &mut [u8],
) -> Result<usize, Fault>
    requires text_len_bound { length text.now ≤ text_bytes }
    requires names_usable { NamesUsable names.now params firsts.now }
    requires names_resolved { NamesResolved text.now (meaning_in text.now names.now params firsts.now) (read_text text.now) }
    requires out_len { length out.old ≡ sheet_bytes }
    ensures { ToldAs text.now result buffer.new (assemble_number text.now buffer.old) }
{
    let mut declared = [0usize; limits::NAMES];
    let mut starts = [0usize; limits::FIRST_CELLS];
    let reading = read_with(text, names, params, firsts, &mut declared, &mut starts, out)?;
    put_read(text, reading.end, reading.stray, out, buffer)
}

// The first run, with the names of a hint. What it finds is the answer where the text declares these names; and a fault
// of the first pass is, whatever names mean.
fn first_run(
    text: &[u8],
    names: &[usize],
    params: usize,
    firsts: &[usize],
    buffer: &mut [u8],
) -> Result<usize, Fault>
    requires text_len_bound { length text.now ≤ text_bytes }
    requires names_usable { NamesUsable names.now params firsts.now }
    ensures { ToldAs text.now result buffer.new (assemble_number text.now buffer.old) }
{
    let mut declared = [0usize; limits::NAMES];
    let mut starts = [0usize; limits::FIRST_CELLS];
    let mut out = [0u8; sheet::SHEET_BYTES];
    let reading = read_with(
        text,
        names,
        params,
        firsts,
        &mut declared,
        &mut starts,
        &mut out,
    )?;
    let found = &declared[..reading.count];
    if is_right(names, params, firsts, found, reading.params, &starts) {
        return put_read(text, reading.end, reading.stray, &out, buffer);
    }
    second_run(text, found, reading.params, &starts, &mut out, buffer)
}

// The sheet's bytes at the start of the buffer, and how many they are.
fn assembled(text: &[u8], buffer: &mut [u8]) -> Result<usize, Fault>
    ensures { ToldAs text.now result buffer.new (assemble_number text.now buffer.old) }
{
    if limits::TEXT_BYTES < text.len() {
        return Err(Fault {
            kind: Kind::LongText,
            place: limits::TEXT_BYTES,
        });
    }
    let mut names = [0usize; limits::NAMES];
    let mut firsts = [0usize; limits::FIRST_CELLS];
    let hint = hint_of(text, &mut names, &mut firsts);
    first_run(text, &names[..hint.count], hint.params, &firsts, buffer)
}

// The same as a number: 2 ^ 32 and how many bytes; or the fault's kind, line and column.
pub fn assemble_at(text: &[u8], buffer: &mut [u8]) -> u64
    ensures { answered result buffer.new ≡ assemble_number text.now buffer.old }
{
    match assembled(text, buffer) {
        Ok(n) => answers::VALUE + (n as u64),
        Err(fault) => fault_told(text, fault),
    }
}
