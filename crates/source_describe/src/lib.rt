// A sheet back as text: the sheet is judged as by compile, then its bytes are walked from front to back and each token
// handed to the pen; once to count, and again into the buffer if it has room, or into a buffer that has room for every
// text at once. Time: each walk is one pass over the bytes, the handlers' twice; before it, one pass to count the
// parameters, and one over the behaviours' fields that notes the first cell of each behaviour's row, so that a name is
// looked up. Places are those of sheet_walk.

#![tactic(auto)]

ghost use Rattle.std.specs.Prelude.{IfSome, ◌≡◌, [], ◌∷◌, ◌<◌, ◌≤◌, ◌%◌, eqb, length, drop, replicate};
ghost use Rattle.lib_base.specs.Basics.{pick};
ghost use Rattle.back_compile.specs.Number.{number_on};
ghost use Rattle.text_formula.specs.Answer.{answered};
ghost use Rattle.spec_language.specs.Reading.{phase_of};
ghost use Rattle.source_language.specs.Tokens.{number, name, sign};
ghost use Rattle.source_rendering.specs.Describe.{digits, parameters_from, phase_tokens, parameter_tokens};
ghost use Rattle.source_walk.specs.Fields.{needed_in};
ghost use Rattle.source_walk.specs.Heads.{HeadsOf};
ghost use Rattle.source_terms.specs.Put.{TokensPut};
ghost use Rattle.source_describe.specs.Walk.{handler_tokens, handlers_tokens, bit_tokens, right_tokens, viewer_tokens, active_tokens};
ghost use Rattle.source_describe.specs.Walk.{passive_tokens, row_tokens, state_tokens, entry_tokens, entries_tokens, sender_tokens};
ghost use Rattle.source_describe.specs.Walk.{signal_tokens, signals_tokens, behaviours_in, sheet_tokens};
ghost use Rattle.source_describe.specs.Describing.{TextPut, text_answer, describe_on};
ghost use Rattle.lib_base.specs.Words.{byte_values};
ghost use Rattle.source_pen.specs.Lengths.{pen_limit};
ghost use Rattle.source_pen.specs.Kinds.{IsSign};
ghost use Rattle.spec_language.specs.Limits.{event_limit, player_limit};

use sheet_field::{places, sizes, tags};
use sheet_walk::{after_field, byte_from, cells_at, field_places, onward, past_fields, word_from};
use source_coding::{faults, limits as texts, signs};
use source_pen::Pen;
use source_pen::Token::{Name, Number, Sign};
use source_terms::{BEHAVIOUR, Expression, LOOSEST, PARAMETER, put_term, write, write_value};
use source_walk::{BYTE, heads_from, needed_from};
use spec_language::{answers, limits};

// A sign, and the name that stands behind it.
#[inline(always)]
fn write_named(pen: &mut Pen, word: u8, letter: u8, i: usize)
    requires { (pen.old.at ≤ pen_limit) × IsSign word × (i < byte_values) }
    ensures { TokensPut pen.old pen.new (sign 0 word ∷ name 0 (letter ∷ digits i) ∷ []) }
{
    write(pen, Sign(word));
    write(pen, Name(letter, i));
}

// When a handler runs: at once, or later.
fn put_phase(pen: &mut Pen, b: u8)
    requires { pen.old.at ≤ pen_limit }
    ensures { TokensPut pen.old pen.new (phase_tokens (phase_of b) []) }
{
    if b == 0 {
        write(pen, Sign(signs::COLON));
    } else {
        write(pen, Sign(signs::LATER));
        write(pen, Sign(signs::COLON));
    }
}

// The first letter of events' names.
const EVENT: u8 = b'e';

// In a handler the event stands behind the header, then the phase, then the expression.
const PHASE: usize = sizes::HEADER + places::PHASE;

// The handler at a place.
fn write_handler(s: &[u8], first: usize, heads: &[u8; BYTE], at: usize, pen: &mut Pen)
    requires first_in_bounds { (first ≤ length s.now) × (at ≤ length s.now) × HeadsOf s.now first heads.now }
    requires at_le_pen_limit { pen.old.at ≤ pen_limit }
    ensures { TokensPut pen.old pen.new (handler_tokens (length s.now) (drop first s.now) (drop at s.now)) }
{
    let event = byte_from(s, at, sizes::HEADER) as usize;
    let phase = byte_from(s, at, PHASE);
    let body = onward(s, at, sizes::HANDLER_HEAD);
    write_named(pen, signs::ON, EVENT, event);
    put_phase(pen, phase);
    put_term(
        s,
        first,
        heads,
        Expression {
            at: body,
            room: limits::NESTING,
            level: LOOSEST,
        },
        pen,
    );
}

// The handlers from a place on.
fn put_handlers(s: &[u8], first: usize, heads: &[u8; BYTE], from: usize, pen: &mut Pen)
    requires first_in_bounds { (first ≤ length s.now) × (from ≤ length s.now) × HeadsOf s.now first heads.now }
    requires at_le_pen_limit { pen.old.at ≤ pen_limit }
    ensures { TokensPut pen.old pen.new
        (handlers_tokens (length s.now) (drop first s.now) (length s.now) (drop from s.now)) }
{
    for at in field_places(s, from) {
        if byte_from(s, at, 0) != tags::HANDLER {
            return;
        }
        write_handler(s, first, heads, at, pen);
    }
}

// Player i, if the last bit of m is set.
fn put_bit(pen: &mut Pen, i: usize, m: usize)
    requires { (pen.old.at ≤ pen_limit) × (i < player_limit) }
    ensures { TokensPut pen.old pen.new (pick (eqb (m % 2) 1) (number 0 i ∷ []) []) }
{
    if m % 2 == 1 {
        write(pen, Number(i as u64));
    }
}

// The players whose bits a byte has.
fn put_bits(pen: &mut Pen, m: u8)
    requires { pen.old.at ≤ pen_limit }
    ensures { TokensPut pen.old pen.new (bit_tokens player_limit 0 m) }
{
    let mut rest = m as usize;
    for i in 0..limits::PLAYERS as usize {
        put_bit(pen, i, rest);
        rest /= 2;
    }
}

// The players who may, or nobody.
fn put_rights(pen: &mut Pen, m: u8)
    requires { pen.old.at ≤ pen_limit }
    ensures { TokensPut pen.old pen.new (right_tokens m) }
{
    if m == 0 {
        write(pen, Sign(signs::NOBODY));
    } else {
        put_bits(pen, m);
    }
}

// Who may see, where that field stands at the place.
fn write_viewers(s: &[u8], at: usize, pen: &mut Pen)
    requires { (at ≤ length s.now) × (pen.old.at ≤ pen_limit) }
    ensures { TokensPut pen.old pen.new (viewer_tokens (drop at s.now)) }
{
    if byte_from(s, at, 0) == tags::VIEWERS {
        write(pen, Sign(signs::SEEN));
        write(pen, Sign(signs::BY));
        put_rights(pen, byte_from(s, at, sizes::HEADER));
    }
}

// A start value, who may see, and the handlers; who may see stands behind the handlers.
fn put_active(s: &[u8], first: usize, heads: &[u8; BYTE], at: usize, pen: &mut Pen)
    requires first_in_bounds { (first ≤ length s.now) × (at ≤ length s.now) × HeadsOf s.now first heads.now }
    requires at_le_pen_limit { pen.old.at ≤ pen_limit }
    ensures { TokensPut pen.old pen.new (active_tokens (length s.now) (drop first s.now) (drop at s.now)) }
{
    let start = word_from(s, onward(s, at, sizes::HEADER));
    let handlers = onward(s, at, sizes::WORD_FIELD);
    let viewers = past_fields(s, handlers, tags::HANDLER);
    write_value(pen, start);
    write_viewers(s, viewers, pen);
    put_handlers(s, first, heads, handlers, pen);
}

// Passive j, whose value stands at the place.
fn put_passive(s: &[u8], first: usize, heads: &[u8; BYTE], at: usize, j: usize, pen: &mut Pen)
    requires first_in_bounds { (first ≤ length s.now) × (at ≤ length s.now) × HeadsOf s.now first heads.now }
    requires at_le_pen_limit { (pen.old.at ≤ pen_limit) × (j < byte_values) }
    ensures { TokensPut pen.old pen.new (passive_tokens (length s.now) (drop first s.now) j (drop at s.now)) }
{
    write_named(pen, signs::PASSIVE, BEHAVIOUR, j);
    write(pen, Sign(signs::EQUALS));
    put_term(
        s,
        first,
        heads,
        Expression {
            at,
            room: limits::NESTING,
            level: LOOSEST,
        },
        pen,
    );
    write_viewers(s, after_field(s, at), pen);
}

// Active j.
fn put_state(s: &[u8], first: usize, heads: &[u8; BYTE], at: usize, j: usize, pen: &mut Pen)
    requires first_in_bounds { (first ≤ length s.now) × (at ≤ length s.now) × HeadsOf s.now first heads.now }
    requires at_le_pen_limit { (pen.old.at ≤ pen_limit) × (j < byte_values) }
    ensures { TokensPut pen.old pen.new (state_tokens (length s.now) (drop first s.now) j (drop at s.now)) }
{
    write_named(pen, signs::ACTIVE, BEHAVIOUR, j);
    write(pen, Sign(signs::EQUALS));
    put_active(s, first, heads, at, pen);
}

// The row whose first cell is j.
fn put_row(s: &[u8], first: usize, heads: &[u8; BYTE], at: usize, j: usize, pen: &mut Pen)
    requires first_in_bounds { (first ≤ length s.now) × (at ≤ length s.now) × HeadsOf s.now first heads.now }
    requires at_le_pen_limit { (pen.old.at ≤ pen_limit) × (j < byte_values) }
    ensures { TokensPut pen.old pen.new (row_tokens (length s.now) (drop first s.now) j (drop at s.now)) }
{
    let cells = byte_from(s, at, places::CELLS) as u64;
    write_named(pen, signs::ROW, BEHAVIOUR, j);
    write(pen, Sign(signs::BRACKET));
    write(pen, Number(cells));
    write(pen, Sign(signs::UNBRACKET));
    write(pen, Sign(signs::EQUALS));
    put_active(s, first, heads, onward(s, at, places::START), pen);
}

// The behaviour's field at a place, of number j.
fn put_entry(s: &[u8], first: usize, heads: &[u8; BYTE], at: usize, j: usize, pen: &mut Pen)
    requires first_in_bounds { (first ≤ length s.now) × (at ≤ length s.now) × HeadsOf s.now first heads.now }
    requires at_le_pen_limit { (pen.old.at ≤ pen_limit) × (j < byte_values) }
    ensures { TokensPut pen.old pen.new (entry_tokens (length s.now) (drop first s.now) j (drop at s.now)) }
{
    let value = onward(s, at, sizes::HEADER);
    match byte_from(s, at, 0) {
        tags::PASSIVE => put_passive(s, first, heads, value, j, pen),
        tags::ROW => put_row(s, first, heads, value, j, pen),
        _ => put_state(s, first, heads, value, j, pen),
    }
}

// The behaviours, from the first one's place on.
fn put_entries(s: &[u8], first: usize, heads: &[u8; BYTE], pen: &mut Pen)
    requires first_in_bounds { (first ≤ length s.now) × HeadsOf s.now first heads.now }
    requires at_le_pen_limit { pen.old.at ≤ pen_limit }
    ensures { TokensPut pen.old pen.new
        (entries_tokens (length s.now) (drop first s.now) (length s.now) 0 (drop first s.now)) }
{
    let mut j = 0usize;
    for at in field_places(s, first) {
        if limits::BEHAVIOURS <= j {
            return;
        }
        put_entry(s, first, heads, at, j, pen);
        j += cells_at(s, at);
    }
}

// In an event's field the rank stands behind the header, then who may send, where its length is that of both.
const SENDERS: usize = sizes::HEADER + places::SENDERS;

const BOTH: u8 = sizes::PAIR as u8;

// Who may send, where the event's field at the place says it.
fn put_senders(s: &[u8], at: usize, pen: &mut Pen)
    requires { (at ≤ length s.now) × (pen.old.at ≤ pen_limit) }
    ensures { TokensPut pen.old pen.new (sender_tokens (drop at s.now)) }
{
    if byte_from(s, at, places::LOW_LENGTH) == BOTH {
        write(pen, Sign(signs::FROM));
        put_rights(pen, byte_from(s, at, SENDERS));
    }
}

// Event i, whose field stands at the place.
fn put_signal(s: &[u8], at: usize, i: usize, pen: &mut Pen)
    requires { (at ≤ length s.now) × (i < byte_values) × (pen.old.at ≤ pen_limit) }
    ensures { TokensPut pen.old pen.new (signal_tokens i (drop at s.now)) }
{
    let rank = byte_from(s, at, sizes::HEADER) as u64;
    write_named(pen, signs::EVENT, EVENT, i);
    write(pen, Sign(signs::RANK));
    write(pen, Number(rank));
    put_senders(s, at, pen);
}

// The events, from the sheet's start on.
fn put_signals(s: &[u8], pen: &mut Pen)
    requires { pen.old.at ≤ pen_limit }
    ensures { TokensPut pen.old pen.new (signals_tokens event_limit 0 s.now) }
{
    for (i, at) in (0..limits::EVENTS).zip(field_places(s, 0)) {
        if byte_from(s, at, 0) != tags::EVENT {
            return;
        }
        put_signal(s, at, i, pen);
    }
}

// So many parameters.
fn put_parameters(pen: &mut Pen, n: usize)
    requires { (pen.old.at ≤ pen_limit) × (n ≤ byte_values) }
    ensures { TokensPut pen.old pen.new (parameter_tokens (parameters_from n 0) []) }
{
    for i in 0..n {
        write_named(pen, signs::PARAM, PARAMETER, i);
    }
}

// The whole text, of n parameters, at the buffer's start; how many bytes it has. The behaviours stand from `first` on,
// and have those first cells.
fn put_text(s: &[u8], first: usize, n: usize, heads: &[u8; BYTE], out: &mut [u8]) -> usize
    requires first_in_bounds { (first ≤ length s.now) × (n ≤ byte_values) × HeadsOf s.now first heads.now }
    requires s_value { (drop first s.now ≡ behaviours_in s.now) × (n ≡ needed_in 0 0 0 (drop first s.now)) }
    ensures text { TextPut out.old out.new result (sheet_tokens s.now) }
    ensures bound { result ≤ pen_limit }
{
    let mut pen = Pen {
        out,
        at: 0,
        last: 0,
    };
    put_parameters(&mut pen, n);
    put_signals(s, &mut pen);
    put_entries(s, first, heads, &mut pen);
    write(&mut pen, Sign(signs::END));
    pen.at
}

// The text of an accepted sheet at the buffer's start, and its length; none where the buffer has not room for it. It is
// counted first where the buffer has not room for every text.
fn put_result(sheet: &[u8], buffer: &mut [u8]) -> Option<usize>
    requires { number_on sheet.now (replicate event_limit 0) ≡ 0 }
    ensures answer { answered (text_answer result) buffer.new ≡ describe_on sheet.now buffer.old }
    ensures bound { IfSome result (λ n. n ≤ pen_limit) }
{
    let first = past_fields(sheet, 0, tags::EVENT);
    let n = needed_from(sheet, first);
    let heads = heads_from(sheet, first);
    if texts::TEXT_BYTES <= buffer.len() {
        let size = put_text(sheet, first, n, &heads, buffer);
        return Some(size);
    }
    let mut none = [0u8; 0];
    let size = put_text(sheet, first, n, &heads, &mut none);
    if buffer.len() < size {
        return None;
    }
    put_text(sheet, first, n, &heads, buffer);
    Some(size)
}

// The text that describes the sheet at the buffer's start: 2 ^ 32 and its length; or compile's number for the sheet,
// its parameters lent, or 41 where the buffer is too short for it.
pub fn describe_at(sheet: &[u8], buffer: &mut [u8]) -> u64
    ensures { answered result buffer.new ≡ describe_on sheet.now buffer.old }
{
    let lent = [0u8; limits::PARAMETER_BYTES];
    let number = back_compile::compile_number(sheet, &lent);
    if number != 0 {
        return number as u64;
    }
    match put_result(sheet, buffer) {
        Some(size) => answers::VALUE + (size as u64),
        None => faults::SHORT_BUFFER,
    }
}
