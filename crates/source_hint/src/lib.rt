// The names that a text seems to declare, by a look at the words that declare. This is a hint: nothing is promised
// but that it can be used, and who uses it goes by what the whole text turns out to declare.

#![tactic(auto)]

ghost use Rattle.std.specs.Prelude.{true, IfSome, ◌≡◌, ◌≤◌, ◌<◌, ◌+◌, length};
ghost use Rattle.lib_base.specs.Basics.{All};
ghost use Rattle.source_hint.specs.Hint.{SeenWithin, HintUsable, HintRight};
ghost use Rattle.source_coding.specs.Bounds.{first_cells, name_limit, text_bytes};
ghost use Rattle.source_hint.specs.Block.{block_bytes};
ghost use Rattle.spec_language.specs.Limits.{behaviour_limit, most_cells};

use source_coding::{limits as texts, signs};
use source_tokens::{Token, in_word, token_at};
use spec_language::limits;
use text_marks::byte_at;

// So many bytes are looked at together.
const BLOCK: usize = 16;

// What begins a comment.
const COMMENT: u8 = b'#';

// How many cells a row has at most.
const MOST_CELLS: u64 = limits::MOST_CELLS as u64;

// A declaration: the place of its name, its cells, none for a parameter, and the place behind it.
#[derive(Clone, Copy, Drop)]
struct Declaration {
    place: usize,
    cells: usize,
    next: usize,
}

// How many parameters, and how many names with these.
#[derive(Drop)]
pub struct Hint {
    pub params: usize,
    pub count: usize,
}

// A comment, or one of `param`, `passive`, `active` and `row`, may begin with this byte.
fn is_sought(b: u8) -> bool {
    (b == COMMENT) | (b == b'p') | (b == b'a') | (b == b'r')
}

// One of these words may begin with these bytes.
fn may_declare(b: u8, c: u8) -> bool {
    matches!((b, c), (b'p', b'a') | (b'a', b'c') | (b'r', b'o'))
}

// Nothing is sought in a block. All bytes are looked at, so that they can be at once.
fn is_idle(text: &[u8], at: usize) -> bool
    requires { at + block_bytes < length text.now }
{
    let mut sought = false;
    for k in 0..BLOCK {
        sought |= is_sought(text[at + k]);
    }
    !sought
}

// Where a block begins, the first one from there on that has something to look at.
fn pass_idle(text: &[u8], at: usize) -> usize
    requires text_len_bound { length text.now ≤ text_bytes }
    requires at_in_bounds { at < length text.now }
    ensures { (at ≤ result) × (result < length text.now) }
{
    if at % BLOCK != 0 {
        return at;
    }
    let mut i = at;
    while i + BLOCK < text.len() {
        if !is_idle(text, i) {
            return i;
        }
        i += BLOCK;
    }
    i
}

// The letter at a place continues a word: digits before it are of that word, where a letter is before them.
fn is_inside(text: &[u8], at: usize) -> bool
    requires { at ≤ length text.now }
{
    for &b in text[..at].iter().rev() {
        if !in_word(b) {
            return false;
        }
        if b'9' < b {
            return true;
        }
    }
    false
}

// A word that declares a name begins at a place.
fn is_declaring(text: &[u8], at: usize) -> bool
    requires text_len_bound { length text.now ≤ text_bytes }
    requires at_in_bounds { at < length text.now }
{
    if !may_declare(text[at], byte_at(text, at + 1)) {
        return false;
    }
    if is_inside(text, at) {
        return false;
    }
    matches!(
        token_at(text, at),
        Token::Sign(_, signs::PARAM | signs::PASSIVE..=signs::ROW, _)
    )
}

// The next place to look at: a comment is passed over.
fn next_place(text: &[u8], at: usize) -> usize
    requires text_len_bound { length text.now ≤ text_bytes }
    requires at_in_bounds { at < length text.now }
    ensures { (at < result) × (result ≤ length text.now) }
{
    if text[at] == COMMENT {
        return source_tokens::pass_over(text, at);
    }
    at + 1
}

// The next place where a word begins that declares, outside of comments; else the text's end.
fn next_declaring(text: &[u8], at: usize) -> usize
    requires text_len_bound { length text.now ≤ text_bytes }
    requires at_in_bounds { at ≤ length text.now }
    ensures { result ≤ length text.now }
{
    let mut i = at;
    while i < text.len() {
        let k = pass_idle(text, i);
        if is_declaring(text, k) {
            return k;
        }
        i = next_place(text, k);
    }
    i
}

// The cells of a row, whose count stands after `[`.
fn row_cells(text: &[u8], at: usize) -> Option<usize>
    requires text_len_bound { length text.now ≤ text_bytes }
    requires at_in_bounds { at ≤ length text.now }
    ensures { IfSome result (λ n. n ≤ most_cells) }
{
    let opened = source_due::sign_due(text, at, signs::BRACKET).ok()?;
    let counted = source_due::number_due(text, opened.next, MOST_CELLS).ok()?;
    Some(counted.number as usize)
}

// The cells of a row from `[` on; 1 for another behaviour, none for a parameter or where no count stands.
fn hinted_cells(text: &[u8], at: usize, word: u8) -> usize
    requires text_len_bound { length text.now ≤ text_bytes }
    requires at_in_bounds { at ≤ length text.now }
    ensures { result ≤ most_cells }
{
    match word {
        signs::PARAM => 0,
        signs::ROW => row_cells(text, at).unwrap_or(0),
        _ => 1,
    }
}

// The declaration whose word begins at a place.
fn declared_at(text: &[u8], at: usize) -> Option<Declaration>
    requires text_len_bound { length text.now ≤ text_bytes }
    requires at_in_bounds { at ≤ length text.now }
    ensures { SeenWithin (length text.now) result }
{
    let Token::Sign(_, word, next) = token_at(text, at) else {
        return None;
    };
    let name = source_due::name_due(text, next).ok()?;
    Some(Declaration {
        place: name.place,
        cells: hinted_cells(text, name.next, word),
        next: name.next,
    })
}

// The places of the names that a text seems to declare, and the numbers of the behaviours' first cells; as far as there
// may be so many.
pub fn hint_of(text: &[u8], names: &mut [usize], starts: &mut [usize]) -> Hint
    requires text_len_bound { length text.now ≤ text_bytes }
    requires names_len { length names.old ≡ name_limit }
    requires starts_len { (length starts.old ≡ first_cells) × All (λ i. i ≤ behaviour_limit) starts.old }
    ensures hint_usable { HintUsable result starts.new }
    ensures names_len_2 { length names.new ≡ name_limit }
{
    let mut hint = Hint {
        params: 0,
        count: 0,
    };
    let mut cells = 0;
    let mut at = 0;
    for i in 0..texts::NAMES {
        let Some(seen) = declared_at(text, next_declaring(text, at)) else {
            break;
        };
        // a parameter has no cells
        let params = hint.params + usize::from(seen.cells == 0);
        cells += seen.cells;
        if limits::PARAMETERS < params || limits::BEHAVIOURS < cells {
            break;
        }
        hint = Hint {
            params,
            count: i + 1,
        };
        names[i] = seen.place;
        starts[hint.count - params] = cells;
        at = seen.next;
    }
    hint
}

// A hint's names, parameters and first cells are those that a text declares.
pub fn is_right(
    names: &[usize],
    params: usize,
    firsts: &[usize],
    declared: &[usize],
    parameters: usize,
    starts: &[usize],
) -> bool
    ensures { result ≡ true → HintRight names.now params firsts.now declared.now parameters starts.now }
{
    params == parameters && names == declared && firsts == starts
}
