// The tokens of a text, written one after the other: what stands before each, and its bytes. A byte that is past the
// end of the buffer is counted and not written, so an empty buffer serves to count.

#![tactic(auto)]

ghost use Rattle.std.specs.Prelude.{◌≡◌, [], ◌∷◌, ◌++◌, ◌<◌, ◌≤◌, ◌+◌, length, drop};
ghost use Rattle.source_language.specs.Tokens.{number, name, sign, end_sign};
ghost use Rattle.source_rendering.specs.Describe.{digits, spell, first_byte, run_together};
ghost use Rattle.source_pen.specs.Written.{takes_equals, space_after, token_after, Penned, TokensPenned};
ghost use Rattle.source_pen.specs.Kinds.{IsSign, Writable, token_of};
ghost use Rattle.lib_base.specs.Words.{byte_values, word_values};
ghost use Rattle.source_pen.specs.Lengths.{longest_name, longest_sign, longest_token, spelling_limit, token_limit};

use lib_signature::functions;
use source_coding::signs;
use source_tokens::in_word;

// The most digits of a number below 2^32, and a letter before them.
const NAME_BYTES: usize = 11;

const TEN: u64 = 10;

// A token: a sign by its number, the end of the text among them, a number, or a name of a letter and a number.
#[derive(Clone, Copy, Drop)]
pub enum Token {
    Sign(u8),
    Number(u64),
    Name(u8, usize),
}

// Whether `=` after a byte makes one mark with it.
#[tactic(auto, using(lib_base::proofs::Pick::branches), unfolding(crate::specs::Written::takes_equals))]
fn takes_equals(a: u8) -> bool
    ensures { result ≡ takes_equals a }
{
    matches!(a, b'=' | b'<' | b'>' | b'!')
}

// Whether two bytes would be read as one token, or as part of one.
fn runs_together(a: u8, b: u8) -> bool
    ensures { result ≡ run_together a b }
{
    if in_word(a) {
        return in_word(b);
    }
    if takes_equals(a) {
        return b == b'=';
    }
    if a == b'|' || a == b'&' {
        return b == a;
    }
    false
}

// The bytes of a sign: an operator or `if`, or a mark or a word of the text's own; none of the end of the text.
#[inline(always)]
#[tactic(auto, unfolding(source_rendering::specs::Describe::spelled_as, source_language::specs::Tokens::marks, source_language::specs::Tokens::reserved))]
fn spelling(c: u8) -> &'static [u8]
    requires { IsSign c }
    ensures bytes { result.now ≡ spell (sign 0 c) }
    ensures short { length result.now ≤ longest_sign }
    ensures some { c < end_sign → 0 < length result.now }
{
    match c {
        functions::OR => b"||",
        functions::AND => b"&&",
        functions::NOT => b"!",
        functions::ADD => b"+",
        functions::SUBTRACT => b"-",
        functions::MULTIPLY => b"*",
        functions::DIVIDE => b"/",
        functions::ABOVE => b">",
        functions::AT_LEAST => b">=",
        functions::BELOW => b"<",
        functions::AT_MOST => b"<=",
        functions::EQUAL => b"==",
        functions::UNEQUAL => b"!=",
        functions::IF => b"if",
        signs::OPENING => b"(",
        signs::CLOSING => b")",
        signs::COMMA => b",",
        signs::COLON => b":",
        signs::EQUALS => b"=",
        signs::BRACKET => b"[",
        signs::UNBRACKET => b"]",
        signs::RANK => b"rank",
        signs::FROM => b"from",
        signs::BY => b"by",
        signs::NOBODY => b"nobody",
        signs::LATER => b"later",
        signs::SEEN => b"seen",
        signs::ON => b"on",
        signs::PARAM => b"param",
        signs::EVENT => b"event",
        signs::PASSIVE => b"passive",
        signs::ACTIVE => b"active",
        signs::ROW => b"row",
        _ => b"",
    }
}

// The digits of a number, at the end of a buffer; where they begin.
fn put_digits(n: u64, text: &mut [u8; NAME_BYTES]) -> usize
    requires { n < word_values }
    ensures digits { drop result text.new ≡ digits n }
    ensures room { (0 < result) × (result < longest_name) }
{
    let mut i = NAME_BYTES - 1;
    let mut m = n;
    while TEN <= m {
        text[i] = b'0' + ((m % TEN) as u8);
        i -= 1;
        m /= TEN;
    }
    text[i] = b'0' + (m as u8);
    i
}

// The text's buffer, how many bytes are written, and the last of them, 0 at the start.
#[derive(Drop)]
pub struct Pen<'a> {
    pub out: &'a mut [u8],
    pub at: usize,
    pub last: u8,
}

impl<'a> Pen<'a> {
    // One byte: the only place that writes.
    #[inline(always)]
    fn byte(&mut self, b: u8)
        requires { self.old.at ≤ token_limit }
        ensures { Penned self.old self.new (b ∷ []) }
    {
        if self.at < self.out.len() {
            self.out[self.at] = b;
        }
        self.at += 1;
        self.last = b;
    }

    // Bytes in a row.
    #[inline(always)]
    fn bytes(&mut self, text: &[u8])
        requires { (self.old.at ≤ spelling_limit) × (length text.now ≤ longest_name) }
        ensures { Penned self.old self.new text.now }
    {
        for &b in text {
            self.byte(b);
        }
    }

    // A token's bytes, after a space where its first would run into the last that is written.
    #[inline(always)]
    fn apart(&mut self, text: &[u8])
        requires { (self.old.at ≤ word_values) × (0 < length text.now) × (length text.now ≤ longest_name) }
        ensures bytes { Penned self.old self.new (space_after self.old.last (first_byte text.now) ++ text.now) }
        ensures bound { self.new.at ≤ self.old.at + longest_token }
    {
        if runs_together(self.last, text[0]) {
            self.byte(b' ');
        }
        self.bytes(text);
    }

    // A sign after what stands before it: declarations begin a line, handlers one below theirs, two spaces in.
    #[inline(always)]
    fn put_sign(&mut self, c: u8)
        requires { (self.old.at ≤ word_values) × IsSign c }
        ensures bytes { Penned self.old self.new (token_after self.old.last (sign 0 c)) }
        ensures bound { self.new.at ≤ self.old.at + longest_token }
    {
        let text = spelling(c);
        if self.last == 0 {
            self.bytes(text);
        } else if signs::PARAM <= c {
            self.byte(b'\n');
            self.bytes(text);
        } else if c == signs::ON {
            self.bytes(b"\n  ");
            self.bytes(text);
        } else {
            self.apart(text);
        }
    }

    // A number in decimal digits.
    fn put_number(&mut self, n: u64)
        requires { (self.old.at ≤ word_values) × (n < word_values) }
        ensures bytes { Penned self.old self.new (token_after self.old.last (number 0 n)) }
        ensures bound { self.new.at ≤ self.old.at + longest_token }
    {
        let mut text = [0u8; NAME_BYTES];
        let i = put_digits(n, &mut text);
        self.apart(&text[i..]);
    }

    // A name: a letter and the digits of i.
    fn put_name(&mut self, letter: u8, i: usize)
        requires { (self.old.at ≤ word_values) × (i < byte_values) }
        ensures bytes { Penned self.old self.new (token_after self.old.last (name 0 (letter ∷ digits i))) }
        ensures bound { self.new.at ≤ self.old.at + longest_token }
    {
        let mut text = [0u8; NAME_BYTES];
        let first = put_digits(i as u64, &mut text) - 1;
        text[first] = letter;
        self.apart(&text[first..]);
    }

    // A token.
    #[inline(always)]
    pub fn put(&mut self, token: Token)
        requires { (self.old.at ≤ word_values) × Writable token }
        ensures tokens { TokensPenned self.old self.new (token_of token ∷ []) }
        ensures bound { self.new.at ≤ self.old.at + longest_token }
    {
        match token {
            Token::Sign(c) => self.put_sign(c),
            Token::Number(n) => self.put_number(n),
            Token::Name(letter, i) => self.put_name(letter, i),
        }
    }
}
