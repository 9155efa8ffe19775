// Words of four bytes and halves of two, big-endian, in a byte slice.

#![tactic(auto)]

ghost use Rattle.std.specs.Prelude.{◌≡◌, ◌+◌, ◌*◌, ◌≤◌, length};
ghost use Rattle.lib_word.specs.Word.{get_at, get, put};
ghost use Rattle.lib_word.specs.Halves.{swap_bytes, get_half, put_half};
ghost use Rattle.lib_base.specs.Words.{word_bytes};

// The bytes of a word.
pub const WORD_BYTES: usize = 4;

// How many values a byte, a half, three bytes and a word have: what a byte weighs with as many bytes after it.
pub const BYTE_VALUES: u32 = 256;

pub const HALF_VALUES: u32 = 65536;

pub const THREE_BYTE_VALUES: u32 = 16777216;

pub const WORD_VALUES: u64 = 4294967296;

// The word at byte i with its bytes swapped, as little-endian: in the order of the usual processors four bytes are one
// load. So several are judged at once, of which each would have to be turned.
pub fn get_little(bytes: &[u8], i: usize) -> u32
    requires { i + word_bytes ≤ length bytes.now }
    ensures { swap_bytes result ≡ get_at bytes.now i }
{
    u32::from_le_bytes([bytes[i], bytes[i + 1], bytes[i + 2], bytes[i + 3]])
}

// The word at byte i.
pub fn get_at(bytes: &[u8], i: usize) -> u32
    requires { i + word_bytes ≤ length bytes.now }
    ensures { result ≡ get_at bytes.now i }
{
    get_little(bytes, i).swap_bytes()
}

// Word k.
pub fn get_word(bytes: &[u8], k: usize) -> u32
    requires { k * word_bytes + word_bytes ≤ length bytes.now }
    ensures { result ≡ get bytes.now k }
{
    get_at(bytes, k * WORD_BYTES)
}

// Word k becomes w: turned, as little-endian, one store too.
pub fn put_word(bytes: &mut [u8], k: usize, w: u32)
    requires { k * word_bytes + word_bytes ≤ length bytes.old }
    ensures { bytes.new ≡ put bytes.old k w }
{
    let [first, second, third, fourth] = w.swap_bytes().to_le_bytes();
    bytes[k * WORD_BYTES] = first;
    bytes[k * WORD_BYTES + 1] = second;
    bytes[k * WORD_BYTES + 2] = third;
    bytes[k * WORD_BYTES + 3] = fourth;
}

// The half at byte i.
pub fn get_half(bytes: &[u8], i: usize) -> u16
    requires { i + 2 ≤ length bytes.now }
    ensures { result ≡ get_half bytes.now i }
{
    u16::from_be_bytes([bytes[i], bytes[i + 1]])
}

pub fn put_half(bytes: &mut [u8], i: usize, h: u16)
    requires { i + 2 ≤ length bytes.old }
    ensures { bytes.new ≡ put_half bytes.old i h }
{
    let [high, low] = h.to_be_bytes();
    bytes[i] = high;
    bytes[i + 1] = low;
}
