// Little-endian words in lent bytes.
#![tactic(auto)]

ghost use Rattle.std.specs.Prelude.{◌≡◌, ◌+◌, ◌*◌, ◌<◌, ◌≤◌, length, get_or};
ghost use Rattle.words.specs.Word.{word_at, put_word, long_at, put_long, words_of, put_words};

// The byte at `at`, as a number of 32 bits.
pub fn byte_at(s: &[u8], at: usize) -> u32
    requires { at < length s.now }
    ensures { result ≡ get_or s.now at 0 }
{
    u32::from(s[at])
}

// The word whose lowest byte is at `at`.
pub fn word_at(s: &[u8], at: usize) -> u32
    requires { at + 4 ≤ length s.now }
    ensures { result ≡ word_at s.now at }
{
    u32::from_le_bytes([s[at], s[at + 1], s[at + 2], s[at + 3]])
}

// The word v, put at `at`.
pub fn put_word(s: &mut [u8], at: usize, v: u32)
    requires { at + 4 ≤ length s.old }
    ensures { s.new ≡ put_word s.old at v }
{
    s[at..at + 4].copy_from_slice(&v.to_le_bytes());
}

// Two words in a row as one number, the first lowest. stays by two words, as the definition says it; the compiler makes one load of it.
pub fn long_at(s: &[u8], at: usize) -> u64
    requires { at + 8 ≤ length s.now }
    ensures { result ≡ long_at s.now at }
{
    u64::from(word_at(s, at)) + 4294967296 * u64::from(word_at(s, at + 4))
}

// A number put as two words in a row, the lower one first.
pub fn put_long(s: &mut [u8], at: usize, v: u64)
    requires { at + 8 ≤ length s.old }
    ensures { s.new ≡ put_long s.old at v }
{
    put_word(s, at, (v % 4294967296) as u32);
    put_word(s, at + 4, (v / 4294967296) as u32);
}

// N words in a row, the first at `at`.
pub fn load_words<const N: usize>(s: &[u8], at: usize) -> [u32; N]
    requires { at + 4 * N ≤ length s.now }
    ensures { result ≡ words_of s.now at N }
{
    let mut row = [0u32; N];
    for (i, word) in row.iter_mut().enumerate() {
        *word = word_at(s, at + 4 * i);
    }
    row
}

// N words in a row, put from `at` on.
pub fn put_words<const N: usize>(s: &mut [u8], at: usize, row: [u32; N])
    requires { at + 4 * N ≤ length s.old }
    ensures { s.new ≡ put_words s.old at row.entry }
{
    for (i, word) in row.iter().enumerate() {
        put_word(s, at + 4 * i, *word);
    }
}
