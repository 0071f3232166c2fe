// A mailbox: 16 bytes of the image, four words.
#![tactic(auto)]

mod filing;
mod keys;

ghost use Rattle.std.specs.Prelude.{◌≡◌, ◌+◌, ◌*◌, ◌<◌, ◌≤◌, length};
ghost use Rattle.words.specs.Word.{put_word};
ghost use Rattle.mailboxes.specs.Mailbox.{mailbox_word, mailbox, with_mailbox, word_layout};

pub use filing::{HIGHEST_DLC, data_bytes, put_frame, put_stamp};
pub use keys::{identifier_of, key_of, word_of};

// How many identifiers there are, and how many of them an extended one tells apart with the bits that it adds.
const IDENTIFIERS: u32 = 536870912;

const EXTENSIONS: u32 = 262144;

// An identifier and an arbitration key: two numbers of 32 bits that are never one another. That an identifier is below 2^29 stays in the
// clauses that need it: the theorems of Arbitration (standard-first and the like) speak of every Identifier.
#[derive(Clone, Copy)]
pub struct Identifier(u32);

#[derive(Clone, Copy, PartialEq, Eq, PartialOrd, Ord)]
pub struct Key(pub u32);

pub const MAILBOX_BYTES: usize = 16;

// Word k of mailbox n. stays: n and k are numbers with a clause, and the length is
// one too, here and in the writers: they come out of events and counts, and `Image` is of a crate above.
pub fn word(s: &[u8], n: usize, k: usize) -> u32
    requires { (16 * n + 16 ≤ length s.now) × (n < 32) × (k < 4) }
    ensures { result ≡ mailbox_word s.now n k }
{
    words::word_at(s, MAILBOX_BYTES * n + 4 * k)
}

// Does word 0 keep to the layout?
fn identifier_layout(w: u32) -> bool
    ensures { result ≡ word_layout 0 w }
{
    bits::test(w, 31) | (w % EXTENSIONS == 0)
}

// Does word 1 keep to the layout?
fn control_layout(w: u32) -> bool
    ensures { result ≡ word_layout 1 w }
{
    w / 32 % 2048 == 0
}

// May word k of a mailbox be w? stays: k as a number, as the event brings it and the definition has it.
pub fn word_layout(k: u32, w: u32) -> bool
    ensures { result ≡ word_layout k w }
{
    match k {
        0 => identifier_layout(w),
        1 => control_layout(w),
        _ => true,
    }
}

// The small writer: word k of the 16 lent bytes.
fn write_word(m: &mut [u8], k: usize, v: u32)
    requires { (length m.old ≡ 16) × (k < 4) }
    ensures { m.new ≡ put_word m.old (4 * k) v }
{
    words::put_word(m, 4 * k, v)
}

// Word k of mailbox n: the mailbox's own part of the image is lent to the writer. stays: `put_frame` and `put_stamp` do the same, each in its three lines;
// a function that lends to a closure would promise less plainly than `with_mailbox` does.
pub fn put_word(s: &mut [u8], n: usize, k: usize, v: u32)
    requires { (16 * n + 16 ≤ length s.old) × (n < 32) × (k < 4) }
    ensures { s.new ≡ with_mailbox s.old n (put_word (mailbox s.old n) (4 * k) v) }
{
    let a = MAILBOX_BYTES * n;
    let e = a + MAILBOX_BYTES;
    write_word(&mut s[a..e], k, v)
}
