// What is put into lent bytes, from a place on; each function answers the place behind what it wrote.
#![tactic(auto)]

ghost use Rattle.std.specs.Prelude.{◌≡◌, [], ◌∷◌, ◌+◌, ◌/◌, ◌%◌, ◌<◌, ◌≤◌, length};
ghost use Rattle.answers.specs.Answer.{Fitted};
ghost use Rattle.texts.specs.Text.{Put, word_bytes, decimal, field};

use answers::{NO_MAILBOX, Refusal};

// stays: bytes and place are two arguments; as fields of a writer each promise would name both of them, before and after, just the same.

// One byte.
fn put(out: &mut [u8], at: usize, x: u8) -> usize
    requires { at < length out.old }
    ensures { Put out.old at (x ∷ []) out.new result }
{
    out[at] = x;
    at + 1
}

// Given bytes.
pub fn put_text(out: &mut [u8], at: usize, text: &[u8]) -> usize
    requires { at + length text.now ≤ length out.old }
    ensures { Put out.old at text.now out.new result }
{
    let end = at + text.len();
    out[at..end].copy_from_slice(text);
    end
}

// A word, its low byte first.
pub fn put_word(out: &mut [u8], at: usize, v: u32) -> usize
    requires { at + 4 ≤ length out.old }
    ensures { Put out.old at (word_bytes v) out.new result }
{
    words::put_word(out, at, v);
    at + 4
}

// The last decimal digit of n. stays: numbers are written by hand and not by `Display`, into lent bytes, without a heap, and promised byte by byte; and
// these are no twins, since each promises other digits, or for other numbers.
fn put_digit(out: &mut [u8], at: usize, n: u64) -> usize
    requires { at < length out.old }
    ensures { Put out.old at ((48 + n % 10) ∷ []) out.new result }
{
    put(out, at, 48 + (n % 10) as u8)
}

// Its last two.
fn put_two(out: &mut [u8], at: usize, n: u64) -> usize
    requires { at + 2 ≤ length out.old }
    ensures { Put out.old at ((48 + n / 10 % 10) ∷ (48 + n % 10) ∷ []) out.new result }
{
    let last = put_digit(out, at, n / 10);
    put_digit(out, last, n)
}

// A number of one digit or two.
fn put_short(out: &mut [u8], at: usize, n: u64) -> usize
    requires { (n < 100) × (at + length (decimal n) ≤ length out.old) }
    ensures { Put out.old at (decimal n) out.new result }
{
    if n < 10 {
        return put_digit(out, at, n);
    }
    put_two(out, at, n)
}

// A number of any length: the last digit stands behind those of a tenth of it. stays a recursion, as `decimal` is one: the first digit is known last.
fn put_long(out: &mut [u8], at: usize, n: u64) -> usize
    requires { at + length (decimal n) ≤ length out.old }
    ensures { Put out.old at (decimal n) out.new result }
{
    if n < 10 {
        return put_digit(out, at, n);
    }
    let last = put_long(out, at, n / 10);
    put_digit(out, last, n)
}

// A number in decimal digits. Most have four at most, and are written without a function that calls itself: the compiler makes no such
// function part of its caller.
fn put_number(out: &mut [u8], at: usize, n: u64) -> usize
    requires { at + length (decimal n) ≤ length out.old }
    ensures { Put out.old at (decimal n) out.new result }
{
    if n < 100 {
        return put_short(out, at, n);
    }
    if n < 10000 {
        let first = put_short(out, at, n / 100);
        return put_two(out, first, n);
    }
    put_long(out, at, n)
}

// A number and the byte that ends it.
pub fn put_field(out: &mut [u8], at: usize, n: u64, end: u8) -> usize
    requires { at + length (field n end) ≤ length out.old }
    ensures { Put out.old at (field n end) out.new result }
{
    let last = put_number(out, at, n);
    put(out, last, end)
}

// Document 02: a list that was made apart from the lent bytes, since a refusal writes nothing, goes to their front where it fits. The
// answer of the whole call.
pub fn tell(out: &mut [u8], list: &[u8], count: u32) -> u64
    ensures { Fitted count list.now out.old out.new result }
{
    if out.len() < list.len() {
        return answers::refuse(Refusal::NoRoom);
    }
    put_text(out, 0, list);
    answers::pack(0, NO_MAILBOX, count)
}
