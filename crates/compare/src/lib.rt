// Document 02, request a: comparing two images. stays: the two images are two parameters, as the rule names them, and so are the list and the place in
// it, as `texts` has them; a struct of two would be taken apart in each function.
#![tactic(auto)]

ghost use Rattle.std.specs.Prelude.{◌≡◌, true, ◌+◌, ◌*◌, ◌/◌, ◌<◌, ◌≤◌, length};
ghost use Rattle.texts.specs.Text.{Put};
ghost use Rattle.answers.specs.Answer.{no_mailbox, packed, Fitted};
ghost use Rattle.compare.specs.Compare.{image_words, differences, entry_size, entry_bytes, list_bytes, Compares};
ghost use Rattle.compare.specs.Terms.{both_good, same_two, same_four, one_bytes, bytes_from};

use answers::{NO_MAILBOX, Refusal};
use registers::Image;

// The words that are passed over four at once; behind them are two.
const BY_FOURS: usize = 192;

// Room for any list: 12 bytes for each word.
const LONGEST: usize = 2328;

// One differing word: its number in the image, and both contents.
#[derive(Clone, Copy)]
pub struct Entry {
    pub number: u32,
    pub first: u32,
    pub second: u32,
}

// Are two words the same, from number k on?
fn same_two(first: &Image, second: &Image, k: usize) -> bool
    requires { k + 2 ≤ image_words }
    ensures { result ≡ same_two first.now second.now k }
{
    words::long_at(first, 4 * k) == words::long_at(second, 4 * k)
}

// Are four? There is no branch between the two halves.
// stays: no twin of same_two but two calls of it; a loop over pairs would be longer than its one line.
fn same_four(first: &Image, second: &Image, k: usize) -> bool
    requires { k + 4 ≤ image_words }
    ensures { result ≡ same_four first.now second.now k }
{
    same_two(first, second, k) & same_two(first, second, k + 2)
}

// The three words of an entry.
fn put_entry(list: &mut [u8], at: usize, e: Entry) -> usize
    requires { at + 12 ≤ length list.old }
    ensures { Put list.old at (entry_bytes e) list.new result }
{
    let a = texts::put_word(list, at, e.number);
    let b = texts::put_word(list, a, e.first);
    texts::put_word(list, b, e.second)
}

// The entry of word k, where it differs.
fn put_difference(first: &Image, second: &Image, k: usize, list: &mut [u8], at: usize) -> usize
    requires { (k < image_words) × (at + length (one_bytes first.now second.now k) ≤ length list.old) }
    ensures { Put list.old at (one_bytes first.now second.now k) list.new result }
{
    let x = words::word_at(first, 4 * k);
    let y = words::word_at(second, 4 * k);
    if x == y {
        return at;
    }
    let number = k as u32;
    put_entry(
        list,
        at,
        Entry {
            number,
            first: x,
            second: y,
        },
    )
}

// The entries of n words from number k on.
fn put_differences(
    first: &Image,
    second: &Image,
    k: usize,
    n: usize,
    list: &mut [u8],
    at: usize,
) -> usize
    requires { (k + n ≤ image_words) × (at + length (bytes_from first.now second.now k n) ≤ length list.old) }
    ensures { Put list.old at (bytes_from first.now second.now k n) list.new result }
{
    let mut end = at;
    for i in 0..n {
        end = put_difference(first, second, k + i, list, end);
    }
    end
}

// The list, at the front of bytes that have room for it. Of two images of one run most words are the same: four of them are
// passed over at once. The last two are the protection word and the profile.
fn put_list(first: &Image, second: &Image, list: &mut [u8]) -> usize
    requires { entry_size * length (differences first.now second.now) ≤ length list.old }
    ensures { Put list.old 0 (list_bytes (differences first.now second.now)) list.new result }
{
    let mut at: usize = 0;
    for four in 0..BY_FOURS / 4 {
        if !same_four(first, second, 4 * four) {
            at = put_differences(first, second, 4 * four, 4, list, at);
        }
    }
    put_differences(first, second, BY_FOURS, 2, list, at)
}

// The answer for a list that ends there.
fn counted(end: usize) -> u64
    requires { end ≤ entry_size * image_words }
    ensures { result ≡ packed 0 no_mailbox (end / entry_size) }
{
    answers::pack(0, NO_MAILBOX, (end / 12) as u32)
}

// The list, where it may not fit.
// stays beside explain's tell_if_they_fit: one function for both would take the writer as a closure, and its contract would say of all bytes
// with room what the writer requires, leaves and answers; that is longer than these three lines twice.
fn tell_if_it_fits(first: &Image, second: &Image, list: &mut [u8]) -> u64
    ensures { Fitted (length (differences first.now second.now)) (list_bytes (differences first.now second.now)) list.old list.new result }
{
    // stays: fixed bytes, and the end of the list in them: no heap
    let mut apart = [0u8; LONGEST];
    let end = put_list(first, second, &mut apart);
    texts::tell(list, &apart[..end], (end / 12) as u32)
}

// The list of what differs between two images. Bytes that have room for any list need none apart.
fn tell_differences(first: &Image, second: &Image, list: &mut [u8]) -> u64
    ensures { Fitted (length (differences first.now second.now)) (list_bytes (differences first.now second.now)) list.old list.new result }
{
    if list.len() < LONGEST {
        return tell_if_it_fits(first, second, list);
    }
    counted(put_list(first, second, list))
}

// Any bytes: the list of what differs, or a refusal that writes nothing.
pub fn compare(first: &[u8], second: &[u8], list: &mut [u8]) -> u64
    ensures { Compares (both_good first.now second.now ≡ true) first.now second.now list.old list.new result }
{
    let (Some(first), Some(second)) = (good::as_good_image(first), good::as_good_image(second))
    else {
        return answers::refuse(Refusal::NoModel);
    };
    tell_differences(first, second, list)
}
