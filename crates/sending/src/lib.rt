// The choice of what to send.
#![tactic(auto)]

ghost use Rattle.std.specs.Prelude.{◌≡◌, ◌<◌};
ghost use Rattle.bits.specs.Bit.{bit};
ghost use Rattle.bits.specs.Below.{first_below};
ghost use Rattle.sending.specs.Choice.{key_at, smallest_below, better_of, named as named_of, next as next_of};

use mailboxes::Key;
use registers::{Image, Loaded};

// The mailbox of a number, or none from 32 on.
fn named(n: u32) -> Option<u32>
    ensures { result ≡ named_of n }
{
    (n < 32).then_some(n)
}

// The lowest mailbox that a word names, by the count of the zeros below its bit. The empty word has 32, which names none: it has no case
// of its own.
pub fn lowest(w: u32) -> Option<u32>
    ensures { result ≡ named_of (first_below (bit w) 32) }
{
    named(w.trailing_zeros())
}

// The arbitration key of mailbox n.
#[tactic(auto, unfolding(crate::specs::Choice::key_at))]
fn key_at(s: &Image, n: u32) -> Key
    requires { n < 32 }
    ensures { result ≡ key_at s.now n }
{
    let w = mailboxes::word(s, n as usize, 0);
    let control = mailboxes::word(s, n as usize, 1);
    mailboxes::key_of(
        mailboxes::identifier_of(w),
        bits::test(w, 31),
        bits::test(control, 4),
    )
}

// A mailbox and its key.
#[derive(Clone, Copy)]
pub struct Best {
    pub mailbox: u32,
    pub key: Key,
}

// The better of the best mailbox so far, if there is one, and mailbox n.
fn better(best: Option<Best>, n: u32, key: Key) -> Best
    ensures { result ≡ better_of best n key }
{
    let new = Best { mailbox: n, key };
    match best {
        Some(old) => if key < old.key { new } else { old },
        None => new,
    }
}

// The mailbox with the smallest key among those that a word names. It goes from one that is named to the next: `rest` has those
// that are not yet looked at. Stays a loop: it counts no index, and looks at no mailbox that is not named.
pub fn smallest(s: &Image, w: u32) -> Option<u32>
    ensures { result ≡ named_of (smallest_below s.now w 32) }
{
    let mut best: Option<Best> = None;
    let mut rest = w;
    while let Some(n) = lowest(rest) {
        best = Some(better(best, n, key_at(s, n)));
        rest = bits::without(rest, bits::mask(n));
    }
    best.map(|b| b.mailbox)
}

// What a start takes.
#[tactic(auto, unfolding(crate::specs::Choice::next, crate::specs::Choice::chosen))]
pub fn next(m: Loaded) -> Option<u32>
    ensures { result ≡ named_of (next_of m.entry.image.now) }
{
    let b = m.block;
    if !b.is_on_bus() {
        return None;
    }
    if bits::test(b.options, 0) {
        smallest(m.image, b.eligible())
    } else {
        lowest(b.eligible())
    }
}
