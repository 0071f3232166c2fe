// Refusals 5, 6 and 7, once the image is good and the event is decoded.
#![tactic(auto)]

ghost use Rattle.std.specs.Prelude.{◌≡◌, [], ◌∷◌, ◌<◌, cond};
ghost use Rattle.answers.specs.Refusals.{number_of};
ghost use Rattle.bits.specs.Tests.{first_from};
ghost use Rattle.mailboxes.specs.Mailbox.{mailbox_word};
ghost use Rattle.refusals.specs.Refusal.{meet as meet_of, turned_round, register_busy, mailbox_busy, foreign, register_locked, data_locked, mailbox_locked, timed, mode_open, remaining, Fitting};

use answers::Refusal;
use events::Event;
use registers::{Block, CONFIGURATION, Loaded, NORMAL};

// Do two flag words share a mailbox?
fn meet(a: u32, b: u32) -> bool
    ensures { result ≡ meet_of a b }
{
    a & b != 0
}

// The mailboxes whose direction an MD write changes.
fn turned_round(b: Block, v: u32) -> u32
    ensures { result ≡ turned_round b v }
{
    b.direction(v) ^ b.md
}

// stays: registers and modes as numbers, here and below, as the definitions have them
fn is_register_busy(b: Block, t: u32, v: u32) -> bool
    ensures { result ≡ register_busy b t v }
{
    match t {
        0 => meet(b.trs, bits::without(b.mc, v)),
        1 => meet(b.trs, turned_round(b, v)),
        _ => false,
    }
}

// Is register t one of the other profile's?
fn is_foreign(b: Block, t: u32) -> bool
    ensures { result ≡ foreign b t }
{
    if b.is_ecan() {
        (t == 8) | (t == 9)
    } else {
        64 <= t
    }
}

fn is_register_locked(b: Block, t: u32, v: u32) -> bool
    ensures { result ≡ register_locked b t v }
{
    if t == 1 {
        return meet(b.mc, turned_round(b, v));
    }
    (((t == 17) | (t == 18)) & (b.mode != CONFIGURATION)) | is_foreign(b, t)
}

// stays: a number with `n < 32`, here and below; a struct for it would be taken apart again at each `bits::test`
fn is_mailbox_busy(b: Block, n: u32) -> bool
    requires { n < 32 }
    ensures { result ≡ mailbox_busy b n }
{
    (!b.is_vacant() & (n == b.slot)) | (bits::test(b.trs, n) & !bits::test(b.cdr, n))
}

fn is_data_locked(b: Block, n: u32, w: u32) -> bool
    requires { n < 32 }
    ensures { result ≡ data_locked b n w }
{
    bits::test(b.md, n) | (bits::test(w, 29) & !bits::test(b.cdr, n))
}

fn is_mailbox_locked(b: Block, n: u32, k: u32, w: u32) -> bool
    requires { n < 32 }
    ensures { result ≡ mailbox_locked b n k w }
{
    bits::test(b.mc, n) & ((k == 0) | ((2 <= k) & is_data_locked(b, n, w)))
}

// May configuration be left?
fn is_timed(b: Block) -> bool
    ensures { result ≡ timed b }
{
    let tseg1 = b.bcr2 % 16;
    let tseg2 = b.bcr2 / 16 % 8;
    let sjw = b.bcr2 / 256 % 4;
    (tseg1 != 0) & (tseg2 != 0) & (sjw <= tseg2)
}

// May mode m be asked for?
fn is_mode_open(b: Block, m: u32) -> bool
    ensures { result ≡ mode_open b m }
{
    (m == b.mode)
        | ((b.mode == NORMAL) | ((m == NORMAL) & ((b.mode != CONFIGURATION) | is_timed(b))))
}

// The number of a refusal, where there is one, or 0.
// stays: a number, and not an Option, here and in the two below: it goes on into what `remaining_refusal` gives, or 0
fn number_if(refused: bool, why: Refusal) -> u32
    ensures { result ≡ cond refused (number_of why) 0 }
{
    bits::choose(refused, why.number(), 0)
}

// Refusal 5 or 6, or 0.
fn first(busy: bool, locked: bool) -> u32
    ensures { result ≡ first_from 5 (busy ∷ locked ∷ []) }
{
    bits::choose(
        busy,
        Refusal::Busy.number(),
        number_if(locked, Refusal::Locked),
    )
}

fn mailbox_refusal(m: Loaded, n: u32, k: u32) -> u32
    requires { n < 32 }
    ensures { result ≡ first_from 5 (mailbox_busy m.entry.block n ∷ mailbox_locked m.entry.block n k (mailbox_word m.entry.image.now n 0) ∷ []) }
{
    let image = m.image;
    let w = mailboxes::word(image, n as usize, 0);
    first(
        is_mailbox_busy(m.block, n),
        is_mailbox_locked(m.block, n, k, w),
    )
}

// The refusal of a decoded event, 0 where it is accepted.
// stays: a number, and not a Result, since it hands on any number that `Event::Refused` has
#[tactic(auto, unfolding(crate::specs::Refusal::remaining))]
pub fn remaining_refusal(m: Loaded, e: Event) -> u32
    requires { Fitting e }
    ensures { result ≡ remaining m.entry.image.now e }
{
    let b = m.block;
    match e {
        Event::Refused { number } => number,
        Event::Register { target, value } => first(
            is_register_busy(b, target, value),
            is_register_locked(b, target, value),
        ),
        Event::Mailbox { target, word, .. } => mailbox_refusal(m, target, word),
        Event::Heard { .. } | Event::Start | Event::ReceiveError { .. } => number_if(
            !b.is_vacant(),
            Refusal::Busy,
        ),
        Event::Outcome { .. } => number_if(b.is_vacant(), Refusal::Pointless),
        Event::Mode { value } => number_if(!is_mode_open(b, value), Refusal::Locked),
        Event::Recessive | Event::Tick | Event::Options { .. } | Event::Reset => 0,
    }
}
