// Filtering: which mailbox a frame goes to.
#![tactic(auto)]

ghost use Rattle.std.specs.Prelude.{◌≡◌, false, cond, ℕ, ◌<◌};
ghost use Rattle.registers.specs.Block.{mask_word};
ghost use Rattle.bits.specs.Bit.{bit};
ghost use Rattle.registers.specs.Status.{ecan};
ghost use Rattle.filter.specs.Filter.{candidates as candidates_of, compared as compared_of, frame_word, last_mailbox, seat as seat_of, differing as differing_of, agreeing, guarded as guarded_of, hits_at, compared_at, compared_before, found, placed, delivery};
ghost use Rattle.filter.specs.Parts.{Turned, takes_by};

use events::Frame;
use registers::{Block, Image, Loaded};

// What the search finds. Stays an enum of its own: document 01 has number and count, or none behind the last, and
// definitions and theorems name these cases.
#[derive(Clone, Copy)]
pub enum Found {
    At { mailbox: u32, count: u32 },
    Missing { count: u32 },
}

// Where the frame goes. Stays an enum of its own: three cases, of which two name a mailbox.
#[derive(Clone, Copy)]
pub enum Delivery {
    Into { mailbox: u32, count: u32 },
    Reply { mailbox: u32, count: u32 },
    Nowhere { count: u32 },
}

// The mailboxes that the frame is compared with.
#[tactic(auto, unfolding(crate::specs::Filter::candidates))]
fn candidates(b: Block, f: Frame) -> u32
    ensures { result ≡ candidates_of b f }
{
    bits::choose(f.rtr, b.mc, b.mc & b.md)
}

// The bits of word 0 that are compared.
fn compared(f: Frame) -> u32
    ensures { result ≡ compared_of f }
{
    bits::choose(f.ide, 0x9FFF_FFFF, 0x9FFC_0000)
}

// IDE and identifier of the frame, as in word 0. That the identifier has 29 bits stays a clause, here and below: the definition `frame_of` makes a
// `Frame` of any 16 bytes, and theorems speak of every one; with the bound in the type each would have to carry a proof of it.
fn frame_word(f: Frame) -> u32
    requires { f.id.0 < 536870912 }
    ensures { result ≡ frame_word f }
{
    mailboxes::word_of(f.id, f.ide)
}

// The compared bits in which word 0, w, differs from the frame, but those that the mask frees.
pub fn differing(mask: u32, f: Frame, w: u32) -> u32
    requires { f.id.0 < 536870912 }
    ensures { result ≡ differing_of mask f w }
{
    let differ = (w ^ frame_word(f)) & compared(f);
    bits::without(differ, bits::choose(bits::test(w, 30), mask, 0))
}

// Does word 0, w, agree with the frame?
fn agrees(mask: u32, f: Frame, w: u32) -> bool
    requires { f.id.0 < 536870912 }
    ensures { result ≡ agreeing mask f w }
{
    differing(mask, f, w) == 0
}

// The mailbox at place k of the search.
#[tactic(auto, unfolding(crate::specs::Filter::seat))]
pub fn seat(b: Block, k: u32) -> u32
    requires { k < 32 }
    ensures { result ≡ seat_of b k }
{
    bits::choose(b.is_ecan(), 31 - k, k)
}

// The mask of mailbox n, where `own` is that of a CAN-B. Image and block stay two parameters: the promise is for any
// block.
pub fn mask_at(s: &Image, b: Block, own: u32, n: u32) -> u32
    requires { n < 32 }
    ensures { result ≡ cond (ecan b) (mask_word s.now n) own }
{
    if b.is_ecan() {
        return words::word_at(s, registers::MASKS_AT + 4 * (n as usize));
    }
    own
}

// The mailboxes that pass a matching frame over.
#[tactic(auto, unfolding(crate::specs::Filter::guarded))]
pub fn guarded(b: Block) -> u32
    ensures { result ≡ guarded_of b }
{
    bits::choose(b.is_ecan(), b.protection & b.rmp & b.md, 0)
}

// Does the mailbox at place k take the frame, where `own` is its mask in a CAN-B?
#[tactic(auto, using(crate::proofs::Search::seat_lt), unfolding(crate::specs::Parts::takes_by))]
fn takes(m: Loaded, f: Frame, own: u32, k: u32) -> bool
    requires { (f.id.0 < 536870912) × (k < 32) }
    ensures { result ≡ takes_by m.entry.image.now m.entry.block f own k }
{
    let s = m.image;
    let b = m.block;
    let n = seat(b, k);
    agrees(mask_at(s, b, own, n), f, mailboxes::word(s, n as usize, 0)) & !bits::test(guarded(b), n)
}

// A flag word with the mailbox at place k in bit k.
#[tactic(auto, using(crate::proofs::Turning::turns_all, crate::proofs::Search::seat_down), unfolding(crate::specs::Filter::seat))]
fn turned(b: Block, w: u32) -> u32
    ensures { Turned b w result }
{
    if b.is_ecan() {
        return w.reverse_bits();
    }
    w
}

// The last place, whose mailbox has a mask of its own in a CAN-B too, once those before it do not take the frame.
fn last(m: Loaded, f: Frame, pool: u32, count: u32) -> Found
    requires { (f.id.0 < 536870912) × ((k : ℕ) → k < 32 → bit pool k ≡ compared_at m.image.now f k) × (count ≡ compared_before m.image.now f last_mailbox) × ((j : ℕ) → j < last_mailbox → hits_at m.image.now f j ≡ false) }
    ensures { result ≡ found m.entry.image.now f }
{
    let b = m.block;
    if pool < 0x8000_0000 {
        return Found::Missing { count };
    }
    if takes(m, f, b.lam, 31) {
        return Found::At {
            mailbox: seat(b, 31),
            count: count + 1,
        };
    }
    Found::Missing { count: count + 1 }
}

// The search, place by place, two a turn: it stops at the first mailbox that takes the frame. `rest` has the candidates from
// place k on but the last one, that of place k lowest. Stays a loop: document 01 wants the number and the count as what the loop
// yields, and two a turn is for speed.
pub fn find(m: Loaded, f: Frame) -> Found
    requires { f.id.0 < 536870912 }
    ensures { result ≡ found m.entry.image.now f }
{
    let b = m.block;
    let pool = turned(b, candidates(b, f));
    let mut rest = pool % 0x8000_0000;
    let mut k: u32 = 0;
    let mut count: u32 = 0;
    loop {
        if rest == 0 {
            break last(m, f, pool, count);
        }
        if rest % 2 == 1 {
            count += 1;
            if takes(m, f, b.gam, k) {
                break Found::At {
                    mailbox: seat(b, k),
                    count,
                };
            }
        }
        if rest / 2 % 2 == 1 {
            count += 1;
            if takes(m, f, b.gam, k + 1) {
                break Found::At {
                    mailbox: seat(b, k + 1),
                    count,
                };
            }
        }
        rest = rest / 4;
        k += 2;
    }
}

// What mailbox n, which matched, does with the frame.
#[tactic(auto, unfolding(crate::specs::Filter::placed))]
fn place_at(m: Loaded, n: u32, count: u32) -> Delivery
    requires { n < 32 }
    ensures { result ≡ placed m.entry.image.now (Found.At n count) }
{
    if bits::test(m.block.md, n) {
        return Delivery::Into { mailbox: n, count };
    }
    let s = m.image;
    if bits::test(mailboxes::word(s, n as usize, 0), 29) {
        return Delivery::Reply { mailbox: n, count };
    }
    Delivery::Nowhere { count }
}

// Where the frame goes, if the unit takes part on the bus.
#[tactic(auto, unfolding(crate::specs::Filter::delivery, crate::specs::Filter::placed))]
pub fn deliver(m: Loaded, f: Frame) -> Delivery
    requires { f.id.0 < 536870912 }
    ensures { result ≡ delivery m.entry.image.now f }
{
    if !m.block.is_on_bus() {
        return Delivery::Nowhere { count: 0 };
    }
    match find(m, f) {
        Found::At { mailbox, count } => place_at(m, mailbox, count),
        Found::Missing { count } => Delivery::Nowhere { count },
    }
}
