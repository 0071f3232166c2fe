// Is an image good?
#![tactic(auto)]

mod gather;

ghost use Rattle.std.specs.Prelude.{◌≡◌, ◌&&◌, ◌+◌, ◌≤◌, true, false, eqb, ltb, refl, MatchOption};
ghost use Rattle.std.proofs.Common.{rules};
ghost use Rattle.words.specs.Word.{word_at};
ghost use Rattle.registers.specs.Block.{image_bytes, empty_slot};
ghost use Rattle.mailboxes.specs.Mailbox.{layout, word_layout};
ghost use Rattle.good.specs.Good.{good_flags, good_numbers, good_slot, good_block, good_layouts, good_spare, good_masks, good_image};
ghost use Rattle.good.specs.Gathered.{clean, bare, good_pair};

use gather::Gather;
use registers::{BUS_OFF_AT, Block, CAN_B, E_CAN, EMPTY_SLOT, Image, NO_MODE, NORMAL, SLEEP};

// Bit 31 alone, and the lowest word that has it up. stays written out in other crates, each of which asks it once or twice.
const TOP: u32 = 0x8000_0000;

// The clauses on flag words and masks.
fn good_flags(b: Block) -> bool
    ensures { result ≡ good_flags b }
{
    ((b.profile == E_CAN)
        | ((b.profile == CAN_B)
            & (b.md >= TOP)
            & (b.trs < TOP)
            & (b.trr < TOP)
            & (b.ta < TOP)
            & (b.aa < TOP)
            & (b.cdr < TOP)
            & (b.mbtif < TOP)))
        & (b.trs & b.md == 0)
        & (b.trr & b.trs == b.trr)
        & ((b.rml & b.rmp == b.rml) & (b.rfp & b.rmp == b.rfp))
        & ((b.lam / 536870912 % 4 == 0) & (b.gam / 536870912 % 4 == 0))
}

// The clauses on counters, modes and options. `!a | b` is "where a, also b"; `!!` stands where a is said by what does not hold.
fn good_numbers(b: Block) -> bool
    ensures { result ≡ good_numbers b }
{
    ((b.gif < 256)
        & (b.gim < 256)
        & (b.bcr1 < 1024)
        & (b.bcr2 < 1024)
        & (b.tsc < 65536)
        & (b.tec <= BUS_OFF_AT)
        & (b.rec <= 255))
        & ((b.mode <= 3)
            & (b.waiting <= NO_MODE)
            & (b.slot <= EMPTY_SLOT)
            & (b.recovery <= 127)
            & (b.options <= 3)
            & (b.tso <= 1))
        & ((b.tec != BUS_OFF_AT) | (b.mode == NORMAL))
        & (!(0 < b.recovery) | (b.tec == BUS_OFF_AT))
        & ((1 <= b.waiting)
            & (!!(b.waiting == NO_MODE) | ((b.slot != EMPTY_SLOT) | (b.tec == BUS_OFF_AT))))
        & ((b.mode != SLEEP) | ((b.tec == 0) & (b.rec == 0) & (b.trs == 0) & (b.trr == 0)))
}

// The clauses that read a bit at the slot's number.
fn good_slot(b: Block) -> bool
    requires { b.slot ≤ empty_slot }
    ensures { result ≡ good_slot b }
{
    let x = b.slot_mask();
    (b.trr & x == b.trr)
        & (!!(b.slot == EMPTY_SLOT)
            | ((b.mode == NORMAL) & (b.tec < BUS_OFF_AT) & (x & b.trs == x) & (x & b.mc == x)))
}

// Every clause on the register block.
fn good_block(b: Block) -> bool
    ensures { result ≡ good_block b }
{
    if b.slot > EMPTY_SLOT {
        return false;
    }
    good_flags(b) & good_numbers(b) & good_slot(b)
}

// What is gathered of words 0 and 1 to judge many mailboxes at once. For a word 0 stands a sum that reaches 2^32 where the word breaks
// the layout, and `|` of sums reaches it where one of them does. A word 1 stands for itself: `|` of them has every bit that one has.
#[derive(Clone, Copy)]
pub struct Gathered {
    pub identifiers: u64,
    pub controls: u32,
}

// Reaches 2^32 where a standard identifier has low bits.
fn identifier_sum(w: u32) -> u64
    ensures { ltb result 4294967296 ≡ word_layout 0 w }
{
    u64::from(w % 262144 + (1 - w / 2147483648) * 2147483648) + 2147483647
}

// The layout of every mailbox.
impl Gather for Gathered {
    ghost rule = { layout };

    ghost kept = { clean };

    const PLACES: usize = 32;

    ghost PLACES = { 32 };

    ghost few = { Prim.search rules };

    ghost eights = { refl };

    fn one(s: &Image, n: usize) -> Gathered {
        Gathered {
            identifiers: identifier_sum(mailboxes::word(s, n, 0)),
            controls: mailboxes::word(s, n, 1),
        }
    }

    fn join(self, other: Gathered) -> Gathered {
        Gathered {
            identifiers: self.identifiers | other.identifiers,
            controls: self.controls | other.controls,
        }
    }

    // Bits 15 to 5 of words 1 are put above 2^32, so that one branch judges both: a second one costs more than it spares.
    fn is_kept(self) -> bool {
        self.identifiers | u64::from(self.controls / 32 % 2048) * 4294967296 < 4294967296
    }
}

// The masks of two mailboxes as one number; `|` of such numbers has bits 30 and 29 of a mask where one of them has.
#[derive(Clone, Copy)]
struct Pair(u64);

// The mask of every mailbox. Of the 16 pairs every other one comes first, then those between, so that the compiler has no neighbours
// to make vectors of.
impl Gather for Pair {
    ghost rule = { good_pair };

    ghost kept = { λ p. bare p.0 };

    const PLACES: usize = 16;

    ghost PLACES = { 16 };

    ghost few = { Prim.search rules };

    ghost eights = { refl };

    fn one(s: &Image, k: usize) -> Pair {
        Pair(words::long_at(s, registers::MASKS_AT + 8 * (k % 8 * 2 + k / 8)))
    }

    fn join(self, other: Pair) -> Pair {
        Pair(self.0 | other.0)
    }

    fn is_kept(self) -> bool {
        (self.0 / 536870912 % 4 == 0) & (self.0 / 2305843009213693952 % 4 == 0)
    }
}

// The layout of every mailbox.
fn good_layouts(s: &Image) -> bool
    ensures { result ≡ good_layouts s.now }
{
    gather::are_kept::<Gathered>(s)
}

// Are two words in a row zero? They are read as one number.
fn are_zero(s: &Image, at: usize) -> bool
    requires { at + 8 ≤ image_bytes }
    ensures { result ≡ (eqb (word_at s.now at) 0 && eqb (word_at s.now (at + 4)) 0) }
{
    words::long_at(s, at) == 0
}

// The four spare words. Of four tests without a branch LLVM makes one of vectors, which costs more.
fn good_spare(s: &Image) -> bool
    ensures { result ≡ good_spare s.now }
{
    if !are_zero(s, 624) {
        return false;
    }
    are_zero(s, 632)
}

// The mask of every mailbox, by pairs.
fn good_masks(s: &Image) -> bool
    ensures { result ≡ good_masks s.now }
{
    gather::are_kept::<Pair>(s)
}

// Every clause on the contents of an image.
fn is_good(image: &Image) -> bool
    ensures { result ≡ good_image image.now }
{
    good_layouts(image) & good_spare(image) & good_masks(image) & good_block(Block::load(image))
}

// Any bytes of any length as an image, where they are a good one.
pub fn as_good_image(s: &[u8]) -> Option<&Image>
    ensures { MatchOption result (good_image s.now ≡ false) (λ image. (good_image s.now ≡ true) × (image.now ≡ s.now)) }
{
    let image = s.as_array()?;
    is_good(image).then_some(image)
}

// Any bytes of any length: are they a good image?
pub fn good_image(s: &[u8]) -> bool
    ensures { result ≡ good_image s.now }
{
    as_good_image(s).is_some()
}
