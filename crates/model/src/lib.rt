// The step: any image, any event.
//
// Each operation loads the register block and stores it in a function of its own: `change` becomes one for each closure that it is given. The
// compiler then sees which words an operation leaves alone, and neither loads nor stores them.
#![tactic(auto)]

ghost use Rattle.std.specs.Prelude.{◌≡◌, true, cond, eqb, ◌<◌, ◌≤◌};
ghost use Rattle.registers.specs.declared.Block.{Block as BlockOf};
ghost use Rattle.registers.specs.Block.{block_of, put_block, no_mode, empty_slot};
ghost use Rattle.registers.specs.Modes.{risen, settled};
ghost use Rattle.events.specs.declared.Event.TheVariants.{Register, Mailbox, Heard, Start, Outcome, Reset};
ghost use Rattle.good.specs.Good.{good_image};
ghost use Rattle.filter.specs.declared.Delivery.TheVariants.{Into, Reply, Nowhere};
ghost use Rattle.answers.specs.Answer.{packed, Promise};
ghost use Rattle.model.specs.Step.{masked, unmasked, postmarked, step as step_of};
ghost use Rattle.model.specs.Parts.{Loaded as InRange, Sized, Fit, Acted, Delivered};

use answers::{NO_MAILBOX, Refusal};
use events::{Event, Frame};
use filter::Delivery;
use registers::{Block, IMAGE_BYTES, Image};

// ---- the register block

// The block becomes what f makes of it, then the flags rise whose condition begins to hold. The answer names a mailbox, or NO_MAILBOX:
// stays a number, as C has it in its answer.
fn change<F: FnOnce(Block) -> Block>(image: &mut Image, mailbox: u32, f: F) -> u64
    requires { F.pre f (block_of image.old) }
    ensures block { (b : BlockOf) × F.post f (block_of image.old) b × (image.new ≡ put_block image.old (risen (block_of image.old) b)) }
    ensures answered { result ≡ packed 0 mailbox 0 }
{
    let b = Block::load(image);
    f(b).rise(b).store(image);
    answers::pack(0, mailbox, 0)
}

// ---- writes
//
// stays: numbers with a clause, here and below, as the events and the definitions have them; `bits` and `registers` say why

// A mask of an eCAN; no other register stands there.
// stays: t as a number, and v, as the event has them; the tests joined by `&`, one branch
#[tactic(auto, unfolding(crate::specs::Step::masked))]
fn put_mask(image: &mut Image, t: u32, v: u32)
    ensures { image.new ≡ masked image.old t v }
{
    if (64 <= t) & (t <= 95) {
        words::put_word(image, registers::MASKS_AT + 4 * (t as usize - 64), v);
    }
}

// Register t written with v; of an eCAN's masks the block has none.
#[tactic(auto, using(crate::proofs::Beside::masked_beside))]
fn write_register(image: &mut Image, t: u32, v: u32) -> u64
    requires { (block_of image.old).slot ≤ empty_slot }
    ensures { Acted image.old (Register t v) image.new result }
{
    put_mask(image, t, v);
    change(image, NO_MAILBOX, |b| b.write(t, v))
}

// Word k of mailbox n written with v; the block is put back as it was.
fn write_mailbox(image: &mut Image, n: u32, k: u32, v: u32) -> u64
    requires { (n < 32) × (k < 4) }
    ensures { Acted image.old (Mailbox n k v) image.new result }
{
    mailboxes::put_word(image, n as usize, k as usize, v);
    change(image, NO_MAILBOX, |b| b)
}

// ---- frames: REC can only fall, so no flag rises
//
// stays, for speed: by `change` each of the three would ask for three flags that cannot rise, 16 ns of a frame (docs/PERFORMANCE.md, 3)

// A frame that is stored in mailbox n. The block is loaded behind the mailbox's bytes: any write into the image might, for the
// compiler, change it.
fn store(image: &mut Image, f: Frame, n: u32, count: u32) -> u64
    requires { ((block_of image.old).tsc < 65536) × (Fit f) × (n < 32) }
    ensures { Delivered image.old f (Into n count) image.new result }
{
    let stamp = Block::load(image).tsc;
    mailboxes::put_frame(image, n as usize, f.ide, f.rtr, f.id, f.dlc, f.bytes, stamp);
    Block::load(image).listen().hold(n, f.rtr).store(image);
    answers::pack(0, n, count)
}

// A frame that asks mailbox n for a reply.
fn reply(image: &mut Image, f: Frame, n: u32, count: u32) -> u64
    requires { n < 32 }
    ensures { Delivered image.old f (Reply n count) image.new result }
{
    Block::load(image).listen().reply(n).store(image);
    answers::pack(0, n, count)
}

// A frame that goes nowhere.
fn miss(image: &mut Image, f: Frame, count: u32) -> u64
    ensures { Delivered image.old f (Nowhere count) image.new result }
{
    Block::load(image).listen().store(image);
    answers::pack(0, NO_MAILBOX, count)
}

// A frame goes where the search says.
// stays: the range of TSC in three contracts; each speaks of the image before its own first write, and a type would end there
fn hear(image: &mut Image, f: Frame) -> u64
    requires { ((block_of image.old).tsc < 65536) × (Fit f) }
    ensures { Acted image.old (Heard f) image.new result }
{
    let d = filter::deliver(registers::Loaded::load(image), f);
    match d {
        Delivery::Into { mailbox, count } => store(image, f, mailbox, count),
        Delivery::Reply { mailbox, count } => reply(image, f, mailbox, count),
        Delivery::Nowhere { count } => miss(image, f, count),
    }
}

// ---- sending

// What is sent next goes into the slot, and is the answer; where nothing is, nothing changes and the answer is 32.
fn start(image: &mut Image) -> u64
    ensures { Acted image.old Start image.new result }
{
    let n = sending::next(registers::Loaded::load(image));
    change(
        image,
        n.unwrap_or(NO_MAILBOX),
        |b| n.map_or(b, |n| b.start(n)),
    )
}

// The time stamp of a frame that was sent, which is kind 0.
// stays: kind as a number, as the event has it
#[tactic(auto, unfolding(crate::specs::Step::postmarked))]
fn postmark(image: &mut Image, kind: u32)
    requires { ((block_of image.old).tsc < 65536) × ((block_of image.old).slot < 32) }
    ensures { image.new ≡ cond (eqb kind 0) (postmarked image.old) image.old }
{
    if kind == 0 {
        let b = Block::load(image);
        mailboxes::put_stamp(image, b.slot as usize, b.tsc);
    }
}

// What an outcome does, and the mailbox that was in the slot.
#[tactic(auto, using(crate::proofs::Beside::postmarked_beside))]
fn conclude(image: &mut Image, kind: u32) -> u64
    requires { (InRange image.old) × ((block_of image.old).slot < 32) }
    ensures { Acted image.old (Outcome kind) image.new result }
{
    postmark(image, kind);
    let slot = Block::load(image).slot;
    change(image, slot, |b| b.conclude(kind))
}

// ---- reset

// Every mask is zero again.
#[tactic(auto, unfolding(crate::specs::Step::unmasked))]
fn clear_masks(image: &mut Image)
    ensures { image.new ≡ unmasked image.old }
{
    words::put_words(image, registers::MASKS_AT, [0; 32])
}

// Masks and registers as those of a fresh model; the profile stays.
fn reset(image: &mut Image) -> u64
    ensures { Acted image.old Reset image.new result }
{
    clear_masks(image);
    change(image, NO_MAILBOX, |b| fresh::fresh_block(b.profile))
}

// ---- the whole

// What an accepted event does, up to the end of the step. A refusal is none.
// stays a match: each operation has a line here, as in document 01's table
#[tactic(auto, using(crate::proofs::Meets::turns), unfolding(crate::specs::Step::own, crate::specs::Step::goes, crate::specs::Step::beside_after, crate::specs::Step::named))]
fn act(image: &mut Image, e: Event) -> u64
    requires { (InRange image.old) × (Sized image.old e) }
    ensures { Acted image.old e image.new result }
{
    match e {
        Event::Refused { .. } => unreachable!(),
        Event::Register { target, value } => write_register(image, target, value),
        Event::Mailbox {
            target,
            word,
            value,
        } => write_mailbox(image, target, word, value),
        Event::Heard { frame } => hear(image, frame),
        Event::Start => start(image),
        Event::Outcome { kind } => conclude(image, kind),
        Event::ReceiveError { value } => change(image, NO_MAILBOX, |b| b.worsen(value)),
        Event::Recessive => change(image, NO_MAILBOX, |b| b.recess()),
        Event::Tick => change(image, NO_MAILBOX, |b| b.tick()),
        Event::Mode { value } => change(image, NO_MAILBOX, |b| b.ask(value)),
        Event::Options { value } => change(image, NO_MAILBOX, |b| b.with_options(value)),
        Event::Reset => reset(image),
    }
}

// The end of every accepted step: a mode that waits is taken, if it can be.
fn settle(image: &mut Image)
    ensures { image.new ≡ cond (eqb (block_of image.old).waiting no_mode) image.old (put_block image.old (settled (block_of image.old))) }
{
    let b = Block::load(image);
    if b.waiting != registers::NO_MODE {
        b.settle().store(image)
    }
}

// A good image, any event bytes.
fn take(image: &mut Image, event: &[u8]) -> u64
    requires { good_image image.old ≡ true }
    ensures { Promise (step_of image.old event.now) image.new result }
{
    let m = registers::Loaded::load(image);
    let e = events::decode(m.block.is_asleep(), m.block.is_ecan(), event);
    let refusal = refusals::remaining_refusal(m, e);
    // stays: a number, as `remaining_refusal` gives it
    if refusal != 0 {
        return answers::pack(refusal, NO_MAILBOX, 0);
    }
    let answer = act(image, e);
    settle(image);
    answer
}

// Any bytes, any event bytes.
#[tactic(auto, using(crate::proofs::Ends::stays, good::proofs::Image::good_length))]
pub fn step(image: &mut [u8], event: &[u8]) -> u64
    ensures { Promise (step_of image.old event.now) image.new result }
{
    if !good::good_image(image) {
        return answers::refuse(Refusal::NoModel);
    }
    // said, and not tested again: by an `Option` with the test as its guard LLVM kept two pointers to the image, and a frame took 622
    // instructions for 530 (D182)
    let Some(image) = image.as_mut_array::<IMAGE_BYTES>() else {
        unreachable!()
    };
    take(image, event)
}
