// A fresh model.
#![tactic(auto)]

ghost use Rattle.std.specs.Prelude.{◌≡◌};
ghost use Rattle.registers.specs.Block.{put_block};
ghost use Rattle.answers.specs.Answer.{Promise};
ghost use Rattle.fresh.specs.Fresh.{fresh_block, fresh as fresh_of};

use answers::{NO_MAILBOX, Refusal};
use registers::{Block, IMAGE_BYTES, Image};

// The registers of a fresh model: mailbox 31 of a CAN-B receives, the mode is configuration, none waits, nobody is in the slot.
// stays: the profile is a number, as frostsorrel_fresh of the C interface and the last word of the image have it.
#[tactic(auto, unfolding(crate::specs::Fresh::fresh_block))]
pub fn fresh_block(profile: u32) -> Block
    ensures { result ≡ fresh_block profile }
{
    let md = bits::choose(profile == registers::E_CAN, 0, 0x8000_0000);
    Block {
        md,
        mode: registers::CONFIGURATION,
        waiting: registers::NO_MODE,
        slot: registers::EMPTY_SLOT,
        profile,
        ..Block::default()
    }
}

// The register words of a fresh model, in bytes that are zero elsewhere.
pub fn fill_registers(image: &mut Image, profile: u32)
    ensures { image.new ≡ put_block image.old (fresh_block profile) }
{
    fresh_block(profile).store(image)
}

// Any lent bytes become a fresh model of a profile; other lengths than an image's and other profiles are refused and keep every
// byte.
pub fn fresh(image: &mut [u8], profile: u32) -> u64
    ensures { Promise (fresh_of image.old profile) image.new result }
{
    let Some(image) = image.as_mut_array::<IMAGE_BYTES>() else {
        return answers::refuse(Refusal::NoModel);
    };
    if profile > registers::E_CAN {
        return answers::refuse(Refusal::NotAllowed);
    }
    image.fill(0);
    fill_registers(image, profile);
    answers::pack(0, NO_MAILBOX, 0)
}
