// The register block: the words from byte 512 of the image, by value.
#![tactic(auto)]

mod frames;
mod modes;
mod sending;
mod status;
mod writes;

ghost use Rattle.std.specs.Prelude.{◌≡◌};
ghost use Rattle.registers.specs.Block.{of_parts, first_words, block_of, put_block};

pub const IMAGE_BYTES: usize = 776;

// The bytes of a model.
pub type Image = [u8; IMAGE_BYTES];

pub const REGISTERS_AT: usize = 512;

// A mask for each mailbox, then the protection word, then the profile.
pub const MASKS_AT: usize = 640;

pub const PROTECTION_AT: usize = 768;

pub const PROFILE_AT: usize = 772;

// The two profiles: the CAN-B of document 01, and the eCAN. Profile, slot and modes stay numbers, not enums: a block is made of any image, and its words
// may be anything.
pub const CAN_B: u32 = 0;

pub const E_CAN: u32 = 1;

// The words of the block that stand in a row.
const WORDS: usize = 28;

// The slot when no mailbox is being sent.
pub const EMPTY_SLOT: u32 = 32;

// The modes, and what waits when none does.
pub const NORMAL: u32 = 0;

pub const CONFIGURATION: u32 = 1;

pub const SLEEP: u32 = 2;

pub const SUSPEND: u32 = 3;

pub const NO_MODE: u32 = 4;

// The transmit error counter that means bus off.
pub const BUS_OFF_AT: u32 = 256;

// A field for each of the words 0 to 27, and for the two at the end of the image; the words 28 to 31 are no part of the block.
#[derive(Clone, Copy, Default)]
pub struct Block {
    // 0: MC: the mailbox is enabled
    pub mc: u32,
    // 1: MD: 1 receives, 0 transmits
    pub md: u32,
    // 2: TRS: a request to send waits
    pub trs: u32,
    // 3: TRR: the request in the slot is to be cancelled
    pub trr: u32,
    // 4: TA: sent
    pub ta: u32,
    // 5: AA: aborted
    pub aa: u32,
    // 6: RMP: a frame is held
    pub rmp: u32,
    // 7: RML: a held frame was overwritten
    pub rml: u32,
    // 8: LAM: mask of mailbox 31
    pub lam: u32,
    // 9: GAM: mask of mailboxes 0 to 30
    pub gam: u32,
    // 10: RFP: the held frame is a remote one
    pub rfp: u32,
    // 11: CDR: the data may be changed
    pub cdr: u32,
    // 12: MBTIF: transmit interrupts
    pub mbtif: u32,
    // 13: MBRIF: receive interrupts
    pub mbrif: u32,
    // 14: MBIM: which mailboxes interrupt
    pub mbim: u32,
    // 15: GIF: global interrupts
    pub gif: u32,
    // 16: GIM: which of them interrupt
    pub gim: u32,
    // 17: BCR1
    pub bcr1: u32,
    // 18: BCR2
    pub bcr2: u32,
    // 19: TSC: the time stamp counter
    pub tsc: u32,
    // 20: TEC: transmit error counter, 256 is bus off
    pub tec: u32,
    // 21: REC: receive error counter
    pub rec: u32,
    // 22: 0 normal, 1 configuration, 2 sleep, 3 suspend
    pub mode: u32,
    // 23: the mode that waits, 4 none
    pub waiting: u32,
    // 24: the mailbox that is being sent, or EMPTY_SLOT
    pub slot: u32,
    // 25: how often eleven recessive bits were seen in bus off
    pub recovery: u32,
    // 26: bit 0 MTOS, bit 1 WUBA
    pub options: u32,
    // 27: TSO: the time stamp counter overflowed
    pub tso: u32,
    // eCAN: a mailbox that holds a frame is not overwritten
    pub protection: u32,
    // CAN_B or E_CAN
    pub profile: u32,
}

// An image that is only read, with its block beside it, loaded once.
#[derive(Clone, Copy)]
pub struct Loaded<'a> {
    pub image: &'a Image,
    pub block: Block,
    ghost of_image: { block ≡ block_of image.now },
}

impl<'a> Loaded<'a> {
    // The image and the block that is in it.
    pub fn load(image: &'a Image) -> Loaded<'a>
        ensures { result.image.now ≡ image.now }
    {
        Loaded {
            image,
            block: Block::load(image),
        }
    }
}

impl Block {
    // stays a function, and no From: a block is made of three parts, and the words that it gives back leave two of them out
    fn from_words(row: [u32; WORDS], protection: u32, profile: u32) -> Block
        ensures { result ≡ of_parts row protection profile }
    {
        Block {
            mc: row[0],
            md: row[1],
            trs: row[2],
            trr: row[3],
            ta: row[4],
            aa: row[5],
            rmp: row[6],
            rml: row[7],
            lam: row[8],
            gam: row[9],
            rfp: row[10],
            cdr: row[11],
            mbtif: row[12],
            mbrif: row[13],
            mbim: row[14],
            gif: row[15],
            gim: row[16],
            bcr1: row[17],
            bcr2: row[18],
            tsc: row[19],
            tec: row[20],
            rec: row[21],
            mode: row[22],
            waiting: row[23],
            slot: row[24],
            recovery: row[25],
            options: row[26],
            tso: row[27],
            protection,
            profile,
        }
    }

    fn to_words(self) -> [u32; WORDS]
        ensures { result ≡ first_words self }
    {
        [
            self.mc,
            self.md,
            self.trs,
            self.trr,
            self.ta,
            self.aa,
            self.rmp,
            self.rml,
            self.lam,
            self.gam,
            self.rfp,
            self.cdr,
            self.mbtif,
            self.mbrif,
            self.mbim,
            self.gif,
            self.gim,
            self.bcr1,
            self.bcr2,
            self.tsc,
            self.tec,
            self.rec,
            self.mode,
            self.waiting,
            self.slot,
            self.recovery,
            self.options,
            self.tso,
        ]
    }

    // The block of an image.
    pub fn load(s: &Image) -> Block
        ensures { result ≡ block_of s.now }
    {
        let row = words::load_words(s, REGISTERS_AT);
        Block::from_words(
            row,
            words::word_at(s, PROTECTION_AT),
            words::word_at(s, PROFILE_AT),
        )
    }

    // The block put into an image; no byte of a mailbox moves, and no spare word.
    pub fn store(self, s: &mut Image)
        ensures { s.new ≡ put_block s.old self }
    {
        words::put_words(s, REGISTERS_AT, self.to_words());
        words::put_word(s, PROTECTION_AT, self.protection);
        words::put_word(s, PROFILE_AT, self.profile)
    }
}
