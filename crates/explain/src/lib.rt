// Document 02, request d: why did it land there?
#![tactic(auto)]

ghost use Rattle.std.specs.Prelude.{◌≡◌, false, ◌+◌, ◌<◌, ◌≤◌, length};
ghost use Rattle.bits.specs.Bit.{bit};
ghost use Rattle.registers.specs.Block.{block_of};
ghost use Rattle.registers.specs.Status.{bus_off};
ghost use Rattle.texts.specs.Text.{Put};
ghost use Rattle.answers.specs.Answer.{Fitted};
ghost use Rattle.filter.specs.Filter.{seat as seat_of, mask_for};
ghost use Rattle.explain.specs.Explain.{number as number_of, bit_number as bit_number_of, is_matched as ends_lines, match_reason, compared_reason, lines, unheard, line_bytes, list_bytes, ExplainCall};
ghost use Rattle.explain.specs.Terms.{reason_by, explained_by};

use answers::{NO_MAILBOX, Refusal};
use events::Frame;
use registers::{Block, Image, Loaded};

// Room for any lines: a mailbox has one at most.
const LONGEST: usize = 256;

// The reasons. The bit is one of word 0; the state is the mode, or 4 in bus off. stays a number, and so does the 32 below: they are bytes of the line,
// and the definitions have them so.
#[derive(Clone, Copy)]
pub enum Reason {
    Disabled,
    Transmits,
    IdeDiffers,
    BitDiffers { bit: u8 },
    Matched,
    NotHeard { state: u8 },
    Protected,
}

// What is said of a mailbox; 32 where the frame is not heard.
#[derive(Clone, Copy)]
pub struct Line {
    pub mailbox: u8,
    pub reason: Reason,
}

impl Reason {
    // Its number in a line. stays a method, and no `From`: there are two numbers of a reason, both of a byte, and definitions name both.
    fn number(self) -> u8
        ensures { result ≡ number_of self }
    {
        match self {
            Reason::Disabled => 1,
            Reason::Transmits => 2,
            Reason::IdeDiffers => 3,
            Reason::BitDiffers { .. } => 4,
            Reason::Matched => 5,
            Reason::NotHeard { .. } => 6,
            Reason::Protected => 7,
        }
    }

    // The bit number of its line, or the state in its place.
    fn bit_number(self) -> u8
        ensures { result ≡ bit_number_of self }
    {
        match self {
            Reason::BitDiffers { bit } => bit,
            Reason::NotHeard { state } => state,
            _ => 0,
        }
    }

    // Do the lines end with it?
    fn is_matched(self) -> bool
        ensures { result ≡ ends_lines self }
    {
        matches!(self, Reason::Matched)
    }
}

// The mask of mailbox n.
fn mask_of(m: Loaded, n: u32) -> u32
    requires { n < 32 }
    ensures { result ≡ mask_for m.entry.image.now m.entry.block n }
{
    let s = m.image;
    let b = m.block;
    filter::mask_at(s, b, bits::choose(n == 31, b.lam, b.gam), n)
}

// The reason of a mailbox that matches.
fn matched(passes: bool) -> Reason
    ensures { result ≡ match_reason passes }
{
    if passes {
        return Reason::Protected;
    }
    Reason::Matched
}

// The reason of a mailbox that is compared, and differs from the frame in these bits, or in none.
fn judge(differing: u32, passes: bool) -> Reason
    requires { (bit differing 30 ≡ false) × (bit differing 29 ≡ false) }
    ensures { result ≡ compared_reason passes (bit differing) }
{
    if differing == 0 {
        return matched(passes);
    }
    if bits::test(differing, 31) {
        return Reason::IdeDiffers;
    }
    Reason::BitDiffers {
        bit: bits::highest(differing) as u8,
    }
}

// The first reason that holds of mailbox n.
// stays in the contracts from here on: that the identifier has 29 bits, for the reason that filter gives at `frame_word`
fn reason_at(m: Loaded, f: Frame, n: u32) -> Reason
    requires { (f.id.0 < 536870912) × (n < 32) }
    ensures { result ≡ reason_by m.entry.image.now f n }
{
    let s = m.image;
    let b = m.block;
    if !bits::test(b.mc, n) {
        return Reason::Disabled;
    }
    if !(f.rtr | bits::test(b.md, n)) {
        return Reason::Transmits;
    }
    let differing = filter::differing(mask_of(m, n), f, mailboxes::word(s, n as usize, 0));
    judge(differing, bits::test(filter::guarded(b), n))
}

// Eight bytes: mailbox, reason, bit number, and zeros. stays: list and place are two arguments, as `texts` says.
fn put_line(list: &mut [u8], at: usize, l: Line) -> usize
    requires { at + 8 ≤ length list.old }
    ensures { Put list.old at (line_bytes l) list.new result }
{
    let why = l.reason;
    texts::put_text(
        list,
        at,
        &[l.mailbox, why.number(), why.bit_number(), 0, 0, 0, 0, 0],
    )
}

// The lines of a heard frame, place by place, at the front of bytes that have room for any: up to the first mailbox that matched.
fn put_lines(m: Loaded, f: Frame, list: &mut [u8]) -> usize
    requires { (f.id.0 < 536870912) × (256 ≤ length list.old) }
    ensures { Put list.old 0 (list_bytes (lines (seat_of (block_of m.entry.image.now)) (reason_by m.entry.image.now f))) list.new result }
{
    let mut at: usize = 0;
    for k in 0..32 {
        let n = filter::seat(m.block, k);
        let reason = reason_at(m, f, n);
        at = put_line(
            list,
            at,
            Line {
                mailbox: n as u8,
                reason,
            },
        );
        if reason.is_matched() {
            return at;
        }
    }
    at
}

// The line of a frame that is not heard.
fn put_unheard(b: Block, list: &mut [u8]) -> usize
    requires { (b.mode ≤ 3) × (8 ≤ length list.old) }
    ensures { Put list.old 0 (list_bytes (unheard b.mode (bus_off b))) list.new result }
{
    let state = bits::choose(b.is_bus_off(), 4, b.mode) as u8;
    let reason = Reason::NotHeard { state };
    put_line(
        list,
        0,
        Line {
            mailbox: NO_MAILBOX as u8,
            reason,
        },
    )
}

// The lines of a frame, heard or not.
// stays: the mode of a good image, here and in `put_unheard` and the two below; `Loaded` is made of any image
fn put_explanation(s: &Image, f: Frame, list: &mut [u8]) -> usize
    requires { ((block_of s.now).mode ≤ 3) × (f.id.0 < 536870912) × (256 ≤ length list.old) }
    ensures { Put list.old 0 (list_bytes (explained_by s.now f)) list.new result }
{
    let m = Loaded::load(s);
    if m.block.is_on_bus() {
        put_lines(m, f, list)
    } else {
        put_unheard(m.block, list)
    }
}

// The same, where they may not fit.
// stays beside compare's tell_if_it_fits: see there.
fn tell_if_they_fit(s: &Image, f: Frame, list: &mut [u8]) -> u64
    requires { ((block_of s.now).mode ≤ 3) × (f.id.0 < 536870912) }
    ensures { Fitted (length (explained_by s.now f)) (list_bytes (explained_by s.now f)) list.old list.new result }
{
    // stays: fixed bytes, and the end of the lines in them: no heap
    let mut apart = [0u8; LONGEST];
    let end = put_explanation(s, f, &mut apart);
    texts::tell(list, &apart[..end], (end / 8) as u32)
}

// The same, in any bytes. Those that have room for any lines need none apart.
fn tell(s: &Image, f: Frame, list: &mut [u8]) -> u64
    requires { ((block_of s.now).mode ≤ 3) × (f.id.0 < 536870912) }
    ensures { Fitted (length (explained_by s.now f)) (list_bytes (explained_by s.now f)) list.old list.new result }
{
    if list.len() < LONGEST {
        return tell_if_they_fit(s, f, list);
    }
    let end = put_explanation(s, f, list);
    answers::pack(0, NO_MAILBOX, (end / 8) as u32)
}

// Any bytes: the lines of the frame, or a refusal that writes nothing.
pub fn explain(image: &[u8], event: &[u8], list: &mut [u8]) -> u64
    ensures { ExplainCall image.now event.now list.old list.new result }
{
    let Some(image) = good::as_good_image(image) else {
        return answers::refuse(Refusal::NoModel);
    };
    match events::frame_in(event) {
        Ok(f) => tell(image, f, list),
        Err(why) => answers::refuse(why),
    }
}
