// Frame events.
ghost use Rattle.std.specs.Prelude.{◌≡◌, false, ◌&&◌, MatchResult};
ghost use Rattle.answers.specs.Refusals.{number_of};
ghost use Rattle.events.specs.Parts.{frame_of, frame_allowed};
ghost use Rattle.events.specs.Decode.{quiet_as, allowed_as, decoded_as, frame_refusal, or_refused};

use crate::parts::{payload, quiet, target, value};
use crate::{Event, EventBytes, Frame, demand};
use answers::Refusal;

// The frame of an event, read without a test.
#[tactic(auto, unfolding(crate::specs::Parts::frame_of))]
pub fn frame_of(e: &EventBytes) -> Frame
    ensures { result ≡ frame_of e.now }
{
    let v = value(e);
    Frame {
        ide: bits::test(v, 31),
        rtr: bits::test(v, 30),
        id: mailboxes::identifier_of(v),
        dlc: target(e),
        bytes: payload(e),
    }
}

#[tactic(auto, unfolding(crate::specs::Parts::frame_allowed))]
fn is_frame_allowed(e: &EventBytes) -> bool
    ensures { result ≡ frame_allowed e.now }
{
    let v = value(e);
    (target(e) <= mailboxes::HIGHEST_DLC) & !bits::test(v, 29) & mailboxes::word_layout(0, v)
}

// Is what it does not use zero, and what it uses allowed?
fn is_frame_taken(e: &EventBytes) -> bool
    ensures { result ≡ (quiet_as 2 e.now && allowed_as 2 false e.now) }
{
    let n = mailboxes::data_bytes(bits::test(value(e), 30), target(e));
    quiet(e, true, false, true, n) & is_frame_allowed(e)
}

// Operation 2.
#[tactic(auto, unfolding(crate::specs::Decode::decoded_as))]
pub fn frame_event(e: &EventBytes) -> Result<Event, Refusal>
    ensures { or_refused result ≡ decoded_as 2 false false e.now }
{
    demand(is_frame_taken(e), Refusal::NotAllowed)?;
    Ok(Event::Heard { frame: frame_of(e) })
}

// The frame of any bytes that have to be a frame event, or why they are none.
#[tactic(auto, unfolding(crate::specs::Decode::frame_refusal))]
pub fn frame_in(e: &[u8]) -> Result<Frame, Refusal>
    ensures { MatchResult result (λ f. (frame_refusal e.now ≡ 0) × (f ≡ frame_of e.now))
        (λ why. number_of why ≡ frame_refusal e.now) }
{
    let e: &EventBytes = e.as_array().ok_or(Refusal::Unknown)?;
    demand(words::byte_at(e, 0) == 2, Refusal::Unknown)?;
    demand(is_frame_taken(e), Refusal::NotAllowed)?;
    Ok(frame_of(e))
}

// The number of the refusal, 0 where they are one. stays: public, and without fail; `frame_in` stands beside it.
pub fn frame_refusal(e: &[u8]) -> u32
    ensures { result ≡ frame_refusal e.now }
{
    match frame_in(e) {
        Ok(_) => 0,
        Err(why) => why.number(),
    }
}
