// Events: 16 bytes become a case each, or a refusal.
#![tactic(auto)]

mod frames;
mod parts;
mod writes;

ghost use Rattle.std.specs.Prelude.{◌≡◌, true, false, cond, MatchResult};
ghost use Rattle.events.specs.Parts.{quiet as quiet_of};
ghost use Rattle.events.specs.Decode.{decoded_as, decoded, or_refused};

use crate::frames::frame_event;
use crate::parts::{quiet, target, value};
use crate::writes::{mailbox_event, options_event, register_event};
use answers::Refusal;
pub use frames::{frame_in, frame_of, frame_refusal};
use mailboxes::Identifier;

pub const EVENT_BYTES: usize = 16;

// The bytes of an event.
pub type EventBytes = [u8; EVENT_BYTES];

// One frame, in numbers: its data bytes as one of 64 bits, the first lowest.
#[derive(Clone, Copy)]
pub struct Frame {
    pub ide: bool,
    pub rtr: bool,
    pub id: Identifier,
    pub dlc: u32,
    pub bytes: u64,
}

#[derive(Clone, Copy)]
pub enum Event {
    // stays: document 01 has refusals as a case of the event, and `remaining_refusal` answers for any number
    Refused { number: u32 },
    // stays: targets, kinds and values as numbers, as document 01 lists them and the definitions of the crates above take them
    Register { target: u32, value: u32 },
    Mailbox { target: u32, word: u32, value: u32 },
    Heard { frame: Frame },
    Start,
    Outcome { kind: u32 },
    ReceiveError { value: u32 },
    Recessive,
    Tick,
    Mode { value: u32 },
    Options { value: u32 },
    Reset,
}

// One of the tests that an event has to pass, and the refusal where it does not.
fn demand(holds: bool, why: Refusal) -> Result<(), Refusal>
    ensures { MatchResult result (λ _. holds ≡ true) (λ e. (holds ≡ false) × (e ≡ why)) }
{
    if holds { Ok(()) } else { Err(why) }
}

// Operation 4.
#[tactic(auto, unfolding(crate::specs::Decode::decoded_as))]
fn outcome_event(e: &EventBytes) -> Result<Event, Refusal>
    ensures { or_refused result ≡ decoded_as 4 false false e.now }
{
    let kind = target(e);
    demand(kind <= 3, Refusal::Unknown)?;
    demand(quiet(e, true, false, false, 0), Refusal::NotAllowed)?;
    Ok(Event::Outcome { kind })
}

// Operation 5. stays beside `mode_event` and `options_event`: test and case differ, and one function of both would be longer than the three.
#[tactic(auto, unfolding(crate::specs::Decode::decoded_as))]
fn receive_error_event(e: &EventBytes) -> Result<Event, Refusal>
    ensures { or_refused result ≡ decoded_as 5 false false e.now }
{
    let v = value(e);
    demand(
        quiet(e, false, false, true, 0) & ((v == 1) | (v == 8)),
        Refusal::NotAllowed,
    )?;
    Ok(Event::ReceiveError { value: v })
}

// Operation 8.
#[tactic(auto, unfolding(crate::specs::Decode::decoded_as))]
fn mode_event(e: &EventBytes) -> Result<Event, Refusal>
    ensures { or_refused result ≡ decoded_as 8 false false e.now }
{
    let v = value(e);
    demand(
        quiet(e, false, false, true, 0) & (v <= 3),
        Refusal::NotAllowed,
    )?;
    Ok(Event::Mode { value: v })
}

// An operation that uses no byte but its own.
fn plain_event(e: &EventBytes, event: Event) -> Result<Event, Refusal>
    ensures { or_refused result ≡ cond (quiet_of e.now false false false 0) event (Event.Refused 4) }
{
    demand(quiet(e, false, false, false, 0), Refusal::NotAllowed)?;
    Ok(event)
}

// The event of any bytes of any length, or why they are refused.
#[tactic(auto, unfolding(crate::specs::Decode::decoded, crate::specs::Decode::decoded_as))]
fn event_in(asleep: bool, ecan: bool, e: &[u8]) -> Result<Event, Refusal>
    ensures { or_refused result ≡ decoded asleep ecan e.now }
{
    let e: &EventBytes = e.as_array().ok_or(Refusal::Unknown)?;
    // stays: numbers, since this is where an operation gets its case
    let op = words::byte_at(e, 0);
    match op {
        0 => register_event(asleep, ecan, e),
        1 => mailbox_event(asleep, e),
        2 => frame_event(e),
        3 => plain_event(e, Event::Start),
        4 => outcome_event(e),
        5 => receive_error_event(e),
        6 => plain_event(e, Event::Recessive),
        7 => plain_event(e, Event::Tick),
        8 => mode_event(e),
        9 => options_event(asleep, e),
        10 => plain_event(e, Event::Reset),
        _ => Err(Refusal::Unknown),
    }
}

// Any bytes of any length, given whether the unit sleeps and whether it is an eCAN.
pub fn decode(asleep: bool, ecan: bool, e: &[u8]) -> Event
    ensures { result ≡ decoded asleep ecan e.now }
{
    event_in(asleep, ecan, e).unwrap_or_else(|why| Event::Refused {
        number: why.number(),
    })
}
