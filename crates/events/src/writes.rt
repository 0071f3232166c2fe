// The events that are refused asleep: register writes, mailbox writes, options.
ghost use Rattle.std.specs.Prelude.{◌≡◌, false};
ghost use Rattle.events.specs.Decode.{writable, register_allowed, decoded_as, or_refused};

use crate::parts::{quiet, target, value};
use crate::{Event, EventBytes, demand};
use answers::Refusal;

// May register t be written at all? stays: registers as numbers, here and below, since any byte comes in
fn is_writable(t: u32) -> bool
    ensures { result ≡ writable t }
{
    ((t <= 19) & (t != 7) & (t != 10)) | ((64 <= t) & (t <= 96))
}

// May register t be written with v?
#[tactic(auto, unfolding(crate::specs::Decode::register_allowed))]
fn is_register_allowed(ecan: bool, t: u32, v: u32) -> bool
    ensures { result ≡ register_allowed ecan t v }
{
    match t {
        // stays written out, here and in `good`: bits 30 and 29, one comparison each time
        8 | 9 | 64..=95 => v / 536870912 % 4 == 0,
        11 => ecan | (v < 0x8000_0000),
        15 | 16 => v < 256,
        17 | 18 => v < 1024,
        19 => v == 0,
        _ => true,
    }
}

// Operation 0.
#[tactic(auto, unfolding(crate::specs::Decode::decoded_as))]
pub fn register_event(asleep: bool, ecan: bool, e: &EventBytes) -> Result<Event, Refusal>
    ensures { or_refused result ≡ decoded_as 0 asleep ecan e.now }
{
    let t = target(e);
    let v = value(e);
    demand(is_writable(t), Refusal::Unknown)?;
    demand(!asleep, Refusal::Asleep)?;
    demand(
        quiet(e, true, false, true, 0) & is_register_allowed(ecan, t, v),
        Refusal::NotAllowed,
    )?;
    Ok(Event::Register {
        target: t,
        value: v,
    })
}

// Operation 1.
#[tactic(auto, unfolding(crate::specs::Decode::decoded_as))]
pub fn mailbox_event(asleep: bool, e: &EventBytes) -> Result<Event, Refusal>
    ensures { or_refused result ≡ decoded_as 1 asleep false e.now }
{
    let t = target(e);
    let k = words::byte_at(e, 2);
    let v = value(e);
    demand((t <= 31) & (k <= 3), Refusal::Unknown)?;
    demand(!asleep, Refusal::Asleep)?;
    demand(
        quiet(e, true, true, true, 0) & mailboxes::word_layout(k, v),
        Refusal::NotAllowed,
    )?;
    Ok(Event::Mailbox {
        target: t,
        word: k,
        value: v,
    })
}

// Operation 9.
#[tactic(auto, unfolding(crate::specs::Decode::decoded_as))]
pub fn options_event(asleep: bool, e: &EventBytes) -> Result<Event, Refusal>
    ensures { or_refused result ≡ decoded_as 9 asleep false e.now }
{
    let v = value(e);
    demand(!asleep, Refusal::Asleep)?;
    demand(
        quiet(e, false, false, true, 0) & (v <= 3),
        Refusal::NotAllowed,
    )?;
    Ok(Event::Options { value: v })
}
