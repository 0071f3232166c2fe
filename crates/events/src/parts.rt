// The 16 bytes of an event.
ghost use Rattle.std.specs.Prelude.{◌≡◌, ◌≤◌};
ghost use Rattle.mailboxes.specs.Filing.{most_data_bytes};
ghost use Rattle.events.specs.Parts.{target as target_of, value as value_of, payload as payload_of, quiet as quiet_of};

use crate::EventBytes;

pub fn target(e: &EventBytes) -> u32
    ensures { result ≡ target_of e.now }
{
    words::byte_at(e, 1)
}

pub fn value(e: &EventBytes) -> u32
    ensures { result ≡ value_of e.now }
{
    words::word_at(e, 4)
}

// The eight data bytes as one number.
pub fn payload(e: &EventBytes) -> u64
    ensures { result ≡ payload_of e.now }
{
    words::long_at(e, 8)
}

// Is zero what an operation does not use? t, w and v say whether it has a target, a word, a value; n how many data bytes.
// Two shifts, since eight bytes are all 64 bits.
// stays: three flags, as the definition has them; a struct of them would be written out at each call
#[tactic(auto, using(crate::proofs::Laws::halves), unfolding(crate::specs::Parts::quiet))]
pub fn quiet(e: &EventBytes, t: bool, w: bool, v: bool, n: u32) -> bool
    requires { n ≤ most_data_bytes }
    ensures { result ≡ quiet_of e.now t w v n }
{
    (t | (words::byte_at(e, 1) == 0))
        & (w | (words::byte_at(e, 2) == 0))
        & (words::byte_at(e, 3) == 0)
        & (v | (words::word_at(e, 4) == 0))
        & (payload(e) >> (4 * n) >> (4 * n) == 0)
}
