// What a call leaves and answers, in one number.
#![tactic(auto)]

ghost use Rattle.std.specs.Prelude.{◌≡◌};
ghost use Rattle.answers.specs.Answer.{no_mailbox, packed, packed_reading};
ghost use Rattle.answers.specs.Refusals.{number_of};

// Why a call is refused, and the number that C sees: what is asked first stands first. The step's own end with Pointless.
#[derive(Clone, Copy)]
pub enum Refusal {
    NoModel = 1,
    Unknown = 2,
    Asleep = 3,
    NotAllowed = 4,
    Busy = 5,
    Locked = 6,
    Pointless = 7,
    NoTrace = 8,
    NoRoom = 9,
}

impl Refusal {
    // The number that C sees. stays a method, and no `From`: contracts name it, as `number_of`.
    pub fn number(self) -> u32
        ensures { result ≡ number_of self }
    {
        self as u32
    }
}

// The mailbox that an answer names where it names none.
pub const NO_MAILBOX: u32 = 32;

// Refusal, mailbox and count of a call. stays: three numbers, as C has them in its answer; a step hands on any refusal that its event has.
// What is accepted is written out, `pack(0, NO_MAILBOX, count)`: a function would only leave two of three arguments out.
pub fn pack(refusal: u32, mailbox: u32, count: u32) -> u64
    ensures { result ≡ packed refusal mailbox count }
{
    u64::from(refusal) + 256 * u64::from(mailbox) + 65536 * u64::from(count)
}

// Refusal and value of a register read. stays: two numbers, as C has them in its answer.
pub fn pack_reading(refusal: u8, value: u32) -> u64
    ensures { result ≡ packed_reading refusal value }
{
    u64::from(value) + 4294967296 * u64::from(refusal)
}

// The answer of a refused call.
pub fn refuse(why: Refusal) -> u64
    ensures { result ≡ packed (number_of why) no_mailbox 0 }
{
    pack(why.number(), NO_MAILBOX, 0)
}
