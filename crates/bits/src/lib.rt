// Flag words: one bit for each mailbox. Everything here is said for any bit number. That it is below 32 stays a clause, here and
// wherever a mailbox goes by its number: most calls have the number written out, or count it, and a struct would be made and taken apart at each.
#![tactic(auto)]

ghost use Rattle.std.specs.Prelude.{◌≡◌, ◌<◌, cond};
ghost use Rattle.bits.specs.Bit.{bit, mask as mask_of, set_bit, without as without_of, flag as flag_of, Highest};

// The word whose only bit is n.
pub fn mask(n: u32) -> u32
    requires { n < 32 }
    ensures { result ≡ mask_of n }
{
    1u32 << n
}

// Is bit n of w up?
pub fn test(w: u32, n: u32) -> bool
    requires { n < 32 }
    ensures { result ≡ bit w n }
{
    (w >> n) & 1 == 1
}

// w without the bits of v.
pub fn without(w: u32, v: u32) -> u32
    ensures { result ≡ without_of w v }
{
    w & !v
}

// w with bit n up.
pub fn set(w: u32, n: u32) -> u32
    requires { n < 32 }
    ensures { result ≡ set_bit w n }
{
    w | mask(n)
}

// Bit n where t holds, no bit where it does not.
pub fn flag(t: bool, n: u32) -> u32
    requires { n < 32 }
    ensures { result ≡ flag_of t n }
{
    if t { mask(n) } else { 0 }
}

// One of two words: a choice inside a word, not between blocks.
pub fn choose(t: bool, a: u32, b: u32) -> u32
    ensures { result ≡ cond t a b }
{
    if t { a } else { b }
}

// The number of the highest bit of w. stays with leading_zeros: ilog2 promises a power of two, and this a bit.
pub fn highest(w: u32) -> u32
    requires { 0 < w }
    ensures { Highest w result }
{
    31 - u32::leading_zeros(w)
}
