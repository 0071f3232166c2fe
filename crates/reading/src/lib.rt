// Reading a register.
#![tactic(auto)]

mod gsr;

ghost use Rattle.std.specs.Prelude.{◌≡◌, true, ◌≤◌, MatchResult};
ghost use Rattle.registers.specs.Status.{ecan};
ghost use Rattle.good.specs.Good.{good_image};
ghost use Rattle.answers.specs.Answer.{ReadPromise, unread};
ghost use Rattle.answers.specs.Refusals.{number_of};
ghost use Rattle.reading.specs.Read.{readable, place_of, sleeping_value, value as value_of, read as read_of};

use answers::Refusal;
use registers::Loaded;

const GSR: u32 = 32;

// May this register be read?
// stays: a register is its number, since any number comes in by frostsorrel_read, and its place in the image is computed from it.
fn is_readable(ecan: bool, number: u32) -> bool
    ensures { result ≡ readable ecan number }
{
    (number <= 21) | (!ecan & (number == GSR)) | ((64 <= number) & (number <= 96))
}

// Where the word of a register stands in the image.
fn place(number: u32) -> usize
    requires { number ≤ 96 }
    ensures { result ≡ place_of number }
{
    let n = number as usize;
    if 64 <= n {
        return registers::REGISTERS_AT + 4 * (n - 32);
    }
    registers::REGISTERS_AT + 4 * n
}

// What a register reads asleep.
fn sleeping_value(number: u32) -> u32
    ensures { result ≡ sleeping_value number }
{
    if number == GSR { 0x0001_F040 } else { 0 }
}

// What a register reads in a good image.
fn value(m: Loaded, number: u32) -> u32
    requires { (good_image m.image.now ≡ true) × (readable (ecan m.block) number ≡ true) }
    ensures { result ≡ value_of m.entry.image.now number }
{
    if m.block.is_asleep() {
        return sleeping_value(number);
    }
    if number == GSR {
        return gsr::gsr(m.block);
    }
    let image = m.image;
    words::word_at(image, place(number))
}

// Any bytes, any number: the value, or why there is none.
fn value_or_why(image: &[u8], number: u32) -> Result<u32, Refusal>
    ensures { MatchResult result (λ v. read_of image.now number ≡ record { refusal = 0; value = v }) (λ why. read_of image.now number ≡ unread (number_of why)) }
{
    let image = good::as_good_image(image).ok_or(Refusal::NoModel)?;
    let m = Loaded::load(image);
    if !is_readable(m.block.is_ecan(), number) {
        return Err(Refusal::Unknown);
    }
    Ok(value(m, number))
}

// Any bytes, any number: value and refusal, packed.
pub fn read(image: &[u8], number: u32) -> u64
    ensures { ReadPromise (read_of image.now number) result }
{
    match value_or_why(image, number) {
        Ok(v) => answers::pack_reading(0, v),
        Err(why) => answers::pack_reading(why.number() as u8, 0),
    }
}
