// The status word GSR.
ghost use Rattle.std.specs.Prelude.{◌≡◌, ◌≤◌};
ghost use Rattle.registers.specs.Block.{empty_slot};
ghost use Rattle.reading.specs.Gsr.{shown_slot, gsr as gsr_of};

use registers::Block;

// The slot as it is shown.
fn shown_slot(b: Block) -> u32
    ensures { result ≡ shown_slot b }
{
    bits::choose(b.is_vacant(), 31, b.slot)
}

// Register 32, by shifts and masks.
pub fn gsr(b: Block) -> u32
    requires { b.slot ≤ empty_slot }
    ensures { result ≡ gsr_of b }
{
    (shown_slot(b) << 12)
        | bits::flag(!b.is_vacant(), 10)
        | bits::flag(b.mode == registers::SUSPEND, 8)
        | bits::flag(b.mode == registers::CONFIGURATION, 7)
        | bits::flag(b.is_asleep(), 6)
        | bits::flag(b.tso == 1, 3)
        | bits::flag(b.is_bus_off(), 2)
        | bits::flag(b.is_passive(), 1)
        | bits::flag(b.is_warned(), 0)
}
