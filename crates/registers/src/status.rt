// What the registers say of the unit's state.
ghost use Rattle.std.specs.Prelude.{◌≡◌};
ghost use Rattle.registers.specs.Status.{vacant, ecan, asleep, bus_off, passive, warning};

use crate::{BUS_OFF_AT, Block, E_CAN, EMPTY_SLOT, SLEEP};

impl Block {
    // Is no mailbox in the slot?
    pub fn is_vacant(self) -> bool
        ensures { result ≡ vacant self }
    {
        self.slot == EMPTY_SLOT
    }

    pub fn is_ecan(self) -> bool
        ensures { result ≡ ecan self }
    {
        self.profile == E_CAN
    }

    pub fn is_asleep(self) -> bool
        ensures { result ≡ asleep self }
    {
        self.mode == SLEEP
    }

    pub fn is_bus_off(self) -> bool
        ensures { result ≡ bus_off self }
    {
        self.tec == BUS_OFF_AT
    }

    pub fn is_passive(self) -> bool
        ensures { result ≡ passive self }
    {
        (127 < self.tec) | (127 < self.rec)
    }

    pub fn is_warned(self) -> bool
        ensures { result ≡ warning self }
    {
        (96 < self.tec) | (96 < self.rec)
    }
}
