// Counters, modes, ticks.
ghost use Rattle.std.specs.Prelude.{◌≡◌, ◌<◌, ◌≤◌};
ghost use Rattle.registers.specs.Modes.{on_bus, overflows, ticked as ticked_of, worsened as worsened_of, recovers, recessive as recessive_of, optioned, asked, risen as risen_of, ready, entered, settled as settled_of};

use crate::{BUS_OFF_AT, Block, NO_MODE, NORMAL, SLEEP};

impl Block {
    // Does the unit take part on the bus?
    pub fn is_on_bus(self) -> bool
        ensures { result ≡ on_bus self }
    {
        (self.mode == NORMAL) & (self.tec < BUS_OFF_AT)
    }

    fn is_overflowing(self) -> bool
        ensures { result ≡ overflows self }
    {
        !self.is_asleep() & (self.tsc == 65535)
    }

    // A tick of the time stamp counter.
    pub fn tick(mut self) -> Block
        requires { self.tsc < 65536 }
        ensures { result ≡ ticked_of self }
    {
        let over = self.is_overflowing();
        self.tsc = bits::choose(self.is_asleep(), self.tsc, (self.tsc + 1) % 65536);
        self.tso = bits::choose(over, 1, self.tso);
        self.gif = self.gif | bits::flag(over, 3);
        self
    }

    // A receive error that adds v.
    pub fn worsen(mut self, v: u32) -> Block
        requires { (self.rec ≤ 255) × (v ≤ 8) }
        ensures { result ≡ worsened_of self v }
    {
        self.rec = bits::choose(self.is_on_bus(), (self.rec + v).min(255), self.rec);
        self
    }

    fn is_recovering(self) -> bool
        ensures { result ≡ recovers self }
    {
        self.is_bus_off() & (self.recovery == 127)
    }

    // Eleven recessive bits.
    pub fn recess(mut self) -> Block
        requires { self.recovery ≤ 127 }
        ensures { result ≡ recessive_of self }
    {
        let off = self.is_bus_off();
        let done = self.is_recovering();
        self.tec = bits::choose(done, 0, self.tec);
        self.rec = bits::choose(done, 0, self.rec);
        self.recovery = bits::choose(off, (self.recovery + 1) % 128, self.recovery);
        self
    }

    pub fn with_options(mut self, v: u32) -> Block
        ensures { result ≡ optioned self v }
    {
        self.options = v;
        self
    }

    // A mode is asked for: it waits.
    pub fn ask(mut self, m: u32) -> Block
        ensures { result ≡ asked self m }
    {
        self.waiting = bits::choose(m == self.mode, NO_MODE, m);
        self
    }

    // GIF bits 2, 1 and 0, by the block before the step and now.
    pub fn rise(mut self, before: Block) -> Block
        ensures { result ≡ risen_of before self }
    {
        let off = bits::flag(self.is_bus_off() & !before.is_bus_off(), 2);
        let passive = bits::flag(self.is_passive() & !before.is_passive(), 1);
        let warned = bits::flag(self.is_warned() & !before.is_warned(), 0);
        self.gif = self.gif | off | passive | warned;
        self
    }

    fn is_ready(self) -> bool
        ensures { result ≡ ready self }
    {
        (self.waiting != NO_MODE) & (self.is_vacant() & (self.tec < BUS_OFF_AT))
    }

    // The waiting mode is taken.
    fn enter(mut self) -> Block
        ensures { result ≡ entered self }
    {
        let sleeps = self.waiting == SLEEP;
        let wakes = self.is_asleep() & (self.waiting == NORMAL);
        self.trs = bits::choose(sleeps, 0, self.trs);
        self.trr = bits::choose(sleeps, 0, self.trr);
        self.tec = bits::choose(sleeps, 0, self.tec);
        self.rec = bits::choose(sleeps, 0, self.rec);
        self.gif = self.gif | bits::flag(wakes, 6);
        self.mode = self.waiting;
        self.waiting = NO_MODE;
        self
    }

    // The end of every accepted step.
    pub fn settle(self) -> Block
        ensures { result ≡ settled_of self }
    {
        if self.is_ready() { self.enter() } else { self }
    }
}
