// What a frame does to the block.
ghost use Rattle.std.specs.Prelude.{◌≡◌, ◌<◌};
ghost use Rattle.registers.specs.Frames.{fallen as fallen_of, wakened, listened, stored, replied};

use crate::{Block, NORMAL};

// REC after a heard frame.
fn fallen(r: u32) -> u32
    ensures { result ≡ fallen_of r }
{
    bits::choose(127 < r, 127, r.saturating_sub(1))
}

impl Block {
    fn is_wakened(self) -> bool
        ensures { result ≡ wakened self }
    {
        self.is_asleep() & bits::test(self.options, 1)
    }

    // What any frame does, whoever wants it.
    pub fn listen(mut self) -> Block
        ensures { result ≡ listened self }
    {
        let wakes = self.is_wakened();
        self.rec = bits::choose(self.is_on_bus(), fallen(self.rec), self.rec);
        self.mode = bits::choose(wakes, NORMAL, self.mode);
        self.gif = self.gif | bits::flag(wakes, 6);
        self
    }

    // A frame stored in mailbox n.
    pub fn hold(mut self, n: u32, rtr: bool) -> Block
        requires { n < 32 }
        ensures { result ≡ stored self n rtr }
    {
        let x = bits::mask(n);
        let lost = bits::flag(bits::test(self.rmp, n), 5);
        let remote = bits::flag(rtr, 7);
        self.rml = self.rml | (self.rmp & x);
        self.rmp = self.rmp | x;
        self.rfp = bits::choose(rtr, self.rfp | x, bits::without(self.rfp, x));
        self.mbrif = self.mbrif | (self.mbim & x);
        self.gif = self.gif | lost | remote;
        self
    }

    // A remote frame at transmit mailbox n with RFH 1.
    pub fn reply(mut self, n: u32) -> Block
        requires { n < 32 }
        ensures { result ≡ replied self n }
    {
        self.trs = bits::set(self.trs, n);
        self
    }
}
