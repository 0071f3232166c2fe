// What the firmware's register writes do.
ghost use Rattle.std.specs.Prelude.{◌≡◌, ◌≤◌};
ghost use Rattle.registers.specs.Block.{empty_slot};
ghost use Rattle.registers.specs.Writes.{slot_mask, direction as direction_of, requested as requested_of, cancelled as cancelled_of, released as released_of, noted as noted_of, written as written_of};

use crate::Block;

impl Block {
    // The mailbox in the slot as a flag word. That the slot is one of 33 stays a clause, here and wherever a slot is asked for: `Block::load` makes a block of any image,
    // and `good_slot` has to ask it of a bad one.
    pub fn slot_mask(self) -> u32
        requires { self.slot ≤ empty_slot }
        ensures { result ≡ slot_mask self }
    {
        if self.is_vacant() {
            return 0;
        }
        bits::mask(self.slot)
    }

    // MD: the value, but mailbox 31 of a CAN-B goes on receiving.
    pub fn direction(self, v: u32) -> u32
        ensures { result ≡ direction_of self v }
    {
        if self.is_ecan() { v } else { bits::set(v, 31) }
    }

    // TRS: a 1 asks for a sending, at transmit mailboxes only.
    fn request(mut self, v: u32) -> Block
        ensures { result ≡ requested_of self v }
    {
        self.trs = self.trs | bits::without(v, self.md);
        self
    }

    // TRR: the request in the slot gets its cancel bit, each other one ends at once.
    fn cancel(mut self, v: u32) -> Block
        requires { self.slot ≤ empty_slot }
        ensures { result ≡ cancelled_of self v }
    {
        let slot = self.slot_mask();
        let named = v & self.trs;
        let ending = bits::without(named, slot);
        self.trr = self.trr | (named & slot);
        self.trs = bits::without(self.trs, ending);
        self.aa = self.aa | ending;
        self.gif = self.gif | bits::flag(ending != 0, 4);
        self
    }

    // RMP: a 1 releases the frame, with its lost and remote flags.
    fn release(mut self, v: u32) -> Block
        ensures { result ≡ released_of self v }
    {
        self.rmp = bits::without(self.rmp, v);
        self.rml = bits::without(self.rml, v);
        self.rfp = bits::without(self.rfp, v);
        self
    }

    // GIF: a 1 clears, and bit 3 clears TSO with it.
    fn note(mut self, v: u32) -> Block
        ensures { result ≡ noted_of self v }
    {
        self.gif = bits::without(self.gif, v);
        self.tso = bits::choose(bits::test(v, 3), 0, self.tso);
        self
    }

    // Register t written with v, as a table: the value is taken, or a 1 clears, or one of the rules above. The registers stay numbers, as
    // `written` has them: firmware may write any.
    pub fn write(mut self, t: u32, v: u32) -> Block
        requires { self.slot ≤ empty_slot }
        ensures { result ≡ written_of self t v }
    {
        match t {
            0 => self.mc = v,
            1 => {
                let md = self.direction(v);
                self.md = md;
            }
            2 => return self.request(v),
            3 => return self.cancel(v),
            4 => self.ta = bits::without(self.ta, v),
            5 => self.aa = bits::without(self.aa, v),
            6 => return self.release(v),
            7 => {}
            8 => self.lam = v,
            9 => self.gam = v,
            10 => {}
            11 => self.cdr = v,
            12 => self.mbtif = bits::without(self.mbtif, v),
            13 => self.mbrif = bits::without(self.mbrif, v),
            14 => self.mbim = v,
            15 => return self.note(v),
            16 => self.gim = v,
            17 => self.bcr1 = v,
            18 => self.bcr2 = v,
            19 => self.tsc = v,
            96 => self.protection = v,
            _ => {}
        }
        self
    }
}
