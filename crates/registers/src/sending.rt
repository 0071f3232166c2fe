// What starting and its outcome do to the block.
ghost use Rattle.std.specs.Prelude.{◌≡◌, ◌≤◌};
ghost use Rattle.registers.specs.Block.{empty_slot};
ghost use Rattle.registers.specs.Sending.{eligible as eligible_of, started, sent, failed, added as added_by, concluded};

use crate::{BUS_OFF_AT, Block, EMPTY_SLOT};

impl Block {
    // The mailboxes that may start.
    pub fn eligible(self) -> u32
        ensures { result ≡ eligible_of self }
    {
        bits::without(bits::without(self.trs & self.mc, self.cdr), self.trr)
    }

    // Mailbox n goes into the slot.
    pub fn start(mut self, n: u32) -> Block
        ensures { result ≡ started self n }
    {
        self.slot = n;
        self
    }

    // The slot's mailbox was sent.
    fn send(mut self) -> Block
        requires { self.slot ≤ empty_slot }
        ensures { result ≡ sent self }
    {
        let x = self.slot_mask();
        self.trs = bits::without(self.trs, x);
        self.trr = bits::without(self.trr, x);
        self.ta = self.ta | x;
        self.mbtif = self.mbtif | (self.mbim & x);
        self.tec = self.tec.saturating_sub(1);
        self.slot = EMPTY_SLOT;
        self
    }

    // It was not; TEC rises by `more`.
    fn fail(mut self, more: u32) -> Block
        requires { (self.slot ≤ empty_slot) × (self.tec ≤ 256) × (more ≤ 8) }
        ensures { result ≡ failed self more }
    {
        let x = self.slot_mask() & self.trr;
        self.trs = bits::without(self.trs, x);
        self.trr = bits::without(self.trr, x);
        self.aa = self.aa | x;
        self.gif = self.gif | bits::flag(x != 0, 4);
        self.tec = (self.tec + more).min(BUS_OFF_AT);
        self.slot = EMPTY_SLOT;
        self
    }

    // What an outcome adds to TEC: an error (2) 8, and so does a missing acknowledgement (3), unless the unit is passive.
    fn added(self, kind: u32) -> u32
        ensures { result ≡ added_by self kind }
    {
        bits::choose((kind == 2) | ((kind == 3) & !self.is_passive()), 8, 0)
    }

    // What an outcome does: 0 is sent. The outcomes stay numbers, as `concluded` has them: the events bring them.
    pub fn conclude(self, kind: u32) -> Block
        requires { (self.slot ≤ empty_slot) × (self.tec ≤ 256) }
        ensures { result ≡ concluded self kind }
    {
        if kind == 0 {
            self.send()
        } else {
            self.fail(self.added(kind))
        }
    }
}
