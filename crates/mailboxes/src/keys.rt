// Identifiers and arbitration keys. stays: functions, and no From: document 01 wants one function that makes keys, and the definitions name these.
ghost use Rattle.std.specs.Prelude.{◌≡◌, ◌+◌, ◌<◌};
ghost use Rattle.bits.specs.Bit.{flag};
ghost use Rattle.mailboxes.specs.Arbitration.{identifier_of, key_of};

use crate::{EXTENSIONS, IDENTIFIERS, Identifier, Key};

// The identifier in word 0 of a mailbox.
pub fn identifier_of(w: u32) -> Identifier
    ensures { result ≡ identifier_of w }
{
    Identifier(w % IDENTIFIERS)
}

// IDE and identifier, where word 0 of a mailbox has them.
pub fn word_of(i: Identifier, ide: bool) -> u32
    requires { i.0 < 536870912 }
    ensures { result ≡ flag ide 31 + i.0 }
{
    bits::flag(ide, 31) + i.0
}

// The one place where a key is made.
pub fn key_of(i: Identifier, ide: bool, rtr: bool) -> Key
    ensures { result ≡ key_of i ide rtr }
{
    let base = (i.0 / EXTENSIONS % 2048) * 2097152;
    let rest = (i.0 % EXTENSIONS) * 2 + bits::flag(rtr, 0);
    Key(base + bits::flag(ide | rtr, 20) + bits::flag(ide, 19) + bits::choose(ide, rest, 0))
}
