// The small writers: what storing a frame and sending one write into a lent mailbox.
ghost use Rattle.std.specs.Prelude.{◌≡◌, ◌+◌, ◌*◌, ◌^◌, ◌<◌, ◌≤◌, length};
ghost use Rattle.mailboxes.specs.Mailbox.{mailbox, with_mailbox};
ghost use Rattle.mailboxes.specs.Filing.{highest_dlc, most_data_bytes, data_bytes, filed_identifier, filed_control, data_of, spliced as spliced_of, with_data, filed, stamped};

use crate::{IDENTIFIERS, Identifier, MAILBOX_BYTES};

// The highest DLC of a frame, and the most data bytes that one carries.
pub const HIGHEST_DLC: u32 = 15;

const MOST_DATA_BYTES: u32 = 8;

// Where the data words stand in a mailbox.
const DATA_AT: usize = 8;

// How many data bytes a frame brings.
pub fn data_bytes(rtr: bool, dlc: u32) -> u32
    ensures { result ≡ data_bytes rtr dlc }
{
    bits::choose(rtr, 0, dlc.min(MOST_DATA_BYTES))
}

fn filed_identifier(old: u32, ide: bool, i: Identifier) -> u32
    requires { i.0 < 2 ^ 29 }
    ensures { result ≡ filed_identifier old ide i }
{
    bits::flag(ide, 31) + old / IDENTIFIERS % 4 * IDENTIFIERS + i.0
}

// stays: the ranges of counter and DLC are clauses, here and below: a block is made of any image, and a frame of any bytes
fn filed_control(tsc: u32, rtr: bool, dlc: u32) -> u32
    requires { (tsc < 65536) × (dlc ≤ highest_dlc) }
    ensures { result ≡ filed_control tsc rtr dlc }
{
    tsc * 65536 + bits::flag(rtr, 4) + dlc
}

// The first n bytes of new, and above them the bytes of old. All eight are 64 bits, too many for a shift.
fn spliced(old: u64, new: u64, n: u32) -> u64
    requires { n ≤ most_data_bytes }
    ensures { result ≡ spliced_of old new n }
{
    if n == MOST_DATA_BYTES {
        return new;
    }
    let unit = 1u64 << (8 * n);
    (old - old % unit) | (new % unit)
}

fn data_of(m: &[u8]) -> u64
    requires { length m.now ≡ 16 }
    ensures { result ≡ data_of m.now }
{
    words::long_at(m, DATA_AT)
}

fn put_data(m: &mut [u8], d: u64)
    requires { length m.old ≡ 16 }
    ensures { m.new ≡ with_data m.old d }
{
    words::put_long(m, DATA_AT, d)
}

// A frame into 16 lent bytes. stays: they are a slice with a clause, here and in
// `write_word`: `as_mut_array` gives an `Option`, and `as_chunks_mut` says nothing of what the slice ends as.
fn file(m: &mut [u8], ide: bool, rtr: bool, i: Identifier, dlc: u32, bytes: u64, tsc: u32)
    requires { (length m.old ≡ 16) × (i.0 < 2 ^ 29) × (dlc ≤ highest_dlc) × (tsc < 65536) }
    ensures { m.new ≡ filed m.old ide rtr i dlc bytes tsc }
{
    let d = spliced(data_of(m), bytes, data_bytes(rtr, dlc));
    let w = filed_identifier(words::word_at(m, 0), ide, i);
    words::put_word(m, 0, w);
    words::put_word(m, 4, filed_control(tsc, rtr, dlc));
    put_data(m, d);
}

// A frame into mailbox n: its own part of the image is lent to the writer. stays: the frame comes in parts, since
// `Frame` is of events, a crate above, and `filed` has them so.
pub fn put_frame(
    s: &mut [u8],
    n: usize,
    ide: bool,
    rtr: bool,
    i: Identifier,
    dlc: u32,
    bytes: u64,
    tsc: u32,
)
    requires { (16 * n + 16 ≤ length s.old) × (n < 32) × (i.0 < 2 ^ 29) × (dlc ≤ highest_dlc) × (tsc < 65536) }
    ensures { s.new ≡ with_mailbox s.old n (filed (mailbox s.old n) ide rtr i dlc bytes tsc) }
{
    let a = MAILBOX_BYTES * n;
    let e = a + MAILBOX_BYTES;
    file(&mut s[a..e], ide, rtr, i, dlc, bytes, tsc)
}

// The time stamp into 16 lent bytes.
fn stamp(m: &mut [u8], tsc: u32)
    requires { (length m.old ≡ 16) × (tsc < 65536) }
    ensures { m.new ≡ stamped m.old tsc }
{
    let w = words::word_at(m, 4);
    words::put_word(m, 4, tsc * 65536 + w % 65536);
}

// The time stamp into mailbox n.
pub fn put_stamp(s: &mut [u8], n: usize, tsc: u32)
    requires { (16 * n + 16 ≤ length s.old) × (n < 32) × (tsc < 65536) }
    ensures { s.new ≡ with_mailbox s.old n (stamped (mailbox s.old n) tsc) }
{
    let a = MAILBOX_BYTES * n;
    let e = a + MAILBOX_BYTES;
    stamp(&mut s[a..e], tsc)
}
