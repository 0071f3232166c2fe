// The lines of a listing, put into lent bytes; each function answers the place behind what it wrote.
// stays two parameters, the bytes and the place: `texts::put_text` and `put_field` have them, and `Put` speaks of them one by one.
ghost use Rattle.std.specs.Prelude.{◌+◌, ◌≤◌, length};
ghost use Rattle.texts.specs.Text.{Put};
ghost use Rattle.trace.specs.Trace.{line_of, header, refused_line, ending};

use texts::{put_field, put_text};

// The line that a listing begins with.
pub fn put_header(out: &mut [u8], at: usize) -> usize
    requires { at + length header ≤ length out.old }
    ensures { Put out.old at header out.new result }
{
    put_text(out, at, b"step code mailbox count\n")
}

// The line of a file that is no trace, which stands alone.
pub fn put_refused(out: &mut [u8], at: usize) -> usize
    requires { at + length refused_line ≤ length out.old }
    ensures { Put out.old at refused_line out.new result }
{
    put_text(out, at, b"trace refused 8\n")
}

// The line of an event.
pub fn put_line(
    out: &mut [u8],
    at: usize,
    number: u64,
    code: u64,
    mailbox: u64,
    count: u64,
) -> usize
    requires { at + length (line_of number code mailbox count) ≤ length out.old }
    ensures { Put out.old at (line_of number code mailbox count) out.new result }
{
    let a = put_field(out, at, number, b' ');
    let b = put_field(out, a, code, b' ');
    let c = put_field(out, b, mailbox, b' ');
    put_field(out, c, count, b'\n')
}

// The line that ends a listing.
pub fn put_ending(out: &mut [u8], at: usize, n: u64) -> usize
    requires { at + length (ending n) ≤ length out.old }
    ensures { Put out.old at (ending n) out.new result }
{
    let a = put_text(out, at, b"end ");
    put_field(out, a, n, b'\n')
}
