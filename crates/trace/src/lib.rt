// The trace program's library: a trace file in, its listing out.
#![tactic(auto)]

ghost use Rattle.std.specs.Prelude.{◌≡◌, true, ◌+◌, ◌*◌, ◌%◌, ◌<◌, ◌≤◌, ◌++◌, length, get_or};
ghost use Rattle.model.specs.Step.{step as step_of};
ghost use Rattle.registers.specs.Block.{can_b};
ghost use Rattle.fresh.specs.Fresh.{fresh_image};
ghost use Rattle.texts.specs.Text.{Put};
ghost use Rattle.trace.specs.Trace.{count_at, end_of, second, third, takes as takes_of, placed, sound, well_formed, section as section_of, events, line, lines, image_after, run as run_of, longest, Listed};

pub mod text;

use events::EventBytes;
use registers::Image;
use text::{put_ending, put_header, put_line, put_refused};

// So many bytes have room for any listing.
pub const LONGEST: usize = 39033;

// A byte of the file; 0 past its end. stays a function of places: a count may lack a byte, or both, and then they count as 0.
fn byte_at(file: &[u8], at: usize) -> usize
    ensures { (result ≡ get_or file.now at 0) × (result < 256) }
{
    file.get(at).map_or(0, |&x| usize::from(x))
}

// The count that a section begins with. stays: the bound of a place is a clause, here and below; a type for it would be taken apart at each sum.
fn count_at(file: &[u8], at: usize) -> usize
    requires { at < 4294967296 }
    ensures { (result ≡ count_at file.now at) × (result < 65536) }
{
    byte_at(file, at) + 256 * byte_at(file, at + 1)
}

// Where a section's events end.
fn end_of(file: &[u8], at: usize) -> usize
    requires { at < 4294967296 }
    ensures { (result ≡ end_of file.now at) × (result ≤ at + 1048562) }
{
    at + 2 + 16 * count_at(file, at)
}

// Does the k-th section take this operation?
// stays with numbers: public, for any k and any byte of a file (`takes` in specs/Trace.antt), and the stream asks it by what it has loaded.
pub fn takes(k: usize, op: usize) -> bool
    ensures { result ≡ takes_of k op }
{
    (k == 3) | ((k == 1) & (op == 1) | (k == 2) & ((op == 0) | (op == 9)))
}

// Are n events from `from` on in their place in the k-th section? Past the file's end a byte counts as 0, so they need not be in it.
fn is_placed(k: usize, file: &[u8], from: usize, n: usize) -> bool
    requires { (from < 8589934592) × (n < 65536) }
    ensures { result ≡ placed k file.now from n }
{
    (0..n).all(|i| takes(k, byte_at(file, from + 16 * i)))
}

// Is the section at `at` a k-th one?
fn is_sound(k: usize, file: &[u8], at: usize) -> bool
    requires { at < 4294967296 }
    ensures { result ≡ sound k file.now at }
{
    let n = count_at(file, at);
    (n <= 1000) & is_placed(k, file, at + 2, n)
}

// Is the file a trace? It is judged whole before anything is listed.
// stays a bool: public, and promised as `well_formed`; the refusal that it stands for has one line and no reason to tell.
pub fn is_trace(file: &[u8]) -> bool
    ensures { result ≡ well_formed file.now }
{
    let second = end_of(file, 0);
    let third = end_of(file, second);
    let end = end_of(file, third);
    is_sound(1, file, 0)
        & is_sound(2, file, second)
        & is_sound(3, file, third)
        & (end == file.len())
}

// One event: its step, and its line, refused or not.
// stays with slices: public, for lent bytes of any length; the stream calls it with the image and the event that C lent. The
// step's answer is C's packed number.
pub fn run_event(image: &mut [u8], event: &[u8], out: &mut [u8], at: usize, number: u64) -> usize
    requires { at + length (line number (step_of image.old event.now)) ≤ length out.old }
    ensures { (Put out.old at (line number (step_of image.old event.now)) out.new result) × (image.new ≡ (step_of image.old event.now).image) }
{
    let answer = model::step(image, event);
    put_line(
        out,
        at,
        number,
        answer % 256,
        answer / 256 % 256,
        answer / 65536,
    )
}

// The events of the section that begins at `start`.
fn section(file: &[u8], start: usize) -> &[EventBytes]
    requires { (end_of file.now start ≤ length file.now) × (start < 4294967296) }
    ensures { (result.now ≡ section_of file.now start) × (length result.now ≡ count_at file.now start) }
{
    let (events, _) = file[start + 2..end_of(file, start)].as_chunks();
    events
}

// The events of a trace, by its three sections.
#[derive(Clone, Copy)]
struct Sections<'a> {
    first: &'a [EventBytes],
    second: &'a [EventBytes],
    third: &'a [EventBytes],
    ghost few: { length first.now + (length second.now + length third.now) ≤ 3000 },
}

impl<'a> Sections<'a> {
    // Those of a file that is a trace.
    fn of(file: &'a [u8]) -> Sections<'a>
        requires { well_formed file.now ≡ true }
        ensures { result.first.now ++ (result.second.now ++ result.third.now) ≡ events file.now }
    {
        let second = end_of(file, 0);
        let third = end_of(file, second);
        Sections {
            first: section(file, 0),
            second: section(file, second),
            third: section(file, third),
        }
    }

    // How many events they have.
    fn count(self) -> u64
        ensures { result ≡ length (self.entry.first.now ++ (self.entry.second.now ++ self.entry.third.now)) }
    {
        (self.first.len() + self.second.len() + self.third.len()) as u64
    }
}

// The events of a section, numbered on from `first`.
fn run_section(
    image: &mut Image,
    events: &[EventBytes],
    out: &mut [u8],
    at: usize,
    first: u64,
) -> usize
    requires { (length events.now ≤ 3000) × (first ≤ 3001) × (at + length (lines first image.old events.now) ≤ length out.old) }
    ensures { Put out.old at (lines first image.old events.now) out.new result × (image.new ≡ image_after image.old events.now) }
{
    let mut place = at;
    for (i, event) in events.iter().enumerate() {
        place = run_event(image, event, out, place, first + i as u64);
    }
    place
}

// All three sections, from a fresh model on.
fn run_all(trace: Sections, out: &mut [u8], at: usize) -> usize
    requires { at + length (lines 1 (fresh_image can_b) (trace.first.now ++ (trace.second.now ++ trace.third.now))) ≤ length out.old }
    ensures { Put out.old at (lines 1 (fresh_image can_b) (trace.entry.first.now ++ (trace.entry.second.now ++ trace.entry.third.now))) out.new result }
{
    // stays an array of zeros that is filled in: document 01's form of a fresh model
    let mut image = [0u8; registers::IMAGE_BYTES];
    fresh::fill_registers(&mut image, registers::CAN_B);
    let second = 1 + trace.first.len() as u64;
    let third = second + trace.second.len() as u64;
    let a = run_section(&mut image, trace.first, out, at, 1);
    let b = run_section(&mut image, trace.second, out, a, second);
    run_section(&mut image, trace.third, out, b, third)
}

// The listing of a file that is a trace.
fn list_trace(file: &[u8], out: &mut [u8]) -> usize
    requires { (well_formed file.now ≡ true) × (longest ≤ length out.old) }
    ensures { Put out.old 0 (run_of file.now) out.new result }
{
    let trace = Sections::of(file);
    let a = put_header(out, 0);
    let b = run_all(trace, out, a);
    put_ending(out, b, trace.count())
}

// The listing of any file, in lent bytes: it answers how many it wrote. Where there are fewer than LONGEST it writes nothing
// and answers 0.
// stays 0, no Option: `frostsorrel_listing` gives C this answer (`Listed`).
pub fn list(file: &[u8], out: &mut [u8]) -> usize
    ensures { Listed file.now out.old out.new result }
{
    if out.len() < LONGEST {
        return 0;
    }
    if !is_trace(file) {
        return put_refused(out, 0);
    }
    list_trace(file, out)
}
