// Document 02, request e, traces that arrive over a slow cable: a trace in parts, and its C entry points. The crate is an object of its own in
// the archive, as the listing's is: in one object with frostsorrel_step it would be a second caller of the step, which would then be inlined
// in neither (D136).
#![tactic(auto)]

ghost use Rattle.std.specs.Prelude.{◌≡◌, true, cond, [], ◌≢◌, ◌+◌, ◌*◌, ◌<◌, ◌≤◌, eqb, leb, length, drop, get_or, MatchResult};
ghost use Rattle.texts.specs.Text.{Put};
ghost use Rattle.answers.specs.Answer.{no_mailbox, packed};
ghost use Rattle.answers.specs.Refusals.{number_of};
ghost use Rattle.trace.specs.Trace.{header, refused_line};
ghost use Rattle.stream.specs.Stream.{at, over, opened, printed, last_line};
ghost use Rattle.stream.specs.Calls.{state_of, standing, all_zero, ready, prints, fed_call, last_call, Leaves, OpenCall, FeedCall, CloseCall};
ghost use Rattle.stream.specs.Terms.{standing_by, reader_of, state_against, Ready, Clean, Counts, TookSome, at_once, room_for, Fed, Taking, numbers};

use answers::{NO_MAILBOX, Refusal};
use events::EventBytes;
use registers::Image;
use texts::{put_text, put_word};
use trace::run_event;
use trace::text::{put_ending, put_header, put_refused};

const STATE_BYTES: usize = 32;

// The bytes in which a stream stands between two calls; a count or an event is gathered in the last 16 of them.
type State = [u8; STATE_BYTES];

// So many bytes of text are made apart at most: a part of 65 bytes never has more.
// stays: `made`, and each `line`, is bytes of a fixed size, with the length of its text beside it (`n`), since there is no heap.
const MADE_BYTES: usize = 96;

// In the place of a section: behind the third, and over.
// stays: numbers and no enum, since they are the first word of the state bytes that C keeps, and `ready` judges any number there.
const BEHIND: u32 = 4;

const OVER: u32 = 5;

// Where the reading stands, as the first four words of the state have it: the section, or BEHIND, or OVER; the events of it that are not complete,
// 0 while its count is read; the events that are complete; how many bytes are gathered of a count or an event.
#[derive(Clone, Copy)]
pub struct Reader {
    pub section: u32,
    pub left: u32,
    pub steps: u32,
    pub seen: u32,
}

impl Reader {
    // Where a section begins, or the reading ends: nothing is read of it.
    fn start(section: u32) -> Reader
        ensures { result ≡ record { section = section; left = 0; steps = 0; seen = 0 } }
    {
        Reader {
            section,
            left: 0,
            steps: 0,
            seen: 0,
        }
    }

    // A count or an event is complete, and `left` events of the section are left: where none is, the next section's count comes.
    fn onward(self, left: u32, steps: u32) -> Reader
        requires { self.section ≤ 3 }
        ensures { result ≡ record { section = cond (eqb left 0) (self.section + 1) self.section; left = left; steps = steps; seen = 0 } }
    {
        Reader {
            section: bits::choose(left == 0, self.section + 1, self.section),
            left,
            steps,
            seen: 0,
        }
    }

    // The same, with so many bytes gathered, and no text.
    fn wait(self, seen: u32, place: usize) -> Taken
        ensures { (result.reader ≡ record { section = self.section; left = self.left; steps = self.steps; seen = seen }) × (result.length ≡ place) }
    {
        Taken {
            reader: Reader { seen, ..self },
            length: place,
        }
    }

    // How many bytes are taken at once, of those that are there: what an event lacks, or all; while no event is read, one.
    fn at_once(self, there: usize) -> usize
        requires { self.seen ≤ 15 }
        ensures { result ≡ at_once self.left self.seen there }
    {
        if self.left == 0 {
            return 1;
        }
        usize::min(there, 16 - self.seen as usize)
    }

    // What the first four words of a state say; the bytes behind them are what is gathered.
    fn load(state: &State) -> Reader
        ensures { result ≡ reader_of state.now }
    {
        Reader {
            section: words::word_at(state, 0),
            left: words::word_at(state, 4),
            steps: words::word_at(state, 8),
            seen: words::word_at(state, 12),
        }
    }

    // The first four words; what is gathered stands behind them already.
    fn store(self, state: &mut State)
        ensures { state.new ≡ numbers self (drop 16 state.old) }
    {
        let a = put_word(state, 0, self.section);
        let b = put_word(state, a, self.left);
        let c = put_word(state, b, self.steps);
        put_word(state, c, self.seen);
    }
}

// A reader, and how many bytes of text there are.
#[derive(Clone, Copy)]
pub struct Taken {
    pub reader: Reader,
    pub length: usize,
}

// ---- some bytes

// Over a slow cable: the fault prints the refusal line, and nothing is read any more.
fn fault(out: &mut [u8], place: usize) -> Taken
    requires { place + 16 ≤ length out.old }
    ensures { (result.reader ≡ record { section = over; left = 0; steps = 0; seen = 0 }) × Put out.old place refused_line out.new result.length }
{
    Taken {
        reader: Reader::start(OVER),
        length: put_refused(out, place),
    }
}

// The bytes of a count, the last of which just came.
fn count(r: Reader, event: &mut EventBytes, out: &mut [u8], place: usize) -> Taken
    requires { (r.section ≤ 3) × (r.seen ≤ 1) × Clean (r.seen + 1) event.old × (r.seen ≢ 0 → 1000 < get_or event.old 0 0 + 256 * get_or event.old 1 0 → place + 16 ≤ length out.old) }
    ensures { Counts r event.old event.new out.old place out.new result }
{
    if r.seen == 0 {
        return r.wait(1, place);
    }
    let n = u32::from(u16::from_le_bytes([event[0], event[1]]));
    *event = [0; 16];
    if n > 1000 {
        return fault(out, place);
    }
    Taken {
        reader: r.onward(n, r.steps),
        length: place,
    }
}

// Bytes put behind those that are gathered; how many there are then.
// stays one by one: 16 at most are put, and by `put_text`, which copies a slice, the archive would ask for a memmove here, and nowhere else.
fn put_behind(event: &mut EventBytes, seen: usize, bytes: &[u8]) -> usize
    requires { seen + length bytes.now ≤ 16 }
    ensures { Put event.old seen bytes.now event.new result }
{
    for (i, byte) in bytes.iter().enumerate() {
        event[seen + i] = *byte;
    }
    seen + bytes.len()
}

// Bytes of an event, as many as it lacks at most. Its first byte says whether it may stand here.
// stays: six parameters and no struct of them, since reader and place are new after each piece, and the bytes lent would have to be lent
// on one by one; so do the clauses Ready and Clean, each of which speaks of reader, event and image at once.
fn gather(
    r: Reader,
    event: &mut EventBytes,
    image: &mut Image,
    bytes: &[u8],
    out: &mut [u8],
    place: usize,
) -> Taken
    requires { Ready (standing_by r event.old image.old) × (r.section ≤ 3) × (1 ≤ r.left) × (1 ≤ length bytes.now) × (r.seen + length bytes.now ≤ 16) × Clean r.seen event.old × (place + length (printed (standing_by r event.old image.old) bytes.now) ≤ length out.old) }
    ensures { TookSome (standing_by r event.old image.old) bytes.now out.old place event.new image.new out.new result }
{
    let seen = put_behind(event, r.seen as usize, bytes);
    if !trace::takes(r.section as usize, usize::from(event[0])) {
        *event = [0; 16];
        return fault(out, place);
    }
    if seen < 16 {
        return r.wait(seen as u32, place);
    }
    let length = run_event(image, event, out, place, u64::from(r.steps) + 1);
    *event = [0; 16];
    Taken {
        reader: r.onward(r.left - 1, r.steps + 1),
        length,
    }
}

// As many bytes as are taken at once. Behind the third section one is the fault; once it is over it does nothing.
fn take_some(
    r: Reader,
    event: &mut EventBytes,
    image: &mut Image,
    bytes: &[u8],
    out: &mut [u8],
    place: usize,
) -> Taken
    requires { Ready (standing_by r event.old image.old) × (r.seen + length bytes.now ≤ 16) × (1 ≤ length bytes.now) × (r.left ≡ 0 → length bytes.now ≡ 1) × Clean r.seen event.old × (place + length (printed (standing_by r event.old image.old) bytes.now) ≤ length out.old) }
    ensures { TookSome (standing_by r event.old image.old) bytes.now out.old place event.new image.new out.new result }
{
    if r.section == OVER {
        return r.wait(r.seen, place);
    }
    if r.section == BEHIND {
        return fault(out, place);
    }
    if r.left > 0 {
        return gather(r, event, image, bytes, out, place);
    }
    event[r.seen as usize] = bytes[0];
    count(r, event, out, place)
}

// ---- a part

// Where a text goes: behind the first `length` bytes, or over them, where none is to be kept.
// stays a flag: the loop is the same, and but for this place nothing differs.
fn place_of(keeps: bool, length: usize) -> usize
    ensures { result ≡ cond keeps length 0 }
{
    if keeps { length } else { 0 }
}

// The bytes of a part, some after the others. Where the text is not to be kept, each piece of it is put over the one before: it is only counted.
fn take_bytes(
    r: Reader,
    event: &mut EventBytes,
    image: &mut Image,
    part: &[u8],
    out: &mut [u8],
    keeps: bool,
) -> Taken
    requires { Ready (standing_by r event.old image.old) × (r.seen ≤ 15) × Clean r.seen event.old × (room_for keeps (length (printed (standing_by r event.old image.old) part.now)) ≤ length out.old) }
    ensures { Fed keeps (standing_by r event.old image.old) part.now out.old event.new image.new out.new result }
{
    let mut reader = r;
    let mut length: usize = 0;
    let mut rest = part;
    // stays: no iterator, since how many bytes come next hangs on the reader that the last ones left (D137).
    while !rest.is_empty() {
        let (bytes, behind) = rest.split_at(reader.at_once(rest.len()));
        let place = place_of(keeps, length);
        let t = take_some(reader, event, image, bytes, out, place);
        reader = t.reader;
        length += t.length - place;
        rest = behind;
    }
    Taken { reader, length }
}

// ---- the state bytes

// A state in which nothing is read yet, or any more.
fn restart(state: &mut State, section: u32)
    ensures { state.new ≡ state_of (at section 0 0 [] []) }
{
    *state = [0; STATE_BYTES];
    Reader::start(section).store(state);
}

// Are all bytes of the state zero from `at` on? Word by word, as soon as a word begins there.
fn is_zero_from(state: &State, at: usize) -> bool
    ensures { result ≡ all_zero (drop at state.now) }
{
    // stays: by words it is 45 instructions a call where `iter().all` over the bytes is 74, and a feeding asks it each time. The bar is
    // `byte by byte` of `make bench`, which feeds once for each byte and already took longer than the plain C (1.27 of its time).
    let mut i = at;
    while i < STATE_BYTES {
        if i % 4 == 0 {
            if words::word_at(state, i) != 0 {
                return false;
            }
            i += 4;
        } else {
            if state[i] != 0 {
                return false;
            }
            i += 1;
        }
    }
    true
}

// Over a slow cable: does a call leave such a state, in a stream that is not over?
fn is_ready(state: &State) -> bool
    ensures { result ≡ ready state.now }
{
    let r = Reader::load(state);
    if r.section == 0 {
        return false;
    }
    if r.section > BEHIND {
        return false;
    }
    if r.left > bits::choose(r.section == BEHIND, 0, 1000) {
        return false;
    }
    // So many at most in three sections; more could make the sum below too large for a word.
    if r.steps > 3000 {
        return false;
    }
    let known = bits::choose(r.left == 0, r.section - 1, r.section);
    let whole = bits::choose(r.section == BEHIND, 1, bits::choose(r.left == 0, 2, 16));
    if r.seen >= whole {
        return false;
    }
    (r.steps + r.left <= 1000 * known)
        & ((r.left == 0)
            | ((r.seen == 0) | trace::takes(r.section as usize, usize::from(state[16]))))
        & is_zero_from(state, 16 + r.seen as usize)
}

// Over a slow cable: what stands against a feeding or a closing, where image and state are of their length.
fn against(state: &State) -> Result<(), Refusal>
    ensures { MatchResult result (λ _. ready state.now ≡ true) (λ why. number_of why ≡ state_against state.now) }
{
    if words::word_at(state, 0) == OVER {
        return Err(Refusal::NoTrace);
    }
    if !is_ready(state) {
        return Err(Refusal::NoModel);
    }
    Ok(())
}

// ---- the calls

// A part, taken by this image and this state. Bytes are gathered in the state itself.
// stays: the clause on the state, and no type of ready states, since the bytes lent may be left in a state that is over.
fn take_part(
    image: &mut Image,
    state: &mut State,
    part: &[u8],
    out: &mut [u8],
    keeps: bool,
) -> Taken
    requires { (ready state.old ≡ true) × (room_for keeps (length (printed (standing image.old state.old) part.now)) ≤ length out.old) }
    ensures { Taking keeps (standing image.old state.old) part.now out.old image.new state.new out.new result }
{
    let r = Reader::load(state);
    let Some(event) = state.last_chunk_mut() else {
        unreachable!()
    };
    let p = take_bytes(r, event, image, part, out, keeps);
    p.reader.store(state);
    p
}

// How long the text of a part is: the part is taken by copies, and nothing is kept.
fn text_length(image: &Image, state: &State, part: &[u8]) -> usize
    requires { ready state.now ≡ true }
    ensures { result ≡ length (printed (standing image.now state.now) part.now) }
{
    let mut image_copy = *image;
    let mut state_copy = *state;
    let mut line = [0; MADE_BYTES];
    take_part(&mut image_copy, &mut state_copy, part, &mut line, false).length
}

// The answer of a part that was taken.
// stays: a number and no Result, since the 8 of a fault comes with the text that was written (document 02, request e).
fn answer(p: Taken) -> u64
    requires { p.length ≤ 39016 }
    ensures { result ≡ packed (cond (eqb p.reader.section over) 8 0) no_mailbox p.length }
{
    let refusal = bits::choose(p.reader.section == OVER, Refusal::NoTrace.number(), 0);
    answers::pack(refusal, NO_MAILBOX, p.length as u32)
}

// A part whose text fits, taken in place.
fn take_here(image: &mut Image, state: &mut State, part: &[u8], text: &mut [u8]) -> u64
    requires { (ready state.old ≡ true) × (length (printed (standing image.old state.old) part.now) ≤ length text.old) }
    ensures { Leaves (fed_call image.old state.old part.now text.old) image.new state.new text.new result }
{
    answer(take_part(image, state, part, text, true))
}

// A short part, whose text is made apart. Where it does not fit, image and state become again what they were.
fn take_short(image: &mut Image, state: &mut State, part: &[u8], text: &mut [u8]) -> u64
    requires { (ready state.old ≡ true) × (length part.now ≤ 65) }
    ensures { Leaves (fed_call image.old state.old part.now text.old) image.new state.new text.new result }
{
    let old_image = *image;
    let old_state = *state;
    let mut made = [0; MADE_BYTES];
    let p = take_part(image, state, part, &mut made, true);
    let n = p.length;
    if text.len() < n {
        *image = old_image;
        *state = old_state;
        return answers::refuse(Refusal::NoRoom);
    }
    put_text(text, 0, &made[..n]);
    answer(p)
}

// A part of any length: it is taken twice, first to know how long its text is.
fn take_long(image: &mut Image, state: &mut State, part: &[u8], text: &mut [u8]) -> u64
    requires { ready state.old ≡ true }
    ensures { Leaves (fed_call image.old state.old part.now text.old) image.new state.new text.new result }
{
    if text.len() < text_length(image, state, part) {
        return answers::refuse(Refusal::NoRoom);
    }
    take_here(image, state, part, text)
}

// Has any text of a part so long enough room? 15 bytes may be gathered, and the refusal line has 16.
fn is_roomy(part: usize, room: usize) -> bool
    ensures { result ≡ leb (part + 31) room }
{
    if room < 31 {
        return false;
    }
    part <= room - 31
}

// A part that nothing stands against. Where its text does not fit, nothing changes.
fn take_in(image: &mut Image, state: &mut State, part: &[u8], text: &mut [u8]) -> u64
    requires { ready state.old ≡ true }
    ensures { Leaves (fed_call image.old state.old part.now text.old) image.new state.new text.new result }
{
    if is_roomy(part.len(), text.len()) {
        return take_here(image, state, part, text);
    }
    if part.len() <= 65 {
        return take_short(image, state, part, text);
    }
    take_long(image, state, part, text)
}

// The line of the closing.
fn put_last_line(r: Reader, line: &mut [u8; 16]) -> usize
    requires { r.steps ≤ 3000 }
    ensures { Put line.old 0 (last_line (at r.section r.left r.steps [] [])) line.new result }
{
    if r.section == BEHIND {
        return put_ending(line, 0, u64::from(r.steps));
    }
    put_refused(line, 0)
}

// The closing of a stream that nothing stands against.
fn finish(image: &Image, state: &mut State, text: &mut [u8]) -> u64
    requires { ready state.old ≡ true }
    ensures { Leaves (last_call image.now state.old text.old) image.now state.new text.new result }
{
    let r = Reader::load(state);
    let mut line = [0; 16];
    let n = put_last_line(r, &mut line);
    if text.len() < n {
        return answers::refuse(Refusal::NoRoom);
    }
    restart(state, OVER);
    put_text(text, 0, &line[..n]);
    answers::pack(
        bits::choose(r.section == BEHIND, 0, Refusal::NoTrace.number()),
        NO_MAILBOX,
        n as u32,
    )
}

// The opening of image and state that are of their length.
fn begin(image: &mut Image, state: &mut State, text: &mut [u8]) -> u64
    ensures { Leaves (prints image.old state.old text.old opened header 0) image.new state.new text.new result }
{
    if text.len() < 24 {
        return answers::refuse(Refusal::NoRoom);
    }
    fresh::fresh(image, registers::CAN_B);
    restart(state, 1);
    put_header(text, 0);
    answers::pack(0, NO_MAILBOX, 24)
}

// uint64_t frostsorrel_stream_open(uint8_t *image, size_t image_len, uint8_t *state, size_t state_len,
//                                  uint8_t *text, size_t text_len)
#[unsafe(no_mangle)]
pub extern "C" fn frostsorrel_stream_open(
    image: &mut [u8],
    state: &mut [u8],
    text: &mut [u8],
) -> u64
    ensures { OpenCall image.old state.old text.old image.new state.new text.new result }
{
    // stays: these two tests in each of the three calls. A function that lends both on would need a clause as long on what they end as;
    // with a pair of both the proof of the refusal did not close: nothing is told of a state that was lent beside an image of another length.
    let Some(image) = image.as_mut_array() else {
        return answers::refuse(Refusal::NoModel);
    };
    let Some(state) = state.as_mut_array() else {
        return answers::refuse(Refusal::NoModel);
    };
    begin(image, state, text)
}

// uint64_t frostsorrel_stream_feed(uint8_t *image, size_t image_len, uint8_t *state, size_t state_len,
//                                  const uint8_t *part, size_t part_len, uint8_t *text, size_t text_len)
#[unsafe(no_mangle)]
pub extern "C" fn frostsorrel_stream_feed(
    image: &mut [u8],
    state: &mut [u8],
    part: &[u8],
    text: &mut [u8],
) -> u64
    ensures { FeedCall image.old state.old part.now text.old image.new state.new text.new result }
{
    let Some(image) = image.as_mut_array() else {
        return answers::refuse(Refusal::NoModel);
    };
    let Some(state) = state.as_mut_array() else {
        return answers::refuse(Refusal::NoModel);
    };
    match against(state) {
        Err(why) => answers::refuse(why),
        Ok(()) => take_in(image, state, part, text),
    }
}

// uint64_t frostsorrel_stream_close(uint8_t *image, size_t image_len, uint8_t *state, size_t state_len,
//                                   uint8_t *text, size_t text_len)
#[unsafe(no_mangle)]
pub extern "C" fn frostsorrel_stream_close(
    image: &mut [u8],
    state: &mut [u8],
    text: &mut [u8],
) -> u64
    ensures { CloseCall image.old state.old text.old image.new state.new text.new result }
{
    let Some(image) = image.as_mut_array() else {
        return answers::refuse(Refusal::NoModel);
    };
    let Some(state) = state.as_mut_array() else {
        return answers::refuse(Refusal::NoModel);
    };
    match against(state) {
        Err(why) => answers::refuse(why),
        Ok(()) => finish(image, state, text),
    }
}
