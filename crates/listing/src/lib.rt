// The C entry point of the listing. It is an object of its own in the archive: beside the entry point of the step it would be a
// second caller, and the compiler would no longer make one function of step and entry point.
#![tactic(auto)]

ghost use Rattle.rules.specs.Calls.{ListingCall};

// stays as it is: the C interface's form, a number, and 0 where there is no room.
// uint64_t frostsorrel_listing(const uint8_t *trace, size_t trace_len, uint8_t *text, size_t text_len)
#[unsafe(no_mangle)]
pub extern "C" fn frostsorrel_listing(trace: &[u8], text: &mut [u8]) -> u64
    ensures { ListingCall trace.now text.old text.new result }
{
    trace::list(trace, text) as u64
}
