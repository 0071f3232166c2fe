// The C entry points of the model. They stay as they are: slices of any length and packed numbers are the C interface's form.
#![tactic(auto)]

ghost use Rattle.rules.specs.Calls.{FreshCall, StepCall, ReadCall, CompareCall};
ghost use Rattle.explain.specs.Explain.{ExplainCall};

// uint64_t frostsorrel_fresh(uint8_t *image, size_t image_len, uint32_t profile)
#[unsafe(no_mangle)]
pub extern "C" fn frostsorrel_fresh(image: &mut [u8], profile: u32) -> u64
    ensures { FreshCall image.old profile image.new result }
{
    fresh::fresh(image, profile)
}

// uint64_t frostsorrel_step(uint8_t *image, size_t image_len, const uint8_t *event, size_t event_len)
#[unsafe(no_mangle)]
pub extern "C" fn frostsorrel_step(image: &mut [u8], event: &[u8]) -> u64
    ensures { StepCall image.old event.now image.new result }
{
    model::step(image, event)
}

// uint64_t frostsorrel_read(const uint8_t *image, size_t image_len, uint32_t number)
#[unsafe(no_mangle)]
pub extern "C" fn frostsorrel_read(image: &[u8], number: u32) -> u64
    ensures { ReadCall image.now number result }
{
    reading::read(image, number)
}

// uint64_t frostsorrel_compare(const uint8_t *first, size_t first_len, const uint8_t *second, size_t second_len,
//                              uint8_t *list, size_t list_len)
#[unsafe(no_mangle)]
pub extern "C" fn frostsorrel_compare(first: &[u8], second: &[u8], list: &mut [u8]) -> u64
    ensures { CompareCall first.now second.now list.old list.new result }
{
    compare::compare(first, second, list)
}

// uint64_t frostsorrel_explain(const uint8_t *image, size_t image_len, const uint8_t *event, size_t event_len,
//                              uint8_t *list, size_t list_len)
#[unsafe(no_mangle)]
pub extern "C" fn frostsorrel_explain(image: &[u8], event: &[u8], list: &mut [u8]) -> u64
    ensures { ExplainCall image.now event.now list.old list.new result }
{
    explain::explain(image, event, list)
}
