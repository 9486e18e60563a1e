//! The focus record by value for C and Rust programs. Its forms that borrow it are exported by
//! crate `focus_c`.
//!
//! The focus alone: an interest call here is let through whatever modal layer is in force, which
//! only `Memory` asks, and no theorem of the ring or of the confirm box is about these functions.
#![tactic(auto)]

ghost use Rattle.std.specs.Prelude.{◌≡◌};
ghost use Rattle.refusal.specs.Refusal.{number_in};
ghost use Rattle.focus.specs.Focus.{begun_of, interested_of, ended_of};

use focus::{Events, Focus, Used};
use refusal::Refusal;

// The record after a call, and its refusal, 0 for none: a record for C, which has no Result.
#[derive(Clone, Copy)]
#[repr(C)]
pub struct Done {
    pub focus: Focus,
    pub refusal: u64,
}

// What a call by value left and answered; where it is refused the record is as it was.
fn left(focus: Focus, answer: Result<(), Refusal>) -> Done
    ensures { (result.focus ≡ focus) × (result.refusal ≡ number_in answer) }
{
    Done {
        focus,
        refusal: refusal::number(&answer),
    }
}

#[unsafe(no_mangle)]
pub extern "C" fn jaturemi_begun(f: Focus, e: Events) -> Done
    ensures focus { result.focus ≡ (begun_of f e).focus }
    ensures refusal { result.refusal ≡ (begun_of f e).refusal }
{
    let (focus, answer) = focus::after_begin(f, e);
    left(focus, answer)
}

#[unsafe(no_mangle)]
pub extern "C" fn jaturemi_interested(f: Focus, id: u64) -> Done
    ensures focus { result.focus ≡ (interested_of f id).focus }
    ensures refusal { result.refusal ≡ (interested_of f id).refusal }
{
    let (focus, answer) = focus::after_interest(f, id);
    left(focus, answer)
}

#[unsafe(no_mangle)]
pub extern "C" fn jaturemi_ended(f: Focus, u: Used) -> Done
    ensures focus { result.focus ≡ (ended_of f u).focus }
    ensures refusal { result.refusal ≡ (ended_of f u).refusal }
{
    let (focus, answer) = focus::after_end(f, u);
    left(focus, answer)
}
