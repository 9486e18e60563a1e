//! The thin forms of crate `focus` for C and Rust programs: begin, interest and end that borrow the
//! record to write it.
//!
//! The focus alone: an interest call here is let through whatever modal layer is in force, which
//! only `Memory` asks, and no theorem of the ring or of the confirm box is about these functions.
#![tactic(auto)]

ghost use Rattle.std.specs.Prelude.{◌≡◌};
ghost use Rattle.focus.specs.Focus.{begun_of, interested_of, ended_of};

use focus::{Events, Focus, Used};

#[unsafe(no_mangle)]
pub extern "C" fn focus_begin_pass(f: &mut Focus, e: Events) -> u64
    ensures { (f.new ≡ (begun_of f.old e).focus) × (result ≡ (begun_of f.old e).refusal) }
{
    refusal::number(&focus::focus_begin_pass(f, e))
}

#[unsafe(no_mangle)]
pub extern "C" fn focus_interested_in_focus(f: &mut Focus, id: u64) -> u64
    ensures { (f.new ≡ (interested_of f.old id).focus) × (result ≡ (interested_of f.old id).refusal) }
{
    refusal::number(&focus::focus_interested_in_focus(f, id))
}

#[unsafe(no_mangle)]
pub extern "C" fn focus_end_pass(f: &mut Focus, u: Used) -> u64
    ensures { (f.new ≡ (ended_of f.old u).focus) × (result ≡ (ended_of f.old u).refusal) }
{
    refusal::number(&focus::focus_end_pass(f, u))
}
