//! Interest calls for a whole page in one call, for C and Rust programs. It stands alone in its
//! library, so that the loop has the core inside it.
//!
//! The focus alone: an interest call here is let through whatever modal layer is in force, which
//! only `Memory` asks, and no theorem of the ring or of the confirm box is about these functions.
#![tactic(auto)]

ghost use Rattle.std.specs.Prelude.{◌≡◌};
ghost use Rattle.board_page.specs.Page.{page_in, page_after, wanted, wanted_all};

use focus_rules::Nav;
use refusal::Refusal;

// The lowest refusal of the calls, 0 for none, the fields after them, how many entries are held, and the place where the next call looks first: a record for C, which has no Result.
#[derive(Clone, Copy)]
#[repr(C)]
pub struct Interested {
    pub refusal: u64,
    pub nav: Nav,
    pub count: usize,
    pub slot: usize,
}

// The lowest refusal so far, and what the last call that was taken left.
#[derive(Clone, Copy)]
struct SoFar {
    checked: Result<(), Refusal>,
    last: focus_pass::Interested,
}

// One interest call more.
#[tactic(auto, unfolding(crate::specs::Page::wanted, focus_pass::specs::Pass::interest_of), using(refusal::proofs::Laws::none_right))]
fn want(so_far: SoFar, ids: &mut [u64], rects: &mut [f32], id: u64) -> SoFar
    ensures { page_after result ids.new rects.new ≡ wanted (page_after so_far ids.old rects.old) id }
{
    let last = so_far.last;
    match focus_pass::interested_in_focus(last.nav, ids, rects, last.count, last.slot, id) {
        Ok(last) => SoFar { last, ..so_far },
        Err(refused) => SoFar {
            checked: refusal::both(so_far.checked, Err(refused)),
            ..so_far
        },
    }
}

// An interest call for each id of a page, one after the other. The refusal is the lowest of any; a call that is refused changes nothing.
#[unsafe(no_mangle)]
pub extern "C" fn jaturemi_interested_in_all(
    nav: Nav,
    ids: &mut [u64],
    rects: &mut [f32],
    count: usize,
    slot: usize,
    page: &[u64],
) -> Interested
    ensures { page_in result ids.new rects.new ≡ wanted_all (page_in (record { refusal = 0; nav = nav; count = count; slot = slot }) ids.old rects.old) page.now }
{
    let mut so_far = SoFar {
        checked: Ok(()),
        last: focus_pass::Interested { nav, count, slot },
    };
    for &id in page {
        so_far = want(so_far, ids, rects, id);
    }
    Interested {
        refusal: refusal::number(&so_far.checked),
        nav: so_far.last.nav,
        count: so_far.last.count,
        slot: so_far.last.slot,
    }
}
