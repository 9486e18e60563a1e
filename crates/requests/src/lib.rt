// A line of a session, read as what it asks of the memory.
#![tactic(auto)]

ghost use Rattle.std.specs.Prelude.{◌≡◌, ◌<◌, cond, IfSome};
ghost use Rattle.std.specs.Option.{option_map};
ghost use Rattle.refusal.specs.Refusal.{off_grid, reversed};
ghost use Rattle.floats.specs.Count.{at, signed, count_of};
ghost use Rattle.grid.specs.Grid.{corner_refusal, pivot_refusal, side_refusal};
ghost use Rattle.forms.specs.declared.Coordinate.{Coordinate};
ghost use Rattle.forms.specs.Read.{form_of};
ghost use Rattle.requests.specs.Asked.{bounded, points, no_lists, request_of, lists_read, Holds};

mod entries;
mod form;
mod points;

use area::AreaState;
use emath::Pos2;
use focus::{Events, Used};
use layers::LayerId;

// What a line asks. The entries of `begin` and `end` stand in `Lists`.
#[derive(Clone, Copy)]
pub enum Request {
    Begin,
    Want(LayerId, u64),
    Area(LayerId, AreaState),
    Top(LayerId),
    Sub(LayerId, LayerId),
    Modal(LayerId),
    End,
    Hit(Pos2),
    Focus,
}

// The entries of the last line that began as a `begin`, and as an `end`: of more than there is room for only their number counts.
#[derive(Clone, Copy)]
pub struct Lists {
    pub events: Events,
    pub used: Used,
}

impl Lists {
    #[tactic(auto, unfolding(crate::specs::Asked::no_lists))]
    pub fn new() -> Lists
        ensures { result ≡ no_lists }
    {
        Lists {
            events: Events {
                words: [0; 4 * refusal::EVENTS],
                count: 0,
            },
            used: Used {
                ids: [0; refusal::USED],
                corners: [0.0; 4 * refusal::USED],
                count: 0,
            },
        }
    }
}

// A longer line is no form.
pub const LONGEST_LINE: usize = 16384;

// What a line asks; None where it is no form.
#[tactic(auto, unfolding(forms::specs::Read::form_of))]
pub fn read(line: &[u8], lists: &mut Lists) -> Option<Request>
    ensures request { result ≡ option_map request_of (form_of line.now) }
    ensures lists { lists.new ≡ lists_read line.now lists.old }
    ensures held { IfSome (form_of line.now) (Holds lists.new) }
{
    if LONGEST_LINE < line.len() {
        return None;
    }
    let (request, rest) = form::form(line, lists)?;
    let rest = forms::parts::after(rest, b")")?;
    rest.is_empty().then_some(request)
}

// A coordinate is so many 32nds of a point, exactly; one that is past the bounds counts as 2,097,152 of them. There is nothing to run.
pub fn coordinates_are_exact()
    ensures { (c : Coordinate) → count_of 32 (points c) ≡ at (signed c.below (bounded c.steps)) }
{}

// More than 524,288 are refused as a corner and as a pivot position by 3, and as a side by 3 too, but below 0 by 4. There is nothing to run.
pub fn past_is_refused()
    ensures { (c : Coordinate) → 524288 < c.steps → (corner_refusal (points c) ≡ off_grid) × (pivot_refusal (points c) ≡ off_grid) × (side_refusal (points c) ≡ cond c.below reversed off_grid) }
{}
