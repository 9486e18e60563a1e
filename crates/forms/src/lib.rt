// The forms of a session, one a line: how each is written, and what a line is read as (specs/). Words have single spaces between; numbers are decimal, without leading zeros.
#![tactic(auto)]

ghost use Rattle.std.specs.Prelude.{◌≡◌, ◌≤◌, List, ℕ, Some, length};
ghost use Rattle.forms.specs.Form.{Form, IsForm, written};
ghost use Rattle.forms.specs.Read.{longest_line, form_of};

pub mod parts;

// A coordinate, a width or a height: so many 32nds of a point, below 0 or not.
#[derive(Clone, Copy)]
pub struct Coordinate {
    pub below: bool,
    pub steps: u64,
}

// A position, or a width and a height.
#[derive(Clone, Copy)]
pub struct Spot {
    pub x: Coordinate,
    pub y: Coordinate,
}

// An entry of `begin`: a key, down or up, or a request for the focus.
#[derive(Clone, Copy)]
pub enum Entry {
    Key(u64, bool, u64),
    Ask(u64),
}

// An entry of `end`: a used id and its corners.
#[derive(Clone, Copy)]
pub struct Place {
    pub id: u64,
    pub min: Spot,
    pub max: Spot,
}

// A line is read as a form exactly if it is that form as it is written, of numbers that can be, and not too long. So there is one way to write a form, and no line is two. There is nothing to run.
pub fn one_form_a_line()
    ensures { ((line : List ℕ) (f : Form) → form_of line ≡ Some f → (line ≡ written f) × IsForm f × (length line ≤ longest_line))
        × ((f : Form) → IsForm f → length (written f) ≤ longest_line → form_of (written f) ≡ Some f) }
{}
