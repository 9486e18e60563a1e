// What a request leaves of the memory, and what it is answered.
ghost use Rattle.std.specs.Prelude.{◌≡◌, List};
ghost use Rattle.refusal.specs.Refusal.{number_in};
ghost use Rattle.input.specs.declared.Event.{Event};
ghost use Rattle.search.specs.declared.Candidate.{Candidate};
ghost use Rattle.memory_rules.specs.Calls.{Begin, End};
ghost use Rattle.requests.specs.Asked.{HoldsEvents, HoldsUsed};
ghost use Rattle.session.specs.Session.{answer_by, called, hit_answer, focus_answer};
ghost use Rattle.session.specs.Runs.{Leaves};

use emath::Pos2;
use focus::{Events, Used};
use layers::LayerId;
use memory_rules::Memory;
use refusal::Refusal;
use requests::{Lists, Request};

#[derive(Clone, Copy)]
pub enum Answer {
    Ok,
    NoForm,
    No(u64),
    Layer(LayerId),
    Id(u64),
    None,
}

// The answer to a call without a value.
fn done(called: Result<(), Refusal>) -> Answer
    ensures { result ≡ answer_by (number_in called) }
{
    match called {
        Ok(()) => Answer::Ok,
        Err(r) => Answer::No(u64::from(r)),
    }
}

fn begin(m: &mut Memory, events: &Events) -> Answer
    ensures { (es : List Event) → HoldsEvents events.now es → record { memory = m.new; answer = result } ≡ called m.old (Begin es) }
{
    match events.lent() {
        Ok(words) => done(memory_mut::begin_pass(m, words)),
        Err(r) => Answer::No(u64::from(r)),
    }
}

fn end(m: &mut Memory, used: &Used) -> Answer
    ensures { (us : List Candidate) → HoldsUsed used.now us → record { memory = m.new; answer = result } ≡ called m.old (End us) }
{
    match used.lent() {
        Ok(entries) => done(memory_mut::end_pass(m, entries)),
        Err(r) => Answer::No(u64::from(r)),
    }
}

// A point past the grid's bounds is refused here: the memory takes any.
fn hit(m: &Memory, pos: Pos2) -> Answer
    ensures { result ≡ hit_answer m.now pos }
{
    if let Err(r) = grid::pos(pos) {
        return Answer::No(u64::from(r));
    }
    match memory_mut::layer_id_at(m, pos) {
        Some(layer) => Answer::Layer(layer),
        None => Answer::None,
    }
}

fn focused(m: &Memory) -> Answer
    ensures { result ≡ focus_answer m.now }
{
    match memory_mut::focused(m) {
        Some(id) => Answer::Id(id),
        None => Answer::None,
    }
}

pub(crate) fn answered(request: Request, lists: &Lists, m: &mut Memory) -> Answer
    ensures { Leaves request lists.now m.old (record { memory = m.new; answer = result }) }
{
    match request {
        Request::Begin => begin(m, &lists.events),
        Request::Want(layer, id) => done(memory_mut::interested_in_focus(m, id, layer)),
        Request::Area(layer, state) => done(memory_mut::set_state(m, layer, state)),
        Request::Top(layer) => done(memory_mut::move_to_top(m, layer)),
        Request::Sub(parent, child) => done(memory_mut::set_sublayer(m, parent, child)),
        Request::Modal(layer) => done(memory_mut::set_modal_layer(m, layer)),
        Request::End => end(m, &lists.used),
        Request::Hit(pos) => hit(m, pos),
        Request::Focus => focused(m),
    }
}
