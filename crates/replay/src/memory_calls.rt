// The calls of `Memory` and those without state. None is a line that is no such call, and changes nothing.
use crate::forms::Put;
use crate::line::Line;
use layers::LayerId;
use memory::popups;
use memory_rules::Memory;
use refusal::Refusal;

// ---- a call and the end of its line. A call takes the memory by value: it stands in a small
// function, since a function pays at entry for the size of its locals.

fn change<F: FnOnce(Memory) -> Result<Memory, Refusal>>(
    line: &mut Line,
    m: &mut Memory,
    call: F,
) -> Option<()>
    requires { F.IsAlwaysCallable call }
{
    line.words.end()?;
    call(*m).map(|after| *m = after).put(line.answer);
    Some(())
}

// One that takes an id.
fn change_by_id<F: FnOnce(Memory, u64) -> Result<Memory, Refusal>>(
    line: &mut Line,
    m: &mut Memory,
    call: F,
) -> Option<()>
    requires { F.IsAlwaysCallable call }
{
    let id = line.words.number()?;
    change(line, m, |m| call(m, id))
}

// A call that changes nothing.
fn ask<T: Put, F: FnOnce(Memory) -> T>(line: &mut Line, m: &Memory, call: F) -> Option<()>
    requires { F.IsAlwaysCallable call }
{
    line.words.end()?;
    call(*m).put(line.answer);
    Some(())
}

// One that takes an id or a code.
fn ask_by_id<T: Put, F: FnOnce(Memory, u64) -> T>(
    line: &mut Line,
    m: &Memory,
    call: F,
) -> Option<()>
    requires { F.IsAlwaysCallable call }
{
    let id = line.words.number()?;
    ask(line, m, |m| call(m, id))
}

// One that takes a layer.
fn ask_by_layer<T: Put, F: FnOnce(Memory, LayerId) -> T>(
    line: &mut Line,
    m: &Memory,
    call: F,
) -> Option<()>
    requires { F.IsAlwaysCallable call }
{
    let layer = line.words.layer()?;
    ask(line, m, |m| call(m, layer))
}

// ---- calls that change the memory

pub fn call(line: &mut Line, m: &mut Memory) -> Option<()> {
    match line.name {
        b"interest" => {
            let id = line.words.number()?;
            let layer = line.words.layer()?;
            change(line, m, |m| memory::interested_in_focus(m, id, layer))
        }
        b"set_focus_lock_filter" => {
            let id = line.words.number()?;
            let filter = line.words.filter()?;
            change(line, m, |m| memory::set_focus_lock_filter(m, id, filter))
        }
        b"request_focus" => change_by_id(line, m, memory::request_focus),
        b"request_focus_next_frame" => { change_by_id(line, m, memory::request_focus_next_frame) }
        b"surrender_focus" => change_by_id(line, m, memory::surrender_focus),
        b"ignore_focus" => change_by_id(line, m, memory::ignore_focus),
        b"move_focus" => change_by_id(line, m, memory::move_focus),
        b"set_modal_layer" => {
            let layer = line.words.layer()?;
            change(line, m, |m| memory::set_modal_layer(m, layer))
        }
        b"stop_text_input" => change(line, m, |m| Ok(memory::stop_text_input(m))),
        b"interrupt_ime" => change(line, m, |m| Ok(memory::interrupt_ime(m))),
        _ => change_areas(line, m),
    }
}

fn change_areas(line: &mut Line, m: &mut Memory) -> Option<()> {
    match line.name {
        b"set_state" => {
            let layer = line.words.layer()?;
            let state = line.words.state()?;
            change(line, m, |m| memory_areas::set_state(m, layer, state))
        }
        b"move_to_top" => {
            let layer = line.words.layer()?;
            change(line, m, |m| memory_areas::move_to_top(m, layer))
        }
        b"set_sublayer" => {
            let parent = line.words.layer()?;
            let child = line.words.layer()?;
            change(line, m, |m| memory_areas::set_sublayer(m, parent, child))
        }
        b"reset_areas" => change(line, m, |m| Ok(memory_areas::reset_areas(m))),
        _ => change_popup(line, m),
    }
}

fn change_popup(line: &mut Line, m: &mut Memory) -> Option<()> {
    match line.name {
        b"open_popup" => change_by_id(line, m, popups::open_popup),
        b"open_popup_at" => {
            let id = line.words.number()?;
            let pos = line.words.held_pos()?;
            change(line, m, |m| popups::open_popup_at(m, id, pos))
        }
        b"keep_popup_open" => change_by_id(line, m, popups::keep_popup_open),
        b"close_popup" => change_by_id(line, m, popups::close_popup),
        b"toggle_popup" => change_by_id(line, m, popups::toggle_popup),
        b"close_all_popups" => change(line, m, |m| Ok(popups::close_all_popups(m))),
        b"set_everything_is_visible" => {
            let visible = line.words.flag()?;
            change(
                line,
                m,
                |m| Ok(memory::set_everything_is_visible(m, visible)),
            )
        }
        _ => query_focus(line, m),
    }
}

// ---- calls that change nothing

fn query_focus(line: &mut Line, m: &Memory) -> Option<()> {
    match line.name {
        b"focused" => ask(line, m, memory::focused),
        b"has_focus" => ask_by_id(line, m, memory::has_focus),
        b"had_focus_last_frame" => ask_by_id(line, m, memory::had_focus_last_frame),
        b"lost_focus" => ask_by_id(line, m, memory::lost_focus),
        b"gained_focus" => ask_by_id(line, m, memory::gained_focus),
        b"owns_ime_events" => ask_by_id(line, m, memory::owns_ime_events),
        b"focus_direction" => ask(line, m, memory::focus_direction),
        b"is_above_modal_layer" => ask_by_layer(line, m, memory::is_above_modal_layer),
        b"allows_interaction" => ask_by_layer(line, m, memory::allows_interaction),
        b"top_modal_layer" => ask(line, m, memory::top_modal_layer),
        b"should_interrupt_ime" => ask(line, m, memory::should_interrupt_ime),
        b"everything_is_visible" => ask(line, m, memory::everything_is_visible),
        b"is_popup_open" => ask_by_id(line, m, popups::is_popup_open),
        b"any_popup_open" => ask(line, m, popups::any_popup_open),
        b"popup_position" => ask_by_id(line, m, popups::popup_position),
        _ => query_areas(line, m),
    }
}

fn query_areas(line: &mut Line, m: &Memory) -> Option<()> {
    match line.name {
        b"count" => ask(line, m, memory_areas::count),
        b"get" => ask_by_id(line, m, memory_areas::get),
        b"is_interactable" => ask_by_layer(line, m, memory_areas::is_interactable),
        b"compare_order" => {
            let a = line.words.layer()?;
            let b = line.words.layer()?;
            ask(line, m, |m| memory_areas::compare_order(m, a, b))
        }
        b"layer_id_at" => {
            let pos = line.words.pos()?;
            ask(line, m, |m| memory_areas::layer_id_at(m, pos))
        }
        b"visible_last_frame" => ask_by_layer(line, m, memory_areas::visible_last_frame),
        b"is_visible" => ask_by_layer(line, m, memory_areas::is_visible),
        b"is_sublayer" => ask_by_layer(line, m, memory_areas::is_sublayer),
        b"parent_layer" => ask_by_layer(line, m, memory_areas::parent_layer),
        b"top_layer_id" => ask_by_id(line, m, memory_areas::top_layer_id),
        b"area_rect" => ask_by_id(line, m, memory_areas::area_rect),
        b"layer_ids" => ask(line, m, memory_areas::layer_ids),
        b"visible_layer_ids" => ask(line, m, memory_areas::visible_layer_ids),
        b"visible_windows" => ask(line, m, memory_areas::visible_windows),
        b"child_layers" => ask_by_layer(line, m, memory_areas::child_layers),
        _ => stateless(line),
    }
}

// ---- calls without state

fn stateless(line: &mut Line) -> Option<()> {
    match line.name {
        b"left_top_pos" => line.words.state()?.left_top_pos().put(line.answer),
        b"rect" => line.words.state()?.rect().put(line.answer),
        b"set_left_top_pos" => line
            .words
            .state()?
            .set_left_top_pos(line.words.pos()?)
            .put(line.answer),
        b"matches" => line
            .words
            .filter()?
            .matches(line.words.event()?)
            .put(line.answer),
        _ => return None,
    }
    line.words.end()
}
