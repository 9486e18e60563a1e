//! The confirm box: what keeps the focus and touches out of the fields under it. Theorems only,
//! nothing to run: each starts from every value of Memory, and its calls are all 22 that change it,
//! with any arguments, refused or not. What they mean is in specs/: KeptOut.antt says when an id is
//! kept out, Modal.antt what a program keeps to while its box is open, Rule.antt how it opens one.
#![tactic(auto)]

ghost use Rattle.std.specs.Prelude.{◌≡◌, ◌≤◌, ◌+◌, ◌++◌, Some, ℕ, Bool, true, false, List};
ghost use Rattle.std.specs.Prelude.{length, ltb, map, take};
ghost use Rattle.std.specs.List.{list_all};
ghost use Rattle.emath.specs.declared.Pos2.{Pos2};
ghost use Rattle.layers.specs.declared.LayerId.{LayerId};
ghost use Rattle.used.specs.Used.{elem, repeated};
ghost use Rattle.focus_rules.specs.Rules.{id_or_nothing};
ghost use Rattle.memory_rules.specs.declared.Memory.{Memory};
ghost use Rattle.memory_rules.specs.State.{nav_of};
ghost use Rattle.memory_rules.specs.Memory.{is_below, is_allowed, layer_id_at};
ghost use Rattle.memory_rules.specs.Calls.{Call, Interest, IgnoreFocus, done_by};
ghost use Rattle.confirm_box.specs.KeptOut.{is_focused, kept_out, lets_in, may_focus, run, none_is};
ghost use Rattle.confirm_box.specs.KeptOut.{StaysOut};
ghost use Rattle.confirm_box.specs.Modal.{is_under, in_force, is_set, set_in_every_pass};
ghost use Rattle.confirm_box.specs.Modal.{asks_from_below, now_through, asks_by_rule, keeps_under};
ghost use Rattle.confirm_box.specs.Modal.{HitsNoneBelow};
ghost use Rattle.confirm_box.specs.Rule.{Box, Opens, Fits, opening, after_opening, keeps_to_rule};
ghost use Rattle.confirm_box.specs.Rule.{Spread, Spreads, spread, ignoring, is_refused};
ghost use Rattle.confirm_box.specs.Rule.{all_held, cached_in, room};
ghost use Rattle.confirm_box.specs.Instance as Instance;
ghost use Rattle.confirm_box.specs.Needed as Needed;
ghost use Rattle.confirm_box.specs.NeededOpening as Opening;

/// Every call leaves an id kept out that is, but for three where they are taken: an interest call
/// for it that is let through, and a request of it, for now or for the next begin.
pub fn call_keeps_out()
    ensures { (p : ℕ) (m : Memory) (call : Call) → kept_out m p ≡ true → lets_in p m call ≡ false →
        kept_out (done_by call m).memory p ≡ true }
{}

/// So it stays out through any list of calls without those three.
pub fn list_keeps_out()
    ensures { (p : ℕ) (m : Memory) (calls : List Call) → kept_out m p ≡ true →
        none_is (lets_in p) m calls ≡ true → StaysOut p m calls }
{}

/// An interest call for a layer below the modal layer in force is turned away, and leaves the
/// memory as it was, every number of it, whatever its id.
pub fn turned_away_changes_nothing()
    ensures { (m : Memory) (id : ℕ) (layer : LayerId) → is_under m layer ≡ true →
        (is_allowed m layer ≡ false) × ((done_by (Interest id layer) m).memory ≡ m) }
{}

/// What a hit answers is not below the modal layer in force.
pub fn hit_is_not_below()
    ensures { (m : Memory) (pos : Pos2) (layer : LayerId) → layer_id_at m pos ≡ Some layer →
        is_under m layer ≡ false }
{}

/// A layer of a lower Order is below one of a higher, whatever their places are.
pub fn lower_order_is_below()
    ensures { (m : Memory) (layer : LayerId) (modal : LayerId) →
        ltb layer.order modal.order ≡ true → is_below m layer modal ≡ true }
{}

/// While the box's modal layer is in force and is set in every pass, no event of any kind focuses a
/// field that is kept out and of a lower Order: it stays out through any calls of which only
/// interest calls with layers of a lower Order ask for it.
pub fn box_set_in_every_pass_keeps_out()
    ensures { (order : ℕ) (p : ℕ) (m : Memory) (calls : List Call) → kept_out m p ≡ true →
        in_force order m ≡ true → set_in_every_pass order (is_set order m) m calls ≡ true →
        list_all (asks_from_below order p) calls ≡ true → StaysOut p m calls }
{}

/// The same of any layer that is below the modal layer in force in the state that an interest call
/// gets, and from before the box is in force: a list that lets none of its interest calls through,
/// which need not be asked of layers of a lower Order in a pass after one in which the box's layer
/// was set.
pub fn box_keeps_out()
    ensures { (order : ℕ) (p : ℕ) (m : Memory) (calls : List Call) → kept_out m p ≡ true →
        keeps_under order p (in_force order m) (is_set order m) m calls ≡ true →
        StaysOut p m calls }
{}

/// The opening: where none of the calls that open a box is refused, no modal layer in force turns
/// its layer away, and the focus is to go to one of its fields, each field under it that is not one
/// of its own is kept out, and the focus waits for the next begin to go where it should.
pub fn opening_keeps_out()
    ensures { (m : Memory) (b : Box) → Opens m b →
        ((p : ℕ) → elem b.under p ≡ true → elem b.fields p ≡ false →
        kept_out (after_opening m b) p ≡ true)
        × (id_or_nothing (nav_of (after_opening m b)).id_next_frame ≡ Some b.focus) }
{}

/// None of these calls is refused where the box's layer is a layer, no id is 0, and the cache has
/// places for the box's fields after the first ignores.
pub fn opening_is_taken()
    ensures { (m : Memory) (b : Box) → Fits m b → none_is is_refused m (opening b) ≡ true }
{}

/// Each cached id that is ignored frees a place of the cache, so that as many ignored as the box
/// has fields are enough, however full it is.
pub fn ignoring_frees_places()
    ensures { (m : Memory) (ids : List ℕ) → repeated ids ≡ false → elem ids 0 ≡ false →
        all_held (cached_in m) ids ≡ true →
        length (cached_in (run m (ignoring ids))) + length ids ≤ room m }
{}

/// The rule for a panel program: a box is opened by these calls, and then any calls come that keep
/// to the rule, which asks only what is called and which ends and modal layers are taken: no field
/// under the box that is not one of its own is focused after any of them, whatever events they
/// carry.
pub fn box_by_the_rule_keeps_out()
    ensures { (m : Memory) (b : Box) (calls : List Call) → Opens m b →
        keeps_to_rule b (after_opening m b) calls ≡ true →
        (p : ℕ) → elem b.under p ≡ true → elem b.fields p ≡ false →
        StaysOut p (after_opening m b) calls }
{}

/// Neither key nor request nor touch: that, and from the first end on that is taken after the
/// opening no hit answers a layer of a lower Order than the box's.
pub fn nothing_reaches_under_an_open_box()
    ensures { (m : Memory) (b : Box) (calls : List Call) → Opens m b →
        keeps_to_rule b (after_opening m b) calls ≡ true →
        ((p : ℕ) → elem b.under p ≡ true → elem b.fields p ≡ false →
        StaysOut p (after_opening m b) calls)
        × HitsNoneBelow b.layer.order (after_opening m b) calls }
{}

/// The opening, and then calls of which some could be judged only in the state that they get
/// (`keeps_under`): a field under the box stays out.
pub fn opened_box_keeps_out()
    ensures { (m : Memory) (b : Box) (p : ℕ) (calls : List Call) → Opens m b →
        elem b.under p ≡ true → elem b.fields p ≡ false →
        keeps_under b.layer.order p (in_force b.layer.order m) true
        (after_opening m b) calls ≡ true →
        StaysOut p (after_opening m b) calls }
{}

/// The opening for one field, with any calls between its own that neither begin a pass nor let the
/// field in: it is kept out.
pub fn spread_rule_keeps_out()
    ensures { (m : Memory) (p : ℕ) (s : Spread) → Spreads m p s →
        kept_out (run m (spread p s)) p ≡ true }
{}

/// That opening, and then the rule, for a box whose layer one of these calls, or one before them in
/// the pass, has set: neither key nor request focuses the field after any call, and no touch
/// answers a layer of a lower Order from the first end on that is taken.
pub fn spread_box_by_the_rule_keeps_out()
    ensures { (m : Memory) (p : ℕ) (s : Spread) (order : ℕ) (calls : List Call) → Spreads m p s →
        set_in_every_pass order (now_through order (is_set order m) m (spread p s))
        (run m (spread p s)) calls ≡ true →
        asks_by_rule order p false (run m (spread p s)) calls ≡ true →
        StaysOut p (run m (spread p s)) calls × HitsNoneBelow order (run m (spread p s)) calls }
{}

/// An id that is ignored is not focused before a begin, an interest call that is let through,
/// whatever its id, or a request of it; so the end of the pass leaves it unfocused.
pub fn ignored_is_not_focused()
    ensures { (p : ℕ) (m : Memory) (calls : List Call) →
        none_is (may_focus p) (done_by (IgnoreFocus p) m).memory calls ≡ true →
        (n : ℕ) → is_focused (run (done_by (IgnoreFocus p) m).memory (take n calls)) p ≡ false }
{}

/// What the theorems ask for can be met: by a box of two fields over a page of two, one of them
/// focused and the other waiting for the next begin, and two passes after it, with a Shift+Tab and
/// a request of a field under it. Both fields of the page are kept out, at the end the second field
/// of the box is focused, and a hit answers the page before the end of the opening's pass, and the
/// box after it.
pub fn premises_can_be_met()
    ensures { Instance.Met }
{}

/// Each of the four parts is needed, and each of the three calls is an exception: in four cases one
/// part alone says that a field is not kept out, and it is focused without one of the three calls;
/// and each of the three lets a field in that was kept out.
pub fn parts_are_needed()
    ensures { (map (λ c. Needed.parts (Needed.first_of c)) Needed.part_cases ≡ Needed.one_each)
        × (list_all Needed.slips Needed.part_cases ≡ true)
        × (list_all Needed.lets_it_in Needed.three ≡ true) }
{}

/// Each clause of what a program keeps to while its box is open is needed, in short and by the
/// rule: in each case one alone is broken, none of the three ways of saying it holds, and a field
/// comes in that was kept out; and so does an ignored id by each of the three calls that may focus
/// it, made alone.
pub fn clauses_are_needed()
    ensures { Needed.OneAlone 3 Needed.in_short Needed.short_cases
        × Needed.OneAlone 2 Needed.by_rule Needed.rule_cases
        × (list_all Needed.lets_12_in (Needed.short_cases ++ Needed.rule_cases) ≡ true)
        × (list_all Needed.comes_back Needed.ignored_cases ≡ true) }
{}

/// Each premise of the opening is needed: where one alone does not hold, a field under the box is
/// not kept out (of the opening as a list, and of one with calls between), a call of it is refused,
/// or too few places of the cache are freed.
pub fn rule_is_needed()
    ensures { Needed.OneAlone 3 Opening.opens_by Opening.openings
        × (list_all Opening.leaves_12_in Opening.openings ≡ true)
        × (Opening.leaves_others_in ≡ true)
        × Needed.OneAlone 5 Opening.fits_by Opening.fittings
        × (list_all Opening.refuses_one Opening.fittings ≡ true)
        × Needed.OneAlone 3 Opening.frees_by Opening.freeings
        × (list_all Opening.frees_too_few Opening.freeings ≡ true)
        × Needed.OneAlone 5 Opening.spreads_by Opening.spreadings
        × (list_all Opening.leaves_p_in Opening.spreadings ≡ true) }
{}
