//! The ring: after lists of passes of a page of fields Tab and Shift+Tab have moved the focus as
//! counting says. Theorems only, nothing to run. What they mean is in specs/: Ring.antt has the
//! premises, Count.antt the count, Instance.antt a page.
#![tactic(auto)]

ghost use Rattle.std.specs.Prelude.{◌≡◌, ◌++◌, Some, List, ℕ};
ghost use Rattle.focus_rules.specs.Rules.{id_or_nothing, layer_or_nothing};
ghost use Rattle.memory_rules.specs.declared.Memory.{Memory};
ghost use Rattle.memory_rules.specs.State.{nav_of};
ghost use Rattle.ring.specs.Lists.{Call, run, made};
ghost use Rattle.ring.specs.Count.{count_of};
ghost use Rattle.ring.specs.Ring.{Pass, Distinct, Start, Rests, Rounds, Turns};
ghost use Rattle.ring.specs.Instance as Instance;

/// From the state that a pass of a page left with one of its fields focused, after any list of
/// calls whose accepted ones are whole passes of the page, refused calls anywhere in it, each pass
/// quiet or a press of Tab or Shift+Tab with a quiet pass after it: the focused id is the field id
/// that is found by counting one place on per Tab and one back per Shift+Tab. There is nothing to
/// run.
pub fn ring()
    ensures { (fields : List ℕ) (m : Memory) (calls : List Call) (passes : List Pass) →
        Turns fields m calls passes →
        id_or_nothing (nav_of (run m calls)).focused
        ≡ Some (count_of fields (nav_of m).focused (made m calls)) }
{}

/// All that the ring needs of its start: from every state in which one of the fields is focused,
/// its filter's Tab flag is off, no hand-over waits, and the last field is the one last interested,
/// whatever calls of Memory led there and whatever modal layers there are. The list leaves such a
/// state again. There is nothing to run.
pub fn ring_from()
    ensures { (fields : List ℕ) (m : Memory) (calls : List Call) (passes : List Pass) →
        Distinct fields → Rests fields m → Rounds fields m calls passes →
        (id_or_nothing (nav_of (run m calls)).focused
        ≡ Some (count_of fields (nav_of m).focused (made m calls)))
        × Rests fields (run m calls) }
{}

/// The start that `ring` asks for is such a state. There is nothing to run.
pub fn start_rests()
    ensures { (fields : List ℕ) (m : Memory) → Start fields m → Rests fields m }
{}

/// Lists of passes can be joined: one from a state and another from the state that the first left
/// are together one such list, so that the count goes on over both. There is nothing to run.
pub fn rounds_join()
    ensures { (fields : List ℕ) (m : Memory) (calls : List Call) (rest : List Call)
        (passes : List Pass) (more : List Pass) →
        Rounds fields m calls passes → Rounds fields (run m calls) rest more →
        Rounds fields m (calls ++ rest) (passes ++ more) }
{}

/// The premises can be met, so that these are no theorems about nothing: they hold of a page of two
/// fields and a list of calls with Tab, Tab again and Shift+Tab, refused calls among them, and
/// after it the second field is focused, and after the same list once more, joined to it, the
/// first; from a start pass of the ring's calls alone, and from one with other calls between them
/// that leave a modal layer in force. There is nothing to run.
pub fn premises_can_be_met()
    ensures { Turns Instance.fields Instance.start Instance.calls Instance.passes
        × (id_or_nothing (nav_of (run Instance.start Instance.calls)).focused ≡ Some 12)
        × Rounds Instance.fields (run Instance.start Instance.calls) Instance.calls Instance.passes
        × (id_or_nothing (nav_of (run Instance.start Instance.twice)).focused ≡ Some 11)
        × Rests Instance.fields Instance.busy_start
        × Rounds Instance.fields Instance.busy_start Instance.calls Instance.passes
        × (layer_or_nothing (nav_of Instance.busy_start).top_modal_layer ≡ Some Instance.low)
        × (id_or_nothing (nav_of (run Instance.busy_start Instance.calls)).focused ≡ Some 12) }
{}
