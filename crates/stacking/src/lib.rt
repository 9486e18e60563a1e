// The laws of the stack after a pass. There is nothing to run.
#![tactic(auto)]

ghost use Rattle.std.specs.Prelude.{◌≡◌, Bool, true, not, ◌&&◌, List, ◌∷◌, ◌++◌, ℕ, eqb};
ghost use Rattle.layers.specs.declared.LayerId.{LayerId};
ghost use Rattle.stacking.specs.Lists.{keep};
ghost use Rattle.stacking.specs.Stacking.{is_top, sorted, moved, stacked, holds, Distinct, Orders, Pairs, times, Rising};

// It is what the Rust's sort and its loop over the parents give, in whatever order its map has them.
pub fn any_order_of_parents()
    ensures { (raised : LayerId → Bool) (isChild : LayerId → LayerId → Bool) (order parents : List LayerId) → Orders order → Pairs order isChild → Distinct parents →
        ((parent child : LayerId) → isChild parent child ≡ true → holds parents parent ≡ true) →
        moved isChild parents (sorted raised order) ≡ stacked raised isChild order }
{}

// It has the layers that there were, each once.
pub fn same_layers()
    ensures { (raised : LayerId → Bool) (isChild : LayerId → LayerId → Bool) (order : List LayerId) → Distinct order → Orders order → Pairs order isChild →
        (layer : LayerId) → times (stacked raised isChild order) layer ≡ times order layer }
{}

// It is sorted by Order.
pub fn sorted_by_order()
    ensures { (raised : LayerId → Bool) (isChild : LayerId → LayerId → Bool) (order : List LayerId) → Pairs order isChild →
        Rising (stacked raised isChild order) }
{}

// Of the top layers of an Order, the raised ones are above the others; else they keep their order.
pub fn raised_above_others()
    ensures { (raised : LayerId → Bool) (isChild : LayerId → LayerId → Bool) (order : List LayerId) → Orders order → Pairs order isChild → (o : ℕ) →
        keep (λ l. is_top isChild order l && eqb l.order o) (stacked raised isChild order)
        ≡ keep (λ l. is_top isChild order l && (eqb l.order o && not (raised l))) order ++ keep (λ l. is_top isChild order l && (eqb l.order o && raised l)) order }
{}

// The children of a layer stand right after it, the raised ones after the others; else they keep their order.
pub fn children_after_parent()
    ensures { (raised : LayerId → Bool) (isChild : LayerId → LayerId → Bool) (order : List LayerId) → Orders order → Pairs order isChild →
        (parent : LayerId) → holds order parent ≡ true → is_top isChild order parent ≡ true →
        (below : List LayerId) × (above : List LayerId) × (stacked raised isChild order
        ≡ below ++ (parent ∷ (keep (λ l. isChild parent l && not (raised l)) order ++ keep (λ l. isChild parent l && raised l) order)) ++ above) }
{}
