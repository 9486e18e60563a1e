// layers.rs: a layer is an Order and an id. An Order is a code, as document 01 has all kinds: any number may come, and one past the last is refused by 2.
#![tactic(auto)]

ghost use Rattle.std.specs.Prelude.{◌≡◌, true};
ghost use Rattle.refusal.specs.Refusal.{number_in};
ghost use Rattle.layers.specs.declared.LayerId.{LayerId};
ghost use Rattle.layers.specs.Layers.{is_layer, layer_refusal};

use refusal::{LAST_ORDER, Refusal};

#[derive(Clone, Copy, Debug, PartialEq, Eq)]
#[repr(C)]
pub struct LayerId {
    pub order: u64,
    pub id: u64,
}

// The layer of id 0 is none.
pub const NO_LAYER: LayerId = LayerId { order: 0, id: 0 };

impl LayerId {
    #[tactic(auto, unfolding(crate::specs::Layers::layer_refusal))]
    pub fn check(self) -> Result<(), Refusal>
        ensures { number_in result ≡ layer_refusal self }
    {
        refusal::both(
            refusal::check_id(self.id),
            refusal::check_code(self.order, LAST_ORDER),
        )
    }
}

// Two layers are one exactly if their Orders and their ids are: what the derived `==` says. There is nothing to run.
pub fn one_layer()
    ensures { (a b : LayerId) → (is_layer a b ≡ true → a ≡ b) × (a ≡ b → is_layer a b ≡ true) }
{}
