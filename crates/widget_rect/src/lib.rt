// WidgetRect of widget_rect.rs: what the registry keeps of a widget.
#![tactic(auto)]

ghost use Rattle.std.specs.Prelude.{◌≡◌};
ghost use Rattle.refusal.specs.Refusal.{number_in};
ghost use Rattle.widget_rect.specs.WidgetRect.{is_focusable, joined_of, ids_refusal, rects_refusal, other_layer_refusal, widget_refusal, insert_refusal};

use emath::Rect;
use layers::LayerId;
use refusal::{LAST_SENSE, Refusal};

#[derive(Clone, Copy)]
#[repr(C)]
pub struct WidgetRect {
    pub id: u64,
    pub parent_id: u64,
    pub layer_id: LayerId,
    pub rect: Rect,
    pub interact_rect: Rect,
    // The bits click 1, drag 2, focusable 4; a code, as all kinds are in document 01.
    pub sense: u64,
    pub enabled: bool,
    pub visible: bool,
}

#[tactic(auto, unfolding(layers::specs::Layers::is_layer))]
fn check_layers(call: LayerId, held: LayerId) -> Result<(), Refusal>
    ensures { number_in result ≡ other_layer_refusal call held }
{
    refusal::check(call == held, Refusal::OtherLayer)
}

impl WidgetRect {
    fn check_ids(self) -> Result<(), Refusal>
        ensures { number_in result ≡ ids_refusal self }
    {
        refusal::both(
            refusal::check_id(self.id),
            refusal::check_id(self.parent_id),
        )
    }

    fn check_rects(self) -> Result<(), Refusal>
        ensures { number_in result ≡ rects_refusal self }
    {
        refusal::both(grid::rect(self.rect), grid::rect(self.interact_rect))
    }

    // What the record alone is refused for.
    #[tactic(auto, unfolding(crate::specs::WidgetRect::widget_refusal))]
    fn check(self) -> Result<(), Refusal>
        ensures { number_in result ≡ widget_refusal self }
    {
        let codes = refusal::both(
            self.layer_id.check(),
            refusal::check_code(self.sense, LAST_SENSE),
        );
        let rest = refusal::both(codes, self.check_rects());
        refusal::both(self.check_ids(), rest)
    }

    // What an insert of the record into a layer is refused for, whatever the registry holds.
    #[tactic(auto, unfolding(crate::specs::WidgetRect::insert_refusal))]
    pub fn check_insert(self, layer: LayerId) -> Result<(), Refusal>
        ensures { number_in result ≡ insert_refusal self layer }
    {
        let layers = refusal::both(layer.check(), check_layers(layer, self.layer_id));
        refusal::both(self.check(), layers)
    }

    // What insert does to the record of a known widget: the new rectangles, and sense, enabled and visible joined.
    #[tactic(auto, unfolding(crate::specs::WidgetRect::joined_of))]
    pub fn joined(mut self, new: WidgetRect) -> WidgetRect
        ensures { result ≡ joined_of self new }
    {
        self.rect = new.rect;
        self.interact_rect = new.interact_rect;
        self.sense |= new.sense;
        self.enabled |= new.enabled;
        self.visible |= new.visible;
        self
    }

    // Whether the widget is enabled and can take keyboard focus.
    #[tactic(auto, unfolding(crate::specs::WidgetRect::is_focusable))]
    pub fn is_focusable(self) -> bool
        ensures { result ≡ is_focusable self }
    {
        self.enabled && self.sense / 4 % 2 == 1
    }
}
