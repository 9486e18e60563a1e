// `areas` of `Areas` (memory/mod.rs), a map from ids to area states, in place on lent tables of any length: a row for each id, in the order in which they came.
// How many rows are held stands beside the tables in `AreaTable`, which reads them; a call that changes the rows is lent the tables themselves, as C lends them.
//     ids:    the id
//     codes:  five numbers, flags among them since the tables are numbers and may hold any: whether it has a pivot position, the pivot's two codes, whether it has a size, whether it is interactable
//     floats: four numbers: the pivot position and the size, 0 where it has none
#![tactic(auto)]

ghost use Rattle.std.specs.Prelude.{◌≡◌, ◌+◌, ◌*◌, ◌≤◌, length};
ghost use Rattle.tables.specs.Tables.{put_at};
ghost use Rattle.area_table.specs.Table.{table_in, lent, room_of, held_in, found_in, spot_of, pivot_pos_in, state_in, codes_of, floats_of, held_of, put_in};

use area::{Align2, AreaState, PivotPos};
use emath::Vec2;

// ---- a state and its numbers

fn pivot_pos(placed: u64, x: f32, y: f32) -> PivotPos
    ensures { result ≡ pivot_pos_in placed x y }
{
    if placed == 0 {
        PivotPos::Absent
    } else {
        PivotPos::At(x, y)
    }
}

#[tactic(auto, unfolding(crate::specs::Table::state_in))]
fn read(codes: &[u64], floats: &[f32], k: usize) -> AreaState
    requires { (5 * k + 5 ≤ length codes.now) × (4 * k + 4 ≤ length floats.now) }
    ensures { result ≡ state_in codes.now floats.now k }
{
    let [placed, x, y, sized, interactable] = codes.as_chunks::<5>().0[k];
    let [left, top, width, height] = floats.as_chunks::<4>().0[k];
    AreaState {
        pivot_pos: pivot_pos(placed, left, top),
        pivot: Align2 { x, y },
        size: (sized != 0).then_some(Vec2 {
            x: width,
            y: height,
        }),
        interactable: interactable != 0,
    }
}

fn put_state(codes: &mut [u64], floats: &mut [f32], k: usize, s: AreaState)
    requires { (5 * k + 5 ≤ length codes.old) × (4 * k + 4 ≤ length floats.old) }
    ensures { (codes.new ≡ put_at codes.old (5 * k) (codes_of s)) × (floats.new ≡ put_at floats.old (4 * k) (floats_of s)) }
{
    let (placed, x, y) = match s.pivot_pos {
        PivotPos::Absent => (0, 0.0, 0.0),
        PivotPos::At(x, y) => (1, x, y),
    };
    let size = s.size.unwrap_or(Vec2 { x: 0.0, y: 0.0 });
    let code = [
        placed,
        s.pivot.x,
        s.pivot.y,
        u64::from(s.size.is_some()),
        u64::from(s.interactable),
    ];
    tables::put(codes, 5 * k, &code);
    tables::put(floats, 4 * k, &[x, y, size.x, size.y]);
}

// ---- the map

// The tables, lent to be read, and how many rows are held.
#[derive(Clone, Copy)]
pub struct AreaTable<'a> {
    pub count: usize,
    pub ids: &'a [u64],
    pub codes: &'a [u64],
    pub floats: &'a [f32],
}

impl AreaTable<'_> {
    // How many whole rows the tables have.
    #[tactic(auto, unfolding(crate::specs::Table::room_of))]
    pub fn room(self) -> usize
        ensures { result ≡ room_of (lent self.entry) }
    {
        self.ids
            .len()
            .min(self.codes.len() / 5)
            .min(self.floats.len() / 4)
    }

    // How many rows are held: never more than there is room for.
    pub fn held(self) -> usize
        ensures { result ≡ held_in self.entry.count (lent self.entry) }
    {
        self.count.min(self.room())
    }

    // The row of an id.
    #[tactic(auto, unfolding(crate::specs::Table::room_of))]
    fn find(self, from: usize, id: u64) -> Option<usize>
        ensures { result ≡ found_in self.entry.ids.now (held_in self.entry.count (lent self.entry)) from id }
    {
        tables::find(&self.ids[..self.held()], from, id)
    }

    // The state of an id, looked for first in the row before `from`: of an id that stands once, `from` only decides how soon it is found.
    #[tactic(auto, using(crate::proofs::Places::found_fits), unfolding(crate::specs::Table::held_of))]
    pub fn get(self, from: usize, id: u64) -> Option<AreaState>
        ensures { result ≡ held_of (lent self.entry) self.entry.count from id }
    {
        let k = self.find(from, id)?;
        Some(read(self.codes, self.floats, k))
    }

    // The row of an id, or how many are held where it has none.
    #[tactic(auto, unfolding(crate::specs::Table::spot_of))]
    pub fn spot(self, from: usize, id: u64) -> usize
        ensures { result ≡ spot_of (lent self.entry) self.entry.count from id }
    {
        self.find(from, id).unwrap_or(self.held())
    }
}

// Puts an id and its state in row k; past the room it changes nothing.
#[tactic(auto, unfolding(crate::specs::Table::put_in, crate::specs::Table::room_of))]
pub fn put(ids: &mut [u64], codes: &mut [u64], floats: &mut [f32], k: usize, id: u64, s: AreaState)
    ensures { table_in ids.new codes.new floats.new ≡ put_in (table_in ids.old codes.old floats.old) k id s }
{
    let table = AreaTable {
        count: k,
        ids,
        codes,
        floats,
    };
    if k < table.room() {
        ids[k] = id;
        put_state(codes, floats, k, s);
    }
}
