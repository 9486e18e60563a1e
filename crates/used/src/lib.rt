// The used entries that end a pass, the map `used_ids` of memory/mod.rs, in lent slices: their ids, and four corners for each id, left, top, right and bottom.
#![tactic(auto)]

ghost use Rattle.std.specs.Prelude.{◌≡◌, ◌*◌};
ghost use Rattle.refusal.specs.Refusal.{number_in, none};
ghost use Rattle.grid.specs.Grid.{rect_refusal};
ghost use Rattle.used.specs.Used.{rect_from, lent, repeated, worst_of, used_refusal};

use emath::Rect;
use refusal::Refusal;

// As many cells as a prime near 1,024 whose reciprocal fits in 64 bits, so that the remainder is quick.
const CELLS: usize = 1013;

// Whether an id stands twice. Each id sets bits in its cell; the ids before it are looked at only where all of them are set already.
pub fn repeats(ids: &[u64]) -> bool
    ensures { result ≡ repeated ids.now }
{
    let mut cells = [0u16; CELLS];
    for (i, &id) in ids.iter().enumerate() {
        let cell = (id % CELLS as u64) as usize;
        // By 9 and 49, of two ids below 4,052 in one cell neither has all the bits of the other.
        let bits = ((id / CELLS as u64 % 65536 * 9 + 49) % 65536) as u16;
        let joined = cells[cell] | bits;
        if joined == cells[cell] && ids[..i].contains(&id) {
            return true;
        }
        cells[cell] = joined;
    }
    false
}

// The entries, lent together, as no call changes them.
#[derive(Clone, Copy)]
pub struct UsedEntries<'a> {
    pub ids: &'a [u64],
    pub corners: &'a [f32],
}

impl UsedEntries<'_> {
    // A rectangle of which a corner is missing is off the grid.
    #[tactic(auto, using(crate::proofs::Corners::corner_missing))]
    fn check_rect(self, i: usize) -> Result<(), Refusal>
        ensures { number_in result ≡ rect_refusal (rect_from self.entry.corners.now (4 * i)) }
    {
        match self.corners.as_chunks::<4>().0.get(i) {
            Some(&corners) => grid::rect(Rect::from(corners)),
            None => Err(Refusal::OffGrid),
        }
    }

    // The lowest refusal of an entry.
    #[tactic(auto, using(crate::proofs::Entries::worst_more, crate::proofs::Entries::worst_done))]
    fn check_entries(self) -> Result<(), Refusal>
        ensures { number_in result ≡ worst_of none (lent self.entry) }
    {
        let mut checked = Ok(());
        for (i, &id) in self.ids.iter().enumerate() {
            let entry = refusal::both(refusal::check_id(id), self.check_rect(i));
            // An entry is seldom refused, and to join none takes time too.
            if entry.is_err() {
                checked = refusal::both(checked, entry);
            }
        }
        checked
    }

    // Whether a pass that ends with these entries is taken; too many are refused before anything else, and then the lowest refusal is told.
    #[tactic(auto, using(crate::proofs::Entries::too_many, crate::proofs::Entries::both_told))]
    pub fn check(self, limit: usize) -> Result<(), Refusal>
        ensures { number_in result ≡ used_refusal limit (lent self.entry) }
    {
        refusal::check(self.ids.len() <= limit, Refusal::BadList)?;
        // The entries first: where there are none, the compiler makes no cells for `repeats` either.
        let entries = self.check_entries();
        let distinct = refusal::check(!repeats(self.ids), Refusal::BadList);
        refusal::both(entries, distinct)
    }
}
