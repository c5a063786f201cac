ghost use Rattle.std.specs.Prelude.{◌≡◌, ◌+◌, ◌^◌, ◌<◌, ◌≤◌, false, not, ◌&&◌, length, get_or, ◌==◌, slice_index, slice_index_or, slice_set};
ghost use Rattle.decoder.specs.Machines.{clear, started, passed, with_mark, finding_one, found_at, shade_at, reached, refined_one, halved_cell, stage_of, Sound, Walks, EndsDominant, Refines, Takes};
ghost use Rattle.decoder.specs.declared.machine.Waiting.TheVariants.{Subordinate};

use super::cell::{Cell, Mark};
use super::missed::missed_root;
use scan::Side;
use stream::fault::StreamFault;

// What the next bit is to be.
#[derive(Clone, Copy, PartialEq, Eq, Debug)]
pub enum Waiting {
    // The first bit of the label of a place.
    First,
    // Its second bit.
    Second { first: bool },
    // The subordinate bit of a found place.
    Subordinate,
    // Nothing: every pass is over.
    Nothing,
}

// The decoder's own state.
#[derive(Clone, Copy, Debug)]
pub struct Machine {
    pub waiting: Waiting,
    // The exponent of the threshold of the present passes.
    pub exponent: u32,
    // In a dominant pass: the place whose label is due.
    pub place: usize,
    // In a subordinate pass: how many found places are refined.
    pub index: usize,
    // How many places are found.
    pub count: usize,
    // How many were found before the present dominant pass.
    pub before: usize,
    // No bit was taken at the present threshold, which is not the first one: a full stream can end here.
    pub whole: bool,
}

// The walk comes to a place: shaded by what stands above it, and not labelled yet. Answers whether a label is due there.
fn reach(place: usize, cells: &mut [Cell]) -> bool
    requires { place < length cells.old }
    ensures due { result ≡ (not (shade_at cells.old place) && (get_or cells.old place clear).width == 0) }
    ensures cell { cells.new ≡ slice_set cells.old place (reached (shade_at cells.old place) (slice_index_or cells.old place clear)) }
{
    let above = cells[place / 4];
    let shaded = place > 0 && (above.shaded || above.mark == Mark::Root);
    let cell = &mut cells[place];
    cell.shaded = shaded;
    cell.mark = Mark::Skipped;
    !shaded && cell.width == 0
}

impl Machine {
    // The machine before the first bit behind the header.
    pub fn start(level: u32) -> Self
        ensures { result ≡ started level }
    {
        let waiting = if level == 0 {
            Waiting::Nothing
        } else {
            Waiting::First
        };
        Machine {
            waiting,
            exponent: level.saturating_sub(1),
            place: 0,
            index: 0,
            count: 0,
            before: 0,
            whole: level == 0,
        }
    }

    // Takes the bit at an index of the source.
    #[tactic(auto, using(crate::proofs::Bits::one_bit))]
    pub fn take(
        &mut self,
        side: Side,
        bit: bool,
        index: usize,
        cells: &mut [Cell],
        found: &mut [u16],
    ) -> Result<(), StreamFault>
        requires table { length cells.old ≡ 4 ^ side.exponent }
        requires sound { Sound side.exponent self.old cells.old found.old }
        requires bits { index + 1 < 2 ^ 64 }
        ensures { Takes side.exponent (index + 1) bit (stage_of self.old cells.old found.old) self.new cells.new found.new result }
    {
        let taken = index + 1;
        match (self.waiting, bit) {
            (Waiting::First, first) => {
                self.waiting = Waiting::Second { first };
                self.whole = false;
                Ok(())
            }
            (Waiting::Second { first: true }, negated) => {
                self.find(negated, cells, found);
                self.walk(taken, cells)
            }
            (Waiting::Second { first: false }, true) => {
                if !side.has_children(self.place) {
                    return Err(StreamFault::RootAtLeaf { taken });
                }
                self.label(Mark::Root, cells);
                self.walk(taken, cells)
            }
            (Waiting::Second { first: false }, false) => {
                self.label(Mark::Zero, cells);
                self.walk(taken, cells)
            }
            (Waiting::Subordinate, upper) => {
                self.whole = false;
                self.refine(upper, cells, found);
                self.next_refinement(taken, cells)
            }
            (Waiting::Nothing, _) => Err(StreamFault::BitsAfterEnd { taken: index }),
        }
    }

    // The place is labelled, and passed.
    fn label(&mut self, mark: Mark, cells: &mut [Cell])
        requires { self.old.place < length cells.old }
        ensures machine { self.new ≡ passed self.old }
        ensures cell { cells.new ≡ slice_set cells.old self.old.place (with_mark mark (slice_index_or cells.old self.old.place clear)) }
    {
        let cell = &mut cells[self.place];
        cell.mark = mark;
        self.place += 1;
    }

    // The place is found, in a cell of the threshold's width.
    fn find(&mut self, negated: bool, cells: &mut [Cell], found: &mut [u16])
        requires { (self.old.exponent < 15) × ((self.old.place < 4096) × ((self.old.place < length cells.old) × (self.old.count < length found.old))) }
        ensures machine { self.new ≡ finding_one self.old }
        ensures cell { cells.new ≡ slice_set cells.old self.old.place (found_at self.old.exponent negated (slice_index_or cells.old self.old.place clear)) }
        ensures item { found.new ≡ slice_set found.old self.old.count self.old.place }
    {
        let threshold = 1u16 << self.exponent;
        found[self.count] = self.place as u16;
        self.count += 1;
        let cell = &mut cells[self.place];
        cell.low = threshold;
        cell.width = threshold;
        cell.negated = negated;
        self.label(Mark::Significant, cells);
    }

    // Passes over the places that are not due, up to the next label or the end of the dominant pass.
    #[tactic(auto, using(crate::proofs::Places::walks))]
    fn walk(&mut self, taken: usize, cells: &mut [Cell]) -> Result<(), StreamFault>
        ensures { Walks taken self.old cells.old self.new cells.new result }
    {
        for place in self.place..cells.len() {
            if reach(place, cells) {
                self.place = place;
                self.waiting = Waiting::First;
                return Ok(());
            }
        }
        self.place = cells.len();
        self.end_dominant(taken, cells)
    }

    // The dominant pass is over: its two rules, and then the subordinate pass, but for the threshold 1.
    #[tactic(auto, using(crate::proofs::Ends::ends))]
    fn end_dominant(&mut self, taken: usize, cells: &mut [Cell]) -> Result<(), StreamFault>
        ensures { EndsDominant taken self.old cells.old self.new cells.new result }
    {
        if self.count == 0 {
            return Err(StreamFault::NothingFound { taken });
        }
        if missed_root(cells) {
            return Err(StreamFault::MissedRoot { taken });
        }
        if self.exponent == 0 {
            self.waiting = Waiting::Nothing;
            self.whole = true;
            return Ok(());
        }
        self.waiting = Waiting::Subordinate;
        self.index = 0;
        Ok(())
    }

    // The cell of the next found place is halved.
    fn refine(&mut self, upper: bool, cells: &mut [Cell], found: &[u16])
        requires in_bounds { (self.old.index < length found.now) × (slice_index found.now self.old.index < length cells.old) }
        requires fits { (get_or cells.old (slice_index found.now self.old.index) clear).low + (get_or cells.old (slice_index found.now self.old.index) clear).width ≤ 2 ^ 15 }
        ensures machine { self.new ≡ refined_one self.old }
        ensures cell { cells.new ≡ slice_set cells.old (slice_index found.now self.old.index) (halved_cell upper (slice_index_or cells.old (slice_index found.now self.old.index) clear)) }
    {
        let cell = &mut cells[usize::from(found[self.index])];
        cell.width /= 2;
        if upper {
            cell.low += cell.width;
        }
        self.index += 1;
    }

    // The next subordinate bit, or the next threshold's dominant pass.
    #[tactic(auto, using(crate::proofs::Refinements::behind_bit))]
    fn next_refinement(&mut self, taken: usize, cells: &mut [Cell]) -> Result<(), StreamFault>
        requires threshold { 1 ≤ self.old.exponent }
        requires waits { self.old.waiting ≡ Subordinate }
        ensures { Refines taken self.old cells.old self.new cells.new result }
    {
        if self.index < self.count {
            return Ok(());
        }
        self.exponent -= 1;
        self.place = 0;
        self.before = self.count;
        self.whole = true;
        self.walk(taken, cells)
    }
}
