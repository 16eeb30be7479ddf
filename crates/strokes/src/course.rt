// The stroke ends of a whole course (H4), leg by leg, and whether a list has room for them (N22).
ghost use Rattle.std.specs.Prelude.{◌≡◌, leb, length};
ghost use Rattle.std.proofs.lemmas.List.Edits.{sets};
ghost use Rattle.answers.specs.Answers.{told_count};
ghost use Rattle.strokes.specs.Strokes.{stroke_ends, ink_or_ends, left_by};

use crate::drawing::Drawing;
use crate::leg::leg_ends;
use sheet::Refusal;
use stretch::{MOST_PLACES, put_end};

impl Drawing<'_> {
    // H4: written as far as the list goes, and counted in any case.
    fn course_ends(&self, ends: &mut [u64]) -> usize
        ensures count { result ≡ length (stroke_ends self.now.laid.sheet.bytes.now self.now.laid.list.now self.now.tolerance) }
        ensures ends { ends.new ≡ sets ends.old 0 (stroke_ends self.now.laid.sheet.bytes.now self.now.laid.list.now self.now.tolerance) }
    {
        let mut places = [[0i64; MOST_PLACES]; 3];
        let mut n = put_end(ends, 0, 0);
        let mut from = 0;
        for i in 0..self.laid.sheet.legs() {
            let leg = self.laid.leg(i);
            n = leg_ends(&leg, self.tolerance, from, &mut places, ends, n);
            from += leg.ticks as usize;
        }
        n
    }

    // N22: a list of more places than the course has ticks has room (H5); for a shorter one the ends are counted.
    fn has_room(&self, room: usize) -> bool
        ensures { result ≡ leb (length (stroke_ends self.now.laid.sheet.bytes.now self.now.laid.list.now self.now.tolerance)) room }
    {
        if self.ticks < room as u64 {
            return true;
        }
        let mut nowhere = [0u64; 1];
        self.course_ends(&mut nowhere) <= room
    }

    // 22, or the ends: nothing is written before it is known that all of them have room.
    pub fn draw(&self, ends: &mut [u64]) -> Result<usize, Refusal>
        ensures told { told_count result ≡ ink_or_ends self.now.laid.sheet.bytes.now self.now.laid.list.now self.now.tolerance (length ends.old) }
        ensures ends { ends.new ≡ left_by (ink_or_ends self.now.laid.sheet.bytes.now self.now.laid.list.now self.now.tolerance (length ends.old)) (stroke_ends self.now.laid.sheet.bytes.now self.now.laid.list.now self.now.tolerance) ends.old }
    {
        if !self.has_room(ends.len()) {
            return Err(Refusal::Ink);
        }
        Ok(self.course_ends(ends))
    }
}
