// The stroke ends of a stretch, by recursion over it (F9, H3): each call has fewer ticks than its caller.
ghost use Rattle.std.specs.Prelude.{◌≡◌, ◌+◌, ◌<◌, ◌≤◌, length, set};
ghost use Rattle.std.proofs.lemmas.List.Edits.{sets};
ghost use Rattle.stretch.specs.Stretches.{ends_of};
ghost use Rattle.stretch.specs.Asked.{tabled, flat, FlatStretch, Counted};

use crate::MOST_PLACES;
use crate::piece::{Stretch, TabledLeg};

// An end at place n of the list, where the list has that place. It is counted in any case, so that a short list can be used for counting.
// (So n is no length of the list, and stands beside it.)
pub fn put_end(ends: &mut [u64], n: usize, tick: usize) -> usize
    requires { n < 4294967296 }
    ensures count { result ≡ n + 1 }
    ensures ends { ends.new ≡ set ends.old n tick }
{
    // (No `get_mut`: its contract says nothing of the element.)
    if n < ends.len() {
        ends[n] = tick as u64;
    }
    n + 1
}

impl TabledLeg<'_> {
    // H3: the ends of a stretch behind its start, from place n of the list on. Two single ticks are told at once: half of all calls would be for these.
    // (`start` and `ticks` are handed on by themselves: in a struct they would go through memory at each call, and strokes at 0 mm took 6 % longer.)
    pub fn cut(&self, start: usize, ticks: usize, ends: &mut [u64], n: usize) -> usize
        requires stretch { (1 ≤ ticks) × (start + ticks ≤ self.now.ticks) }
        requires count { n + ticks ≤ 131073 }
        ensures count { result ≡ n + length (ends_of self.now.tolerance (tabled self.now.places.now) self.now.from start ticks) }
        ensures ends { ends.new ≡ sets ends.old n (ends_of self.now.tolerance (tabled self.now.places.now) self.now.from start ticks) }
    {
        let stretch = Stretch {
            leg: &*self,
            start,
            ticks,
        };
        if stretch.is_kept() {
            return put_end(ends, n, self.from + (start + ticks));
        }
        if ticks == 2 {
            let middle = put_end(ends, n, self.from + (start + 1));
            return put_end(ends, middle, self.from + (start + 2));
        }
        let half = ticks / 2;
        let middle = self.cut(start, half, ends, n);
        self.cut(start + half, ticks - half, ends, middle)
    }
}

// H3: the same of a leg whose places stand in one slice, 257 for each axis; more may follow. `from` is the tick at which the leg starts. (The slice is read where it stands.)
pub fn cut(
    places: &[i64],
    tolerance: u64,
    from: usize,
    start: usize,
    ticks: usize,
    ends: &mut [u64],
    n: usize,
) -> usize
    requires { FlatStretch places.now tolerance start ticks × Counted from start ticks n }
    ensures count { result ≡ n + length (ends_of tolerance (flat places.now) from start ticks) }
    ensures ends { ends.new ≡ sets ends.old n (ends_of tolerance (flat places.now) from start ticks) }
{
    let (axes, _) = places.as_chunks::<MOST_PLACES>();
    let leg = TabledLeg {
        places: axes.first_chunk().unwrap(),
        tolerance,
        from,
        ticks: start + ticks,
    };
    leg.cut(start, ticks, ends, n)
}
