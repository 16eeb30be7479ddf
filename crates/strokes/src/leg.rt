// The stroke ends of one leg (H3). Its places are worked out once, into a table, and read from there at every cut.
ghost use Rattle.std.specs.Prelude.{◌≡◌, ◌+◌, ◌≤◌, ◌<◌, length};
ghost use Rattle.std.proofs.lemmas.List.Edits.{sets};
ghost use Rattle.strokes.specs.Strokes.{places_on, leg_ends};
ghost use Rattle.strokes.specs.Asked.{Filled, Table, OnLegOf};

use place::Leg;
use stretch::{LegPlaces, MOST_PLACES, TabledLeg};

// The leg's places on one axis, offset by offset.
fn put_places(leg: &Leg<'_>, axis: usize, x: &mut [i64; MOST_PLACES])
    requires { axis < 3 }
    ensures { Filled x.new leg.now.ticks (places_on leg.now.laid.sheet.bytes.now leg.now.laid.list.now leg.now.start axis) }
{
    let numbers = leg.numbers_on(axis);
    for u in 0..=leg.ticks {
        x[u as usize] = numbers.position(u);
    }
}

// The leg's places, axis by axis.
fn put_table(leg: &Leg<'_>, places: &mut LegPlaces)
    ensures { Table places.new leg.now.ticks (places_on leg.now.laid.sheet.bytes.now leg.now.laid.list.now leg.now.start) }
{
    for axis in 0..3 {
        put_places(leg, axis, &mut places[axis]);
    }
}

// H3: the leg begins as one stretch. Its ends, from place n of the list on as far as the list goes, and counted in any case; `places` is overwritten.
pub fn leg_ends(
    leg: &Leg<'_>,
    tolerance: u64,
    from: usize,
    places: &mut LegPlaces,
    ends: &mut [u64],
    n: usize,
) -> usize
    requires { (tolerance ≤ 1000) × OnLegOf leg.now.laid.sheet.bytes.now leg.now.start from n }
    ensures count { result ≡ n + length (leg_ends leg.now.laid.sheet.bytes.now leg.now.laid.list.now tolerance leg.now.start) }
    ensures ends { ends.new ≡ sets ends.old n (leg_ends leg.now.laid.sheet.bytes.now leg.now.laid.list.now tolerance leg.now.start) }
{
    put_table(leg, places);
    let tabled = TabledLeg {
        places,
        tolerance,
        from,
        ticks: leg.ticks as usize,
    };
    tabled.cut(0, tabled.ticks, ends, n)
}
