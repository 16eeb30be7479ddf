// What 9 and 12 ask of a lent list's bend numbers, axis after axis (L5), without a sheet. `Laid` asks it of a sheet's.
ghost use Rattle.std.specs.Prelude.{◌≡◌, ◌||◌, ◌+◌, ◌*◌, ◌≤◌, ◌<◌, ltb, length};
ghost use Rattle.sheet.specs.Bytes.{any_below};
ghost use Rattle.systems.specs.Passes.{at};
ghost use Rattle.place.specs.Places.{beyond};

// N9.
pub fn is_short(list: &[i64], points: usize) -> bool
    requires { points ≤ 512 }
    ensures { result ≡ ltb (length list.now) (3 * points) }
{
    list.len() < 3 * points
}

// The bend number of a waypoint on an axis.
pub fn bend_at(list: &[i64], points: usize, axis: usize, i: usize) -> i64
    requires { (3 * points ≤ length list.now) × (axis < 3) × (i < points) }
    ensures { result ≡ at list.now (axis * points + i) }
{
    list[axis * points + i]
}

// N12, of one number.
fn is_beyond(z: i64) -> bool
    ensures { result ≡ beyond z }
{
    (z < -137438953472) | (137438953472 < z)
}

// N12, of the numbers at two waypoints, on all axes.
pub fn bend_outside(list: &[i64], points: usize, start: usize, end: usize) -> bool
    requires { (3 * points ≤ length list.now) × (start < points) × (end < points) }
    ensures { result ≡ any_below (λ axis. beyond (at list.now (axis * points + start)) || beyond (at list.now (axis * points + end))) 3 }
{
    (0..3).any(|axis| {
        is_beyond(bend_at(list, points, axis, start)) | is_beyond(bend_at(list, points, axis, end))
    })
}
