// 004's elimination in floats, PTRI (appendix), separately written from the station's passes: of the symmetric system with a on the diagonal, b beside
// it and c in the corners. v is the last column. With the corner 0, for open ends, it is the usual elimination of three diagonals (Thomas).
ghost use Rattle.std.specs.Prelude.{◌+◌, ◌<◌, ◌≤◌, length};

// A row: its diagonal, what stands beside it, its number in the last column, and its right side, which becomes its unknown.
#[derive(Clone, Copy)]
pub struct Row {
    pub a: f64,
    pub b: f64,
    pub v: f64,
    pub y: f64,
}

impl Row {
    pub const ZERO: Row = Row {
        a: 0.0,
        b: 0.0,
        v: 0.0,
        y: 0.0,
    };
}

// Takes unknown i out of the next row and of the last one.
fn eliminate(rows: &mut [Row], i: usize)
    requires { i + 1 < length rows.old }
{
    let Row { a, b, v, y } = rows[i];
    let r = b / a;
    let next = &mut rows[i + 1];
    next.a -= r * b;
    next.y -= r * y;
    let q = v / a;
    next.v -= q * b;
    if let Some(last) = rows.last_mut() {
        last.a -= q * v;
        last.y -= q * y;
    }
}

// The last two rows.
fn solve_last(rows: &mut [Row]) {
    if let [.., before, last] = rows {
        let r = before.v / before.a;
        last.a -= r * before.v;
        last.y -= r * before.y;
        last.y /= last.a;
        before.y = (before.y - before.v * last.y) / before.a;
    }
}

// Row i, once the next unknown and the last are known.
fn solve(rows: &mut [Row], i: usize)
    requires { i + 1 < length rows.old }
{
    let next = rows[i + 1].y;
    let last = rows[rows.len() - 1].y;
    let row = &mut rows[i];
    row.y = (row.y - row.v * last - row.b * next) / row.a;
}

// Solves the system: each y becomes its unknown. The v are still 0.
pub fn ptri(rows: &mut [Row], corner: f64)
    requires { 2 ≤ length rows.old }
{
    let before = rows.len() - 2;
    rows[0].v = corner;
    rows[before].v = rows[before].b;
    for i in 0..before {
        eliminate(rows, i);
    }
    solve_last(rows);
    for i in (0..before).rev() {
        solve(rows, i);
    }
}
