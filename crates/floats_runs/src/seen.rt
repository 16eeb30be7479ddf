// What is seen of one kind's sheets.
ghost use Rattle.std.specs.Prelude.{◌≡◌, length};

use crate::axis::Axis;
use crate::elimination;
use crate::elimination::Row;
use ends::EndKind;

// How many there were, how far a bend number lay at most from the bend in floats, and whether one lay beyond nine eighths.
#[derive(Clone, Copy)]
pub struct Seen {
    pub kind: EndKind,
    pub sheets: u64,
    pub largest: f64,
    pub beyond: bool,
}

impl Seen {
    pub fn none(kind: EndKind) -> Seen {
        Seen {
            kind,
            sheets: 0,
            largest: 0.0,
            beyond: false,
        }
    }

    // Adds the differences between an axis's bend numbers and 65,536 times the unknowns of its rows.
    fn add_axis(&mut self, axis: &Axis<'_>, list: &[i64]) {
        let mut all = [Row::ZERO; 512];
        let rows = &mut all[..axis.sheet.points];
        let corner = axis.put_rows(rows);
        elimination::ptri(rows, corner);
        for (z, row) in list.iter().zip(rows.iter()) {
            let d = (std::num::nearest_i64_to_f64(*z) - 65536.0 * row.y).abs();
            self.largest = self.largest.max(d);
            // (Of a NaN it is not true that it lies within.)
            if !(d <= 1.125) {
                self.beyond = true;
            }
        }
    }

    // Adds a sheet, if it is accepted and of the kind: north, east and up.
    pub fn add(&mut self, s: &[u8]) {
        let Ok(sheet) = answers::open(sheet::MOST_POINTS, s) else {
            return;
        };
        let mut list = [0i64; 1536];
        if sheet.kind != self.kind || layout::lay_out(s, &mut list).is_err() {
            return;
        }
        self.sheets = self.sheets.wrapping_add(1);
        let legs = sheet.legs();
        let n = sheet.points;
        self.add_axis(
            &Axis {
                sheet,
                legs,
                axis: 0,
            },
            &list,
        );
        self.add_axis(
            &Axis {
                sheet,
                legs,
                axis: 1,
            },
            &list[n..],
        );
        self.add_axis(
            &Axis {
                sheet,
                legs,
                axis: 2,
            },
            &list[2 * n..],
        );
    }
}
