ghost use Rattle.std.specs.Prelude.{◌≡◌, ℕ, ◌+◌, ◌*◌, ◌^◌, ◌<◌, ◌≤◌, MatchOption};
ghost use Rattle.shape.specs.Shapes.{weight_under, is_light, Held};
ghost use Rattle.shape.specs.Rows.{row_measure, ShapeOf};

use crate::row::Row;

// The heaviest that a bucket can be.
const MAX_LOAD: u32 = 504;

// The bits that the longest prefixes leave.
const LEAST_ROOM: u8 = 0;

// How many buckets an index has, and how long the longest of their prefixes is.
#[derive(Clone, Copy, Debug, PartialEq, Eq)]
pub struct Shape {
    pub buckets: u32,
    pub depth: u8,
}

#[tactic(auto, unfolding(crate::specs::Shapes::prefix_of))]
fn weight_under(row: Row, prefix: u64, room: u8) -> u32
    requires { room ≤ 7 }
    ensures value { result ≡ weight_under row_measure room prefix row }
    ensures small { result < 2 ^ 16 }
{
    if u64::from(row.hash) >> (25 + room) == prefix {
        u32::from(row.weight)
    } else {
        0
    }
}

// Whether the rows under a prefix that leaves `room` of the 7 bits fit into one bucket. The loop stops at the first
// row too many, since the sum over all rows need not fit a number.
#[tactic(auto, using(crate::proofs::Loads::load_none))]
fn is_light(rows: &[Row], prefix: u64, room: u8) -> bool
    requires { room ≤ 7 }
    ensures { result ≡ is_light row_measure room prefix rows.now }
{
    let mut load = 0u32;
    for row in rows {
        load += weight_under(*row, prefix, room);
        if load > MAX_LOAD {
            return false;
        }
    }
    true
}

// The shape of the rows under a prefix. Heavy prefixes are few, so that looking at all rows again costs little.
#[tactic(auto, using(crate::proofs::Halves::small_halves))]
fn shape_under(rows: &[Row], prefix: u64, room: u8) -> Option<Shape>
    requires deep { room ≤ 7 }
    requires small { (prefix + 1) * 2 ^ room ≤ 128 }
    ensures { MatchOption result (Held row_measure room prefix rows.now → ⊥) (ShapeOf room prefix rows.now) }
{
    if is_light(rows, prefix, room) {
        return Some(Shape {
            buckets: 1,
            depth: 0,
        });
    }
    if room == LEAST_ROOM {
        return None;
    }
    let low = shape_under(rows, 2 * prefix, room - 1)?;
    let high = shape_under(rows, 2 * prefix + 1, room - 1)?;
    Some(Shape {
        buckets: low.buckets + high.buckets,
        depth: 1 + low.depth.max(high.depth),
    })
}

// The shape of an index of these rows, or nothing where they cannot be held.
pub fn forecast(rows: &[Row]) -> Option<Shape>
    ensures { MatchOption result (Held row_measure 7 0 rows.now → ⊥) (ShapeOf 7 0 rows.now) }
{
    shape_under(rows, 0, 7)
}
