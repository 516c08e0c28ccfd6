// The key of a label: one number, 40 bits of the weight's rank, 11 of depth and 12 of hyperedge, so
// that comparing two labels is comparing two numbers.

#![tactic(auto)]

ghost use Rattle.std.specs.Prelude.{◌≡◌};
ghost use Rattle.queue.specs.Keys.{rank, packed, unpacked, Fits};

use weights::{Hyperedge, Label, Measure, Weight};

// The greatest weight that has room in a key.
const HEAVIEST: u64 = 1099511627775;

// The place of a weight in the measure's order, and the weight of such a place. Grades are mirrored,
// so that the greater comes first.
fn rank(measure: Measure, weight: u64) -> u64
    ensures { result ≡ rank measure weight }
{
    match measure {
        Measure::Cost | Measure::Days => weight,
        Measure::Grade => HEAVIEST.saturating_sub(weight),
    }
}

pub fn pack(measure: Measure, l: Label) -> u64
    requires { Fits l }
    ensures { result ≡ packed measure l }
{
    let weight = l.weight;
    let edge = l.edge;
    let place = rank(measure, weight.0);
    place * 8388608 + l.depth * 4096 + edge.0
}

pub fn unpack(measure: Measure, key: u64) -> Label
    ensures { result ≡ unpacked measure key }
{
    let weight = rank(measure, key / 8388608);
    let depth = key / 4096 % 2048;
    let edge = key % 4096;
    Label {
        weight: Weight(weight),
        depth,
        edge: Hyperedge(edge),
    }
}
