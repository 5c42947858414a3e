//! Endpoints as numbers whose order is that of the endpoints: by value, minima before maxima, then by slot.

ghost use Rattle.std.specs.Prelude.{◌≡◌, ◌+◌, ◌*◌, ◌/◌, ◌%◌, ◌<◌};
ghost use Rattle.endpoint_list.specs.declared.TheConstants.{NODES};
ghost use Rattle.sweep_prune.specs.Endpoints.{NewKeys};
ghost use Rattle.sweep_prune.specs.Keyed.{coord};
ghost use Rattle.sweep_prune.specs.KeyNumbers.{biased, IsInRange};

use crate::Axis;
use crate::axis::coordinate;
use endpoint_list::NODES;
use fixed_box::{FBox, Fix, SLOTS};

// The numbers of the two keys that a box gives a slot on an axis.
pub(crate) fn key_numbers(body: FBox, axis: Axis, slot: u32) -> (u64, u64)
    requires { slot < SLOTS }
    ensures { NewKeys (coord axis) slot body result.0 result.1 }
{
    let lo = key_number(coordinate(body.lo(), axis), 2 * slot);
    let hi = key_number(coordinate(body.hi(), axis), 2 * slot + 1);
    (lo, hi)
}

// A node's key at a value, as one number whose order is the order of keys: the value above the side above the slot.
fn key_number(value: Fix, node: u32) -> u64
    requires { node < NODES }
    ensures number { result ≡ biased value * 4294967296 + (node % 2 * SLOTS + node / 2) }
    ensures range { IsInRange value }
{
    biased(value) * (1 << 32) + u64::from(node % 2 * SLOTS + node / 2)
}

// A value, counted from the least one.
fn biased(value: Fix) -> u64
    ensures value { result ≡ biased value }
    ensures range { IsInRange value }
    ensures small { result < 4294967296 }
{
    (i64::from(value) + (1 << 31)) as u64
}
