//! Whether a ray or a segment meets a box, and where a ray first does: the slab test (Ericson, Real-Time Collision
//! Detection, 2005, 5.3.3) in whole numbers, exact for parts up to 2^34.
#![tactic(auto)]

mod axes;
mod entry;
mod mirrored_slab;
mod ray;
mod seg;
mod wbox;
mod wpoint;

pub use entry::Entry;
pub use ray::{Ray, first_law, ray_entry, ray_law, ray_meets};
pub use seg::{Seg, seg_law, seg_meets};
pub use wbox::WBox;
pub use wpoint::WPoint;
