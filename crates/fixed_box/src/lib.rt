//! Points and axis-aligned boxes over 16.16 fixed-point coordinates, and the text of a coordinate.
#![tactic(auto)]

mod fbox;
mod fix_fault;
mod laws;
mod no_memory;
mod parsing;
mod point;
mod printing;
mod space;

pub use fbox::FBox;
pub use fix_fault::FixFault;
pub use laws::{box_laws, slot_law};
pub use no_memory::NoMemory;
pub use parsing::read_fix;
pub use point::Point;
pub use printing::{print_fix, printed_reads_back};
pub use space::space_law;

/// A coordinate in raw units: `raw` stands for `raw / 65,536`.
pub type Fix = i32;

/// How many slots there are for boxes: 0 to 8,191. So many boxes may live at once.
pub const SLOTS: u32 = 8_192;
