//! A slot beside its box.

use fixed_box::FBox;

/// A slot beside its box.
#[derive(Clone, Copy)]
pub struct SlotBox {
    pub slot: u32,
    pub body: FBox,
}
