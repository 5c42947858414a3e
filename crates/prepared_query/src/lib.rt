//! Queries that are asked of many boxes, each prepared once.
#![tactic(auto)]

mod box_test;
mod cast_test;
mod law;
mod line_hull;
mod line_test;
mod slope;
mod slopes;

pub use box_test::BoxTest;
pub use cast_test::CastTest;
pub use law::enclosing_law;
pub use line_test::LineTest;
