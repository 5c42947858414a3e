//! A hashed hierarchical grid: boxes in cells of eleven levels, by how long they are and where (Ericson, *Real-Time
//! Collision Detection*, 2005, 7.2).
//!
//! `grid` has the broad phase. `pair_search` is the search for all pairs along copies of all boxes in the order of buckets, and
//! `cell_pairs` goes through the cells for it; `ring_search` follows the rings of links instead. Queries come from `hits`, and
//! `visits` has the search for what is first or nearest.
#![tactic(auto)]

mod area;
mod box_cut;
mod cell_pairs;
mod due_pairs;
mod first_ring;
mod found;
mod grid;
mod grid_listing;
mod grid_search;
mod hits;
mod level_scan;
mod pair_search;
mod partners;
mod ring_search;
mod searched;
mod visits;

pub use grid::HierGrid;
