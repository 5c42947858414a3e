//! Lists put in rising order: `ordered_by` says what that is for each order, and what std's sorts give is that.
#![tactic(auto)]

mod front;
mod laws;
mod order;

pub use front::push_front_in_order;
pub use laws::order_laws;
pub use order::put_in_order;

#[cfg(test)]
mod tests;
