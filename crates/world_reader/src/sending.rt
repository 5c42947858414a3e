//! That a reader may go from one thread to another.

use crate::reader::WorldReader;

/// A law for proofs, with nothing to run: a reader is `Send`, so that each asker may take one to its own thread. Without that this
/// crate has no proof.
pub fn send_law(reader: &WorldReader) {
    goes(reader);
}

// Takes only what may go to another thread.
fn goes<T: Send>(_value: &T) {}
