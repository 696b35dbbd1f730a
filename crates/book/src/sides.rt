//! Whose cells an expression reads.

/// The device's own cells, or those of the device that receives a remote task.
#[derive(Clone, Copy, PartialEq, Eq, Debug)]
pub enum Side {
    Own,
    Receiver,
}
