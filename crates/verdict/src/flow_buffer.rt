//! A buffer that flows are put into.

/// A buffer, and where the next flow goes, which may be past its end.
#[derive(Drop)]
pub(crate) struct FlowBuffer<'a> {
    pub out: &'a mut [u8],
    pub at: usize,
}
