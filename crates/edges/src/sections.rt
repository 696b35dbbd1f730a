//! The bytes of a book file, section by section.
use std::alloc::{AllocError, Global};

/// The bytes of a header.
pub const HEADER: usize = 32;
/// The bytes of the header at which the pairs of the sections stand.
const PAIRS: [u32; 6] = [8, 12, 16, 20, 24, 28];

/// The counts that a header gives, and the bytes of the six sections.
#[derive(Drop)]
pub struct Sections {
    pub counts: [u8; 4],
    pub levels: Vec<u8>,
    pub cells: Vec<u8>,
    pub starts: Vec<u8>,
    pub rules: Vec<u8>,
    pub clauses: Vec<u8>,
    pub code: Vec<u8>,
}

/// Puts the low two bytes of a number.
pub fn put_two(out: &mut Vec<u8>, number: usize) -> Result<(), AllocError> {
    out.extend_from_slice(&((number & 0xffff) as u16).to_be_bytes())
}

impl Sections {
    fn bodies(&self) -> [&[u8]; 6] {
        [
            &self.levels,
            &self.cells,
            &self.starts,
            &self.rules,
            &self.clauses,
            &self.code,
        ]
    }

    /// Where each section begins and ends in the file.
    fn spans(&self) -> [(usize, usize); 6] {
        let mut end = HEADER;
        self.bodies().map(|body| {
            let from = end;
            end = from.saturating_add(body.len());
            (from, end)
        })
    }

    fn header(&self, heap: Global) -> Result<Vec<u8>, AllocError> {
        let mut out = Vec::from_slice(heap, b"ABU1")?;
        out.extend_from_slice(&self.counts)?;
        for (from, end) in self.spans() {
            put_two(&mut out, from)?;
            put_two(&mut out, end.saturating_sub(from))?;
        }
        Ok(out)
    }

    /// The whole file.
    pub fn file(&self, heap: Global) -> Result<Vec<u8>, AllocError> {
        let mut out = self.header(heap)?;
        for body in self.bodies() {
            out.extend_from_slice(body)?;
        }
        Ok(out)
    }

    /// The byte of the first header pair whose section ends past `size` bytes.
    pub fn first_past(&self, size: usize) -> Option<u32> {
        PAIRS
            .into_iter()
            .zip(self.spans())
            .find(|(_, (_, end))| *end > size)
            .map(|(pair, _)| pair)
    }
}
