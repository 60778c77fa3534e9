// A life of a house: one process over a folder in memory, to its death or the end of its lines.
use cds_base::{MemSink, MemSource};
use house_program::{Death, MemFolder, run};
use std::alloc::{AllocError, Global};
use std::test::Fail;

// More octets than a life writes.
const ROOM: usize = 1_048_576;

/// A folder between two lives.
#[derive(Drop)]
pub struct Folder(MemFolder);

impl Folder {
    /// A folder that has nothing.
    pub fn new(alloc: Global) -> Folder {
        Folder(MemFolder::new(alloc))
    }

    /// A life of the house, to its death or the end of the lines. What it wrote.
    pub fn live(
        &mut self,
        alloc: Global,
        lines: &[u8],
        death: Option<Death>,
    ) -> Result<Vec<u8>, Fail> {
        self.0.free(death);
        let mut source = MemSource::new(lines.to_vec(alloc)?, Vec::new(alloc), ROOM);
        let mut sink = MemSink::new(alloc, ROOM, Vec::new(alloc), ROOM)?;
        run(alloc, &mut self.0, &mut source, &mut sink);
        Ok(Vec::from_slice(alloc, sink.written())?)
    }

    /// Another folder with the same octets.
    pub fn copy(&self, _alloc: Global) -> Result<Folder, AllocError> {
        Ok(Folder(self.0.copy()?))
    }
}
