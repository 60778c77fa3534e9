// Messages that were posted, found by their receiver and their octets.
ghost use Rattle.std.specs.Prelude.{IfSome};
ghost use Rattle.cell_model.specs.Cells as model;
ghost use Rattle.cds_cell.specs.ModelCells.{Stands};
ghost use Rattle.cds_explain.specs.PrivateComparing.{IsPosted};

use crate::comparing::is_posted;
use cds_cell::Cell;
use cds_stamps::HouseNo;
use indexmap::IndexMap;
use std::alloc::{AllocError, Global};

/// The least serial number of each message, by a hash of its receiver and its octets. Messages that
/// have the same hash are in one list.
#[derive(Drop)]
pub(crate) struct PostedIndex {
    serials: IndexMap<u64, Vec<u64>>,
}

// The hash of a message (FNV-1a).
fn hash_of(to: HouseNo, octets: &[u8]) -> u64 {
    let mut hash = 0xCBF2_9CE4_8422_2325u64;
    hash = (hash ^ u64::from(to.0)).wrapping_mul(0x0100_0000_01B3);
    for octet in octets {
        hash = (hash ^ u64::from(*octet)).wrapping_mul(0x0100_0000_01B3);
    }
    hash
}

impl PostedIndex {
    /// Of no message.
    pub(crate) fn new(alloc: Global) -> PostedIndex {
        PostedIndex {
            serials: IndexMap::new(alloc),
        }
    }

    /// The least serial number of a message to this house with these octets.
    pub(crate) fn find(&self, cell: &Cell, to: HouseNo, octets: &[u8]) -> Option<u64>
        ensures { (g : model.Cell) → Stands cell.now g
            → IfSome result (λ n. IsPosted g n to.0 octets.now) }
    {
        let serials = self.serials.get(&hash_of(to, octets))?;
        for serial in serials {
            if is_posted(cell, *serial, to, octets) {
                return Some(*serial);
            }
        }
        None
    }

    /// Notes a message of the cell, the last one that was posted.
    pub(crate) fn note(
        &mut self,
        alloc: Global,
        cell: &Cell,
        serial: u64,
        to: HouseNo,
        octets: &[u8],
    ) -> Result<(), AllocError> {
        if self.find(cell, to, octets).is_some() {
            return Ok(());
        }
        let hash = hash_of(to, octets);
        if let Some(serials) = self.serials.get_mut(&hash) {
            serials.push(serial)?;
            return Ok(());
        }
        let mut serials = Vec::new(alloc);
        serials.push(serial)?;
        self.serials.insert(hash, serials)?;
        Ok(())
    }
}
