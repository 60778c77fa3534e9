// The disks that a run of the form `journal` gives back.

use cds_base::{MemSink, MemSource};
use cell_replay::{Status, new_disks, run_journal};
use house_journal::Disk;
use std::test::Fail;

// House 1 puts its image into its journal.
const SCRIPT: &[u8] = b"house 1 00000000000a\nroot 1\n";

const ANSWERS: &[u8] = b"1 ok\n2 ok\n";

// More octets than are read and written.
const ROOM: usize = 4096;

#[test]
fn all_disks_come_back(rt: HostRuntime) -> Result<(), Fail> {
    let alloc = rt.alloc();
    let mut disks = new_disks(alloc)?;
    let mut source = MemSource::new(SCRIPT.to_vec(alloc)?, Vec::new(alloc), ROOM);
    let mut sink = MemSink::new(alloc, ROOM, Vec::new(alloc), ROOM)?;
    let status = run_journal(alloc, &mut source, &mut sink, &mut disks);
    assert_eq!(rt; status, Status::Ok);
    assert!(rt; sink.written() == ANSWERS);
    assert_eq!(rt; disks.len(), 255);
    for (at, disk) in disks.iter_mut().enumerate() {
        assert_eq!(rt; matches!(disk.size(), Ok(size) if size > 0), at == 0);
    }
    Ok(())
}
