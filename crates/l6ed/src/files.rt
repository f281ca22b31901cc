//! The files of the host.

use l6_dap::{FileFault, Files};
use l6_device::{Host, Part, Patience, RunFault, read_part};
use std::alloc::Global;
use std::fs::File;

/// The files of the host.
#[derive(Drop)]
pub(crate) struct HostFiles<'a> {
    pub(crate) rt: &'a HostRuntime,
}

impl Files for HostFiles<'_> {
    fn read(&mut self, alloc: Global, path: &str, part: Part) -> Result<Vec<u8>, FileFault> {
        let Ok(file) = File::open(self.rt, path) else {
            return Err(FileFault::Unread);
        };
        match read_part(alloc, &mut Host::new(file), part, &mut Patience::new()) {
            Ok(bytes) => Ok(bytes),
            Err(RunFault::NoMemory) => Err(FileFault::NoMemory),
            Err(RunFault::TooLong(_)) => Err(FileFault::TooLong),
            Err(_) => Err(FileFault::Unread),
        }
    }
}
