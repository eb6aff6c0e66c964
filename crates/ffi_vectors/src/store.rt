//! What has a name: buffers, and texts of events and states.

use cases::Case;
use std::alloc::Global;
use std::collections::BTreeMap;

/// Bytes by their names.
#[derive(Drop)]
pub(crate) struct Store {
    buffers: BTreeMap<String, Vec<u8>>,
}

impl Store {
    /// No name yet.
    pub(crate) fn new(alloc: Global) -> Store {
        Store {
            buffers: BTreeMap::new(alloc),
        }
    }

    /// The bytes of this name.
    pub(crate) fn get(&self, name: &str) -> Option<&[u8]> {
        Some(self.buffers.get(name)?.as_slice())
    }

    /// Takes the bytes of this name out. There is none where it was not there.
    pub(crate) fn take(&mut self, alloc: Global, name: &str) -> Vec<u8> {
        match self.buffers.remove(name) {
            Some(bytes) => bytes,
            None => Vec::new(alloc),
        }
    }

    /// Gives bytes a name.
    pub(crate) fn put(&mut self, case: &Case, name: &str, bytes: Vec<u8>) {
        match String::from_str(case.alloc, name) {
            Ok(name) => {
                if self.buffers.insert(name, bytes).is_err() {
                    case.no_memory();
                }
            }
            Err(_) => case.no_memory(),
        }
    }
}
