//! Which logs can be read beside others.

use crate::Files;
use std::alloc::{AllocError, Global};

/// The places of logs, by what their files are.
#[derive(Drop)]
pub(crate) struct Places {
    /// Those in regular files, which are read side by side.
    pub(crate) regular: Vec<usize>,
    /// The others, which are read one after another.
    pub(crate) others: Vec<usize>,
}

/// The places of the logs at these paths.
pub(crate) fn places_of<F: Files>(
    alloc: Global,
    files: &F,
    paths: &[&str],
) -> Result<Places, AllocError> {
    let mut places = Places {
        regular: Vec::new(alloc),
        others: Vec::new(alloc),
    };
    for (place, path) in paths.iter().enumerate() {
        if files.is_regular(path) {
            places.regular.push(place)?;
        } else {
            places.others.push(place)?;
        }
    }
    Ok(places)
}
