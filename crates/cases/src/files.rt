//! The files of cases that a program is given.

use crate::repeats::{Numbered, written_out};
use std::alloc::AllocError;
use std::rt::{Env, Files};
use std::{env, fs, io};

/// A file of cases, its lines written out.
#[derive(Drop)]
pub struct DataFile {
    pub name: String,
    pub text: String,
    /// For each line of the text the number that it has in the file, from 1.
    pub(crate) numbers: Vec<usize>,
}

/// The file with this name.
fn data_file<R: Files + AllocGlobal>(rt: &R, name: String) -> io::Result<DataFile> {
    let read = fs::read_to_string(rt, name.as_str())?;
    let Numbered { lines, numbers } = written_out(rt.alloc(), read.as_str());
    if lines.is_failed() {
        return Err(io::Error::from(AllocError));
    }
    Ok(DataFile {
        name,
        text: lines.taken(),
        numbers,
    })
}

/// The files that the program's arguments name, in their order.
///
/// It is an error where an argument or a file is not read, or where allocation fails.
pub fn data_files<R: Env + Files + AllocGlobal>(rt: &R) -> io::Result<Vec<DataFile>> {
    let mut files = Vec::new(rt.alloc());
    for name in env::args(rt)?.skip(1) {
        files.push(data_file(rt, name)?)?;
    }
    Ok(files)
}
