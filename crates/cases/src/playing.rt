//! Files of cases, played.

use crate::case::Case;
use crate::files::{DataFile, data_files};
use crate::lines::lines_of;
use crate::tally::Tally;
use std::io;
use std::process::ExitCode;
use std::rt::{Env, Files};

/// What gives the results of cases.
pub trait Verbs {
    /// Appends what a case gives. Where there is no such verb, or its arguments are not read, that is noted.
    fn answer(&mut self, case: &Case);
}

/// Plays the cases of files.
fn play_files<R: Eprint + AllocGlobal, V: Verbs>(
    rt: &R,
    verbs: &mut V,
    tally: &mut Tally,
    files: &[DataFile],
) -> io::Result<()> {
    for line in &lines_of(rt.alloc(), files)? {
        let case = Case::new(rt.alloc(), line.case());
        verbs.answer(&case);
        tally.judge(rt, line, &case)?;
    }
    Ok(())
}

/// Plays the cases of the files that the program's arguments name, and prints how many they are, as `COUNT cases`.
///
/// The status is a failure's if one of them failed. It is an error where an argument or a file is not read, the output
/// is not written, or allocation fails.
pub fn play<R: Env + Files + Print + Eprint + AllocGlobal, V: Verbs>(
    rt: &R,
    verbs: &mut V,
) -> io::Result<ExitCode> {
    let mut tally = Tally::new();
    play_files(rt, verbs, &mut tally, data_files(rt)?.as_slice())?;
    tally.end(rt, "cases")
}
