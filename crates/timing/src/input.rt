//! What is measured: the texts of the logs that the arguments name.

use crate::fault::Fault;
use retire::number;
use rvclass::Program;
use std::env::Env;
use std::rt::Files;
use std::{env, fs, io};

/// A program and its logs, as they lie in their files.
#[derive(Drop)]
pub(crate) struct Input {
    pub(crate) program: Program,
    pub(crate) texts: Vec<Vec<u8>>,
}

/// The program that the arguments name.
fn program_at(base: &str, image: Vec<u8>) -> Result<Program, Fault> {
    let base = number(base.as_bytes()).ok_or(Fault::Words)?;
    match Program::new(base, image) {
        Ok(program) => Ok(program),
        Err(fault) => Err(Fault::Image(fault)),
    }
}

impl Input {
    /// Reads the files that the arguments name.
    pub(crate) fn read<R: Env + Files + AllocGlobal>(rt: &R) -> Result<Input, Fault> {
        let words = match words_of(rt) {
            Ok(words) => words,
            Err(error) => return Err(Fault::Io(error.kind())),
        };
        Input::of(rt, words.as_slice())
    }

    /// Reads the files that these arguments name. The first one is the program's own name.
    fn of<R: Files + AllocGlobal>(rt: &R, words: &[String]) -> Result<Input, Fault> {
        match words {
            [_, base, image, logs @ ..] if !logs.is_empty() => {
                let image = text_at(rt, image.as_str())?;
                let program = program_at(base.as_str(), image)?;
                let texts = texts_at(rt, logs)?;
                Ok(Input { program, texts })
            }
            _ => Err(Fault::Words),
        }
    }
}

/// The arguments.
fn words_of<R: Env + AllocGlobal>(rt: &R) -> io::Result<Vec<String>> {
    Ok(env::args(rt)?.collect(rt.alloc())?)
}

/// The content of the file at a path.
fn text_at<R: Files + AllocGlobal>(rt: &R, path: &str) -> Result<Vec<u8>, Fault> {
    match fs::read(rt, path) {
        Ok(text) => Ok(text),
        Err(error) => Err(Fault::Io(error.kind())),
    }
}

/// The contents of the files at these paths.
fn texts_at<R: Files + AllocGlobal>(rt: &R, paths: &[String]) -> Result<Vec<Vec<u8>>, Fault> {
    let mut texts = Vec::new(rt.alloc());
    for path in paths {
        let text = text_at(rt, path.as_str())?;
        if texts.push(text).is_err() {
            return Err(Fault::Memory);
        }
    }
    Ok(texts)
}
