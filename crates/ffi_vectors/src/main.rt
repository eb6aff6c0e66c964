//! Cases of the library for C, as lines of data files.
//!
//! A case is a verb and its arguments, `NAME=VALUE`. Most verbs are calls of the library without `tracebench_`, and their
//! arguments are named as the call's parameters; the program is one piece, `image` at `base`, unless `pieces` or
//! `cut` is given. What a call gives is written as `NAME=VALUE`, and what it leaves as it was is not written.
//!
//! - A number is decimal, or hexadecimal after `0x`. It is 0 where it is not given, and `base` is 0x80000000.
//! - Bytes are parts joined by `+`: names of buffers, or hexadecimal digits. `N*` before a part stands for N of it.
//! - A packet, an event or a state is `{NAME=VALUE,..}`, without the fields that are 0, or the name of such a text.
//! - A list is separated by `,` or, of events, by `;`, and `N*` before an element stands for N of it.
//!
//! Verbs of `building` make buffers that later lines name. A state that has a name is as the last call left it; `new` is
//! the name of that of a new encoder or decoder.
//! `N*` before a call makes it N times with the same arguments and state, each of which gives the same.
//!
//! A call that fills a buffer is made with one that is just large enough, and the case fails where it says something
//! else with a larger one, or hands anything out with a smaller one. With `room` it is made once, with a buffer of this
//! size.
#![tactic(auto)]

mod arguments;
mod audits;
mod building;
mod calls;
mod fields;
mod filling;
mod looking;
mod rooms;
mod stepping;
mod store;
mod writing;

use crate::store::Store;
use std::io;
use std::process::ExitCode;

fn main(rt: HostRuntime) -> io::Result<ExitCode> {
    let mut store = Store::new(rt.alloc());
    cases::play(&rt, &mut store)
}
