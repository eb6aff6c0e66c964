//! Tests where a device or an allocation fails, where an end of a channel is dropped, where threads work or wait for one
//! another, and at sizes and cuts without number: of logs, of logs that come in pieces, of their captures and of what is
//! decoded of them, also after losses; of messages and of the channel that all harts share; of jobs side by side; and of
//! memories. Single cases are lines of `vectors` and of `channel_vectors`. Tests that draw inputs, go through each size,
//! length or call, or are of scale are in `checks/long-tests`.
//!
//! They are in a crate of their own: the gate proves a crate that has tests once more with them.
#![tactic(auto)]

#[cfg(test)]
mod decoding;
#[cfg(test)]
mod fixtures;
#[cfg(test)]
mod funnels;
#[cfg(test)]
mod jobs;
#[cfg(test)]
mod logs;
#[cfg(test)]
mod lossy;
#[cfg(test)]
mod memories;
#[cfg(test)]
mod messages;
#[cfg(test)]
mod packets;
#[cfg(test)]
mod refused_captures;
#[cfg(test)]
mod salvaged;
#[cfg(test)]
mod same;
#[cfg(test)]
mod two_logs;
#[cfg(test)]
mod whole_captures;
