//! What an audit finds of a hart.

use crate::exchange::Exchanged;
use crate::tally::Tally;

/// What an audit finds of a hart.
#[derive(Clone, Copy, Debug)]
pub struct HartRow {
    /// What became of its messages.
    pub tally: Tally,
    /// How many messages of the hart are strangers.
    pub strange: u64,
    /// In how many longest runs of consecutive numbers the lost numbers of the hart are.
    pub runs: u64,
    /// How many numbers the longest of these runs has, 0 where none is lost.
    pub longest: u64,
    /// The most by which a message of the hart is late, 0 where none is.
    pub latest: u64,
    /// The hart of SENT that the messages of the hart are of which are not true, if at least 8 of them and more than half
    /// are of one.
    pub exchanged: Option<Exchanged>,
}
