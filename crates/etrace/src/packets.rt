//! Packets and their payloads, the encoder that makes a log's packets, what they cost, and the decoder that gives the
//! log back.

pub use captures::{LogMeasures, Measures, measure, write_measures, write_measures_of};
pub use decoder::{
    DecodeFault, Decoder, DecoderState, Paths, Phase, StraightRuns, Unwritten, Waiting,
};
pub use encoder::{Burst, Due, Encoder, EncoderState, Source};
pub use payload::{
    MOST_BYTES, MOST_OUTCOMES, Mode, Outcomes, PackFault, Packet, Payload, Report, Support, pack,
    unpack,
};
