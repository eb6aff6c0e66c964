//! Stimulus for a path whose owner has no core: the image of a program, logs of harts that run it, and a capture in which
//! the messages of many harts are mixed, all decided by a seed; and messages of captures mixed in the same way.

pub use stimulus::{
    Capture, Hart, IMAGE_SIZE, Log, Mix, Mixing, image_of, write_capture, write_log,
};
