//! What is left of harts' logs after any damage to their messages, and messages that are known again among damaged
//! bytes.

pub use frames::{
    CaptureStart, END_OF_FRAMES, Span, Spans, begins_frame, first_place, harts_counted, message_in,
    message_size, search_capture, search_harts, spans_of, start_of,
};
pub use salvage_reports::{
    Found, Frames, Layout, TreatedCapture, TreatedInRows, WatchSalvage, find_salvaged, frames_of,
    in_rows, items_of, write_found, write_messages, write_salvaged, write_treated,
};
pub use salvaging::{
    Added, FarNumber, FarTreatment, Part, Reason, Salvaged, SalvagedHart, Treated, Treatment,
    far_numbers, salvage, salvage_watched, treat_watched,
};
