//! What is below the packets: logs read and written (`retire`) by devices and memory that fail, and a schedule
//! (`funnel`) without memory. Instructions, legal logs, texts and schedules are cases of `vectors`.

mod refused;
mod schedules;
mod streams;
mod texts;
