//! Memory of which one request fails, or is held back while threads go on.

use cases::{Case, Refusing};
use std::alloc::Global;
use std::sync::Arc;
use std::sync::atomic::AtomicU64;

/// Memory that counts what is asked for.
pub(crate) type Memory = Refusing<Global>;

/// Memory of which the request `fails` fails, or the request `held` is held back: until one message more is sent than a
/// funnel of this capacity holds, and then for as long as more would come.
pub(crate) fn memory_of(case: &Case, sent: Arc<AtomicU64>, capacity: u32) -> Memory {
    match case.value("held") {
        Some(word) => {
            let held = case.decimal(word);
            Refusing::holding(
                case.alloc,
                held,
                sent,
                u64::from(capacity).saturating_add(1),
            )
        }
        None => Refusing::new(case.alloc, case.number("fails", u64::MAX)),
    }
}

/// Appends where the request that was to fail did not come, how many messages were sent while one was held back, and,
/// where `requests` is asked for, how many requests came after so many.
pub(crate) fn put_requests(case: &Case, memory: &Memory, before: u64) {
    if case.value("fails").is_some() && !memory.has_refused() {
        case.put_part("no such request");
    }
    if let Some(sent) = memory.seen() {
        case.put_part(sent);
        case.put(" sent while it is held");
    }
    if case.named("requests") == "yes" {
        case.put_part(memory.requests().saturating_sub(before));
        case.put(" requests");
    }
}
