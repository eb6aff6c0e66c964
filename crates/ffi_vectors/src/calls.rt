//! What plays a case, by its verb.

use crate::arguments::{Given, store_bytes};
use crate::building::{build, builds};
use crate::rooms::call_in_rooms;
use crate::store::Store;
use crate::{audits, looking, stepping};
use cases::{Case, Verbs};

/// Makes the call that a verb names.
fn call(case: &Case, verb: &str, given: &Given<'_>) {
    match verb {
        "check" => looking::check(case, given),
        "check_events" => looking::check_events(case, given),
        "unpack" => looking::unpack(case, given),
        "read_header" => looking::read_header(case, given),
        "read_message" => looking::read_message(case, given),
        "encoder" => stepping::encoder(case, given),
        "decoder" => stepping::decoder(case),
        "resume" => stepping::resume(case, given),
        "generate_events" => stepping::generate_events(case, given),
        "push_both" => stepping::push_both(case, given),
        "audit_all" => audits::audit_all(case, given),
        _ => call_in_rooms(case, verb, given),
    }
}

/// Stores the state that a call left, under its name: that of a new one, or the one that it had.
fn store_state(case: &Case, store: &mut Store) {
    let name = case.value("new").unwrap_or(case.named("state"));
    if name.is_empty() || name.starts_with('{') {
        return;
    }
    let said = case.taken();
    case.put(said.as_str());
    if let Some((_, state)) = said.rsplit_once("state=") {
        let bytes = Vec::from_slice(case.alloc, state.as_bytes());
        match bytes {
            Ok(bytes) => store.put(case, name, bytes),
            Err(_) => case.no_memory(),
        }
    }
}

/// Makes a call so often, each time with the same state. Appends what it said where that is something else.
fn call_times(case: &Case, store: &Store, verb: &str, times: u64) {
    let mut given = Given::new(case.alloc, store, case.text());
    given.read_all(case);
    let own = case.again();
    call(&own, verb, &given);
    case.join(&own);
    let first = own.taken();
    case.put(first.as_str());
    for _ in 1..times {
        let again = case.again();
        call(&again, verb, &given);
        case.put_other("another time", &again, first.as_str());
    }
}

impl Verbs for Store {
    fn answer(&mut self, case: &Case) {
        let word = case.word();
        let (times, verb) = case.times(word);
        if builds(verb) {
            return build(case, self, verb);
        }
        store_bytes(case, self);
        call_times(case, self, verb, times);
        store_state(case, self);
    }
}
