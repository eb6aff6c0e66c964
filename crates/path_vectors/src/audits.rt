//! Audits of messages with payloads of one byte (`auditing`).

use crate::fates::{put_fates, put_scans};
use crate::spans::bytes_in;
use auditing::{Audit, Finding, LostRuns, run_lengths};
use cases::{Case, add_message, cut};
use message::{Message, write_message};

/// Adds the messages of a word: a hart, `.`, and a number or the first and the last number with `-`. The byte of each is
/// its number modulo 251, or the byte after `=`.
fn add_word(case: &Case, list: &mut Vec<Message>, word: &str) {
    let (word, own) = cut(word, '=');
    let (hart, numbers) = cut(word, '.');
    let (first, last) = numbers.split_once('-').unwrap_or((numbers, numbers));
    let hart = case.short(hart);
    let (first, last) = (case.decimal(first), case.decimal(last));
    let own = own.parse::<u8>().ok();
    for number in first..last.saturating_add(1) {
        let byte = own.unwrap_or((number % 251) as u8);
        add_message(case, list, (hart, number), &[byte]);
    }
}

/// The messages of an argument, with commas between them.
pub(crate) fn messages_in(case: &Case, name: &str) -> Vec<Message> {
    let mut list = Vec::new(case.alloc);
    for word in case.named(name).split(',') {
        if !word.is_empty() {
            add_word(case, &mut list, word);
        }
    }
    list
}

/// Whether a finding goes on with the one before it: an equal one, or one that is late by one less.
fn goes_on(before: Finding, next: Finding) -> bool {
    match (before, next) {
        (Finding::Late { by: before }, Finding::Late { by }) => before == by.saturating_add(1),
        _ => before == next,
    }
}

/// Appends what is found of so many messages in a row, by the first and the last of them.
fn put_run(case: &Case, times: u64, first: Finding, last: Finding) {
    case.put_shown(times);
    case.put(if first == last { " x " } else { " from " });
    case.put_debug(first);
    if first != last {
        case.put(" to ");
        case.put_debug(last);
    }
    case.put("\n");
}

/// Appends what is found of messages, a line for those in a row that go on.
fn put_findings(case: &Case, findings: &[Finding]) {
    let mut begun = None;
    let mut times: u64 = 0;
    for (place, finding) in findings.iter().enumerate() {
        let first = begun.unwrap_or(*finding);
        times = times.saturating_add(1);
        begun = Some(first);
        let next = findings.get(place.saturating_add(1));
        if !next.is_some_and(|next| goes_on(*finding, *next)) {
            put_run(case, times, first, *finding);
            begun = None;
            times = 0;
        }
    }
}

/// Appends what is found of each message that came and of each hart, where the first fault shows, and how many strangers
/// came.
fn put_audit(case: &Case, audit: &mut Audit<'_>) {
    let mut findings = Vec::new(case.alloc);
    for message in &messages_in(case, "came") {
        let finding = audit.examine(message);
        case.push(&mut findings, finding);
    }
    put_findings(case, findings.as_slice());
    for hart in 0..audit.harts() {
        case.put_debug(audit.row(hart));
        case.put("\n");
    }
    case.put("first ");
    case.put_debug(audit.first());
    case.put(", strangers ");
    case.put_shown(audit.strangers());
}

/// Appends the payload that was sent with a hart and a number, or `none`.
fn put_payload(case: &Case, audit: &Audit<'_>) {
    let hart = case.small("hart", 0);
    match audit.sent(hart, case.number("number", 0)) {
        Some(payload) => case.put_digits(payload),
        None => case.put("none"),
    }
}

/// What a verb asks of the audit of the messages that were sent.
pub(crate) fn audit(case: &Case, verb: &str) {
    let mut bytes = Vec::new(case.alloc);
    for message in &messages_in(case, "sent") {
        let written = write_message(&mut bytes, message);
        case.granted(written);
    }
    let audit = Audit::new(case.alloc, bytes.as_slice());
    let Some(mut audit) = case.read(audit) else {
        return;
    };
    match verb {
        "audit" => put_audit(case, &mut audit),
        "payload" => put_payload(case, &audit),
        "fates" => put_fates(case, &mut audit),
        _ => {
            let came = bytes_in(case);
            put_scans(case, came.as_slice(), &audit);
        }
    }
}

/// The longest runs of flags that are not set, where `1` is a flag that is set.
pub(crate) fn runs(case: &Case) {
    let mut flags = Vec::new(case.alloc);
    for flag in case.named("flags").bytes() {
        case.push(&mut flags, flag == b'1');
    }
    let mut left = LostRuns::new(flags.as_slice());
    for _ in 0..flags.len().saturating_add(1) {
        if let Some(run) = left.next() {
            case.put_debug(run);
            case.put("\n");
        }
    }
    case.put_debug(run_lengths(flags.as_slice()));
}
