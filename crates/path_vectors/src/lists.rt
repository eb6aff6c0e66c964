//! Lists of letters, each a payload of one byte.

use cases::{Case, payload_of};
use payload::Payload;

/// Numbers that look random, by a linear congruential generator.
#[derive(Drop)]
pub(crate) struct Random(pub(crate) u64);

impl Random {
    /// The next number below a bound; 0 where the bound is 0.
    pub(crate) fn below(&mut self, bound: u64) -> u64 {
        self.0 = self
            .0
            .wrapping_mul(6_364_136_223_846_793_005)
            .wrapping_add(1_442_695_040_888_963_407);
        (self.0 >> 33) % bound.max(1)
    }

    /// As [`Random::below`], below a bound of at most 256.
    pub(crate) fn byte(&mut self, bound: u64) -> u8 {
        self.below(bound).min(255) as u8
    }
}

/// Adds a word: letters, or letters, `*` and how many times they are there.
fn add_word(case: &Case, list: &mut Vec<u8>, word: &str) {
    let (letters, times) = word.split_once('*').unwrap_or((word, "1"));
    for _ in 0..case.decimal(times) {
        case.extend(list, letters.as_bytes());
    }
}

/// The letters that were sent: the word `sent`, or `count` letters of `letters` that look random.
pub(crate) fn sent(case: &Case) -> Vec<u8> {
    let letters = case.number("letters", 251);
    let mut list = Vec::new(case.alloc);
    let word = case.named("sent");
    add_word(case, &mut list, word);
    let mut random = Random(7);
    for _ in 0..case.number("count", 0) {
        case.push(&mut list, random.byte(letters));
    }
    list
}

/// Adds what comes of letters: about one in `lost` is lost, about one in `doubled` comes twice, and from the place `from`
/// on up to `to` none comes.
fn add_damaged(case: &Case, list: &mut Vec<u8>, sent: &[u8]) {
    let (lost, doubled) = (
        case.number("lost", u64::MAX),
        case.number("doubled", u64::MAX),
    );
    let (from, to) = (case.number("from", 0), case.number("to", 0));
    let mut random = Random(1);
    for (place, letter) in sent.iter().enumerate() {
        let place = place as u64;
        if from <= place && place < to || random.below(lost) == 0 {
            continue;
        }
        case.push(list, *letter);
        if random.below(doubled) == 0 {
            case.push(list, *letter);
        }
    }
}

/// The letters that came: the word `came`, or what comes of those that were sent.
pub(crate) fn came(case: &Case, sent: &[u8]) -> Vec<u8> {
    let mut list = Vec::new(case.alloc);
    match case.value("came") {
        Some(word) => add_word(case, &mut list, word),
        None => add_damaged(case, &mut list, sent),
    }
    list
}

/// A payload of one byte for each letter.
pub(crate) fn payloads(case: &Case, letters: &[u8]) -> Vec<Payload> {
    let mut list = Vec::new(case.alloc);
    for letter in letters {
        if let Some(payload) = payload_of(case, &[*letter]) {
            case.push(&mut list, payload);
        }
    }
    list
}
