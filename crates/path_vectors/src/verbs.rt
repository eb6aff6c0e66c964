//! The verbs.

use crate::{
    alignments, audits, fates, lines, live_audits, naming, paths, salvages, spans, stimuli, texts,
    windows,
};
use cases::{Case, Verbs};

/// The verbs of this program.
#[derive(Drop)]
pub(crate) struct PathVerbs;

/// Plays a case of the text of a log or of a schedule, or of stimulus.
fn play_text(case: &Case, verb: &str) {
    match verb {
        "text-line" => texts::line_case(case),
        "read" => texts::read_case(case),
        "read-most" => texts::read_most_case(case),
        "write" => texts::write_case(case),
        "schedule" => texts::schedule_case(case),
        "image-sum" => stimuli::image_sum_case(case),
        "log-rows" | "log-sum" => stimuli::log_case(case, verb),
        "log-comes" => stimuli::log_comes_case(case),
        "mixed-capture" => stimuli::mixed_capture_case(case),
        _ => case.unread(),
    }
}

/// Plays a case of what was sent and what came.
fn play_path(case: &Case, verb: &str) {
    match verb {
        "path" | "spellings" | "many-harts" | "many-messages" => paths::path_case(case, verb),
        "audit" | "payload" | "fates" | "guided" => audits::audit(case, verb),
        "runs" => audits::runs(case),
        "known" => fates::known(case),
        "window" => windows::window(case),
        "live" => live_audits::live(case),
        "align" => alignments::align(case),
        "count" => alignments::count(case),
        "most" => alignments::most(case),
        "best" => alignments::best(case),
        _ => play_text(case, verb),
    }
}

impl Verbs for PathVerbs {
    fn answer(&mut self, case: &Case) {
        match case.word() {
            "line" => lines::line(case),
            "line-fault" => lines::line_fault(case),
            "long-lines" => lines::long_lines(case),
            "frames" => spans::frames(case),
            "begins" => spans::begins(case),
            "search" => spans::search(case),
            "salvage" => salvages::salvage(case),
            "treat" => salvages::treat(case),
            "symbol" => naming::symbol(case),
            "sized" => naming::sized(case),
            verb => play_path(case, verb),
        }
    }
}
