//! The verbs.

use crate::ports::{self, Ends};
use crate::queue::{self, Queue};
use crate::{collecting, logs, messages, reading, reports, runs, split, streams};
use cases::Case;
use message::Demux;
use rvclass::Program;
use std::sync::Wait;
use std::thread::Threads;

/// What gives the results of cases: the program of all logs, and the demultiplexer, the queue and the channel that
/// earlier cases made.
#[derive(Drop)]
pub(crate) struct Vectors<'p> {
    program: &'p Program,
    demux: Option<Demux>,
    queue: Option<Queue>,
    ends: Option<Ends>,
}

impl<'p> Vectors<'p> {
    pub(crate) fn new(program: &'p Program) -> Vectors<'p> {
        Vectors {
            program,
            demux: None,
            queue: None,
            ends: None,
        }
    }

    /// Appends what a case of messages, the demultiplexer or the queue gives.
    fn answer_alone(&mut self, case: &Case, verb: &str) {
        match verb {
            "stream" | "messages" => messages::from_stream(case, verb),
            "fault" => messages::fault(case),
            "demux" => self.demux = split::begin(case),
            "accept" => split::accept(case, &mut self.demux),
            "queue" => self.queue = queue::begin(case),
            "offer" => queue::offer(case, &mut self.queue),
            "take" => queue::take(case, &mut self.queue),
            "early" => streams::early(case),
            _ => case.unread(),
        }
    }

    /// Appends what a case of the ends of a channel gives, or one of those.
    fn answer_at_ends<R: Wait>(&mut self, rt: &R, case: &Case, verb: &str) {
        match verb {
            "channel" => self.ends = ports::opened(case),
            "send" | "receive" | "settle" | "finish" | "drop" => {
                ports::answer(case, rt, &mut self.ends, verb);
            }
            _ => self.answer_alone(case, verb),
        }
    }

    /// Appends what a case that starts threads gives, or one of those.
    fn answer_in_threads<R: Threads + Wait + Sync>(&mut self, rt: &R, case: &Case, verb: &str) {
        let program = self.program;
        match verb {
            "run" => runs::run_over_threads(case, rt, program),
            "alike" => runs::alike(case, rt, program),
            "bench" => runs::benched(case, rt, program),
            "heap" => runs::in_heap(case, rt, program),
            "logs" | "logs-collected" => streams::made(case, rt, verb),
            "message" => messages::written(case),
            "header" => messages::header_written(case),
            "limits" => queue::limits(case),
            "memory" => messages::in_memory(case),
            _ => self.answer_at_ends(rt, case, verb),
        }
    }

    /// Appends what a case gives. Where there is no such verb, or its arguments are not read, that is noted.
    pub(crate) fn answer<R: Threads + Wait + Sync>(&mut self, rt: &R, case: &Case) {
        let program = self.program;
        match case.word() {
            "replay" => runs::replayed(case, program),
            "collect" => collecting::collected(case, program),
            "told" => reading::told(case, program),
            "piece" => reading::piece(case),
            "report" => reports::reported(case, program),
            "grown" => reports::grown(case, program),
            "cut" => reports::cut_at_each(case, program),
            "legal" => logs::kept(case, program),
            verb => self.answer_in_threads(rt, case, verb),
        }
    }
}
