//! What the definitions of a live audit promise.

ghost use Rattle.std.specs.Prelude.{◌≡◌, ◌+◌, ◌-◌, ◌*◌, ◌^◌, ◌<◌, ◌≤◌, ◌∷◌, ℕ, [], All, Bool, List, None, Ok, Option, Some};
ghost use Rattle.std.specs.Prelude.{false, is_some, length};
ghost use Rattle.std.specs.List.{AllByRecursion, filter, sum_by};
ghost use Rattle.frames.specs.declared.span.Span.{Span as AnySpan};
ghost use Rattle.frames.specs.declared.span.Span.TheVariants as Span;
ghost use Rattle.message.specs.Capture.{capture};
ghost use Rattle.message.specs.Cut.{IsMessage};
ghost use Rattle.message.specs.declared.header.Header.{Header};
ghost use Rattle.message.specs.declared.message.Message.{Message};
ghost use Rattle.payload.specs.declared.by.By.{By};
ghost use Rattle.auditing.specs.DecodedAgain.{AreAllWhole};
ghost use Rattle.auditing.specs.Findings.{skips_in};
ghost use Rattle.auditing.specs.HartRows.{row_of};
ghost use Rattle.auditing.specs.Known.{known_all};
ghost use Rattle.auditing.specs.Sent.{AreInTurn, known_harts};
ghost use Rattle.live.specs.AsAudited.{AreClear, IsOnTime, SameCounts, SaysWhole, audit_lines, given_in, held_all};
ghost use Rattle.live.specs.AsAudited.{lines_of, skipped_by};
ghost use Rattle.live.specs.Compared.{known_true};
ghost use Rattle.live.specs.Auditing.{LiveHolding, Stands};
ghost use Rattle.live.specs.Calls.{TakesAll, spans_from, spans_next};
ghost use Rattle.live.specs.Following.{Audited, Left};
ghost use Rattle.live.specs.Lines.{Line};
ghost use Rattle.live.specs.Live.{State, is_outage, judged, live, start, strange, taken, waits};
ghost use Rattle.live.specs.Received.{Rule, first_span};
ghost use Rattle.live.specs.ReceivedLeft.{IsNextSpan, ReceivedHeld, Receives};
ghost use Rattle.live.specs.Rows.{row_in};
ghost use Rattle.live.specs.View.{in_view};
ghost use Rattle.live.specs.declared.arrived.Arrived.{Arrived};

use crate::lines::LiveLines;

/// A message that is not true leaves the front where it is: where it is undecided at first, where it is decided later, and
/// where it is taken and no message of its hart waits, or one that is not true either, and both are not beyond the view and
/// near each other: of two that are, the path was out.
pub fn untrue_messages_leave_the_front()
    ensures undecided { (window : ℕ) (sent : List Message) (state : State) (one : Arrived)
        → known_true state.by sent one.message ≡ false → (judged waits window sent state one).state.front ≡ state.front }
    ensures decided { (window : ℕ) (sent : List Message) (state : State) (one : Arrived)
        → known_true state.by sent one.message ≡ false → (judged strange window sent state one).state.front ≡ state.front }
    ensures taken { (window : ℕ) (sent : List Message) (state : State) (one : Arrived)
        → state.waiting one.message.hart ≡ None → known_true state.by sent one.message ≡ false
        → (taken window sent state one).state.front ≡ state.front }
    ensures both { (window : ℕ) (sent : List Message) (state : State) (one first : Arrived)
        → state.waiting one.message.hart ≡ Some first → is_outage window sent state first.message one.message ≡ false
        → known_true state.by sent first.message ≡ false → known_true state.by sent one.message ≡ false
        → (taken window sent state one).state.front ≡ state.front }
{}

/// The counts of a hart add up, whatever lines were handed over: what came in order or late or was given up, and is not lost,
/// is what came and is no repeat, not changed, no stranger and not too late.
pub fn live_rows_add_up()
    ensures sum { (lines : List Line) (hart : ℕ) → length lines < 2 ^ 64
        → (row_in lines hart).row.tally.sent + (row_in lines hart).row.tally.repeated
        + (row_in lines hart).row.tally.changed + (row_in lines hart).row.strange + (row_in lines hart).too_late
        ≡ (row_in lines hart).row.tally.came + (row_in lines hart).row.tally.lost }
    ensures balance { (lines : List Line) (hart : ℕ) → length lines < 2 ^ 64
        → (row_in lines hart).row.tally.sent - (row_in lines hart).row.tally.lost
        ≡ (row_in lines hart).row.tally.came - (row_in lines hart).row.tally.repeated
        - (row_in lines hart).row.tally.changed - (row_in lines hart).row.strange - (row_in lines hart).too_late }
{}

/// A live audit holds at most 2N + 1 messages of SENT, where N is the window, and at most one of RECEIVED for each hart; and
/// of RECEIVED's bytes, where they are read, 29 for each hart and 65,623.
pub fn live_audits_are_bounded()
    ensures sent { (all : Audited) (read : ℕ) (state : State) (own : LiveHolding) (left : Left)
        → Stands all read state own left → length own.window.slots ≤ 2 * all.window + 1 }
    ensures waiting { (all : Audited) (read : ℕ) (state : State) (own : LiveHolding) (left : Left)
        → Stands all read state own left → length (filter is_some own.waiting) ≤ all.harts }
    ensures bytes { (harts : ℕ) (own : ReceivedHeld) → Receives harts own → length own.bytes ≤ 29 * harts + 65623 }
{}

/// A caller that begins with [`crate::LiveAudit::new`], takes the messages of RECEIVED one after the other, may read SENT's end
/// message by message, and ends the audit is handed the lines of a live audit.
pub fn calls_hand_over_live_audits<L: LiveLines>()
    ensures { (all : Audited) (calls : List Bool) (received : List Message) (first last : L)
        → TakesAll L L.Told all calls 0 (start all.by) 0 received first last
        → L.Told first (live all.harts all.window all.by all.sent received) last }
{}

/// Where a caller takes each message that [`crate::LiveAudit::next_received`] returns before it calls that again, what it is
/// returned is, up to the end, what RECEIVED's bytes are read as: what a call returns comes first, and then what comes of the
/// bytes that it leaves. As many harts are known of RECEIVED as of the audit.
pub fn calls_read_all_of_received()
    ensures { (all : Audited) (state : State) (place : ℕ) (own new : ReceivedHeld) (rest : List ℕ) (found : Option AnySpan)
        (file : Option (List ℕ)) → Receives all.harts own → IsNextSpan all state.front own rest (Ok found) new file
        → spans_from all state place own.offset rest ≡ spans_next all state place own.offset rest found }
{}

/// At most 2N + 1 messages of SENT are in view, where N is the window.
pub fn views_are_bounded()
    ensures { (window : ℕ) (sent : List Message) (front : ℕ)
        → length (in_view window sent front) ≤ 2 * window + 1 }
{}

/// Of messages one after the other, to the end of RECEIVED, each is taken, whatever is in view.
pub fn framed_messages_are_taken()
    ensures { (rule : Rule) (offset : ℕ) (message : Message) (messages : List Message) → All IsMessage (message ∷ messages)
        → first_span rule offset (capture (message ∷ messages)) ≡ Some (Span.Frame offset message) }
{}

/// Of a RECEIVED of which no message is too late, and no stranger is one that SENT has, a live audit finds what an audit of
/// the whole captures does. The lines of a hart's messages are those of what an audit finds of each of them, in their
/// order. They skip as many numbers in sum. Each message of SENT is given up once, in SENT's order, and it is lost if an audit
/// says so. As many messages of a hart are counted, of each fate.
pub fn live_audits_find_the_same()
    ensures findings { (harts window : ℕ) (how : By) (sent received : List Message) (hart : ℕ)
        → AreInTurn harts [] sent → AreClear harts sent (live harts window how sent received)
        → lines_of hart (live harts window how sent received) ≡ lines_of hart (audit_lines how sent received) }
    ensures lost { (harts window : ℕ) (how : By) (sent received : List Message) → AreInTurn harts [] sent
        → AreClear harts sent (live harts window how sent received)
        → given_in (live harts window how sent received) ≡ held_all how sent received }
    ensures skips { (harts window : ℕ) (how : By) (sent received : List Message) (hart : ℕ)
        → AreInTurn harts [] sent → AreClear harts sent (live harts window how sent received)
        → sum_by skipped_by (lines_of hart (live harts window how sent received))
        ≡ skips_in (known_all how sent) (known_all how received) hart }
    ensures counts { (harts window : ℕ) (how : By) (sent received : List Message) (hart : ℕ)
        → AreInTurn harts [] sent → AreClear harts sent (live harts window how sent received)
        → length (live harts window how sent received) < 2 ^ 64
        → SameCounts (row_in (live harts window how sent received) hart)
        (row_of (known_all how sent) (known_all how received) hart) }
{}

/// Where a live audit says that RECEIVED is whole, an audit of the whole captures does. Where that says so and nothing is too
/// late, the live audit does.
pub fn whole_live_is_whole()
    ensures live { (header : Option Header) (harts window : ℕ) (how : By) (sent received : List Message)
        → AreInTurn harts [] sent → SaysWhole harts (live harts window how sent received)
        → AreAllWhole header (known_all how sent) (known_all how received) }
    ensures audited { (header : Option Header) (window : ℕ) (how : By) (sent received : List Message) → 1 ≤ window
        → AreInTurn (known_harts header) [] sent → AreAllWhole header (known_all how sent) (known_all how received)
        → AllByRecursion (IsOnTime (known_harts header)) (live (known_harts header) window how sent received)
        → SaysWhole (known_harts header) (live (known_harts header) window how sent received) }
{}
