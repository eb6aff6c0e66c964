//! What the definitions of an audit promise, with numbers and without.

ghost use Rattle.std.specs.Prelude.{ℕ, ◌+◌, ◌-◌, length, ◌≡◌, ◌↔◌, Bool, true, None, List, [], Option};
ghost use Rattle.retire.specs.declared.event.Event.{Event};
ghost use Rattle.rvclass.specs.Words.{Words, IsProgram};
ghost use Rattle.payload.specs.declared.mode.Mode.{Mode};
ghost use Rattle.captures.specs.Decoded.{IsDecoded};
ghost use Rattle.captures.specs.Whole.{IsWhole};
ghost use Rattle.captures.specs.declared.outcome.CaptureFault.{CaptureFault};
ghost use Rattle.message.specs.Accepted.{expected_after, newcomers};
ghost use Rattle.message.specs.Accepting.{accepting};
ghost use Rattle.message.specs.OfHart.{of_hart, packets_of};
ghost use Rattle.message.specs.declared.header.Header.{Header};
ghost use Rattle.message.specs.declared.message.Message.{Message};
ghost use Rattle.receiver.specs.NotReceived.{IsNotReceived};
ghost use Rattle.receiver.specs.declared.fault.ReceiveFault.{ReceiveFault};
ghost use Rattle.payload.specs.declared.by.By.{By};
ghost use Rattle.auditing.specs.declared.fate.Fate.TheVariants as Fate;
ghost use Rattle.auditing.specs.Audits.{Audits};
ghost use Rattle.auditing.specs.Known.{known_all};
ghost use Rattle.auditing.specs.Ledger.{Ledger};
ghost use Rattle.auditing.specs.PayloadSights.{FramedAreTaken, KeepsPayloads, KnownSent, payload_sight, sight_kept};
ghost use Rattle.auditing.specs.Seen.{sight_of};
ghost use Rattle.auditing.specs.steps.Seeing.{sight_in};
ghost use Rattle.auditing.specs.Findings.{skips_in};
ghost use Rattle.auditing.specs.HartRows.{lost_below, row_of};
ghost use Rattle.auditing.specs.Judged.{fates_counted};
ghost use Rattle.auditing.specs.DecodedAgain.{AreAllWhole, AreDecodedAgain};
ghost use Rattle.auditing.specs.Sent.{AreInTurn, IsSent};
ghost use Rattle.auditing.specs.Tallies.{is_whole};
ghost use Rattle.auditing.specs.Untouched.{IsUntouched};
ghost use Rattle.auditing.specs.Matches.{Flags};
ghost use Rattle.auditing.specs.Aligned.{IsAligned, known_payloads};
ghost use Rattle.auditing.specs.Counted.{counts_of, is_whole as is_whole_aligned};

/// A hart is whole if and only if no number of it is lost, and none of its messages is repeated, late, changed or a
/// stranger. This is so if and only if the list of its messages that came is the list that was sent.
pub fn whole_is_untouched()
    ensures untouched { (harts hart : ℕ) (sent received : List Message) → AreInTurn harts [] sent
        → (is_whole sent received hart ≡ true) ↔ IsUntouched sent received hart }
    ensures same_list { (harts hart : ℕ) (sent received : List Message) → AreInTurn harts [] sent
        → IsUntouched sent received hart ↔ (of_hart hart received ≡ of_hart hart sent) }
{}

/// The counts of a hart add up. Each number that was sent is lost, or came in order or late. Each message that came has
/// one fate. So what was sent and is not lost is what came and is no repeat, not changed and no stranger.
pub fn rows_add_up()
    ensures sent { (harts hart : ℕ) (sent received : List Message) → AreInTurn harts [] sent
        → (row_of sent received hart).tally.sent
        ≡ (row_of sent received hart).tally.lost + fates_counted sent received hart Fate.InOrder
        + (row_of sent received hart).tally.late }
    ensures came { (hart : ℕ) (sent received : List Message)
        → (row_of sent received hart).tally.came
        ≡ fates_counted sent received hart Fate.InOrder + (row_of sent received hart).tally.late
        + (row_of sent received hart).tally.repeated + (row_of sent received hart).tally.changed
        + (row_of sent received hart).strange }
    ensures balance { (harts hart : ℕ) (sent received : List Message) → AreInTurn harts [] sent
        → (row_of sent received hart).tally.sent - (row_of sent received hart).tally.lost
        ≡ (row_of sent received hart).tally.came - (row_of sent received hart).tally.repeated
        - (row_of sent received hart).tally.changed - (row_of sent received hart).strange }
{}

/// The numbers that the messages of a hart skip are, in sum, as many as its late messages and its lost numbers below the
/// greatest true number that came.
pub fn skips_add_up()
    ensures { (harts hart : ℕ) (sent received : List Message) → AreInTurn harts [] sent
        → skips_in sent received hart
        ≡ fates_counted sent received hart Fate.Late + length (lost_below sent received hart) }
{}

/// RECEIVED decodes to the same logs and flags as SENT, without a fault, unless an allocation fails. This holds if SENT
/// decodes without a fault, every hart of SENT is whole in RECEIVED, RECEIVED has no stranger and is read to its end,
/// and it has SENT's header or neither has one. The messages of the harts may be mixed in any way. Both are decoded
/// with the same count of harts. It holds where payloads are compared by their bytes, and where they are compared by
/// their packets.
pub fn whole_decodes_again()
    ensures bytes { (words : Words) (harts : ℕ) (sent received : List ℕ) (header : Option Header)
        (messages others : List Message) (lists again : List (List Event)) (closed flags : List Bool)
        (stop : Option (ℕ × CaptureFault)) → IsProgram words
        → IsSent sent header messages → IsWhole received header others → AreAllWhole header messages others
        → IsDecoded words harts sent lists closed None → IsDecoded words harts received again flags stop
        → AreDecodedAgain lists closed again flags stop }
    ensures known { (how : By) (words : Words) (harts : ℕ) (sent received : List ℕ) (header : Option Header)
        (messages others : List Message) (lists again : List (List Event)) (closed flags : List Bool)
        (stop : Option (ℕ × CaptureFault)) → IsProgram words
        → IsSent sent header messages → IsWhole received header others
        → AreAllWhole header (known_all how messages) (known_all how others)
        → IsDecoded words harts sent lists closed None → IsDecoded words harts received again flags stop
        → AreDecodedAgain lists closed again flags stop }
{}

/// What an audit knows of a message is what SENT has: whether it has the message's hart and number, and if so, whether
/// its payload is the one that was sent. It does not depend on the messages that came.
///
/// By payloads alone, it is whether SENT has a message of its hart with its payload.
pub fn sights_are_of_sent()
    ensures numbered { (sent received : List Message) (ledger : Ledger) (message : Message)
        → Audits sent received ledger → sight_in ledger message ≡ sight_of ledger.by sent message }
    ensures unnumbered { (framed : Bool) (how : By) (sent : List Message) (own : KnownSent) (message : Message)
        → KeepsPayloads framed how sent own → sight_kept own message ≡ payload_sight framed how sent message }
{}

/// By payloads alone, a RECEIVED that is messages to its end is read as these, each at its place, whatever was sent.
pub fn framed_messages_are_taken()
    ensures { FramedAreTaken }
{}

/// What a demultiplexer answers to a message depends on the earlier messages of its own hart alone. The same holds of
/// why a message is not received, and of the packets that a hart's log is decoded from.
pub fn harts_are_received_alone()
    ensures answered { (harts : ℕ) (messages : List Message) (message : Message)
        → accepting (expected_after (newcomers harts) messages) message
        ≡ accepting (expected_after (newcomers harts) (of_hart message.hart messages)) message }
    ensures refused { (words : Words) (harts : ℕ) (announced : Option Mode) (messages : List Message)
        (message : Message) (why : ReceiveFault) → IsNotReceived words harts announced messages message why
        ↔ IsNotReceived words harts announced (of_hart message.hart messages) message why }
    ensures packets { (hart : ℕ) (messages : List Message)
        → packets_of hart (of_hart hart messages) ≡ packets_of hart messages }
{}

/// The counts of a hart add up: what was sent and is not lost is what came and is not extra.
pub fn counts_add_up()
    ensures { (by : By) (sent received : List Message) (hart : ℕ) (flags : Flags)
        → IsAligned by sent received hart flags
        → (counts_of flags).sent - (counts_of flags).lost ≡ (counts_of flags).came - (counts_of flags).extra }
{}

/// A hart is whole, so nothing of it is lost and nothing is extra, if and only if what came of it is what was sent of it:
/// its payloads are known by the same bytes, in the same order.
pub fn whole_is_equal()
    ensures { (by : By) (sent received : List Message) (hart : ℕ) (flags : Flags)
        → IsAligned by sent received hart flags
        → (is_whole_aligned flags ≡ true) ↔ (known_payloads by hart sent ≡ known_payloads by hart received) }
{}
