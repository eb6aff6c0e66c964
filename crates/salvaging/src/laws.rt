//! What the definitions of salvaging promise.

ghost use Rattle.std.specs.Prelude.{ℕ, ◌≡◌, ◌≢◌, ◌↔◌, ◌≤◌, ◌+◌, ◌++◌, ◌==◌, [], ◌∷◌, true, All, Bool, List, None, count_by};
ghost use Rattle.std.specs.Prelude.{length, map, sum};
ghost use Rattle.rvclass.specs.Fetch.{words_of};
ghost use Rattle.rvclass.specs.Image.{Image};
ghost use Rattle.rvclass.specs.Words.{Words, IsProgram};
ghost use Rattle.legalpath.specs.ProgramLog.{ProgramLog};
ghost use Rattle.payload.specs.Closing.{is_closing};
ghost use Rattle.payload.specs.declared.mode.Mode.{Mode};
ghost use Rattle.message.specs.Accepted.{newcomers};
ghost use Rattle.message.specs.declared.message.Message.{Message};
ghost use Rattle.losses.specs.DescribedParts.{AreDescribed};
ghost use Rattle.losses.specs.Apart.{AreRising};
ghost use Rattle.losses.specs.Runs.{first_run};
ghost use Rattle.losses.specs.Stops.{AreAcceptedLossy};
ghost use Rattle.losses.specs.declared.part.HartPieces.{HartPieces as AnyPieces};
ghost use Rattle.salvaging.specs.AlikeParts.{AreAlikeHarts};
ghost use Rattle.salvaging.specs.CountedOnce.{AreCountedOnce};
ghost use Rattle.salvaging.specs.Ends.{AreCutAtEnd};
ghost use Rattle.salvaging.specs.EndsByNumbers.{AreCutByNumber};
ghost use Rattle.salvaging.specs.EndsByParts.{MayEndByParts};
ghost use Rattle.salvaging.specs.Entries.{Entry as AnyEntry, Used, entry_number, is_used, next_used};
ghost use Rattle.salvaging.specs.Far.{AreFarNumbers, ComeInOrder, HaveNeighbours};
ghost use Rattle.salvaging.specs.FarGaps.{believed_numbers, far_passed, far_taken, missing_in, number_after};
ghost use Rattle.salvaging.specs.FromLogs.{AreFromLogs};
ghost use Rattle.salvaging.specs.Leaving.{EntriesLeave};
ghost use Rattle.salvaging.specs.LeftParts.{LeftPart};
ghost use Rattle.salvaging.specs.LogsSalvaged.{AreLogsSalvaged};
ghost use Rattle.salvaging.specs.LossyParts.{AreCollectedToo};
ghost use Rattle.salvaging.specs.PartsIn.{parts_in};
ghost use Rattle.salvaging.specs.Salvaged.{IsSalvaged, IsSalvagedHart};
ghost use Rattle.salvaging.specs.TreatedCounts.{AreCountedToo};
ghost use Rattle.salvaging.specs.TreatedParts.{AreTreatedParts};
ghost use Rattle.salvaging.specs.Treatments.{AreTreated, HartTreats};
ghost use Rattle.salvaging.specs.declared.salvaged.SalvagedHart.{SalvagedHart as AnyHart};
ghost use Rattle.salvaging.specs.declared.salvaged.Salvaged.{Salvaged as AnySalvaged};
ghost use Rattle.salvaging.specs.declared.treatment.Treated.{Treated as AnyTreated};

use std::alloc::Allocator;

/// What is salvaged of messages of legal logs of a program, in whatever order they came, how often, and whichever of
/// them did not come: of each hart the parts of its log by the numbers that came. So its stretches are disjoint
/// stretches of the log, in its order. Nothing is bad or doubtful, and there is no stranger. The number of copies is
/// that of the messages less that of the distinct ones. A hart is closed if and only if its closing packet came.
pub fn logs_are_salvaged<A: Allocator>()
    ensures { (program : Image) (period : ℕ) (handed : Mode) (own : ℕ → Mode) (logs : List ProgramLog)
        (messages : List Message) (salvaged : AnySalvaged A) → AreFromLogs program period handed own logs messages
        → IsSalvaged (words_of program) handed (length logs) messages salvaged
        → AreLogsSalvaged program period own logs messages salvaged }
{}

/// Where messages are collected without a fault (`losses::collect_lossy`), the same is salvaged of them: of each hart
/// the same parts, none of them bad or doubtful, and the same flag. No message is a copy, far, late or a stranger.
pub fn what_is_collected_is_salvaged<A: Allocator, B: Allocator>()
    ensures { (words : Words) (mode : Mode) (harts : ℕ) (messages : List Message) (pieces : List (AnyPieces A))
        (salvaged : AnySalvaged B) → IsProgram words → AreAcceptedLossy (newcomers harts) messages
        → AreDescribed words mode messages pieces → IsSalvaged words mode harts messages salvaged
        → AreCollectedToo pieces salvaged }
{}

/// What is salvaged of a hart is a function of its own messages and the mode handed in, but for which fault of a
/// decoder a message has whose packet is not decoded.
pub fn harts_are_salvaged_in_one_way<A: Allocator, B: Allocator>()
    ensures { (words : Words) (mode : Mode) (messages : List Message) (one : AnyHart A) (other : AnyHart B)
        → IsProgram words → IsSalvagedHart words mode messages one → IsSalvagedHart words mode messages other
        → AreAlikeHarts one other }
{}

/// A hart may end at a number exactly where no stretch comes after it. The number is used, its message closes the
/// trace, and a greater number is used. Whether a stretch comes after it is seen in what the hart's entries leave where
/// none of them is the end.
pub fn harts_end_where_no_stretch_comes_after()
    ensures { (words : Words) (mode : Mode) (front later : List AnyEntry) (number place : ℕ) (payload : List ℕ)
        (goods : List Bool) (parts : List LeftPart) → is_closing payload ≡ true → next_used later ≢ None
        → EntriesLeave words mode first_run 0 (front ++ Used number place payload ∷ later) goods parts
        → MayEndByParts words mode number place payload later parts }
{}

/// A hart ends at the lowest used number whose message closes the trace, where a greater number is used, but none with
/// a synchronisation that is decoded. Where there is no such number, none of its entries is beyond its end.
pub fn harts_end_at_their_lowest_number()
    ensures { (words : Words) (mode : Mode) (entries upto beyond : List AnyEntry)
        → AreRising 0 (map entry_number entries) → AreCutAtEnd words mode entries upto beyond
        ↔ ((entries ≡ upto ++ beyond) × AreCutByNumber words mode entries upto beyond) }
{}

/// The parts that are salvaged of a hart's messages are what is done with them. The same numbers are bad, doubtful and
/// alone, at the same places, but for which fault of a decoder a bad number has. The events of the stretches are those
/// that the good messages add, in the order of their numbers, and the treatments say how many they are.
pub fn parts_are_what_is_done<A: Allocator>()
    ensures { (words : Words) (mode : Mode) (messages : List Message) (hart : AnyHart A) → IsProgram words
        → IsSalvagedHart words mode messages hart → (treats : HartTreats words mode messages)
        → AreTreatedParts (parts_in hart.parts.items) treats }
{}

/// What is done with messages counts as what is salvaged of them does. Of each hart as many messages are copies, and as
/// many are late, decoded, passed over and of doubtful numbers, as are counted where it is salvaged. As many are bad as
/// its parts have bad numbers, and as many are alone as its parts have numbers that stand alone. Of all harts as many
/// messages are copies, and as many are late, as their counts come to, and as many are strangers.
pub fn treatments_are_counted<A: Allocator>()
    ensures { (words : Words) (mode : Mode) (harts : ℕ) (messages : List Message) (treated : List AnyTreated)
        (salvaged : AnySalvaged A) → IsProgram words → AreTreated words mode harts messages treated
        → IsSalvaged words mode harts messages salvaged → AreCountedToo messages treated salvaged }
{}

/// Each message is counted once where messages are salvaged. Of a hart, whose messages are those without strangers, a
/// message is decoded, passed over, bad, alone, of a doubtful number or a copy, and all come to as many as the hart has.
pub fn messages_are_counted_once<A: Allocator>()
    ensures { (words : Words) (mode : Mode) (harts : ℕ) (messages : List Message) (salvaged : AnySalvaged A)
        → IsSalvaged words mode harts messages salvaged → AreCountedOnce messages salvaged }
{}

/// A hart's messages have one set of far numbers. It is empty where the messages came in the order of their numbers, and
/// where a message came with a number beside that of each.
pub fn far_numbers_are_known()
    ensures once { (messages : List Message) (one other : List ℕ) → AreFarNumbers messages one
        → AreFarNumbers messages other → one ≡ other }
    ensures in_order { (messages : List Message) (numbers : List ℕ) → ComeInOrder messages
        → AreFarNumbers messages numbers → numbers ≡ [] }
    ensures beside { (messages : List Message) (numbers : List ℕ) → HaveNeighbours messages
        → AreFarNumbers messages numbers → numbers ≡ [] }
{}

/// Far numbers in what is salvaged of a hart. Those whose messages are decoded are among its decoded ones, and those whose
/// messages are passed over among those. One gap is reported for each that there is, and one of them is 0 for each far
/// number. Where no number is far, each gap is reported as it is. Where all numbers are used, and none is beyond the
/// hart's end, the reported gaps and the believed numbers, those that are not far, add up to the greatest believed number
/// plus 1.
pub fn far_numbers_are_reported<A: Allocator>()
    ensures taken { (words : Words) (mode : Mode) (messages : List Message) (hart : AnyHart A)
        → IsSalvagedHart words mode messages hart → far_taken hart.far.items ≤ hart.decoded }
    ensures passed { (words : Words) (mode : Mode) (messages : List Message) (hart : AnyHart A)
        → IsSalvagedHart words mode messages hart → far_passed hart.far.items ≤ hart.passed }
    ensures many { (words : Words) (mode : Mode) (messages : List Message) (hart : AnyHart A)
        → IsSalvagedHart words mode messages hart
        → (length hart.gaps.items ≡ length (missing_in (parts_in hart.parts.items)))
        × (length hart.far.items ≡ count_by (λ missing. missing == 0) hart.gaps.items) }
    ensures none { (words : Words) (mode : Mode) (messages : List Message) (hart : AnyHart A)
        → IsSalvagedHart words mode messages hart → AreFarNumbers messages []
        → (hart.gaps.items ≡ missing_in (parts_in hart.parts.items)) × (hart.far.items ≡ []) }
    ensures gaps { (words : Words) (mode : Mode) (messages : List Message) (hart : AnyHart A)
        → (salvaged : IsSalvagedHart words mode messages hart)
        → All (λ (entry : AnyEntry). is_used entry ≡ true) salvaged.entries → salvaged.beyond ≡ []
        → sum hart.gaps.items + length (believed_numbers salvaged.entries salvaged.flags)
        ≡ number_after 0 (believed_numbers salvaged.entries salvaged.flags) }
{}
