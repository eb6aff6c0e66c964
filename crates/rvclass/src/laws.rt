//! What the definitions of memories and of a program's instructions promise.

ghost use Rattle.std.specs.Prelude.{ℕ, ◌≡◌, ◌↔◌, ◌+◌, ◌-◌, ◌*◌, ◌/◌, ◌%◌, ◌^◌, ◌<◌, ◌≤◌, ◌++◌, ◌&&◌, [], ◌∷◌, Bool, true, false, List, Ok, Err, IsOk, IsSome, length, nat_le, slice_index, suc};
ghost use Rattle.rvclass.specs.Adding.{add_piece};
ghost use Rattle.rvclass.specs.declared.piece_fault.PieceFault.TheVariants as PieceFault;
ghost use Rattle.rvclass.specs.FetchedBytes.{byte_at, fetched, half_at, has_bytes, or_else, word_at};
ghost use Rattle.rvclass.specs.Halves.{halves, halves_below};
ghost use Rattle.rvclass.specs.Memory.{Memory, IsMemory, byte_count, overlaps};
ghost use Rattle.rvclass.specs.Piece.{Piece, IsPiece, byte_in, end_of, overlap, piece_at};
ghost use Rattle.rvclass.specs.Fetch.{words_of};
ghost use Rattle.rvclass.specs.Image.{Image};

/// Two pieces overlap if and only if both have a byte at one address.
pub fn pieces_overlap_at_an_address()
    ensures { (p q : Piece) → (overlap p q ≡ true) ↔ ((addr : ℕ) × IsSome (byte_in p addr) × IsSome (byte_in q addr)) }
{}

/// The even addresses at which two bytes stand have rising places, which are below half the number of bytes: there are
/// at most half as many of them as bytes.
pub fn even_addresses_have_places()
    ensures rising { (m : Memory) (addr other : ℕ) → IsMemory m → addr % 2 ≡ 0 → other % 2 ≡ 0 →
        has_bytes m addr 2 ≡ true → addr < other → halves_below m addr < halves_below m other }
    ensures below { (m : Memory) (addr : ℕ) → IsMemory m → addr % 2 ≡ 0 → has_bytes m addr 2 ≡ true →
        halves_below m addr < halves m }
    ensures few { (m : Memory) → halves m ≤ byte_count m / 2 }
{}

/// A memory with one more piece is one: its bytes are those of the piece, and elsewhere what stood there before.
pub fn added_pieces_leave_the_others()
    ensures memory { (m n : Memory) (base : ℕ) (bytes : List ℕ) → IsMemory m → add_piece m base bytes ≡ Ok n →
        IsMemory n }
    ensures bytes { (m n : Memory) (base : ℕ) (bytes : List ℕ) (addr : ℕ) → add_piece m base bytes ≡ Ok n →
        byte_at n addr ≡ or_else (byte_in (piece_at base bytes) addr) (byte_at m addr) }
{}

/// Which pieces may be added to a memory, and why the others may not.
pub fn pieces_are_refused_for_the_first_reason()
    ensures added { (m : Memory) (base : ℕ) (bytes : List ℕ) → IsOk (add_piece m base bytes)
        ↔ (IsPiece (piece_at base bytes) × (overlaps (piece_at base bytes) m ≡ false)
        × (byte_count m + length bytes ≤ 2 ^ 26) × (length m + 1 ≤ 1024)) }
    ensures odd_base { (m : Memory) (base : ℕ) (bytes : List ℕ) → (add_piece m base bytes ≡ Err PieceFault.OddBase)
        ↔ (base % 2 ≡ 1) }
    ensures too_large { (m : Memory) (base : ℕ) (bytes : List ℕ) → (add_piece m base bytes ≡ Err PieceFault.TooLarge)
        ↔ ((base % 2 ≡ 0) × (2 ^ 24 < length bytes)) }
    ensures past_end { (m : Memory) (base : ℕ) (bytes : List ℕ) → (add_piece m base bytes ≡ Err PieceFault.PastEnd)
        ↔ ((base % 2 ≡ 0) × (length bytes ≤ 2 ^ 24) × (2 ^ 64 ≤ base + length bytes)) }
    ensures overlap { (m : Memory) (base : ℕ) (bytes : List ℕ) → (add_piece m base bytes ≡ Err PieceFault.Overlap)
        ↔ (IsPiece (piece_at base bytes) × (overlaps (piece_at base bytes) m ≡ true)) }
    ensures too_much { (m : Memory) (base : ℕ) (bytes : List ℕ) → (add_piece m base bytes ≡ Err PieceFault.TooMuch)
        ↔ (IsPiece (piece_at base bytes) × (overlaps (piece_at base bytes) m ≡ false)
        × (2 ^ 26 < byte_count m + length bytes)) }
    ensures too_many { (m : Memory) (base : ℕ) (bytes : List ℕ) → (add_piece m base bytes ≡ Err PieceFault.TooMany)
        ↔ (IsPiece (piece_at base bytes) × (overlaps (piece_at base bytes) m ≡ false)
        × (byte_count m + length bytes ≤ 2 ^ 26) × (1024 < length m + 1)) }
{}

/// Two memories with the same bytes have the same at each address.
pub fn the_bytes_decide()
    ensures { (m n : Memory) → ((addr : ℕ) → byte_at m addr ≡ byte_at n addr) →
        (addr : ℕ) → fetched m addr ≡ fetched n addr }
{}

/// A piece that is cut in two, at any place, acts as one.
pub fn cut_pieces_act_as_one()
    ensures { (before after : Memory) (base : ℕ) (left right : List ℕ) (addr : ℕ) →
        byte_at (before ++ piece_at base left ∷ piece_at (base + length left) right ∷ after) addr
        ≡ byte_at (before ++ piece_at base (left ++ right) ∷ after) addr }
{}

/// A memory with a piece that is cut in two at an even place is a memory, if there may be one piece more.
pub fn cut_pieces_stay_legal()
    ensures { (before after : Memory) (base : ℕ) (left right : List ℕ) → length left % 2 ≡ 0 →
        IsMemory (before ++ piece_at base (left ++ right) ∷ after) →
        length (before ++ piece_at base (left ++ right) ∷ after) + 1 ≤ 1024 →
        IsMemory (before ++ piece_at base left ∷ piece_at (base + length left) right ∷ after) }
{}

/// Pieces that were added in the other order have the same bytes.
pub fn the_order_of_adding_is_free()
    ensures { (m one both other two : Memory) (base second : ℕ) (bytes more : List ℕ) (addr : ℕ) →
        add_piece m base bytes ≡ Ok one → add_piece one second more ≡ Ok both →
        add_piece m second more ≡ Ok other → add_piece other base bytes ≡ Ok two →
        byte_at both addr ≡ byte_at two addr }
{}

/// Of one piece, the bytes at addresses are those at their places in the piece.
pub fn one_piece_is_an_image()
    ensures has { (p : Piece) (addr count : ℕ) →
        has_bytes (p ∷ []) addr (suc count) ≡ (nat_le p.base addr && nat_le (addr + suc count) (end_of p)) }
    ensures half { (p : Piece) (addr : ℕ) → has_bytes (p ∷ []) addr 2 ≡ true →
        half_at (p ∷ []) addr
        ≡ slice_index p.bytes (addr - p.base) + 2 ^ 8 * slice_index p.bytes (addr + 1 - p.base) }
    ensures word { (p : Piece) (addr : ℕ) → has_bytes (p ∷ []) addr 4 ≡ true →
        word_at (p ∷ []) addr
        ≡ slice_index p.bytes (addr - p.base) + 2 ^ 8 * slice_index p.bytes (addr + 1 - p.base)
        + 2 ^ 16 * (slice_index p.bytes (addr + 2 - p.base) + 2 ^ 8 * slice_index p.bytes (addr + 3 - p.base)) }
{}

/// The bytes of an image decide its instructions, whichever pieces they came in.
pub fn the_bytes_decide_the_instructions()
    ensures { (image other : Image) → ((addr : ℕ) → byte_at image addr ≡ byte_at other addr) →
        (addr : ℕ) → words_of image addr ≡ words_of other addr }
{}

/// A piece of an image that is cut in two, at any place, has the instructions of one.
pub fn cut_pieces_have_the_instructions_of_one()
    ensures { (before after : Image) (base : ℕ) (left right : List ℕ) (addr : ℕ) →
        words_of (before ++ piece_at base left ∷ piece_at (base + length left) right ∷ after) addr
        ≡ words_of (before ++ piece_at base (left ++ right) ∷ after) addr }
{}
