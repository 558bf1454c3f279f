// The law of crashes.
ghost use Rattle.std.specs.Prelude.{◌≡◌, ◌≤◌, ◌↔◌, ℕ, max, List, [], ◌∷◌, ◌++◌, length};
ghost use Rattle.outside.specs.Words.{DiskHistory, AllBeginWithin, IsTornFrom, images_at, images_of, Range, range_at};
ghost use Rattle.outside.specs.Words.{furthest_end, IsLeft, synced_of, ranges_since, up_to};

/// What a crash may leave of a disk, made event by event, is what the disk model says. It does nothing: its
/// contract is the laws.
pub fn crash_laws()
    // An image may be left exactly where it is left of what was synced last and of the ranges written since.
    ensures model { (history : DiskHistory) → AllBeginWithin history.first history.events → (image : List ℕ) →
        images_of history image ↔ IsLeft (synced_of history) (ranges_since history) image }

    // So it was at each moment.
    ensures any_moment { (history : DiskHistory) → AllBeginWithin history.first history.events →
        (moment : ℕ) (image : List ℕ) → images_at history moment image ↔
        IsLeft (synced_of (up_to history moment)) (ranges_since (up_to history moment)) image }

    // Where nothing was written since, what was synced is left, and nothing else.
    ensures nothing_written { (synced image : List ℕ) → IsLeft synced [] image ↔ (image ≡ synced) }

    // One range more leaves what a write there, of which a crash may leave any part, makes of what was left before.
    ensures one_range_more { (synced : List ℕ) (ranges : List Range) (at count : ℕ) →
        at ≤ max (length synced) (furthest_end ranges) → (image : List ℕ) →
        IsLeft synced (ranges ++ range_at at count ∷ []) image ↔ IsTornFrom (IsLeft synced ranges) at count image }
{}
