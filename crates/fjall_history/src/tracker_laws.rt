//! What holds of snapshot trackers.

ghost use Rattle.std.specs.Prelude.{◌≡◌, ◌+◌, ◌-◌, ◌<◌, ◌≤◌, ◌^◌, ◌∷◌, Contains, List, true, false, length, nat_eq, nat_lt, ℕ};
ghost use Rattle.std.specs.List.{count_by};
ghost use Rattle.fjall_history.specs.Trackers.{IsSoundTracker, Tracker, after_closing, after_gc, after_opening, after_raise, fresh_tracker, is_open, oldest, with_instant, without_instant};

/// A tracker is sound at first, and each change of it leaves it so.
pub fn trackers_stay_sound()
    ensures fresh { IsSoundTracker fresh_tracker }
    ensures opening { (i : ℕ) (t : Tracker) → IsSoundTracker t → i ≤ t.visible → (0 < t.watermark → t.watermark < i)
        → length t.instants < 2 ^ 64 - 1 → IsSoundTracker (after_opening i t) }
    ensures opening_visible { (t : Tracker) → IsSoundTracker t → length t.instants < 2 ^ 64 - 1 → IsSoundTracker (after_opening t.visible t) }
    ensures opening_open { (i : ℕ) (t : Tracker) → IsSoundTracker t → is_open i t.instants ≡ true → length t.instants < 2 ^ 64 - 1
        → IsSoundTracker (after_opening i t) }
    ensures closed { (i n : ℕ) (t : Tracker) → IsSoundTracker t → is_open i t.instants ≡ true → n < 10000
        → IsSoundTracker (record t { instants = without_instant i t.instants; closings = n }) }
    ensures closing { (i : ℕ) (t : Tracker) → IsSoundTracker t → IsSoundTracker (after_closing i t) }
    ensures gc { (t : Tracker) → IsSoundTracker t → IsSoundTracker (after_gc t) }
    ensures raise { (n : ℕ) (t : Tracker) → IsSoundTracker t → IsSoundTracker (after_raise n t) }
{}

/// An open instant is among all, above the watermark unless that is 0, not below the oldest and not above the visible number.
pub fn open_instants_are_bounded()
    ensures among { (i : ℕ) (xs : List ℕ) → is_open i xs ≡ true → Contains xs i }
    ensures reached { (i : ℕ) (t : Tracker) → IsSoundTracker t → is_open i t.instants ≡ true → i ≤ t.visible }
    ensures spared { (i : ℕ) (t : Tracker) → IsSoundTracker t → is_open i t.instants ≡ true → 0 < t.watermark → t.watermark < i }
    ensures oldest { (i : ℕ) (t : Tracker) → IsSoundTracker t → is_open i t.instants ≡ true → oldest t ≤ i }
{}

/// After a collection the watermark is one below the oldest instant: it never has to be kept up.
pub fn the_watermark_follows_the_oldest()
    ensures { (t : Tracker) → IsSoundTracker t → (after_gc t).watermark ≡ oldest t - 1 }
{}

/// A closing of what isn't open changes nothing. Another one is counted, and the ten-thousandth collects.
pub fn closings_are_counted()
    ensures none { (i : ℕ) (t : Tracker) → is_open i t.instants ≡ false → after_closing i t ≡ t }
    ensures counted { (i : ℕ) (t : Tracker) → is_open i t.instants ≡ true → (t.closings + 1 ≡ 10000 → ⊥)
        → after_closing i t ≡ record t { instants = without_instant i t.instants; closings = t.closings + 1 } }
    ensures collects { (i : ℕ) (t : Tracker) → is_open i t.instants ≡ true → t.closings + 1 ≡ 10000
        → after_closing i t ≡ after_gc (record t { instants = without_instant i t.instants; closings = 0 }) }
{}

/// An opening adds its instant once, and a closing takes it away once.
pub fn instants_are_counted()
    ensures one_more { (i : ℕ) (xs : List ℕ) → length (with_instant i xs) ≡ length xs + 1 }
    ensures one_less { (i : ℕ) (xs : List ℕ) → is_open i xs ≡ true → length (without_instant i xs) + 1 ≡ length xs }
    ensures opened { (q i : ℕ) (xs : List ℕ) → count_by (nat_eq q) (with_instant i xs) ≡ count_by (nat_eq q) (i ∷ xs) }
    ensures closed { (q i : ℕ) (xs : List ℕ) → is_open i xs ≡ true
        → count_by (nat_eq q) (i ∷ without_instant i xs) ≡ count_by (nat_eq q) xs }
    ensures among { (i : ℕ) (xs : List ℕ) → is_open i xs ≡ nat_lt 0 (count_by (nat_eq i) xs) }
{}
