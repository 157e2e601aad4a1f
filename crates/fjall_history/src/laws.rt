//! What holds of a history and its tickets along the moves that calls make.

ghost use Rattle.std.specs.Prelude.{◌≡◌, ◌-◌, ◌<◌, ◌≤◌, ◌++◌, ℕ, List, None, Some};
ghost use Rattle.std.specs.FinMap.{get, values};
ghost use Rattle.fjall_base.specs.Store.{Command, Store, apply, fold};
ghost use Rattle.fjall_history.specs.Histories.{Accepted, History, commands_of, extended, grown, latest, number, view};
ghost use Rattle.fjall_history.specs.Moves.{AreSound, HasGrown, IsSpared, MayOpen, Moves, MovesOn, Times};
ghost use Rattle.fjall_history.specs.Tickets.{collected, least, no_tickets};

/// Each open ticket was given out and reads at an instant of the history: so it is at an opening, and so each move leaves it.
pub fn moves_keep_soundness()
    ensures opening { (h : History) → AreSound (record { history = h; tickets = no_tickets }) }
    ensures moves { (old new : Times) → AreSound old → Moves old new → AreSound new }
    ensures runs { (old new : Times) → AreSound old → MovesOn old new → AreSound new }
    ensures within { (t : Times) (instant : ℕ) → AreSound t → MayOpen t instant → (t.history.base ≤ instant) × (instant ≤ number t.history) }
{}

/// A history only grows, and what is accepted later doesn't show at an earlier instant.
pub fn views_stay()
    ensures grows { (old new : Times) → MovesOn old new → HasGrown old.history new.history }
    ensures number { (old new : History) → HasGrown old new → number old ≤ number new }
    ensures views { (old new : History) (instant : ℕ) → HasGrown old new → instant ≤ number old → view new instant ≡ view old instant }
    ensures runs { (old new : Times) → MovesOn old new → (instant : ℕ) → instant ≤ number old.history → view new.history instant ≡ view old.history instant }
{}

/// A ticket that stays open reads at the same instant, and shows what it showed. One that was closed is never opened again.
pub fn a_snapshot_stays()
    ensures view { (old new : Times) → AreSound old → MovesOn old new → (id before after : ℕ)
        → get old.tickets.instants id ≡ Some before → get new.tickets.instants id ≡ Some after
        → (before ≡ after) × (view new.history after ≡ view old.history before) }
    ensures closed { (old new : Times) → MovesOn old new → (id : ℕ) → id < old.tickets.next → get old.tickets.instants id ≡ None
        → get new.tickets.instants id ≡ None }
{}

/// Unless it is 0, the watermark is below each instant at which a ticket reads or may be opened: so it is at an opening, and
/// so each move leaves it. So a collection raises it to exactly one below the least of them.
pub fn the_watermark_spares()
    ensures opening { (h : History) → IsSpared (record { history = h; tickets = no_tickets }) }
    ensures moves { (old new : Times) → IsSpared old → Moves old new → IsSpared new }
    ensures runs { (old new : Times) → IsSpared old → MovesOn old new → IsSpared new }
    ensures collected { (t : Times) → IsSpared t
        → (collected (number t.history) t.tickets).watermark ≡ least (number t.history) (values t.tickets.instants) - 1 }
{}

/// The watermark never falls.
pub fn the_watermark_never_falls()
    ensures moves { (old new : Times) → Moves old new → old.tickets.watermark ≤ new.tickets.watermark }
    ensures runs { (old new : Times) → MovesOn old new → old.tickets.watermark ≤ new.tickets.watermark }
{}

/// The view at the visible number, or at any later one, is the store after all that was accepted.
pub fn the_latest_is_a_view()
    ensures { (h : History) (instant : ℕ) → number h ≤ instant → view h instant ≡ latest h }
{}

/// One more command is applied to the latest store, and so are many: commands behind others are applied to what those make.
pub fn one_more_is_applied()
    ensures one { (h : History) (a : Accepted) → latest (grown h a) ≡ apply (latest h) a.command }
    ensures many { (h : History) (more : List Accepted) → latest (extended h more) ≡ fold (latest h) (commands_of more) }
    ensures commands { (xs ys : List Accepted) → commands_of (xs ++ ys) ≡ commands_of xs ++ commands_of ys }
    ensures behind { (s : Store) (first more : List Command) → fold s (first ++ more) ≡ fold (fold s first) more }
{}
