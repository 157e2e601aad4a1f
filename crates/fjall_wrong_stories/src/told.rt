//! Lives of an engine, and that they tell none of the wrong stories.

ghost use Rattle.std.specs.Prelude.{IfOk, IsFalse, IsTrue};
ghost use Rattle.fjall_base.specs.declared.error.Error.{Error};
ghost use Rattle.fjall_consistency.specs.Consistency.{RunsOut};
ghost use Rattle.fjall_consistency.specs.Links.{IsFresh};
ghost use Rattle.fjall_wrong_stories.specs.Stories.{AClosedLifeLostSomething, ADeletedKeyspaceComesBack, ADeletedKeyspaceTakesWrites, AFaultShiftsTheIds, ALaterCallWithoutAnEarlierOne};
ghost use Rattle.fjall_wrong_stories.specs.Stories.{ALifeThatWasLetGoClosed, ARefusedCallTakesEffect, ARefusedCallTakesEffectLater, ASnapshotMoves, AValueFromAnotherKey, AValueFromNowhere};
ghost use Rattle.fjall_wrong_stories.specs.Stories.{AValueThatNobodyWrote, AWriteBehindAFault, AWriteIntoNoKeyspace, AWriteSkew, AWriteWithoutAKey, AnAcknowledgedSyncIsLost, AnOpeningForgets};
ghost use Rattle.fjall_wrong_stories.specs.Stories.{AFaultClearsADeletedKeyspace, AFaultIngestsOutOfOrder};
ghost use Rattle.fjall_wrong_stories.specs.Stories.{AnOpeningIsRefused, AnUnknownKeyspaceIsRead, AnUnknownKeyspaceThatLives, HalfABatch, TwoSingleWriters};

use fjall_base::Result;
use fjall_consistency::{Life, Power, Told, live};
use std::alloc::Global;

/// Runs lives as [`live`] does. What they told is none of the wrong stories, whether or not crashes may be wild; but where they may,
/// an opening may be refused though nothing ran out.
pub fn told_truly<P: Power>(
    alloc: Global,
    power: &mut P,
    disk: P::Disk,
    lives: Vec<Life>,
) -> Result<Vec<Result<Told>>>
    requires fresh { IsTrue P.Disk.honest → IsFresh (P.Disk.meaning disk) }
    ensures no_sync_is_lost { IsTrue P.Disk.honest → IfOk result (λ told. AnAcknowledgedSyncIsLost lives.items told.items → ⊥) }
    ensures no_half_batch { IsTrue P.Disk.honest → IfOk result (λ told. HalfABatch lives.items told.items → ⊥) }
    ensures no_snapshot_moves { IsTrue P.Disk.honest → IfOk result (λ told. ASnapshotMoves lives.items told.items → ⊥) }
    ensures no_other_value { IsTrue P.Disk.honest → IfOk result (λ told. AValueThatNobodyWrote lives.items told.items → ⊥) }
    ensures no_value_of_another_key { IsTrue P.Disk.honest → IfOk result (λ told. AValueFromAnotherKey lives.items told.items → ⊥) }
    ensures no_value_from_nowhere { IsTrue P.Disk.honest → IfOk result (λ told. AValueFromNowhere lives.items told.items → ⊥) }
    ensures no_opening_forgets { IsTrue P.Disk.honest → IfOk result (λ told. AnOpeningForgets lives.items told.items → ⊥) }
    ensures no_write_skew { IsTrue P.Disk.honest → IfOk result (λ told. AWriteSkew lives.items told.items → ⊥) }
    ensures no_refused_call_is_seen { IsTrue P.Disk.honest → IfOk result (λ told. ARefusedCallTakesEffect lives.items told.items → ⊥) }
    ensures no_refused_call_is_found { IsTrue P.Disk.honest → IfOk result (λ told. ARefusedCallTakesEffectLater lives.items told.items → ⊥) }
    ensures no_later_call_alone { IsTrue P.Disk.honest → IfOk result (λ told. ALaterCallWithoutAnEarlierOne lives.items told.items → ⊥) }
    ensures no_living_keyspace_is_unknown { IsTrue P.Disk.honest → IfOk result (λ told. AnUnknownKeyspaceThatLives lives.items told.items → ⊥) }
    ensures no_closed_life_loses { IsTrue P.Disk.honest → IfOk result (λ told. AClosedLifeLostSomething lives.items told.items → ⊥) }
    ensures no_opening_is_refused { IsTrue P.Disk.honest → IsFalse P.wild → IfOk result (λ told. (error : Error) → (RunsOut error → ⊥) → AnOpeningIsRefused error lives.items told.items → ⊥) }
    ensures no_deleted_keyspace_returns { IsTrue P.Disk.honest → IfOk result (λ told. ADeletedKeyspaceComesBack lives.items told.items → ⊥) }
    ensures no_two_writers { IsTrue P.Disk.honest → IfOk result (λ told. TwoSingleWriters lives.items told.items → ⊥) }
    ensures no_deleted_keyspace_is_written { IsTrue P.Disk.honest → IfOk result (λ told. ADeletedKeyspaceTakesWrites lives.items told.items → ⊥) }
    ensures no_write_without_a_key { IsTrue P.Disk.honest → IfOk result (λ told. AWriteWithoutAKey lives.items told.items → ⊥) }
    ensures no_write_into_no_keyspace { IsTrue P.Disk.honest → IfOk result (λ told. AWriteIntoNoKeyspace lives.items told.items → ⊥) }
    ensures no_let_go_life_closes { IsTrue P.Disk.honest → IfOk result (λ told. ALifeThatWasLetGoClosed lives.items told.items → ⊥) }
    ensures no_unknown_keyspace_is_read { IsTrue P.Disk.honest → IfOk result (λ told. AnUnknownKeyspaceIsRead lives.items told.items → ⊥) }
    ensures no_fault_shifts_ids { IsTrue P.Disk.honest → IfOk result (λ told. AFaultShiftsTheIds lives.items told.items → ⊥) }
    ensures no_write_behind_a_fault { IsTrue P.Disk.honest → IfOk result (λ told. AWriteBehindAFault lives.items told.items → ⊥) }
    ensures no_fault_clears_a_deleted_keyspace { IsTrue P.Disk.honest → IfOk result (λ told. AFaultClearsADeletedKeyspace lives.items told.items → ⊥) }
    ensures no_fault_ingests_out_of_order { IsTrue P.Disk.honest → IfOk result (λ told. AFaultIngestsOutOfOrder lives.items told.items → ⊥) }
{
    live(alloc, power, disk, lives)
}
