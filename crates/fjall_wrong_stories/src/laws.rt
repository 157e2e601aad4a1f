//! Nineteen wrong stories, each with the law that it is never told, whether or not crashes may be wild, but for one of them.

ghost use Rattle.fjall_base.specs.declared.error.Error.{Error};
ghost use Rattle.fjall_base.specs.declared.error.Error.TheVariants.{JournalRecovery, Unrecoverable};
ghost use Rattle.fjall_base.specs.declared.error.JournalRecoveryError.{JournalRecoveryError};
ghost use Rattle.fjall_consistency.specs.Consistency.{RunsOut};
ghost use Rattle.fjall_wrong_stories.specs.Stories.{AClosedLifeLostSomething, ADeletedKeyspaceComesBack, ALaterCallWithoutAnEarlierOne, ARefusedCallTakesEffect, ARefusedCallTakesEffectLater};
ghost use Rattle.fjall_wrong_stories.specs.Stories.{ASnapshotMoves, AValueFromAnotherKey, AValueFromNowhere, AValueThatNobodyWrote, AWriteSkew, AnAcknowledgedSyncIsLost, AnOpeningForgets};
ghost use Rattle.fjall_wrong_stories.specs.Stories.{ADeletedKeyspaceTakesWrites, ALifeThatWasLetGoClosed, AWriteIntoNoKeyspace, AWriteWithoutAKey};
ghost use Rattle.fjall_wrong_stories.specs.Stories.{AFaultClearsADeletedKeyspace, AFaultIngestsOutOfOrder, AFaultShiftsTheIds, AWriteBehindAFault, AnUnknownKeyspaceIsRead};
ghost use Rattle.fjall_wrong_stories.specs.Stories.{AnOpeningIsRefused, AnUnknownKeyspaceThatLives, HalfABatch, Never, NeverTame, TwoSingleWriters};

/// A sync was told anything but a refusal, and the next life doesn't find the value that was inserted before it.
pub fn an_acknowledged_sync_is_lost()
    ensures { Never AnAcknowledgedSyncIsLost }
{}

/// Of two keys that one batch wrote, the next life finds one and not the other.
pub fn half_a_batch()
    ensures { Never HalfABatch }
{}

/// A snapshot doesn't show the value that the key had as it was opened, but one that came later.
pub fn a_snapshot_moves()
    ensures { Never ASnapshotMoves }
{}

/// A key has another value than the one that was inserted, or has one where nothing was inserted but at another key, or nothing at all.
pub fn a_value_that_nobody_wrote()
    ensures another { Never AValueThatNobodyWrote }
    ensures elsewhere { Never AValueFromAnotherKey }
    ensures nowhere { Never AValueFromNowhere }
{}

/// A value that no sync followed was found by the next life, and isn't by the one behind it.
pub fn an_opening_forgets()
    ensures { Never AnOpeningForgets }
{}

/// Two optimistic transactions each read the key that the other one wrote, and both commit.
pub fn a_write_skew()
    ensures { Never AWriteSkew }
{}

/// An insert was refused, and the same life finds its value; or the next one does, where the refusal was no fault of the disk.
pub fn a_refused_call_takes_effect()
    ensures now { Never ARefusedCallTakesEffect }
    ensures later { Never ARefusedCallTakesEffectLater }
{}

/// The later of two inserts is found by the next life, and the earlier one isn't.
pub fn a_later_call_without_an_earlier_one()
    ensures { Never ALaterCallWithoutAnEarlierOne }
{}

/// An insert is refused as into a keyspace that nobody knows, and one of that id was just made.
pub fn an_unknown_keyspace_that_lives()
    ensures { Never AnUnknownKeyspaceThatLives }
{}

/// A life told that it closed, and the next one doesn't find the value that was inserted.
pub fn a_closed_life_lost_something()
    ensures { Never AClosedLifeLostSomething }
{}

/// An opening is refused where nothing ran out: neither memory, nor the disk, nor numbers, nor the room of a list. So none is
/// because of files that contradict each other, or of a damaged journal. This is the only law that holds only where crashes aren't
/// wild: a wild one may leave what an opening refuses.
pub fn an_opening_is_refused()
    ensures any { (error : Error) → (RunsOut error → ⊥) → NeverTame (AnOpeningIsRefused error) }
    ensures contradicts { NeverTame (AnOpeningIsRefused Unrecoverable) }
    ensures damaged { (damage : JournalRecoveryError) → NeverTame (AnOpeningIsRefused (JournalRecovery damage)) }
{}

/// A keyspace was deleted, and the next life finds a value in it.
pub fn a_deleted_keyspace_comes_back()
    ensures { Never ADeletedKeyspaceComesBack }
{}

/// A single writer's transaction begins while another one is open.
pub fn two_single_writers()
    ensures { Never TwoSingleWriters }
{}

/// A keyspace was made and deleted, and takes an insert in the same life.
pub fn a_deleted_keyspace_takes_writes()
    ensures { Never ADeletedKeyspaceTakesWrites }
{}

/// An insert is done under the empty key, or into an id that no keyspace has.
pub fn a_write_without_a_key()
    ensures empty { Never AWriteWithoutAKey }
    ensures nowhere { Never AWriteIntoNoKeyspace }
{}

/// A life that was let go told that it closed.
pub fn a_life_that_was_let_go_closed()
    ensures { Never ALifeThatWasLetGoClosed }
{}

/// A fault of the disk refuses in the first life to make a keyspace by a new name, and the same life makes one behind it, or an insert
/// is done there: then the ids of the next life depend on what the fault left.
pub fn a_fault_shifts_the_ids()
    ensures made { Never AFaultShiftsTheIds }
    ensures written { Never AWriteBehindAFault }
{}

/// A fault of the disk is told of a call that is refused without one: a clear of a deleted keyspace, or an ingestion whose keys don't
/// ascend. Behind a fault each may take effect.
pub fn a_fault_begins_what_is_refused()
    ensures cleared { Never AFaultClearsADeletedKeyspace }
    ensures ingested { Never AFaultIngestsOutOfOrder }
{}

/// A read in the first life is told a value or none, in an id that no creation told before.
pub fn an_unknown_keyspace_is_read()
    ensures { Never AnUnknownKeyspaceIsRead }
{}
