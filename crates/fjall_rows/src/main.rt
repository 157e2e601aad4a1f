//! Threads share databases in memory: by handles, beside workers; by callers that know what they have seen; and through an index. What it prints
//! is the same whatever the schedule.
#![tactic(auto)]

mod cloned_handles;
mod counter;
mod endings;
mod fresh_handles;
mod fresh_seen;
mod gates;
mod index_alone;
mod index_beside_core;
mod seen_counter;
mod seen_handing;
mod seen_keys;
mod seen_snapshots;
mod small_memtables;
mod workers;

use anyhow::Result;
use fjall::IndexResult;
use fresh_handles::Machine;
use std::alloc::Global;

// Databases by their handles, with workers and without.
fn rows_over_handles<R: Machine>(rt: &R, alloc: Global) -> fjall::Result<()> {
    workers::two_jobs_run_at_once(rt, alloc)?;
    workers::a_start_ends_at_a_refusal(rt, alloc)?;
    cloned_handles::four_threads_share_a_database(rt, alloc)?;
    counter::four_threads_count(rt, alloc)?;
    endings::dropped_transactions_are_collected(rt, alloc)?;
    workers::an_ingestion_makes_a_flush_stale(rt, alloc)?;
    endings::a_temporary_database_leaves_nothing(rt, alloc)?;
    workers::jobs_end_in_either_order(rt, alloc)?;
    small_memtables::many_memtables_are_flushed_and_merged(rt, alloc)
}

// A database without workers, by what each thread has seen of it.
fn rows_over_what_is_seen<R: Machine>(rt: &R, alloc: Global) -> Result<()> {
    seen_keys::four_threads_insert(rt, alloc)?;
    seen_counter::four_threads_count(rt, alloc)?;
    seen_handing::one_is_handed_what_another_saw(rt, alloc)?;
    seen_snapshots::two_threads_have_keys_of_their_own(rt, alloc)
}

// An index over handles, beside one over a core, and by itself.
fn rows_over_an_index<R: Machine>(rt: &R) -> IndexResult<()> {
    index_beside_core::both_answer_the_same(rt)?;
    index_alone::a_stale_index_is_made_right(rt)?;
    index_alone::two_threads_put_at_once(rt)
}

fn main(rt: HostRuntime) -> Result<()> {
    let alloc = rt.alloc();
    rows_over_handles(&rt, alloc)?;
    rows_over_what_is_seen(&rt, alloc)?;
    rows_over_an_index(&rt)?;
    Ok(())
}
