//! Reads of keyspaces.

use crate::answers::{Answer, Done};
use crate::lines::{End, Query};
use crate::words::lent;
use fjall::{Disk, Guard, Identified, Iter, Keyspace, Readable};
use std::alloc::Global;
use std::sync::Wait;

// How many pairs a query takes at most, and whether from the back.
fn extent(query: &Query) -> (usize, bool) {
    match query {
        Query::Page(page) => (page.max, page.is_back),
        _ => (usize::MAX, false),
    }
}

/// The one pair that was found, where there is one.
pub fn one(alloc: Global, found: Option<Guard>) -> Done {
    let mut pairs = Vec::new(alloc);
    if let Some(guard) = found {
        pairs.push(guard.into_inner()?)?;
    }
    Ok(Answer::Pairs(pairs))
}

/// What is taken from ends of pairs.
pub fn ends<R: Wait, D: Disk + Drop>(
    alloc: Global,
    ends: &[End],
    mut iter: Iter<'_, R, D>,
) -> Done {
    let mut taken = Vec::new(alloc);
    for end in ends {
        let found = match end {
            End::Front => iter.next(),
            End::Back => iter.next_back(),
        };
        taken.push(match found {
            Some(guard) => Some(guard.into_inner()?),
            None => None,
        })?;
    }
    Ok(Answer::Ends(taken))
}

/// The pairs of a keyspace, or of a part of it, at its present.
pub fn pairs<R: Wait, D: Disk + Drop>(
    rt: &R,
    alloc: Global,
    keyspace: &Keyspace<D>,
    query: &Query,
) -> Done {
    let mut iter = match query {
        Query::Range(range) => keyspace.range(rt, lent(range)),
        Query::Prefix(prefix) => keyspace.prefix(rt, prefix),
        Query::Page(page) => keyspace.range(rt, lent(&page.range)),
        _ => keyspace.iter(rt),
    };
    let (most, is_back) = extent(query);
    let mut pairs = Vec::new(alloc);
    for _ in 0..most {
        let found = if is_back {
            iter.next_back()
        } else {
            iter.next()
        };
        let Some(guard) = found else {
            break;
        };
        pairs.push(guard.into_inner()?)?;
    }
    if is_back {
        pairs.reverse();
    }
    Ok(Answer::Pairs(pairs))
}

// The pairs of a keyspace, or of a part of it, that a reader shows.
fn pairs_shown<V: Readable, K: Identified>(
    alloc: Global,
    view: &mut V,
    keyspace: &K,
    query: &Query,
) -> Done {
    let mut iter = match query {
        Query::Range(range) => view.range(keyspace, lent(range)),
        Query::Prefix(prefix) => view.prefix(keyspace, prefix),
        Query::Page(page) => view.range(keyspace, lent(&page.range)),
        _ => view.iter(keyspace),
    };
    let (most, is_back) = extent(query);
    let mut pairs = Vec::new(alloc);
    for _ in 0..most {
        let found = if is_back {
            iter.next_back()
        } else {
            iter.next()
        };
        let Some(guard) = found else {
            break;
        };
        pairs.push(guard.into_inner()?)?;
    }
    if is_back {
        pairs.reverse();
    }
    Ok(Answer::Pairs(pairs))
}

/// Reads a keyspace as a snapshot or a transaction shows it.
pub fn read_shown<V: Readable, K: Identified>(
    alloc: Global,
    view: &mut V,
    keyspace: &K,
    query: &Query,
) -> Done {
    Ok(match query {
        Query::Get(key) => Answer::Value(view.get(keyspace, key)?),
        Query::Contains(key) => Answer::Flag(view.contains_key(keyspace, key)?),
        Query::Size(key) => Answer::Size(view.size_of(keyspace, key)?),
        Query::Len => Answer::Count(view.len(keyspace)? as u64),
        Query::IsEmpty => Answer::Flag(view.is_empty(keyspace)?),
        Query::First => return one(alloc, view.first_key_value(keyspace)),
        Query::Last => return one(alloc, view.last_key_value(keyspace)),
        _ => return pairs_shown(alloc, view, keyspace, query),
    })
}
