//! When the values of a pool are dropped.

use cqs_pool::Placed;
use cqs_pool_values::{ItemTaking, ValuePool};
use cqs_rule::{Config, MakeError};
use std::alloc::{AllocFailed, Global};
use std::sync::atomic::{AtomicU64, Ordering};
use std::test::Fail;

const CONFIG: Config = Config {
    passes: 1,
    limit: 8,
    slots: 8,
};

const NO_PASSES: Config = Config {
    passes: 0,
    limit: 8,
    slots: 8,
};

/// A value that counts that it was dropped.
struct Counted<'a> {
    drops: &'a AtomicU64,
}

impl Drop for Counted<'_> {
    fn drop(self) {
        self.drops.fetch_add(1, Ordering::SeqCst);
        let Counted { drops: _ } = self;
    }
}

/// Two counted values.
fn two(alloc: Global, drops: &AtomicU64) -> Result<Vec<Counted<'_>>, AllocFailed<Counted<'_>>> {
    let mut values = Vec::new(alloc);
    values.push(Counted { drops })?;
    values.push(Counted { drops })?;
    Ok(values)
}

/// Takes an item of a pool of two counted values, and puts it back or keeps it. Says how often a
/// value was dropped before the pool and all that there is of it were, or nothing where none was
/// made.
fn drops_before_the_end(alloc: Global, drops: &AtomicU64, puts: bool) -> Option<u64> {
    let Ok(values) = two(alloc, drops) else {
        return None;
    };
    let Ok((pool, mut pass)) = ValuePool::new(alloc, values, CONFIG) else {
        return None;
    };
    let Ok(ItemTaking::Took(item)) = pool.take(&mut pass) else {
        return Some(u64::MAX);
    };
    if puts {
        let Ok(Placed::Left(_)) = pool.put(&mut pass, item) else {
            return Some(u64::MAX);
        };
    } else {
        drop(item);
    }
    Some(drops.load(Ordering::SeqCst))
}

#[test]
fn each_value_is_dropped_once_with_its_pool(rt: HostRuntime) -> Result<(), Fail> {
    let drops = AtomicU64::new(0);
    if let Some(before) = drops_before_the_end(rt.alloc(), &drops, true) {
        assert!(rt; before == 0);
        assert!(rt; drops.load(Ordering::SeqCst) == 2);
    }
    Ok(())
}

#[test]
fn a_value_is_dropped_once_with_its_item(rt: HostRuntime) -> Result<(), Fail> {
    let drops = AtomicU64::new(0);
    if let Some(before) = drops_before_the_end(rt.alloc(), &drops, false) {
        assert!(rt; before == 1);
        assert!(rt; drops.load(Ordering::SeqCst) == 2);
    }
    Ok(())
}

#[test]
fn the_values_come_back_where_no_pool_is_made(rt: HostRuntime) -> Result<(), Fail> {
    let drops = AtomicU64::new(0);
    let Ok(values) = two(rt.alloc(), &drops) else {
        return Ok(());
    };
    let Err((values, error)) = ValuePool::new(rt.alloc(), values, NO_PASSES) else {
        panic!(rt; "no passes are out of range");
    };
    assert!(rt; error == MakeError::BadConfig);
    assert!(rt; values.len() == 2);
    assert!(rt; drops.load(Ordering::SeqCst) == 0);
    drop(values);
    assert!(rt; drops.load(Ordering::SeqCst) == 2);
    Ok(())
}
