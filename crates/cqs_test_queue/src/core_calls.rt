//! Whole calls of the core, for which it makes room itself. Those with room at hand are made by the
//! plans of `cqs_test_plans`, on a floor of cores.

use cqs_core::{Call, CoreError, Reply};
use cqs_core_run::Core;
use std::test::Fail;

#[test]
fn calls_of_the_core(rt: HostRuntime) -> Result<(), Fail> {
    let mut core = Core::new(rt.alloc(), 1, 1)?;
    assert!(rt; core.run_call(Call::Acquire { pass: 0 })? == Reply::Now);
    assert!(rt; core.run_call(Call::Acquire { pass: 0 })? == Reply::Later(0));
    assert!(rt; core.run_call(Call::Poll { pass: 0, wait: 0 })? == Reply::Pending);
    assert!(rt; core.run_call(Call::Cancel { pass: 0, wait: 0 })? == Reply::Cancelled);
    assert!(rt; core.run_call(Call::Release { pass: 0 })? == Reply::Freed);
    assert!(rt; core.run_call(Call::Release { pass: 0 }) == Err(CoreError::NotEnabled));
    assert!(rt; core.history().len() == 6);
    Ok(())
}
