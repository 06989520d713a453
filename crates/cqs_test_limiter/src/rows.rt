//! Small texts of requests, by one, two and sixteen workers.

use crate::answering::is_answered;
use cqs_limiter_requests::{RequestError, read_requests};

const TWO_TENANTS: &str = "tenants 1 1\n\
    enter 0 5\n\
    enter 0 6\n\
    enter 1 6\n\
    leave 0 5\n\
    look 0 6\n\
    leave 0 9\n";

const TWO_ANSWERED: &str = "enter 0 5 now\n\
    enter 0 6 waits 0\n\
    enter 1 6 now\n\
    leave 0 5 sent 0\n\
    look 0 6 granted\n\
    leave 0 9 refused\n";

#[test]
fn two_tenants_apart(rt: HostRuntime) {
    let alloc = rt.alloc();
    for workers in [1, 2, 16] {
        assert!(rt; is_answered(&rt, alloc, TWO_TENANTS, workers, TWO_ANSWERED));
    }
}

const ONE_TENANT: &str = "tenants 1\n\
    enter 0 1\n\
    enter 0 1\n\
    enter 0 2\n\
    quit 0 2\n\
    leave 0 1\n";

const ONE_ANSWERED: &str = "enter 0 1 now\n\
    enter 0 1 refused\n\
    enter 0 2 waits 0\n\
    quit 0 2 gone\n\
    leave 0 1 freed\n";

#[test]
fn client_in_and_out(rt: HostRuntime) {
    let alloc = rt.alloc();
    assert!(rt; is_answered(&rt, alloc, ONE_TENANT, 2, ONE_ANSWERED));
}

#[test]
fn tenant_of_no_permits(rt: HostRuntime) {
    let so = matches!(
        read_requests(rt.alloc(), "tenants 0\n".as_bytes()),
        Err(RequestError::BadLine(1))
    );
    assert!(rt; so);
}
