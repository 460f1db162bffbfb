//! That threads may share a storage. What is stored is told by `streams`, among the tests of the commands.

use levels::Storage;

fn is_shared<T: Send + Sync>() -> bool {
    true
}

#[test]
fn threads_may_share_a_storage(rt: HostRuntime) {
    assert!(rt; is_shared::<Storage>());
}
