// Each call once, with the least and the greatest task and a number that is no task.
use super::*;

#[test]
fn members_come_and_go(rt: HostRuntime) {
    let set = TaskSet::new().with(0).with(63).with(64);
    assert_eq!(rt; u64::from(set), 0x8000_0000_0000_0001);
    assert!(rt; set.contains(0));
    assert!(rt; set.contains(63));
    assert!(rt; !set.contains(1));
    assert!(rt; !set.contains(64));
    assert_eq!(rt; set.len(), 2);
    assert!(rt; !set.is_empty());
    assert_eq!(rt; set.without(63).without(64), TaskSet::from(1));
    assert!(rt; set.without(63).without(0).is_empty());
}

#[test]
fn tasks_ascend(rt: HostRuntime) {
    let mut tasks = TaskSet::from(0x8000_0000_0000_0006).into_iter();
    assert_eq!(rt; tasks.next(), Some(1));
    assert_eq!(rt; tasks.next(), Some(2));
    assert_eq!(rt; tasks.next(), Some(63));
    assert_eq!(rt; tasks.next(), None);
    let mut last = None;
    for task in TaskSet::from(44) {
        last = Some(task);
    }
    assert_eq!(rt; last, Some(5));
}
