// Set-up and its refusals, the declined calls, and the waiting in a lent buffer.
use super::*;
use std::test::Fail;

// The number of set-up's refusal, or 0.
fn refused(kind: u8, count: u8, processors: u8) -> u8 {
    AnyLock::set_up(kind, count, processors)
        .err()
        .map_or(0, u8::from)
}

#[test]
fn refusals(rt: HostRuntime) {
    assert_eq!(rt; refused(3, 4, 4), 0);
    assert_eq!(rt; refused(3, 5, 4), 8);
    assert_eq!(rt; refused(3, 0, 4), 8);
    assert_eq!(rt; refused(1, 1, 4), 8);
    assert_eq!(rt; refused(2, 1, 4), 8);
    assert_eq!(rt; refused(0, 9, 4), 7);
    assert_eq!(rt; refused(4, 0, 4), 7);
}

#[test]
fn declined(rt: HostRuntime) -> Result<(), Fail> {
    let mut lock = AnyLock::set_up(2, 0, 4)?;
    assert_eq!(rt; lock.request(1, 1), Some(Reply::Granted));
    assert_eq!(rt; lock.request(2, 2), Some(Reply::Waits));
    assert_eq!(rt; lock.request(1, 1), None, "holds");
    assert_eq!(rt; lock.request(2, 2), None, "waits");
    assert_eq!(rt; lock.request(64, 1), None, "no task");
    assert_eq!(rt; lock.request(3, 0), None, "unfit mode");
    assert_eq!(rt; lock.complete(2), None, "waits");
    assert_eq!(rt; lock.complete(3), None, "away");
    assert_eq!(rt; lock.complete(64), None, "no task");
    assert_eq!(rt; lock.holders(), TaskSet::from(2));
    assert_eq!(rt;
        lock.complete(1),
        Some(Completion {
            granted: TaskSet::from(4),
            ends_turn: true
        })
    );
    Ok(())
}

#[test]
fn lists(rt: HostRuntime) -> Result<(), Fail> {
    let mut lock = AnyLock::set_up(2, 0, 4)?;
    assert_eq!(rt; lock.request(9, 2), Some(Reply::Granted));
    assert_eq!(rt; lock.request(8, 1), Some(Reply::Waits));
    assert_eq!(rt; lock.request(7, 2), Some(Reply::Waits));
    assert_eq!(rt; lock.request(6, 1), Some(Reply::Waits));
    let mut buffer = [99u8; 4];
    assert_eq!(rt;
        lock.waiting(&mut buffer[0..2]),
        Err(Refusal::BufferTooShort)
    );
    assert_eq!(rt; buffer, [99, 99, 99, 99], "as it was");
    assert_eq!(rt; lock.waiting(&mut buffer), Ok(3));
    assert_eq!(rt; buffer, [7, 6, 8, 99]);
    assert_eq!(rt;
        lock.complete(9),
        Some(Completion {
            granted: TaskSet::from(320),
            ends_turn: true
        }),
        "all readers"
    );
    assert_eq!(rt; largest(), 104);
    Ok(())
}
