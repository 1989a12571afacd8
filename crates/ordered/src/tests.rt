// A calendar of alarms, by instant and then by task.
ghost use Rattle.std.specs.Prelude.{◌&&◌, ◌||◌, ◌==◌, nat_lt};
ghost use Rattle.std.proofs.Common.{rules};

use super::*;
use std::test::Fail;

#[derive(Clone, Copy)]
struct Alarm {
    instant: u32,
    task: u8,
}

struct Calendar;

impl Ranking for Calendar {
    type Item = Alarm;

    ghost key = { λ a. a.task };

    ghost before = { λ a b. nat_lt a.instant b.instant || (a.instant == b.instant && nat_lt a.task b.task) };

    ghost ranks = { Prim.search rules };

    fn key_of(item: Alarm) -> u8 {
        item.task
    }

    fn goes_before(x: Alarm, y: Alarm) -> bool {
        (x.instant, x.task) < (y.instant, y.task)
    }
}

fn ring(instant: u32, task: u8) -> Alarm {
    Alarm { instant, task }
}

#[test]
fn kept_in_order(rt: HostRuntime) {
    let mut places = [ring(0, 0); 3];
    let mut list = OrderedList::<Calendar> {
        places: &mut places,
        used: 0,
    };
    assert_eq!(rt; list.insert(ring(50, 4)), Some(0));
    assert_eq!(rt; list.insert(ring(90, 1)), Some(1));
    assert_eq!(rt; list.insert(ring(50, 2)), Some(0));
    assert_eq!(rt; list.insert(ring(10, 3)), None, "full");
    assert_eq!(rt; list.entries().find(1), Some(2));
    assert_eq!(rt; list.entries().find(3), None);
}

#[test]
fn taken_out(rt: HostRuntime) -> Result<(), Fail> {
    let mut places = [ring(10, 7), ring(20, 8), ring(30, 9)];
    let mut list = OrderedList::<Calendar> {
        places: &mut places,
        used: 3,
    };
    assert!(rt; list.remove(5).is_none(), "absent");
    let gone = list.remove(8).ok_or("held")?;
    assert_eq!(rt; gone.instant, 20);
    let next = list.entries().get(1).ok_or("moved up")?;
    assert_eq!(rt; next.task, 9);
    assert!(rt; list.remove_at(2).is_none(), "beyond the list");
    Ok(())
}
