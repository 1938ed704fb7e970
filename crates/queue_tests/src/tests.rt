// Runs in a room of three places, with the ring begun at each of them, in a space of five.
use queue::Queue;
use std::process::Abort;

const ROOM: usize = 3;

const BEYOND: u32 = 99;

#[test]
fn fills_looks_and_empties(rt: HostRuntime) {
    // Over the places themselves at which the ring can begin.
    for offset in 0..=ROOM {
        let mut space = [BEYOND; 5];
        let mut q = Queue::new(&mut space);
        fill(&rt, &mut q, offset);
        assert_eq!(rt; q.push_back(4), Err(4));
        assert!(rt; q.is_full());
        assert_eq!(rt; q.len(), ROOM);
        assert_eq!(rt; q.front(), Some(1));
        assert_eq!(rt; q.get(1), Some(2));
        assert_eq!(rt; q.back(), Some(3));
        assert_eq!(rt; q.get(ROOM), None);
        assert_eq!(rt; q.pop_back(), Some(3));
        holds(&rt, &mut q, &[1, 2]);
        assert_eq!(rt; q.pop_back(), None);
        assert_eq!(rt; q.front(), None);
        assert_eq!(rt; q.back(), None);
        assert_eq!(rt; [space[3], space[4]], [BEYOND, BEYOND]);
    }
}

#[test]
fn replaces_and_removes_everywhere(rt: HostRuntime) {
    // Of each place in the queue: what it holds, and the items once it is replaced by 9 or removed.
    let cases = [
        (1, [9, 2, 3], [2, 3]),
        (2, [1, 9, 3], [1, 3]),
        (3, [1, 2, 9], [1, 2]),
    ];
    // Over the places themselves at which the ring can begin.
    for offset in 0..=ROOM {
        for (at, (item, replaced, left)) in cases.iter().enumerate() {
            let mut space = [BEYOND; 5];
            let mut q = Queue::new(&mut space);
            fill(&rt, &mut q, offset);
            assert_eq!(rt; q.replace(at, 9), Ok(*item));
            holds(&rt, &mut q, replaced);
            fill(&rt, &mut q, offset);
            assert_eq!(rt; q.remove(at), Some(*item));
            holds(&rt, &mut q, left);
            assert_eq!(rt; [space[3], space[4]], [BEYOND, BEYOND]);
        }
    }
}

#[test]
fn answers_where_there_is_nothing(rt: HostRuntime) {
    let mut space = [BEYOND; 5];
    let mut q = Queue::new(&mut space);
    assert_eq!(rt; q.room(), 5);
    assert_eq!(rt; q.set_room(6), Err(6));
    fill(&rt, &mut q, 2);
    assert_eq!(rt; q.set_room(2), Err(2));
    assert_eq!(rt; q.room(), ROOM);
    assert_eq!(rt; q.replace(ROOM, 9), Err(9));
    assert_eq!(rt; q.remove(ROOM), None);
    holds(&rt, &mut q, &[1, 2, 3]);
}

// Fills an empty queue with 1, 2 and 3, after as many items as `offset` came and went.
fn fill(rt: &impl Abort, q: &mut Queue<'_, u32>, offset: usize) {
    assert_eq!(rt; q.set_room(ROOM), Ok(()));
    // As many times as the ring is to move on.
    for _ in 0..offset {
        assert_eq!(rt; q.push_back(0), Ok(()));
        assert_eq!(rt; q.pop_front(), Some(0));
    }
    // Over the items themselves.
    for item in 1..4 {
        assert_eq!(rt; q.push_back(item), Ok(()));
    }
}

// Goes through all items and takes them out: they are to be these.
fn holds(rt: &impl Abort, q: &mut Queue<'_, u32>, items: &[u32]) {
    assert_eq!(rt; q.iter().count(), items.len());
    for (held, item) in q.iter().zip(items) {
        assert_eq!(rt; held, *item);
    }
    for item in items {
        assert_eq!(rt; q.pop_front(), Some(*item));
    }
    assert!(rt; q.is_empty());
}
