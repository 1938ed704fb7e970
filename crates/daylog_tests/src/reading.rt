// What is refused and where, and what is read.
use crate::samples::{fault, fault_of, log};
use daylog::call::{call_at, call_count, calls_in, making_fields};
use daylog::read::{Body, body_at, calls_place, read};
use std::test::Fail;
use vocabulary::fault::{Fault, LogFault};

#[test]
fn the_start(rt: HostRuntime) -> Result<(), Fail> {
    let heap = rt.alloc();
    assert_eq!(rt; fault(&[]), Some((1, 0)), "empty");
    assert_eq!(rt; fault(&[0]), Some((1, 0)), "no entry");
    assert_eq!(rt; fault(&[1]), Some((2, 1)), "one entry that is not there");
    assert_eq!(rt; fault(&[32]), Some((2, 1)), "the most entries, cut off");
    assert_eq!(rt; fault(&[33]), Some((1, 0)), "an entry too many");
    assert_eq!(rt; fault(&[255; 300]), Some((1, 0)), "every byte 255");
    let longest = log(heap, &[(1, 4), (2, 65_520), (2, 0)], 65_524)?;
    assert_eq!(rt; fault(longest.as_slice()), None, "the longest sound log");
    let limit = log(heap, &[(1, 4), (2, 65_520)], 65_529)?;
    assert_eq!(rt; limit.len(), 65_536);
    assert_eq!(rt;
        fault(limit.as_slice()),
        Some((5, 65_536)),
        "as long as a log may be, with a body too short"
    );
    let over = log(heap, &[(1, 4), (2, 65_520)], 65_530)?;
    assert_eq!(rt; over.len(), 65_537);
    assert_eq!(rt; fault(over.as_slice()), Some((1, 0)), "a byte too long");
    Ok(())
}

#[test]
fn contents_cut_off_anywhere(rt: HostRuntime) -> Result<(), Fail> {
    let most = [
        (1, 4),
        (2, 12),
        (2, 0),
        (2, 24),
        (2, 12),
        (2, 0),
        (2, 0),
        (2, 0),
    ];
    let whole = log(rt.alloc(), &most, 52)?;
    let whole = whole.as_slice();
    assert_eq!(rt; fault(whole), None);
    assert!(rt; whole.len() == 77);
    // Over the lengths themselves at which the log is cut.
    for end in 1..25 {
        assert_eq!(rt; fault(&whole[..end]), Some((2, end)));
    }
    for end in 25..77 {
        assert_eq!(rt; fault(&whole[..end]), Some((5, end)));
    }
    Ok(())
}

#[test]
fn kinds_and_lengths(rt: HostRuntime) -> Result<(), Fail> {
    let heap = rt.alloc();
    // the entries, the bytes behind them, and the fault's number and place
    assert_eq!(rt; fault_of(heap, &[(2, 4)], 4)?, Some((3, 1)), "calls first");
    assert_eq!(rt; fault_of(heap, &[(0, 4)], 4)?, Some((3, 1)));
    assert_eq!(rt;
        fault_of(heap, &[(1, 4), (1, 4)], 8)?,
        Some((3, 4)),
        "a second making"
    );
    assert_eq!(rt; fault_of(heap, &[(1, 4), (3, 12)], 16)?, Some((3, 4)));
    assert_eq!(rt; fault_of(heap, &[(1, 3)], 3)?, Some((4, 1)));
    assert_eq!(rt; fault_of(heap, &[(1, 4)], 4)?, None);
    assert_eq!(rt; fault_of(heap, &[(1, 5)], 5)?, Some((4, 1)));
    assert_eq!(rt;
        fault_of(heap, &[(1, 260)], 260)?,
        Some((4, 1)),
        "the high byte counts"
    );
    assert_eq!(rt; fault_of(heap, &[(1, 4), (2, 11)], 15)?, Some((4, 4)));
    assert_eq!(rt; fault_of(heap, &[(1, 4), (2, 12)], 16)?, None);
    assert_eq!(rt; fault_of(heap, &[(1, 4), (2, 13)], 17)?, Some((4, 4)));
    Ok(())
}

#[test]
fn the_first_fault_is_given(rt: HostRuntime) -> Result<(), Fail> {
    let heap = rt.alloc();
    assert_eq!(rt;
        fault_of(heap, &[(2, 5)], 0)?,
        Some((3, 1)),
        "the kind before the length"
    );
    assert_eq!(rt;
        fault_of(heap, &[(1, 5), (1, 12)], 0)?,
        Some((4, 1)),
        "the first entry before the second"
    );
    assert_eq!(rt;
        fault_of(heap, &[(1, 4), (2, 11), (1, 4)], 0)?,
        Some((4, 4))
    );
    assert_eq!(rt;
        fault_of(heap, &[(1, 4), (2, 12), (1, 4)], 0)?,
        Some((3, 7)),
        "any entry before the whole length"
    );
    assert_eq!(rt;
        fault_of(heap, &[(1, 4), (2, 12)], 15)?,
        Some((5, 22)),
        "a byte too short"
    );
    assert_eq!(rt;
        fault_of(heap, &[(1, 4), (2, 12)], 17)?,
        Some((5, 24)),
        "a byte too long"
    );
    Ok(())
}

#[test]
fn calls_of_several_bodies(rt: HostRuntime) -> Result<(), Fail> {
    let mut made = log(rt.alloc(), &[(1, 4), (2, 12), (2, 0), (2, 24)], 40)?;
    let bytes = made.as_mut_slice();
    assert!(rt; bytes.len() == 53);
    bytes[13] = 7;
    bytes[17] = 1;
    bytes[29] = 2;
    bytes[41] = 3;
    bytes[52] = 4;
    let (making, calls) = read(bytes)?;
    assert_eq!(rt; making_fields(making).ok_or("no making")?.track, 7);
    assert_eq!(rt; calls_place(bytes)?, 17);
    assert_eq!(rt; call_count(calls), 3);
    assert!(rt; calls_in(calls).map(|call| call.call).eq([1, 2, 3]));
    assert_eq!(rt; call_at(calls, 0).ok_or("no first call")?.call, 1);
    assert_eq!(rt; call_at(calls, 1).ok_or("no second call")?.call, 2);
    assert_eq!(rt; call_at(calls, 2).ok_or("no third call")?.pass, 4);
    assert_eq!(rt; call_at(calls, 3), None);
    assert_eq!(rt; call_at(calls, usize::MAX), None);
    Ok(())
}

#[test]
fn bodies_one_by_one(rt: HostRuntime) -> Result<(), Fail> {
    let made = log(rt.alloc(), &[(1, 4), (2, 12), (2, 24)], 40)?;
    let bytes = made.as_slice();
    assert_eq!(rt; body_length(bytes, 0), Ok(Some((1, 4))));
    assert_eq!(rt; body_length(bytes, 1), Ok(Some((2, 12))));
    assert_eq!(rt; body_length(bytes, 2), Ok(Some((2, 24))));
    assert_eq!(rt; body_length(bytes, 3), Ok(None));
    assert_eq!(rt; body_length(&[0], 0), Err(Fault::Log(LogFault::Start, 0)));
    Ok(())
}

#[test]
fn parts_that_are_no_whole_bodies(rt: HostRuntime) {
    assert_eq!(rt; making_fields(&[1, 2, 3]), None);
    assert_eq!(rt; making_fields(&[1, 2, 3, 4, 5]), None);
    assert_eq!(rt; call_count(&[0; 23]), 1);
    assert_eq!(rt; call_at(&[0; 23], 1), None);
    assert_eq!(rt; call_at(&[0; 11], 0), None);
    assert_eq!(rt; calls_in(&[0; 23]).count(), 1);
    assert_eq!(rt; calls_in(&[0; 11]).next(), None);
}

// The kind and the length of a body, where the log has it.
fn body_length(log: &[u8], index: usize) -> Result<Option<(u8, usize)>, Fault> {
    let body = body_at(log, index)?;
    Ok(body.map(|body| match body {
        Body::Making(part) => (1, part.len()),
        Body::Calls(part) => (2, part.len()),
    }))
}
