// Slips spent, ended and handed back, on a one-way track with a telephone.
use crate::holders::{MINUTE, cancel, depart, depart_cancelled, depart_elsewhere, depart_too_soon};
use cabinets::paper::NO_PAPER;
use line::telephone::Telephone;
use queue::Queue;
use section::Section;
use section::plan::Plan;
use std::test::Fail;
use vocabulary::fault::{CallFault, Fault};
use vocabulary::number::Serial;
use vocabulary::station::Station;

const ONE_WAY: Plan = Plan {
    track: 1,
    running_time: 10,
    tray: 2,
};

#[test]
fn departs_and_arrives(rt: HostRuntime) -> Result<(), Fail> {
    let mut space = [NO_PAPER; 2];
    let mut tray = Queue::new(&mut space);
    let mut line = Telephone::new();
    let mut section = Section::new(&ONE_WAY, &mut tray, &mut line)?;
    assert_eq!(rt; depart(&mut section, &mut tray), Ok(Serial(1)));
    assert_eq!(rt; section.arrive(&mut tray, Station::B, 15, Serial(1)), Ok(1));
    assert!(rt; tray.is_empty());
    Ok(())
}

#[test]
fn cancels(rt: HostRuntime) -> Result<(), Fail> {
    let mut space = [NO_PAPER; 2];
    let mut tray = Queue::new(&mut space);
    let mut line = Telephone::new();
    let mut section = Section::new(&ONE_WAY, &mut tray, &mut line)?;
    assert_eq!(rt; cancel(&mut section, &mut tray), Ok(Serial(1)));
    assert!(rt; tray.is_empty());
    assert_eq!(rt;
        cancel(&mut section, &mut tray),
        Ok(Serial(2)),
        "a cancelled serial is not used again"
    );
    Ok(())
}

#[test]
fn comes_back_before_the_clock(rt: HostRuntime) -> Result<(), Fail> {
    let mut space = [NO_PAPER; 2];
    let mut tray = Queue::new(&mut space);
    let mut line = Telephone::new();
    let mut section = Section::new(&ONE_WAY, &mut tray, &mut line)?;
    let refused = Fault::Call(CallFault::Clock, 0);
    assert_eq!(rt;
        depart_too_soon(&mut section, &mut tray),
        Ok((Some(refused), Serial(1)))
    );
    assert_eq!(rt; section.cabinet(Station::A).last_departure, Some(MINUTE));
    Ok(())
}

#[test]
fn ends_when_its_paper_was_cancelled(rt: HostRuntime) -> Result<(), Fail> {
    let mut space = [NO_PAPER; 2];
    let mut tray = Queue::new(&mut space);
    let mut line = Telephone::new();
    let mut section = Section::new(&ONE_WAY, &mut tray, &mut line)?;
    let refused = Fault::Call(CallFault::NothingThere, 0);
    assert_eq!(rt; refused.number(), 17);
    assert_eq!(rt; depart_cancelled(&mut section, &mut tray), Err(refused));
    assert_eq!(rt; section.cabinet(Station::A).last_departure, None);
    Ok(())
}

#[test]
fn comes_back_from_another_section(rt: HostRuntime) -> Result<(), Fail> {
    let mut space = [NO_PAPER; 2];
    let mut tray = Queue::new(&mut space);
    let mut line = Telephone::new();
    let mut section = Section::new(&ONE_WAY, &mut tray, &mut line)?;
    let mut other_space = [NO_PAPER; 2];
    let mut other_tray = Queue::new(&mut other_space);
    let mut other_line = Telephone::new();
    let mut other = Section::new(&ONE_WAY, &mut other_tray, &mut other_line)?;
    let refused = Fault::Call(CallFault::NothingThere, 0);
    let answer = depart_elsewhere(&mut section, &mut tray, &mut other, &mut other_tray);
    assert_eq!(rt; answer, Ok((Some(refused), Serial(1))));
    assert_eq!(rt;
        other.cabinet(Station::A).clock,
        0,
        "the other section is as it was"
    );
    Ok(())
}
