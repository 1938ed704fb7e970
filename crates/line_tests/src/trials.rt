// Each line filled, refused, dropped, mended and heard to the end.
use crate::stutter::Stutter;
use line::line::Line;
use line::message::{Message, MessageKind};
use line::printer::Printer;
use line::telephone::Telephone;
use queue::Queue;
use std::process::Abort;
use std::test::Fail;
use vocabulary::fault::{Fault, MakingFault};
use vocabulary::number::{RecordNumber, RightNumber};
use vocabulary::station::Station;

// What a space holds before anything is posted: a release, where the day run begins with an ask, so that neither is relied on.
const NONE: Message = Message {
    kind: MessageKind::Release,
    train: 0,
    count: 0,
    record: RecordNumber(0),
    right: RightNumber(0),
    taken: 0,
};

// The ask with this count.
fn ask(count: u32) -> Message {
    Message {
        kind: MessageKind::Ask,
        train: 41,
        count,
        record: RecordNumber(0),
        right: RightNumber(7),
        taken: 0,
    }
}

// Posts asks to a station until its list is full, and one more, which is refused.
fn fill<L: Line>(rt: &impl Abort, line: &mut L, to: Station, most: u32) {
    // Over the counts that the asks have: no list has them.
    for count in 0..most {
        assert!(rt; line.post(to, ask(count)));
    }
    assert!(rt; !line.post(to, ask(99)), "the list is full");
    assert_eq!(rt; line.waiting(to), most as usize);
}

// Hears the asks that were posted to a station, in their order, and then none.
fn hear_all<L: Line>(rt: &impl Abort, line: &mut L, at: Station, most: u32) -> Result<(), Fail> {
    // Over the counts, as above.
    for count in 0..most {
        assert_eq!(rt; line.hear(at), Some(ask(count)));
    }
    assert_eq!(rt; line.hear(at), None);
    assert_eq!(rt; line.waiting(at), 0);
    Ok(())
}

// Drops a line, which then takes no message.
fn drop_it<L: Line>(rt: &impl Abort, line: &mut L) {
    line.drop_line();
    assert!(rt; !line.up());
    assert!(rt; !line.post(Station::A, ask(1)));
    assert!(rt; !line.post(Station::B, ask(1)));
}

#[test]
fn telephone(rt: HostRuntime) -> Result<(), Fail> {
    let mut line = Telephone::new();
    assert!(rt; line.up());
    fill(&rt, &mut line, Station::A, 1);
    assert_eq!(rt;
        line.waiting(Station::B),
        0,
        "a message goes to one station only"
    );
    fill(&rt, &mut line, Station::B, 1);
    hear_all(&rt, &mut line, Station::A, 1)?;
    assert_eq!(rt;
        line.waiting(Station::B),
        1,
        "hearing at one station leaves the other's list"
    );
    drop_it(&rt, &mut line);
    assert_eq!(rt; line.waiting(Station::B), 0, "a drop loses what waited");
    line.mend_line();
    assert!(rt; line.up());
    fill(&rt, &mut line, Station::B, 1);
    hear_all(&rt, &mut line, Station::B, 1)
}

#[test]
fn the_readme_example(rt: HostRuntime) {
    let message = ask(1);
    let mut line = Telephone::new();
    let posted = line.post(Station::B, message);
    line.drop_line();
    let heard = line.hear(Station::B);
    assert!(rt; posted);
    assert_eq!(rt; heard, None);
}

#[test]
fn printer(rt: HostRuntime) -> Result<(), Fail> {
    let mut space_a = [NONE; 10];
    let mut space_b = [NONE; 8];
    let mut for_a = Queue::new(&mut space_a);
    let mut for_b = Queue::new(&mut space_b);
    match Printer::new(&mut for_a, &mut for_b) {
        Ok(mut line) => print_all(&rt, &mut line),
        Err(_) => Err(Fail::new("no printer")),
    }
}

fn print_all<L: Line>(rt: &impl Abort, line: &mut L) -> Result<(), Fail> {
    assert!(rt; line.up());
    fill(rt, line, Station::A, 8);
    fill(rt, line, Station::B, 8);
    drop_it(rt, line);
    assert_eq!(rt; line.waiting(Station::A), 8, "a drop loses none");
    line.mend_line();
    assert!(rt; line.up());
    hear_all(rt, line, Station::B, 8)?;
    assert_eq!(rt; line.waiting(Station::A), 8);
    hear_all(rt, line, Station::A, 8)
}

#[test]
fn too_little_space_for_a_printer(rt: HostRuntime) {
    let mut seven = [NONE; 7];
    let mut eight = [NONE; 8];
    let mut for_a = Queue::new(&mut seven);
    let mut for_b = Queue::new(&mut eight);
    let refused = Err(Fault::Making(MakingFault::Space, 0));
    assert_eq!(rt; Printer::prepare(&mut for_a, &mut for_b), refused);
    assert_eq!(rt; Printer::prepare(&mut for_b, &mut for_a), refused);
    assert_eq!(rt; for_a.room(), 7);
    assert_eq!(rt; for_b.room(), 8);
}

#[test]
fn stutter(rt: HostRuntime) -> Result<(), Fail> {
    let mut line = Stutter::new();
    fill(&rt, &mut line, Station::A, 1);
    assert_eq!(rt; line.hear(Station::A), Some(ask(0)));
    assert_eq!(rt;
        line.waiting(Station::A),
        1,
        "every other hearing is said again"
    );
    hear_all(&rt, &mut line, Station::A, 1)?;
    fill(&rt, &mut line, Station::A, 1);
    fill(&rt, &mut line, Station::B, 1);
    drop_it(&rt, &mut line);
    assert_eq!(rt; line.waiting(Station::A), 0);
    assert_eq!(rt; line.waiting(Station::B), 1);
    line.mend_line();
    assert_eq!(rt; line.waiting(Station::B), 0);
    Ok(())
}
