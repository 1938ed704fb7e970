// What a listing says of refusals and odd values.
use crate::samples::LARGEST;
use daylog::read::read;
use listing::{call_line, making_line, refused_line, total_line};
use std::test::Fail;
use vocabulary::fields::MakingFields;

#[test]
fn odd_values_are_numbers(rt: HostRuntime) -> Result<(), Fail> {
    let heap = rt.alloc();
    let odd = MakingFields {
        track: 2,
        line: 255,
        running_time: 0,
        tray: 0,
    };
    assert_eq!(rt;
        making_line(heap, &odd)?.as_str(),
        "making track 2 line 255 running-time 0 tray 0"
    );
    let line = "23 255 station 255 minute 4294967295 number 4294967295 nature 255 pass 255";
    assert_eq!(rt; call_line(heap, 23, &LARGEST)?.as_str(), line);
    assert_eq!(rt;
        total_line(heap, 0, false)?.as_str(),
        "calls 0 written-again other"
    );
    Ok(())
}

#[test]
fn a_refusal_is_one_line(rt: HostRuntime) -> Result<(), Fail> {
    match read(&[1]) {
        Ok(_) => Err(Fail::new("a log of one byte was read")),
        Err(fault) => {
            assert_eq!(rt; refused_line(rt.alloc(), &fault)?.as_str(), "refused 2 1");
            Ok(())
        },
    }
}
