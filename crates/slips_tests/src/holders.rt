// Holders of a slip, over any line. Each issues a paper at A, and is done with its slip in the end.
ghost use Rattle.std.specs.Prelude.{◌≡◌, false, Ok};
ghost use Rattle.slips.specs.Slips.{Ripe, comes_back};
ghost use Rattle.slips.specs.declared.Slip.{Slip};
ghost use Rattle.slips_tests.specs.Ended.{ended};

use cabinets::paper::Paper;
use line::line::Line;
use queue::Queue;
use section::Section;
use slips::{Slip, Unspent};
use vocabulary::fault::Fault;
use vocabulary::kind::Nature;
use vocabulary::number::Serial;
use vocabulary::station::Station;

// The minute of each issue.
pub(crate) const MINUTE: u32 = 5;

// Departs at the minute of the issue.
pub(crate) fn depart<L: Line>(
    section: &mut Section<'_, L>,
    tray: &mut Queue<'_, Paper>,
) -> Result<Serial, Fault> {
    let slip = issue(section, tray)?;
    let answer = slip.depart(section, tray, MINUTE);
    done(answer)
}

// Cancels at the minute of the issue.
pub(crate) fn cancel<L: Line>(
    section: &mut Section<'_, L>,
    tray: &mut Queue<'_, Paper>,
) -> Result<Serial, Fault> {
    let slip = issue(section, tray)?;
    let answer = slip.cancel(section, tray, MINUTE);
    done(answer)
}

// Departs before the clock, and then on time if the slip came back, with the fault.
pub(crate) fn depart_too_soon<L: Line>(
    section: &mut Section<'_, L>,
    tray: &mut Queue<'_, Paper>,
) -> Result<(Option<Fault>, Serial), Fault> {
    let slip = issue(section, tray)?;
    let unspent = match slip.depart(section, tray, MINUTE - 1) {
        Ok(serial) => return Ok((None, serial)),
        Err(unspent) => unspent,
    };
    match unspent {
        Unspent::Ended(fault) => Err(fault),
        Unspent::Back(back, fault) => {
            let answer = back.depart(section, tray, MINUTE);
            Ok((Some(fault), done(answer)?))
        }
    }
}

// Departs when the paper was cancelled by the plain call.
pub(crate) fn depart_cancelled<L: Line>(
    section: &mut Section<'_, L>,
    tray: &mut Queue<'_, Paper>,
) -> Result<Serial, Fault> {
    let slip = issue(section, tray)?;
    let _ = section.cancel(tray, slip.station(), MINUTE);
    let answer = slip.depart(section, tray, MINUTE);
    done(answer)
}

// Departs in another section, and then in the slip's own if it came back, with the fault.
pub(crate) fn depart_elsewhere<L: Line>(
    section: &mut Section<'_, L>,
    tray: &mut Queue<'_, Paper>,
    other: &mut Section<'_, L>,
    other_tray: &mut Queue<'_, Paper>,
) -> Result<(Option<Fault>, Serial), Fault> {
    let slip = issue(section, tray)?;
    let unspent = match slip.depart(other, other_tray, MINUTE) {
        Ok(serial) => return Ok((None, serial)),
        Err(unspent) => unspent,
    };
    match unspent {
        Unspent::Ended(fault) => Err(fault),
        Unspent::Back(back, fault) => {
            let answer = back.depart(section, tray, MINUTE);
            Ok((Some(fault), done(answer)?))
        }
    }
}

// The slip of a paper issued at A for train 41.
fn issue<L: Line>(section: &mut Section<'_, L>, tray: &mut Queue<'_, Paper>) -> Result<Slip, Fault>
    ensures ripe { (slip : Slip) → result ≡ Ok slip → Ripe L.Line slip 5 section.new tray.new }
{
    Slip::issue(
        section,
        tray,
        Station::A,
        MINUTE,
        41,
        Nature::Ordinary,
        false,
    )
}

// The answer to a slip that did not come back: its serial, or why it ended.
fn done(answer: Result<Serial, Unspent>) -> Result<Serial, Fault>
    requires { comes_back answer ≡ false }
    ensures { result ≡ ended answer }
{
    match answer {
        Ok(serial) => Ok(serial),
        Err(Unspent::Ended(fault)) => Err(fault),
        Err(Unspent::Back(_slip, _fault)) => unreachable!(),
    }
}
