// Making a slip, and reading it.
ghost use Rattle.std.specs.Prelude.{◌≡◌};
ghost use Rattle.slips.specs.Slips.{Issues};

use super::Slip;
use cabinets::paper::Paper;
use line::line::Line;
use queue::Queue;
use section::Section;
use vocabulary::fault::Fault;
use vocabulary::kind::Nature;
use vocabulary::number::Serial;
use vocabulary::station::Station;

impl Slip {
    // Issues a paper, and makes its slip.
    pub fn issue<L: Line>(
        section: &mut Section<'_, L>,
        tray: &mut Queue<'_, Paper>,
        at: Station,
        minute: u32,
        train: u32,
        nature: Nature,
        pass: bool,
    ) -> Result<Slip, Fault>
        ensures { Issues L.Line at minute train nature pass result section.old section.new tray.old tray.new }
    {
        let number = section.issue(tray, at, minute, train, nature, pass)?;
        Ok(Slip {
            station: at,
            serial: Serial(number),
        })
    }

    // The station that issued the paper.
    pub fn station(&self) -> Station
        ensures { result ≡ self.now.station }
    {
        self.station
    }

    // The paper's serial.
    pub fn serial(&self) -> Serial
        ensures { result ≡ self.now.serial }
    {
        self.serial
    }
}
