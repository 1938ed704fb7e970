// Making a section.
ghost use Rattle.std.specs.Prelude.{◌≡◌, ◌≤◌, false, [], length, is_ok, IfOk, OnOk, None, Ok};
ghost use Rattle.std.specs.Result.{result_err};
ghost use Rattle.queue.specs.Model.{items, places, room_of};
ghost use Rattle.cabinets.specs.Making.{making, making_tests, some_wait};
ghost use Rattle.cabinets.specs.Refusals.{refusal};
ghost use Rattle.law.specs.Runs.{Run};
ghost use Rattle.section.specs.Made.{opened, outward_making, planned};
ghost use Rattle.section.specs.State.{state};

use super::Section;
use crate::plan::{LARGEST_TRAY, Plan};
use cabinets::cabinet::Cabinet;
use cabinets::paper::Paper;
use cabinets::track::Track;
use line::line::Line;
use line::per_station::PerStation;
use queue::Queue;
use vocabulary::fault::{Fault, MakingFault};
use vocabulary::kind::TrackKind;
use vocabulary::station::Station;

// The bounds of a running time, in minutes.
const LONGEST_RUN: u32 = 240;

impl<'l, L: Line> Section<'l, L> {
    // Whether a section can be made as planned, with a tray and over a line. It alters nothing.
    pub fn check_making(plan: &Plan, tray: &Queue<'_, Paper>, line: &L) -> Result<(), MakingFault>
        ensures value { result_err result ≡ refusal (making_tests (planned plan.now (length (places tray.now)) (L.Line.meaning line.now))) }
        ensures fits { OnOk result (plan.now.tray ≤ length (places tray.now)) }
    {
        if TrackKind::try_from(plan.track).is_err() {
            return Err(MakingFault::TrackKind);
        }
        if plan.running_time < 1 || plan.running_time > LONGEST_RUN {
            return Err(MakingFault::RunningTime);
        }
        if plan.tray < 1 || plan.tray > LARGEST_TRAY || tray.space() < plan.tray {
            return Err(MakingFault::Space);
        }
        if waits(line) {
            return Err(MakingFault::MessageWaiting);
        }
        Ok(())
    }

    // Makes a section as planned. The tray is emptied and gets just the size planned. A refusal leaves the tray as it was, and the line too: `check_making` finds it before anything is altered.
    #[tactic(auto, using(crate::proofs::Makings::made_run))]
    pub fn new(
        plan: &Plan,
        tray: &mut Queue<'_, Paper>,
        line: &'l mut L,
    ) -> Result<Section<'l, L>, Fault>
        ensures answer { opened L.Line result tray.new ≡ outward_making (making (planned plan.now (length (places tray.old)) (L.Line.meaning line.old))) }
        ensures run { IfOk result (λ s. Run [] (state L.Line s tray.new)) }
        ensures lent { IfOk result (λ s. s.line.ghost_name ≡ line.entry.ghost_name) }
        ensures line { IfOk result (λ s. s.line.now ≡ line.old) }
        ensures refused { is_ok result ≡ false → tray.new ≡ tray.old }
        ensures places { places tray.new ≡ places tray.old }
        ensures space { tray.new.space.ghost_name ≡ tray.old.space.ghost_name }
    {
        Section::check_making(plan, tray, line)?;
        Ok(Section::open(plan, tray, line))
    }

    // Makes a section where nothing bars it.
    pub(crate) fn open(plan: &Plan, tray: &mut Queue<'_, Paper>, line: &'l mut L) -> Section<'l, L>
        requires { (None ≡ refusal (making_tests (planned plan.now (length (places tray.old)) (L.Line.meaning line.old)))) × (plan.now.tray ≤ length (places tray.old)) }
        ensures made { making (planned plan.now (length (places tray.old)) (L.Line.meaning line.old)) ≡ Ok (state L.Line result tray.new) }
        ensures lent { result.line.ghost_name ≡ line.entry.ghost_name }
        ensures line { result.line.now ≡ line.old }
        ensures places { places tray.new ≡ places tray.old }
        ensures space { tray.new.space.ghost_name ≡ tray.old.space.ghost_name }
    {
        make_ready(tray, plan.tray);
        Section {
            track: Track {
                kind: plan.track_kind(),
                running_time: plan.running_time,
            },
            size: plan.tray,
            cabinets: PerStation {
                a: Cabinet::default(),
                b: Cabinet::default(),
            },
            line,
        }
    }
}

// Whether a message waits on a line.
fn waits<L: Line>(line: &L) -> bool
    ensures { result ≡ some_wait (L.Line.meaning line.now) }
{
    line.waiting(Station::A) > 0 || line.waiting(Station::B) > 0
}

// Empties a tray and gives it a size.
fn make_ready(tray: &mut Queue<'_, Paper>, size: usize)
    requires { size ≤ length (places tray.old) }
    ensures papers { items tray.new ≡ [] }
    ensures room { room_of tray.new ≡ size }
    ensures places { places tray.new ≡ places tray.old }
    ensures space { tray.new.space.ghost_name ≡ tray.old.space.ghost_name }
{
    tray.clear();
    let _ = tray.set_room(size);
}
