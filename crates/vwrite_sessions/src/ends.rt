// The calls that may end the session.
ghost use Rattle.std.specs.Prelude.{◌≡◌};
ghost use Rattle.release.specs.Release.{answered};
ghost use Rattle.vwrite_sessions.specs.Calls.{end_with, Polls, Releases, ReleasesAll, ResetsBus};

use file_table::VF;
use refusals::Refusal;
use release::{Ended, release, release_all};
use sessions::mode::on_bus_reset;
use sessions::poll::poll;
use state::w::W;

// What is written beside the number: 0 where no release was due, 1 where one ran to its end, 2 where it was put off; whether there was anything
// to release. A small struct that is handed back passes differently on 32-bit machines.
#[repr(C)]
#[derive(Clone, Copy)]
pub struct End {
    pub ended: u8,
    pub had: bool,
}

fn tell(r: Result<Ended, Refusal>, end: &mut End) -> u8
    ensures { end_with result end.new ≡ answered r }
{
    match r {
        Ok(e) => {
            end.ended = e.number();
            end.had = e.had();
            0
        }
        Err(e) => {
            end.ended = 0;
            end.had = false;
            e.number()
        }
    }
}

// A tick of the clock, which ends the session where its end is due or it is quiet.
#[unsafe(no_mangle)]
pub extern "C" fn vwrite_poll(
    w: &mut W,
    files: &mut [VF],
    clock: u64,
    mounted: bool,
    fat: &[u16],
    area: &[u8],
    end: &mut End,
) -> u8
    ensures { Polls clock mounted fat.now area.now w.old files.old result end.new w.new files.new }
{
    tell(poll(w, files, fat, area, clock, mounted), end)
}

// The session is released, or its end is put off.
#[unsafe(no_mangle)]
pub extern "C" fn vwrite_release(
    w: &mut W,
    files: &mut [VF],
    fat: &[u16],
    area: &[u8],
    end: &mut End,
) -> u8
    ensures { Releases fat.now area.now w.old files.old result end.new w.new files.new }
{
    tell(release(w, files, fat, area), end)
}

// The session is released; locks go only on a reset.
#[unsafe(no_mangle)]
pub extern "C" fn vwrite_release_all(
    w: &mut W,
    files: &mut [VF],
    reset: bool,
    fat: &[u16],
    area: &[u8],
    end: &mut End,
) -> u8
    ensures { ReleasesAll reset fat.now area.now w.old files.old result end.new w.new files.new }
{
    tell(release_all(w, files, fat, area, reset), end)
}

// A bus reset: the session is released, and the mode that was asked for is in force.
#[unsafe(no_mangle)]
pub extern "C" fn vdisk_on_bus_reset(
    w: &mut W,
    files: &mut [VF],
    fat: &[u16],
    area: &[u8],
    end: &mut End,
) -> u8
    ensures { ResetsBus fat.now area.now w.old files.old result end.new w.new files.new }
{
    tell(on_bus_reset(w, files, fat, area), end)
}
