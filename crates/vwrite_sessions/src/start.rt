// A start.
ghost use Rattle.vwrite_sessions.specs.Calls.{Starts};

use file_table::VF;
use refusals::told;
use sessions::start::start;
use state::w::W;

// A start takes the table only if it is acceptable (10 otherwise, and the state stays), and sets the state anew; `first` is the first session cluster.
#[unsafe(no_mangle)]
pub extern "C" fn vwrite_start(w: &mut W, files: &[VF], first: u32) -> u8
    ensures { Starts files.now first w.old result w.new }
{
    told(start(w, files, first))
}
