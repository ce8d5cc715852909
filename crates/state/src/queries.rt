// What the mixer asks of the state.
ghost use Rattle.std.specs.Prelude.{◌≡◌};
ghost use Rattle.state.specs.Queries.{boot_of, fat1_of, frozen_of};

use crate::w::W;

// A host that never locks the medium: the session ends this long after its last write.
pub const QUIET_MS: u64 = 60000;

pub fn boot_state(w: &W) -> u8
    ensures { result ≡ boot_of w.now }
{
    w.boot
}

// FAT[1] as the host wrote it, 65535 if it didn't.
pub fn fat1(w: &W) -> u16
    ensures { result ≡ fat1_of w.now }
{
    let f = w.fat1;
    if bits::test_u64(f as u64, 16) {
        return (f % 65536) as u16;
    }
    65535
}

// The layout must not change under the host.
pub fn frozen(w: &W, mounted: bool) -> bool
    ensures { result ≡ frozen_of w.now mounted }
{
    if !w.rw {
        return false;
    }
    if mounted {
        return true;
    }
    if w.end_at != 0 {
        return true;
    }
    if w.locks {
        return false;
    }
    if w.session {
        return true;
    }
    if w.last == 0 {
        return false;
    }
    w.now_ms.saturating_sub(w.last) < QUIET_MS
}
