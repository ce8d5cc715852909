// The session's state, as vwrite.rs keeps it, with the first session cluster.
ghost use Rattle.std.specs.Prelude.{◌≡◌};
ghost use Rattle.state.specs.State.{st0, initial};

use records::places::Place;
use records::{NREC, Rec};

// Host FAT entries, and staged clusters, at most.
pub const NPAIR: usize = 40;

pub const NST: usize = 28;
// Blocks of a cluster, and sectors of a block.
pub const BPC: usize = 8;

pub const SPB: u32 = 8;

// The host's FAT entry of a cluster; cluster 0 where the place is not in use.
#[repr(C)]
#[derive(Clone, Copy)]
pub struct Pair {
    pub c: u16,
    pub v: u16,
}

impl Place for Pair {
    ghost key = { λ p. p.c };

    fn key(&self) -> u16 {
        self.c
    }
}

// A staged cluster, 0 where the slot is not in use: linked into the update file, the parked blocks (by bit), the sectors written (by bit), and
// the medium's block of each eighth of it, 0 where none is held.
#[repr(C)]
#[derive(Clone, Copy)]
pub struct St {
    pub c: u16,
    pub sealed: bool,
    pub ro: u8,
    pub map: u64,
    pub blk: [u16; BPC],
}

impl St {
    // A slot that is not in use.
    pub fn unused() -> St
        ensures { result ≡ st0 }
    {
        St {
            c: 0,
            sealed: false,
            ro: 0,
            map: 0,
            blk: [0u16; BPC],
        }
    }
}

impl Place for St {
    ghost key = { λ s. s.c };

    fn key(&self) -> u16 {
        self.c
    }
}

// The last update file decided: root slot, start, size, and the version of what was staged.
#[repr(C)]
#[derive(Clone, Copy)]
pub struct Done {
    pub slot: u16,
    pub start: u16,
    pub size: u32,
    pub ver: u32,
}

#[repr(C)]
#[derive(Clone, Copy)]
pub struct Stats {
    pub ok: u32,
    pub refused: u32,
    pub busy: u32,
    pub last_refused: u32,
    pub deleted: u16,
    pub fw_ok: u16,
    pub fw_bad: u16,
}

#[repr(C)]
#[derive(Clone, Copy)]
pub struct W {
    // Writing is on, and is asked for at the next bus reset.
    pub rw: bool,
    pub want_rw: bool,
    pub boot: u8,
    // FAT[1] as written; bit 16 says that it was.
    pub fat1: u32,
    pub rec: [Rec; NREC],
    pub pair: [Pair; NPAIR],
    pub st: [St; NST],
    // The host changed something since the last release; it has locked the medium since the last bus reset.
    pub session: bool,
    pub locks: bool,
    // The time of the last taken write, 0 for none, and the clock.
    pub last: u64,
    pub now_ms: u64,
    // Staged data is not linked yet, since when, and where the search for a free block goes on.
    pub staging: bool,
    pub stage_t: u64,
    pub hint: u32,
    pub err: u8,
    // The update file's state by its number.
    pub fw: u8,
    pub done: Done,
    pub ver: u32,
    // When the host ended the session while an update file was undecided, 0 for no end pending.
    pub end_at: u64,
    pub parks: u8,
    pub purged: bool,
    pub purge: bool,
    pub n: Stats,
    // The first session cluster.
    pub first: u32,
}

// The state as it first stands, with the first session cluster.
pub fn initial_state(first: u32) -> W
    ensures { result ≡ initial first }
{
    let rec0 = Rec {
        slot: 0,
        e: [0u8; 32],
    };
    let pair0 = Pair { c: 0, v: 0 };
    let st0 = St::unused();
    let done = Done {
        slot: 0,
        start: 0,
        size: 0,
        ver: 0,
    };
    let n = Stats {
        ok: 0,
        refused: 0,
        busy: 0,
        last_refused: 0,
        deleted: 0,
        fw_ok: 0,
        fw_bad: 0,
    };
    let rec = [rec0; NREC];
    let pair = [pair0; NPAIR];
    let st = [st0; NST];
    W {
        rw: false,
        want_rw: false,
        boot: 0,
        fat1: 0,
        rec: rec,
        pair: pair,
        st: st,
        session: false,
        locks: false,
        last: 0,
        now_ms: 0,
        staging: false,
        stage_t: 0,
        hint: 0,
        err: 0,
        fw: 0,
        done: done,
        ver: 0,
        end_at: 0,
        parks: 0,
        purged: false,
        purge: false,
        n: n,
        first: first,
    }
}
