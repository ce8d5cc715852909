// Which clusters are a file's and live, and which are the host's.

#![tactic(auto)]

ghost use Rattle.std.specs.Prelude.{◌≡◌, ◌<◌, map, length};
ghost use Rattle.file_table.specs.Files.{id_of, start_of, size_of};
ghost use Rattle.clusters.specs.Clusters.{is_live, host_cluster};

use file_table::VF;
use file_table::owner::Files;
use state::pairs::pair_idx;
use state::w::{NPAIR, Pair};
use vdisk::ids::FREED;
use vdisk::owner::Own;

// Is cluster `c` of file `j` live: not marked freed, and without a pair.
pub fn ours_live(files: &[VF], pair: &[Pair; NPAIR], j: usize, c: u32) -> bool
    requires { j < length files.now }
    ensures { result ≡ is_live (map id_of files.now) pair.now j c }
{
    if bits::test_u16(files[j].id, FREED) {
        return false;
    }
    pair_idx(pair, c).is_none()
}

// May the host own cluster `c`: free, or freed or taken by it.
pub fn host_cluster(files: &Files, pair: &[Pair; NPAIR], c: u32) -> bool
    ensures { result ≡ host_cluster (map id_of files.now.rows.now) (map start_of files.now.rows.now) (map size_of files.now.rows.now) files.now.first pair.now c }
{
    match files.owner(c) {
        Own::Reserved => false,
        Own::Fixed => false,
        Own::Dyn(j) => !ours_live(files.rows, pair, j, c),
        Own::Free => true,
    }
}
