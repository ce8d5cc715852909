// A written sector of a cluster: a directory's, staged in a host cluster, or refused.
ghost use Rattle.std.specs.Prelude.{◌≡◌, ◌<◌, ◌≤◌, false, None, map, length};
ghost use Rattle.loops.specs.Loops.{pick};
ghost use Rattle.vdisk.specs.Drive.{dir_kind_of};
ghost use Rattle.vdisk.specs.Owner.{owner_of};
ghost use Rattle.file_table.specs.Files.{id_of, start_of, size_of};
ghost use Rattle.file_table.specs.Table.{max_files};
ghost use Rattle.refusals.specs.Refusals.{told};
ghost use Rattle.clusters.specs.Clusters.{host_cluster};
ghost use Rattle.judge.specs.Classify.{files_write, Leaves, data_number, cluster as cluster_of};

use clusters::ours_live;
use dir_sectors::dir;
use file_table::VF;
use file_table::owner::Files;
use refusals::Refusal;
use sector::Sectors;
use stage::stage;
use state::w::{NPAIR, Pair, W};
use vdisk::drive::dir_kind;
use vdisk::owner::Own;

// Data of a host cluster passes; of the drive's own clusters it is 5, of a live file 13.
fn host_data(files: &[VF], first: u32, pair: &[Pair; NPAIR], c: u32) -> Result<(), Refusal>
    ensures { told result ≡ pick (host_cluster (map id_of files.now) (map start_of files.now) (map size_of files.now) first pair.now c) 0
        (data_number (owner_of (map start_of files.now) (map size_of files.now) first c)) }
{
    match Files::by_rows(files, first).owner(c) {
        Own::Reserved => Err(Refusal::OwnCluster),
        Own::Fixed => Err(Refusal::OwnCluster),
        Own::Dyn(j) => {
            if ours_live(files, pair, j, c) {
                return Err(Refusal::LiveFile);
            }
            Ok(())
        }
        Own::Free => Ok(()),
    }
}

// A sector of a cluster that is no directory.
fn file_cluster(
    w: &mut W,
    files: &mut [VF],
    c: u32,
    s: u32,
    sectors: Sectors,
    busy: bool,
    fat: &[u16],
    area: &mut [u8],
) -> Result<bool, Refusal>
    requires { (c < 65536) × (s < 64) }
    ensures { Leaves (cluster_of (files_write 0 sectors.entry.shown.now sectors.entry.written.now busy fat.now area.old files.old) w.old c s None)
        files.old result w.new files.new area.new }
{
    match host_data(files, w.first, &w.pair, c) {
        Ok(()) => stage(w, files, c, s, sectors.written, busy, fat, area),
        Err(refusal) => {
            if !sectors.same() {
                return Err(refusal);
            }
            Ok(false)
        }
    }
}

pub(crate) fn cluster(
    w: &mut W,
    files: &mut [VF],
    c: u32,
    s: u32,
    sectors: Sectors,
    busy: bool,
    fat: &[u16],
    area: &mut [u8],
) -> Result<bool, Refusal>
    requires { (length files.old ≤ max_files) × (c < 65536) × (s < 64) }
    ensures { Leaves (cluster_of (files_write 0 sectors.entry.shown.now sectors.entry.written.now busy fat.now area.old files.old) w.old c s (dir_kind_of c))
        files.old result w.new files.new area.new }
{
    let Some(k) = dir_kind(c) else {
        return file_cluster(w, files, c, s, sectors, busy, fat, area);
    };
    if sectors.same() {
        return Ok(false);
    }
    dir(files, k, s, sectors, fat, area, &w.st)
}
