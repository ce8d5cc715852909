// The drive's figures, and the place of a sector taken apart.
ghost use Rattle.std.specs.Prelude.{◌≡◌};
ghost use Rattle.vdisk.specs.Drive.{place_of, dir_kind_of, clusters_of};

// Bytes of a sector, sectors of a cluster, bytes of a cluster.
pub const BS: usize = 512;

pub const SPC: u32 = 64;

pub const CB: u32 = 32768;

pub const CLUSTERS: u32 = 65000;
// Sectors of one copy of the FAT, and where the first copy, the root and the data start.
pub const FAT_SECS: u32 = 254;

pub const FAT_START: u32 = 1;

pub const ROOT_START: u32 = 509;

pub const DATA_START: u32 = 541;
// Sectors in all.
pub const TOTAL: u32 = 4160541;

// Where a sector lies: a sector of the FAT, of the root, of a cluster, or past the drive's end.
#[derive(Clone, Copy)]
pub enum Place {
    Boot,
    Fat(u32),
    Root(u32),
    Data(u32, u32),
    Outside,
}

// Both copies of the FAT are judged alike, so a FAT sector is told by its number in either.
pub fn place_of(lba: u32) -> Place
    ensures { result ≡ place_of lba }
{
    if lba < FAT_START {
        return Place::Boot;
    }
    if lba < ROOT_START {
        return Place::Fat((lba - FAT_START) % FAT_SECS);
    }
    if lba < DATA_START {
        return Place::Root(lba - ROOT_START);
    }
    if TOTAL <= lba {
        return Place::Outside;
    }
    Place::Data((lba - DATA_START) / SPC + 2, (lba - DATA_START) % SPC)
}

// The generated directory that a cluster is, by file kind; 3 for INFO and DEBUG.
pub fn dir_kind(c: u32) -> Option<u16>
    ensures { result ≡ dir_kind_of c }
{
    if c == 2 {
        return Some(3);
    }
    if c == 3 {
        return Some(3);
    }
    if c == 4 {
        return Some(0);
    }
    if c == 5 {
        return Some(1);
    }
    if c == 6 {
        return Some(2);
    }
    None
}

// Clusters of a file of so many bytes.
pub fn nclus(size: u32) -> u32
    ensures { result ≡ clusters_of size }
{
    let whole = size / CB;
    if size % CB == 0 {
        return whole;
    }
    whole + 1
}
