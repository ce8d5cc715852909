// Which values the entries of FAT[1] and of host clusters may have.
ghost use Rattle.std.specs.Prelude.{◌≡◌};
ghost use Rattle.fat_sectors.specs.Values.{fat1_passes, host_value};

use vdisk::drive::CLUSTERS;

// FAT[1] passes where its low 14 bits are all ones.
pub fn fat1_passes(v: u16) -> bool
    ensures { result ≡ fat1_passes v }
{
    v % 0x4000 == 0x3FFF
}

// 0, 2 to 65,001, and 0xFFF8 up.
pub fn host_value(v: u16) -> bool
    ensures { result ≡ host_value v }
{
    if v == 0 {
        return true;
    }
    if v < 2 {
        return false;
    }
    if (v as u32) < CLUSTERS + 2 {
        return true;
    }
    0xFFF8 <= v
}
