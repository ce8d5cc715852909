// The parts of a file's id: number, kind and the four marks.
ghost use Rattle.std.specs.Prelude.{◌≡◌, ℕ, ◌<◌};
ghost use Rattle.vdisk.specs.Ids.{number_of, kind_of, dir_of, id_dir_of, cleared, unmarked, handed};

// The marks by their bits, for `bits::test_u16` and `bits::set_u16`.
pub const TURNED: u32 = 12;

pub const FREED: u32 = 13;

pub const GONE: u32 = 14;

pub const MOVED: u32 = 15;

pub fn number(id: u16) -> u16
    ensures { result ≡ number_of id }
{
    id % 1024
}

pub fn kind(id: u16) -> u16
    ensures { result ≡ kind_of id }
{
    id / 1024 % 4
}

// The directory that shows files of kind `k`.
pub fn dir(k: u16) -> u16
    ensures { result ≡ dir_of k }
{
    if k == 3 { 0 } else { k }
}

pub fn id_dir(id: u16) -> u16
    ensures { result ≡ id_dir_of id }
{
    dir(kind(id))
}

// The id with all marks cleared: kind and number.
pub fn clear_marks(id: u16) -> u16
    ensures { result ≡ cleared id }
{
    id % 4096
}

pub fn is_unmarked(id: u16) -> bool
    ensures { result ≡ unmarked id }
{
    id < 4096
}

// Handed to deletion: turned and freed, and not gone.
pub fn is_handed(id: u16) -> bool
    ensures { result ≡ handed id }
{
    if !bits::test_u16(id, TURNED) {
        return false;
    }
    if !bits::test_u16(id, FREED) {
        return false;
    }
    !bits::test_u16(id, GONE)
}
