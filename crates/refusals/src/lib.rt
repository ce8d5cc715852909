// Why a call is refused. The exported calls answer a refusal by its number, and 0 where they are taken.

#![tactic(auto)]

ghost use Rattle.std.specs.Prelude.{◌≡◌};
ghost use Rattle.refusals.specs.Refusals.{number_of, told};

#[derive(Clone, Copy, Debug, PartialEq, Eq)]
pub enum Refusal {
    SectorLength,
    PastTheEnd,
    BootByte,
    ReservedEntry,
    OwnCluster,
    HostValue,
    OwnRootSlot,
    RootSlot,
    DirectorySlot,
    Table,
    BodySize,
    ReadOnly,
    LiveFile,
    NoPair,
    NoRecord,
    NoStagingSlot,
    Medium,
    NoBlock,
    Busy,
    NoChain,
    NotHanded,
}

impl Refusal {
    pub fn number(self) -> u8
        ensures { result ≡ number_of self }
    {
        match self {
            Refusal::SectorLength => 1,
            Refusal::PastTheEnd => 2,
            Refusal::BootByte => 3,
            Refusal::ReservedEntry => 4,
            Refusal::OwnCluster => 5,
            Refusal::HostValue => 6,
            Refusal::OwnRootSlot => 7,
            Refusal::RootSlot => 8,
            Refusal::DirectorySlot => 9,
            Refusal::Table => 10,
            Refusal::BodySize => 11,
            Refusal::ReadOnly => 12,
            Refusal::LiveFile => 13,
            Refusal::NoPair => 14,
            Refusal::NoRecord => 15,
            Refusal::NoStagingSlot => 16,
            Refusal::Medium => 17,
            Refusal::NoBlock => 18,
            Refusal::Busy => 19,
            Refusal::NoChain => 20,
            Refusal::NotHanded => 21,
        }
    }
}

// What an exported call answers: the refusal's number, 0 where there is none.
pub fn told<T: Drop>(r: Result<T, Refusal>) -> u8
    ensures { result ≡ told r }
{
    match r {
        Ok(_) => 0,
        Err(e) => e.number(),
    }
}
