// The calls that only read, of the state's arrays and the table that are lent. What an exported call answers beside its number goes
// through references, since a returned struct passes differently on 32-bit machines.

#![tactic(auto)]

ghost use Rattle.std.specs.Prelude.{◌≡◌};
ghost use Rattle.records.specs.Records.{root_rec};
ghost use Rattle.vdisk.specs.Drive.{dir_kind_of};
ghost use Rattle.state.specs.Pairs.{pair_of};
ghost use Rattle.medium.specs.Reads.{staged_answer, staged_bytes, moved_ref};
ghost use Rattle.chains.specs.Chains.{complete_of};
ghost use Rattle.body.specs.Body.{body_of};
ghost use Rattle.root_slots.specs.RootSlots.{strict_of};
ghost use Rattle.state_calls.specs.Answers.{pair_answer, dir_answer, own_answer, files_owner};

use file_table::owner::Files;
use file_table::{MAX_VF, VF};
use medium::reads::moved_ref;
use records::{NREC, Rec};
use refusals::{Refusal, told};
use state::pairs::pair_of;
use state::w::{NPAIR, NST, Pair, St};
use vdisk::owner::Own;

// The owner of a cluster, 0 Reserved, 1 Fixed, 2 a file, 3 Free; and the file's row, 0 where it is no file's.
#[repr(C)]
#[derive(Clone, Copy)]
pub struct OwnRow {
    pub owner: u8,
    pub row: usize,
}

pub fn staged_read(
    st: &[St; NST],
    fat: &[u16],
    area: &[u8],
    c: u32,
    s: u32,
    out: &mut [u8],
    staged: &mut bool,
) -> u8
    ensures { (record { no = result; staged = staged.new } ≡ staged_answer st.now c s out.old)
        × (out.new ≡ staged_bytes fat.now area.now st.now c s out.old) }
{
    let a = medium::reads::staged_read(st, fat, area, c, s, out);
    *staged = a.unwrap_or(false);
    told(a)
}

pub fn pair(pairs: &[Pair; NPAIR], c: u32, v: &mut u16) -> bool
    ensures { record { found = result; v = v.new } ≡ pair_answer (pair_of pairs.now c) }
{
    let Some(x) = pair_of(pairs, c) else {
        *v = 0;
        return false;
    };
    *v = x;
    true
}

pub fn root_rec(rec: &[Rec; NREC], slot: usize, e: &mut [u8; 32]) -> bool
    ensures { record { found = result; e = e.new } ≡ root_rec rec.now slot }
{
    let a = records::root_rec(rec, slot);
    *e = a.unwrap_or([0u8; 32]);
    a.is_some()
}

pub fn complete(
    pairs: &[Pair; NPAIR],
    st: &[St; NST],
    start: u32,
    size: u32,
    slots: &mut [u8; NST],
    n: &mut usize,
) -> bool
    ensures { record { found = result; slots = slots.new; n = n.new } ≡ complete_of pairs.now st.now start size }
{
    let a = chains::complete(pairs, st, start, size);
    let walked = a.slots;
    *slots = walked;
    *n = a.n;
    a.found
}

pub fn body_check(
    pairs: &[Pair; NPAIR],
    st: &[St; NST],
    fat: &[u16],
    area: &[u8],
    start: u32,
    size: u32,
    valid: &mut bool,
) -> u8
    ensures { record { no = result; valid = valid.new } ≡ body_of fat.now area.now pairs.now st.now start size }
{
    let a = body::body(fat, area, pairs, st, start, size);
    *valid = a.unwrap_or(false);
    told(a)
}

pub fn strict_name(rec: &[Rec; NREC], sector: &[u8], slot: usize, housekeeping: &mut bool) -> u8
    ensures { record { no = result; housekeeping = housekeeping.new } ≡ strict_of rec.now sector.now slot }
{
    let a = root_slots::strict_name(rec, sector, slot);
    *housekeeping = a.unwrap_or(false);
    told(a)
}

pub fn dir_kind(c: u32, kind: &mut u16) -> bool
    ensures { record { found = result; kind = kind.new } ≡ dir_answer (dir_kind_of c) }
{
    let Some(k) = vdisk::drive::dir_kind(c) else {
        *kind = 0;
        return false;
    };
    *kind = k;
    true
}

fn own_row(o: Own) -> OwnRow
    ensures { record { no = 0; owner = result.owner; row = result.row } ≡ own_answer o }
{
    match o {
        Own::Reserved => OwnRow { owner: 0, row: 0 },
        Own::Fixed => OwnRow { owner: 1, row: 0 },
        Own::Dyn(j) => OwnRow { owner: 2, row: j },
        Own::Free => OwnRow { owner: 3, row: 0 },
    }
}

// More than 400 files are refused by 10.
pub fn owner(files: &[VF], first: u32, c: u32, own: &mut OwnRow) -> u8
    ensures { record { no = result; owner = own.new.owner; row = own.new.row } ≡ files_owner files.now first c }
{
    if MAX_VF < files.len() {
        *own = OwnRow { owner: 0, row: 0 };
        return Refusal::Table.number();
    }
    *own = own_row(Files::by_rows(files, first).owner(c));
    0
}

// Does a staged sector hold an ordinary slot with that start and size.
pub fn named(st: &[St; NST], fat: &[u16], area: &[u8], start: u16, size: u32) -> bool
    ensures { result ≡ moved_ref fat.now area.now st.now start size }
{
    moved_ref(fat, area, st, start, size)
}
