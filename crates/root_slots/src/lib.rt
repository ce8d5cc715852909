// Which host slots of the root are admitted, and the strict name.

#![tactic(auto)]

ghost use Rattle.std.specs.Prelude.{◌≡◌, ℕ, ◌+◌, ◌<◌, ◌≤◌, false, not, ◌&&◌, leb};
ghost use Rattle.bits.specs.Bit.{bit};
ghost use Rattle.slots.specs.Slots.{attr_of, size_of, update_name};
ghost use Rattle.housekeeping.specs.Housekeeping.{is_housekeeping};
ghost use Rattle.names.specs.Names.{long_name};
ghost use Rattle.names.specs.Held.{held};
ghost use Rattle.refusals.specs.Refusals.{told, value_or};
ghost use Rattle.root_slots.specs.RootSlots.{max_update, slot_admitted, strict_of};

use housekeeping::housekeeping;
use names::entries::{entries_read, entries_strict};
use names::text::{Name, name_by};
use records::{NREC, Rec};
use refusals::Refusal;
use sector::Sector;

// Bytes of an update file at most.
pub const MAX_UPDATE: u32 = 638988;

fn is_housekeeping(name: &Name) -> bool
    requires { name.now.len ≤ 32 }
    ensures { result ≡ is_housekeeping (held name.now) }
{
    housekeeping(&name.chars[..name.len])
}

// Is the name of root slot `idx`, as `long_name` reads it, housekeeping.
fn long_housekeeping(rec: &[Rec; NREC], sector: &Sector, base: usize, idx: usize) -> bool
    requires { (base ≤ idx) × (idx < base + 16) × (7 ≤ idx) }
    ensures { result ≡ is_housekeeping (long_name rec.now sector.now base idx) }
{
    let name = name_by(rec, sector, base, idx, entries_read(rec, sector, base, idx));
    is_housekeeping(&name)
}

// Is the slot at `at` DM40*.BIN, no directory, of at most 638,988 bytes.
fn is_update(sector: &Sector, at: usize) -> bool
    requires { at + 32 ≤ 512 }
    ensures { result ≡ (not (bit (attr_of sector.now at) 4) && update_name sector.now at && leb (size_of sector.now at) max_update) }
{
    let attr = slots::fields::attr(sector, at);
    if bits::test_u16(attr as u16, 4) {
        return false;
    }
    if !slots::fields::update_name(sector, at) {
        return false;
    }
    slots::fields::size(sector, at) <= MAX_UPDATE
}

// A host slot of the root is taken: free, a long entry, a host's own file or directory, or an update file. `host`: its start is 0 or the host's.
pub fn rec_ok(rec: &[Rec; NREC], sector: &Sector, base: usize, idx: usize, host: bool) -> bool
    requires { (base ≤ idx) × (idx < base + 16) × (7 ≤ idx) }
    ensures { result ≡ slot_admitted rec.now sector.now base idx host }
{
    let at = (idx - base) * 32;
    if sector[at] == 0 {
        return false;
    }
    if sector[at] == 0xE5 {
        return true;
    }
    if slots::fields::is_long(sector, at) {
        return true;
    }
    let attr = slots::fields::attr(sector, at);
    if bits::test_u16(attr as u16, 3) {
        return false;
    }
    if slots::fields::high(sector, at) != 0 {
        return false;
    }
    if !host {
        return false;
    }
    if is_update(sector, at) {
        return true;
    }
    long_housekeeping(rec, sector, base, idx)
}

// The strict long name of root slot `idx`, given its sector: is it housekeeping.
pub fn strict_name(rec: &[Rec; NREC], sector: &[u8], idx: usize) -> Result<bool, Refusal>
    ensures number { told result ≡ (strict_of rec.now sector.now idx).no }
    ensures housekeeping { value_or false result ≡ (strict_of rec.now sector.now idx).housekeeping }
{
    let Some(sector) = sector.as_array::<512>() else {
        return Err(Refusal::SectorLength);
    };
    if 512 <= idx {
        return Err(Refusal::PastTheEnd);
    }
    if idx < 7 {
        return Err(Refusal::OwnRootSlot);
    }
    let base = idx / 16 * 16;
    let name = name_by(
        rec,
        sector,
        base,
        idx,
        entries_strict(rec, sector, base, idx),
    );
    Ok(is_housekeeping(&name))
}
