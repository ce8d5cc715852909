// The hosts' own root entries, told by prefixes of their names.

#![tactic(auto)]

ghost use Rattle.std.specs.Prelude.{◌≡◌, ℕ, ◌-◌, ◌≤◌, take, drop};
ghost use Rattle.housekeeping.specs.Housekeeping.{is_prefix, is_housekeeping};
ghost use Rattle.housekeeping.specs.EndToEnd.{prefix_bytes};

// The ten prefixes end to end, and where each starts; the last number is where the last one ends.
const PREFIXES: [u8; 126] =
    *b".trash._.ds_store.fseventsd.spotlight-v100.temporaryitems.metadata_never_index.com.apple.system volume information$recycle.bin";

const STARTS: [usize; 11] = [0, 6, 8, 17, 27, 42, 57, 78, 89, 114, 126];

// Is the prefix that stands from `at` to `end` one of the name. Most names differ in its first byte, so the bytes are looked at one by one.
fn is_prefix(bytes: &[u8], at: usize, end: usize, name: &[u8]) -> bool
    requires row { bytes.now ≡ prefix_bytes }
    requires part { (at ≤ end) × (end ≤ 126) }
    ensures { result ≡ is_prefix (take (end - at) (drop at prefix_bytes)) name.now }
{
    if name.len() < end - at {
        return false;
    }
    for i in at..end {
        if bytes[i] != name[i - at] {
            return false;
        }
    }
    true
}

// The row and the starts are copied once: read by name in the loop, they would be made anew at each turn.
pub fn housekeeping(name: &[u8]) -> bool
    ensures { result ≡ is_housekeeping name.now }
{
    let bytes = PREFIXES;
    let starts = STARTS;
    for i in 0..10 {
        if is_prefix(&bytes, starts[i], starts[i + 1], name) {
            return true;
        }
    }
    false
}
