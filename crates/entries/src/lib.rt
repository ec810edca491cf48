// The keys of a call with their values: rows 1 to 4 of the refusals, and the places of the unknown keys.
#![tactic(auto)]

ghost use Rattle.std.specs.Prelude.{◌≡◌, ◌+◌, ◌≤◌, ◌<◌, ◌^◌, Float, length};
ghost use Rattle.std.proofs.lemmas.List.Edits.{sets};
ghost use Rattle.device.specs.Refusals.{outcome};
ghost use Rattle.key_pairs.specs.Pairs.{Inside};
ghost use Rattle.keys.specs.Names.{meaning_of};
ghost use Rattle.keys.specs.declared.Meaning.{Meaning};
ghost use Rattle.entries.specs.Entries.{
  key_at,
  entries_of,
  beyond_ascii,
  unknown_from,
  unknown_count,
  scan_of,
  scanned_with,
  keys_of,
  settings_of,
};

use device::{Mosfet1, Refusal};
use key_pairs::{LentKeys, PairedKeys};
use keys::{Meaning, Table};

// What one pass over the keys finds: a byte of 128 or more, the count of unknown keys, a value outside its range, a nominal
// temperature outside the limits. The four together, since a pass for each would look every name up again.
#[derive(Clone, Copy)]
pub struct Scan {
    pub beyond_ascii: bool,
    pub unknown: usize,
    pub outside: bool,
    pub tnom_outside: bool,
}

// What keys that pass rows 1 to 4 leave: the count of the unknown ones, and whether row 6 refuses a tnom.
#[derive(Clone, Copy)]
pub struct KeysRead {
    pub unknown: usize,
    pub outside: bool,
}

// What the card and the geometry call answer: the device, and the count of unknown keys.
#[derive(Clone, Copy)]
pub struct Keyed {
    pub device: Mosfet1,
    pub unknown: usize,
}

// What the keys of a call set, one after another.
pub trait Settings: Copy {
    // the settings after one key more
    ghost with_key: { Self → Meaning → Float → Self };

    fn assign(&mut self, m: Meaning, v: f64)
        ensures { self.new ≡ with_key self.old m v };
}

// Whether a byte of a key is 128 or more.
fn beyond_ascii(key: &[u8]) -> bool
    ensures { result ≡ beyond_ascii key.now }
{
    key.iter().any(|byte| 128 <= *byte)
}

// The key at a place whose pair lies within the bytes; of the others nothing is asked.
fn key_at<'a>(lent: LentKeys<'a>, i: usize) -> &'a [u8]
    requires { Inside lent.bytes.now lent.offsets.now lent.lengths.now i }
    ensures { result.now ≡ key_at lent.entry.bytes.now lent.entry.offsets.now lent.entry.lengths.now i }
{
    let at = lent.offsets[i];
    let end = at + lent.lengths[i];
    &lent.bytes[at..end]
}

// What the key at such a place means.
pub fn meaning_at(table: Table, lent: LentKeys<'_>, i: usize) -> Meaning
    requires { Inside lent.bytes.now lent.offsets.now lent.lengths.now i }
    ensures { result ≡ meaning_of table (key_at lent.entry.bytes.now lent.entry.offsets.now lent.entry.lengths.now i) }
{
    key_names::meaning_of(table, key_at(lent, i))
}

impl Scan {
    // One key more, in front of those scanned.
    fn with(self, high: bool, m: Meaning, v: f64) -> Scan
        requires { self.unknown + 1 < 2 ^ 64 }
        ensures { result ≡ scanned_with self high m v }
    {
        Scan {
            beyond_ascii: high || self.beyond_ascii,
            unknown: if keys::is_unknown(m) {
                self.unknown + 1
            } else {
                self.unknown
            },
            outside: keys::outside(m, v) || self.outside,
            tnom_outside: keys::tnom_outside(m, v) || self.tnom_outside,
        }
    }
}

// The settings after all keys.
pub fn read<S: Settings>(table: Table, start: S, keys: PairedKeys<'_>) -> S
    ensures { result ≡ settings_of S.with_key table start (entries_of keys.entry.lent.bytes.now keys.entry.lent.offsets.now keys.entry.lent.lengths.now keys.entry.lent.values.now) }
{
    let mut settings = start;
    for i in 0..keys.lent.offsets.len() {
        settings.assign(meaning_at(table, keys.lent, i), keys.lent.values[i]);
    }
    settings
}

// One pass over the keys, from the last to the first.
fn scan_keys(table: Table, keys: PairedKeys<'_>) -> Scan
    ensures { result ≡ scan_of table (entries_of keys.entry.lent.bytes.now keys.entry.lent.offsets.now keys.entry.lent.lengths.now keys.entry.lent.values.now) }
{
    let mut scan = Scan {
        beyond_ascii: false,
        unknown: 0,
        outside: false,
        tnom_outside: false,
    };
    for i in (0..keys.lent.offsets.len()).rev() {
        let key = key_at(keys.lent, i);
        let m = key_names::meaning_of(table, key);
        scan = scan.with(beyond_ascii(key), m, keys.lent.values[i]);
    }
    scan
}

// Rows 1 to 4 for the keys of a call, with space for so many places of unknown keys.
pub fn test_keys(table: Table, lent: LentKeys<'_>, space: usize) -> Result<KeysRead, Refusal>
    ensures { outcome result ≡ keys_of table lent.entry.bytes.now lent.entry.offsets.now lent.entry.lengths.now lent.entry.values.now space }
{
    let keys = lent.paired()?;
    test_paired(table, keys, space)
}

// The same for keys that row 1 lets pass.
pub fn test_paired(table: Table, keys: PairedKeys<'_>, space: usize) -> Result<KeysRead, Refusal>
    ensures { outcome result ≡ keys_of table keys.entry.lent.bytes.now keys.entry.lent.offsets.now keys.entry.lent.lengths.now keys.entry.lent.values.now space }
{
    let scan = scan_keys(table, keys);
    if scan.beyond_ascii {
        return Err(Refusal::KeyByte);
    }
    if space < scan.unknown {
        return Err(Refusal::UnknownKeys);
    }
    if scan.outside {
        return Err(Refusal::KeyValue);
    }
    Ok(KeysRead {
        unknown: scan.unknown,
        outside: scan.tnom_outside,
    })
}

// Writes the places of the unknown keys, in order, to the front of the list.
pub fn list_unknown(table: Table, keys: PairedKeys<'_>, list: &mut [usize])
    requires { unknown_count table (entries_of keys.lent.bytes.now keys.lent.offsets.now keys.lent.lengths.now keys.lent.values.now) ≤ length list.old }
    ensures { list.new ≡ sets list.old 0 (unknown_from table 0 (entries_of keys.entry.lent.bytes.now keys.entry.lent.offsets.now keys.entry.lent.lengths.now keys.entry.lent.values.now)) }
{
    let mut k = 0;
    for i in 0..keys.lent.offsets.len() {
        if keys::is_unknown(meaning_at(table, keys.lent, i)) {
            list[k] = i;
            k += 1;
        }
    }
}
