// Row 1: the pairs of offset and length that cut keys out of bytes.
#![tactic(auto)]

ghost use Rattle.std.specs.Prelude.{◌≡◌, true, false, length, IfOk, IfErr};
ghost use Rattle.device.specs.declared.Refusal.TheVariants.{KeyPairs};
ghost use Rattle.key_pairs.specs.Pairs.{pairs_astray, bad_pairs};

use device::Refusal;

// The keys of a call as they are lent: a pair of offset and length cuts each out of the bytes, and each has a value.
#[derive(Clone, Copy)]
pub struct LentKeys<'a> {
    pub bytes: &'a [u8],
    pub offsets: &'a [usize],
    pub lengths: &'a [usize],
    pub values: &'a [f64],
}

// Keys that row 1 lets pass.
#[derive(Clone, Copy)]
pub struct PairedKeys<'a> {
    pub lent: LentKeys<'a>,
    pub ghost paired: { bad_pairs lent.bytes.now lent.offsets.now lent.lengths.now lent.values.now ≡ false },
}

// Whether a pair starts before the last one's end or goes past the key bytes.
fn pairs_astray(size: usize, offsets: &[usize], lengths: &[usize]) -> bool
    requires { length offsets.now ≡ length lengths.now }
    ensures { result ≡ pairs_astray size 0 offsets.now lengths.now }
{
    let mut last = 0;
    for i in 0..offsets.len() {
        let at = offsets[i];
        let n = lengths[i];
        if at < last || size < at || size - at < n {
            return true;
        }
        last = at + n;
    }
    false
}

impl<'a> LentKeys<'a> {
    // Whether row 1 applies.
    #[tactic(auto, unfolding(crate::specs::Pairs::bad_pairs))]
    pub fn bad_pairs(self) -> bool
        ensures { result ≡ bad_pairs self.entry.bytes.now self.entry.offsets.now self.entry.lengths.now self.entry.values.now }
    {
        self.offsets.len() != self.lengths.len()
            || self.offsets.len() != self.values.len()
            || pairs_astray(self.bytes.len(), self.offsets, self.lengths)
    }

    // The keys, where row 1 lets them pass.
    pub fn paired(self) -> Result<PairedKeys<'a>, Refusal>
        ensures passed { IfOk result (λ keys. keys.lent ≡ self.entry) }
        ensures refused { IfErr result (λ refusal. (refusal ≡ KeyPairs) × (bad_pairs self.entry.bytes.now self.entry.offsets.now self.entry.lengths.now self.entry.values.now ≡ true)) }
    {
        if self.bad_pairs() {
            Err(Refusal::KeyPairs)
        } else {
            Ok(PairedKeys { lent: self })
        }
    }
}
