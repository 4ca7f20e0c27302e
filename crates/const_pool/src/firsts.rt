//! Texts with the number of their first entry.

ghost use Rattle.std.specs.Prelude.{◌≡◌, ℕ, List, None, Some, IfOk, if◌then◌else◌};
ghost use Rattle.std.specs.Option.{unwrap_or};
ghost use Rattle.jvms_file.specs.Names.{same_text};
ghost use Rattle.const_pool.specs.Firsts.{number_at, fingerprint_of};

use std::alloc::{AllocError, Global};
use std::collections::BTreeMap;

/// The initial value of a fingerprint, and its factor for each unit, as in the FNV-1a hash of 64 bits.
const FINGERPRINT: u64 = 0xcbf2_9ce4_8422_2325;

const FACTOR: u64 = 0x0000_0100_0000_01b3;

/// Returns a hash that different texts seldom share.
#[tactic(auto, unfolding(crate::specs::Firsts::fingerprint_of))]
fn fingerprint(text: &[u16]) -> u64
    ensures { result ≡ fingerprint_of text.now }
{
    let mut fingerprint = FINGERPRINT;
    for unit in text {
        fingerprint = (fingerprint ^ u64::from(*unit)).wrapping_mul(FACTOR);
    }
    fingerprint
}

/// Texts, each with the number of its first entry. They are ordered by fingerprint, so that two different ones are
/// seldom compared. Those with one fingerprint are in their own order. Texts that are chosen to share one cost only
/// longer comparisons, of which there are logarithmically many.
#[derive(Drop)]
pub(crate) struct Firsts<'a> {
    numbers: BTreeMap<(u64, &'a [u16]), usize>,
}

impl<'a> Firsts<'a> {
    /// Creates a map without texts.
    pub(crate) fn new(alloc: Global) -> Self
        ensures { (text : List ℕ) → number_at result text ≡ None }
    {
        Firsts {
            numbers: BTreeMap::new(alloc),
        }
    }

    /// Returns the number of a text, and adds the text with this number if it isn't there.
    pub(crate) fn number(&mut self, text: &'a [u16], number: usize) -> Result<usize, AllocError>
        ensures exact { IfOk result (λ n. n ≡ unwrap_or (number_at self.old text.now) number) }
        ensures kept { IfOk result (λ n. (other : List ℕ) → number_at self.new other
            ≡ (if same_text text.now other then Some n else number_at self.old other)) }
    {
        let key = (fingerprint(text), text);
        if let Some(known) = self.numbers.get(&key).copied() {
            return Ok(known);
        }
        self.numbers.insert(key, number)?;
        Ok(number)
    }
}
