//! The digests of secrets with the salts of a maintainer's lines, for `tried`.
//!
//! A maintainer can have 786 lines, and a submission 40,000 secrets. So a secret is hashed
//! once with each salt, and not once with each line: its digest is then looked up for all lines of
//! that salt.

ghost use Rattle.std.specs.Prelude.{◌≡◌, ℕ, All, IfOk, IsSome, IsTrue, List, None, OnOk};
ghost use Rattle.std.specs.BTreeMap.{get};
ghost use Rattle.std.specs.BTreeSet.{BTreeSet as Digests, contains};
ghost use Rattle.std.specs.Cmp.Lexicographic.{slice_cmp};
ghost use Rattle.std.specs.Ordering.{nat_cmp};
ghost use Rattle.rr_auth.specs.TrialParts.{AreDigests, AsksLine, HasDigests, HasWantedDigest};
ghost use Rattle.rr_auth.specs.TrialParts.{salt_cmp};
ghost use Rattle.rr_auth.specs.TrialParts.{some_line_fits};

use crate::secret::{Secret, salted_digest, some_fits};
use rr_object::Auth;
use rr_object::auth::DIGEST_BYTES;
use std::alloc::{AllocError, Global};
use std::collections::{BTreeMap, BTreeSet};

/// Whether one of the secrets fits one of the lines. No clause says how often a secret is hashed:
/// with each of their salts once, unless memory runs out, and then with each line.
pub(crate) fn some_line_fits(alloc: Global, secrets: &[Secret], lines: &[Auth]) -> bool
    ensures { result ≡ some_line_fits secrets.now lines.now }
{
    // One line has one salt.
    if lines.len() > 1 {
        if let Ok(fits) = some_line_fits_by_salt(alloc, secrets, lines) {
            return fits;
        }
    }
    lines.iter().any(|line| some_fits(secrets, line))
}

/// The same, each secret hashed with each salt once; the error is out of memory.
fn some_line_fits_by_salt(
    alloc: Global,
    secrets: &[Secret],
    lines: &[Auth],
) -> Result<bool, AllocError>
    ensures { IfOk result (λ fits. fits ≡ some_line_fits secrets.now lines.now) }
{
    let wanted = digests_of(alloc, lines)?;
    let mut salted = Salted::new(alloc);
    'lines: for line in lines {
        if salted.some_fits(secrets, &wanted, line)? {
            return Ok(true);
        }
    }
    Ok(false)
}

/// The digests of the lines; the error is out of memory.
fn digests_of(alloc: Global, lines: &[Auth]) -> Result<BTreeSet<[u8; DIGEST_BYTES]>, AllocError>
    ensures { IfOk result (λ digests. All (HasWantedDigest digests) lines.now) }
{
    let mut digests = BTreeSet::new(alloc);
    for line in lines {
        digests.insert(*line.digest())?;
    }
    Ok(digests)
}

/// For each salt that was asked about, the wanted ones of the digests of some secrets with it.
#[derive(Drop)]
struct Salted {
    alloc: Global,
    digests: BTreeMap<Vec<u8>, BTreeSet<[u8; DIGEST_BYTES]>>,
}

impl Salted {
    /// No salt was asked about.
    #[tactic(auto, using(crate::proofs::Remembered::nothing_salted))]
    fn new(alloc: Global) -> Salted
        ensures { (wanted : Digests (List ℕ)) (secrets : List (List ℕ))
            → AreDigests wanted secrets result.digests }
    {
        Salted {
            alloc,
            digests: BTreeMap::new(alloc),
        }
    }

    /// Whether one of the secrets fits the line; the error is out of memory.
    fn some_fits(
        &mut self,
        secrets: &[Secret],
        wanted: &BTreeSet<[u8; DIGEST_BYTES]>,
        line: &Auth,
    ) -> Result<bool, AllocError>
        requires remembered { AreDigests wanted.now secrets.now self.old.digests }
        requires wanted { HasWantedDigest wanted.now line.now }
        ensures { AsksLine wanted.now secrets.now line.now self.new.digests result }
    {
        let salt = Vec::from_slice(self.alloc, line.salt())?;
        match self.digests.get(&salt) {
            Some(digests) => Ok(digests.contains(line.digest())),
            None => self.hash(secrets, wanted, salt, line.digest()),
        }
    }

    /// Hashes the secrets with the salt, with which they were not hashed before, nor will be again.
    /// Whether one of them fits the line of the salt and this wanted digest; the error is out of
    /// memory.
    fn hash(
        &mut self,
        secrets: &[Secret],
        wanted: &BTreeSet<[u8; DIGEST_BYTES]>,
        salt: Vec<u8>,
        digest: &[u8; DIGEST_BYTES],
    ) -> Result<bool, AllocError>
        requires remembered { AreDigests wanted.now secrets.now self.old.digests }
        requires unhashed { get salt_cmp self.old.digests salt ≡ None }
        requires wanted { IsTrue (contains (slice_cmp nat_cmp) wanted.now digest.now) }
        ensures answer { AsksLine wanted.now secrets.now
            (record { salt = salt.items; digest = digest.now }) self.new.digests result }
        ensures hashed { OnOk result (IsSome (get salt_cmp self.new.digests salt)) }
    {
        let digests = digests(self.alloc, wanted, secrets, &salt)?;
        let fits = digests.contains(digest);
        self.digests.insert(salt, digests)?;
        Ok(fits)
    }
}

/// The wanted digests of the secrets with the salt; the error is out of memory.
fn digests(
    alloc: Global,
    wanted: &BTreeSet<[u8; DIGEST_BYTES]>,
    secrets: &[Secret],
    salt: &[u8],
) -> Result<BTreeSet<[u8; DIGEST_BYTES]>, AllocError>
    ensures { IfOk result (HasDigests salt.now wanted.now secrets.now) }
{
    let mut digests = BTreeSet::new(alloc);
    for secret in secrets {
        let digest = salted_digest(salt, secret);
        if wanted.contains(&digest) {
            digests.insert(digest)?;
        }
    }
    Ok(digests)
}
