//! Secrets, by which a submission shows who sent it. `rr_submission` adds them as it reads, and
//! verdicts try them.

ghost use Rattle.std.specs.Prelude.{◌≡◌, [], ◌∷◌};
ghost use Rattle.rr_auth.specs.Passing.{AddsAllOrNone, Tries, passes};

use crate::secret::Secret;
use crate::tried::Tried;
use rr_object::Object;
use std::alloc::{AllocError, Global};
use std::marker::Model;

/// The secrets given with an item; contracts see the list of them, in the order in which they were
/// added. Only which secrets are there matters to a verdict.
#[derive(Drop)]
pub struct Secrets {
    list: Vec<Secret>,
    tried: Tried,
}

impl Model for Secrets {
    ghost use Rattle.std.specs.Prelude.{List, ℕ};

    ghost Value = { List (List ℕ) };

    ghost use Rattle.rr_auth.specs.TrialParts.{AreAnswers};

    ghost view = { λ a. a.list.items };

    ghost invariant = { λ a. AreAnswers a.list.items a.tried.answers };
}

impl Secrets {
    /// No secrets.
    pub fn new(alloc: Global) -> Secrets
        ensures { result ≡ [] }
    {
        Secrets {
            list: Vec::new(alloc),
            tried: Tried::new(alloc),
        }
    }

    /// Adds the secret of these bytes, which it keeps, after those that there are. The error is
    /// that memory ran out: then the secrets are as they were.
    #[tactic(auto, using(crate::proofs::Remembered::answers_stay))]
    pub fn add_owned(&mut self, bytes: Vec<u8>) -> Result<(), AllocError>
        ensures { AddsAllOrNone (bytes.items ∷ []) self.old self.new result }
    {
        self.list.push(Secret::of(bytes))?;
        Ok(())
    }

    /// Adds these secrets, in their order, after those that there are. The error is that memory ran
    /// out: then none is added, and the secrets are as they were.
    #[tactic(auto, using(crate::proofs::Remembered::answers_stay))]
    pub fn add_all(&mut self, more: Secrets) -> Result<(), AllocError>
        ensures { AddsAllOrNone more self.old self.new result }
    {
        let Secrets { mut list, tried: _ } = more;
        self.list.append(&mut list)
    }

    /// The secrets in the order in which they were added.
    pub(crate) fn as_slice(&self) -> &[Secret]
        ensures { result.now ≡ self.now }
    {
        self.list.as_slice()
    }

    /// Whether the maintainer passes: some secret fits one of its lines, so that SHA-256 of the
    /// salt and then the secret is the line's digest (profile; FIPS 180-4). The secrets stay as
    /// they were. No clause says that the answer is remembered: no secret is hashed again for these
    /// lines until memory runs out, or other lines come under the maintainer's name.
    pub(crate) fn fit(&mut self, maintainer: &Object) -> bool
        ensures { Tries (passes self.old maintainer.now) self.old self.new result }
    {
        self.tried.passes(self.list.as_slice(), maintainer)
    }
}
