//! Which maintainers pass, as far as it was tried: `secrets` keeps it.
//!
//! A submission can have 50,000 items, and each may name maintainers with hundreds of lines of
//! `auth`. So a maintainer has one answer for all its lines. The answer is kept with a copy of the
//! lines, because another text may stand under the same name by the next item: equal lines alone
//! prove that the answer still holds.

ghost use Rattle.std.specs.Prelude.{◌≡◌, ℕ, List};
ghost use Rattle.rr_object.specs.Parts.{AuthParts};
ghost use Rattle.rr_auth.specs.Passing.{passes};
ghost use Rattle.rr_auth.specs.TrialParts.{AreAnswers, IsTrial, IsTrialAnswer, Recalls, Records};

use crate::auth_line::{Line, are_lines, copy_lines};
use crate::salted::some_line_fits;
use crate::secret::Secret;
use rr_number::Name;
use rr_object::{Auth, Key, Object};
use std::alloc::{AllocError, Global};
use std::collections::BTreeMap;

/// The answers by the names of the maintainers. An answer about some secrets holds when others are
/// added after them. When memory runs out, an answer is forgotten, and its maintainer is tried
/// again.
#[derive(Drop)]
pub(crate) struct Tried {
    alloc: Global,
    answers: BTreeMap<Name, Answer>,
}

/// The answer about a maintainer of these lines.
#[derive(Drop)]
struct Answer {
    lines: Vec<Line>,
    trial: Trial,
}

/// What was tried with the lines of a maintainer.
#[derive(Clone, Copy)]
struct Trial {
    /// How many of the secrets, from the first on.
    tried: usize,
    /// Whether one of these fits one of the lines.
    fits: bool,
}

impl Tried {
    /// Nothing was tried.
    #[tactic(auto, using(crate::proofs::Remembered::nothing_remembered))]
    pub(crate) fn new(alloc: Global) -> Tried
        ensures { (secrets : List (List ℕ)) → AreAnswers secrets result.answers }
    {
        Tried {
            alloc,
            answers: BTreeMap::new(alloc),
        }
    }

    /// Whether the maintainer passes. The answers must be right for these secrets, and still are
    /// then. Only the secrets after those that were tried with its lines are hashed, each once with
    /// each salt while memory lasts, which no clause says.
    pub(crate) fn passes(&mut self, secrets: &[Secret], maintainer: &Object) -> bool
        requires { AreAnswers secrets.now self.old.answers }
        ensures answer { result ≡ passes secrets.now maintainer.now }
        ensures remembers { AreAnswers secrets.now self.new.answers }
    {
        let known = self.known(maintainer);
        if known.fits || known.tried == secrets.len() {
            return known.fits;
        }
        let fits = some_line_fits(self.alloc, &secrets[known.tried..], maintainer.auths());
        let tried = secrets.len();
        self.remember(maintainer, Trial { tried, fits });
        fits
    }

    /// What was tried with the lines of the maintainer.
    fn known(&self, maintainer: &Object) -> Trial
        ensures { Recalls self.now.answers maintainer.now.auths result }
    {
        match maintainer.key() {
            Key::Mntner(name) => self.known_of(name, maintainer.auths()),
            _ => Trial::none(),
        }
    }

    /// What was tried with these lines, if they are those that the maintainer of the name had.
    fn known_of(&self, name: &Name, lines: &[Auth]) -> Trial
        ensures { Recalls self.now.answers lines.now result }
    {
        match self.answers.get(name) {
            Some(answer) => answer.trial_of(lines),
            None => Trial::none(),
        }
    }

    /// Remembers what was tried with the lines of the maintainer, as far as memory lasts.
    fn remember(&mut self, maintainer: &Object, trial: Trial)
        ensures { Records self.old.answers maintainer.now.auths trial self.new.answers }
    {
        if let Key::Mntner(name) = maintainer.key() {
            // Without memory for it the lines are tried again, with the same answer.
            let _ = self.put(name, maintainer.auths(), trial);
        }
    }

    /// Puts what was tried with the lines under the name; the error is out of memory.
    fn put(&mut self, name: &Name, lines: &[Auth], trial: Trial) -> Result<(), AllocError>
        ensures { Records self.old.answers lines.now trial self.new.answers }
    {
        let name = name.copy(self.alloc)?;
        let lines = copy_lines(self.alloc, lines)?;
        self.answers.insert(name, Answer { lines, trial })?;
        Ok(())
    }
}

impl Answer {
    /// What was tried with these lines: nothing when they are others.
    fn trial_of(&self, lines: &[Auth]) -> Trial
        ensures { (secrets : List (List ℕ))
            → IsTrialAnswer secrets self.now → IsTrial secrets lines.now result }
    {
        if are_lines(&self.lines, lines) {
            self.trial
        } else {
            Trial::none()
        }
    }
}

impl Trial {
    /// No secret was tried.
    #[tactic(auto, using(crate::proofs::Remembered::none_tried))]
    fn none() -> Trial
        ensures { (secrets : List (List ℕ)) (lines : List AuthParts)
            → IsTrial secrets lines result }
    {
        Trial {
            tried: 0,
            fits: false,
        }
    }
}
