//! What few objects say, which `object` keeps apart, so that the others stay small.

ghost use Rattle.std.specs.Prelude.{◌≡◌, IfOk};
ghost use Rattle.rr_object.specs.Extras.{kept_extra, says_nothing, says_nothing_of_sets};

use crate::auth::Auth;
use crate::by_ref::ByRef;
use crate::grant::Grant;
use crate::member::Member;
use rr_number::{Name, SetName};
use std::alloc::{AllocError, Global};
use std::marker::Model;

/// What an object says beside its key, its paragraph and its `mnt-by`: who may add below it, whose
/// secrets decide, and what is said of sets. Most objects say nothing of this.
#[derive(Debug, Drop)]
pub(crate) struct Extra {
    pub(crate) lower: Vec<Name>,
    pub(crate) routes: Vec<Grant>,
    pub(crate) auths: Vec<Auth>,
    pub(crate) members: Vec<Member>,
    pub(crate) by_ref: ByRef,
    pub(crate) member_of: Vec<SetName>,
}

impl Model for Extra {
    ghost use Rattle.rr_object.specs.Parts.{ExtraParts};

    ghost Value = { ExtraParts };

    ghost view = { λ e. record {
      lower = e.lower.items;
      routes = e.routes.items;
      auths = e.auths.items;
      members = e.members.items;
      by_ref = e.by_ref;
      member_of = e.member_of.items;
    } };
}

impl Extra {
    /// What is kept of it: nothing where it says nothing. The error is that memory ran out.
    pub(crate) fn kept(self, alloc: Global) -> Result<Option<Box<Extra>>, AllocError>
        ensures { IfOk result (λ kept. kept_extra kept ≡ self) }
    {
        if self.says_nothing() {
            return Ok(None);
        }
        match Box::new(alloc, self) {
            Ok(kept) => Ok(Some(kept)),
            Err(_) => Err(AllocError),
        }
    }

    /// Whether it says nothing.
    fn says_nothing(&self) -> bool
        ensures { result ≡ says_nothing self.now }
    {
        self.says_nothing_of_sets()
            && self.lower.is_empty()
            && self.routes.is_empty()
            && self.auths.is_empty()
    }

    /// Whether it says nothing of sets.
    fn says_nothing_of_sets(&self) -> bool
        ensures { result ≡ says_nothing_of_sets self.now }
    {
        self.members.is_empty()
            && !self.by_ref.any()
            && self.by_ref.names().is_empty()
            && self.member_of.is_empty()
    }
}
