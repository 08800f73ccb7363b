//! Items: what a submission asks for, `judge` judges, and `rr_registry` carries out.

use rr_object::{Key, Object};

/// One item of a submission (profile).
#[derive(Debug, Drop)]
pub enum Item {
    /// The object is to be registered, in place of the one under its key if there is one.
    Submit(Object),
    /// The object of this key is to be deleted.
    Delete(Key),
}
