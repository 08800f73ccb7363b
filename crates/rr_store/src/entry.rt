//! What the tables keep of an object, as all that adds or puts rows is given it.

ghost use Rattle.std.specs.Prelude.{◌≡◌, IfOk};
ghost use Rattle.rr_object.specs.KeyOrders.{IsKeyValue};
ghost use Rattle.rr_store.specs.Entries.{entry_of};
ghost use Rattle.rr_store.specs.Maps.{IsObject};

use crate::names::maintainers_of;
use rr_number::Name;
use rr_object::Object;
use rr_text::Text;
use std::alloc::{AllocError, Global};
use std::marker::Model;

/// What the tables keep of an object: its class, its key, its text, and whom it names.
#[derive(Drop)]
pub(crate) struct StoredEntry {
    class: u8,
    key: Vec<u8>,
    body: Text,
    names: Vec<Name>,
}

impl Model for StoredEntry {
    ghost use Rattle.rr_store.specs.Entries.{StoredEntry as Kept};

    ghost Value = { Kept };

    ghost view = { λ e. record {
      class = e.class;
      key = e.key.items;
      body = e.body;
      names = e.names.items;
    } };
}

impl StoredEntry {
    /// The entry of an object, which is such as readers make, under a key of such a form. The error
    /// is that memory ran out.
    pub(crate) fn of(alloc: Global, object: &Object) -> Result<StoredEntry, AllocError>
        ensures entry { IfOk result (λ entry. entry ≡ entry_of object.now) }
        ensures object { IsObject object.now }
        ensures formed { IsKeyValue object.now.key }
    {
        let text = object.paragraph().text();
        let class = object.key().class().number();
        let key = object.key().bytes(alloc)?;
        let body = Text::from_slice(alloc, text)?;
        let names = maintainers_of(alloc, object)?;
        Ok(StoredEntry {
            class,
            key,
            body,
            names,
        })
    }

    /// The number of the class.
    pub(crate) fn class(&self) -> u8
        ensures { result ≡ self.now.class }
    {
        self.class
    }

    /// The bytes of the key.
    pub(crate) fn key(&self) -> &[u8]
        ensures { result.now ≡ self.now.key }
    {
        &self.key
    }

    /// The canonical text.
    pub(crate) fn body(&self) -> &[u8]
        ensures { result.now ≡ self.now.body }
    {
        self.body.as_slice()
    }

    /// The maintainers that the object names, each once.
    pub(crate) fn names(&self) -> &[Name]
        ensures { result.now ≡ self.now.names }
    {
        &self.names
    }
}
