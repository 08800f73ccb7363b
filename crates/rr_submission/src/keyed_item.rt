//! An item with its key, as a ledger is given it.

ghost use Rattle.std.specs.Prelude.{◌≡◌};
ghost use Rattle.rr_auth.specs.Laws.{key_about};

use rr_auth::Item;
use rr_object::Key;
use std::marker::Model;

/// An item with the key of its object: the key is still there after the item is used up. It is the
/// key that the item is about, so that a contract sees the item alone.
#[derive(Drop)]
pub struct KeyedItem<'a> {
    key: &'a Key,
    item: Item,
}

impl<'a> Model for KeyedItem<'a> {
    ghost use Rattle.rr_auth.specs.declared.item.Item.{Item};

    ghost Value = { Item };

    ghost use Rattle.std.specs.Prelude.{◌≡◌};
    ghost use Rattle.rr_auth.specs.Laws.{key_about};

    ghost view = { λ keyed. keyed.item };

    ghost invariant = { λ keyed. keyed.key.now ≡ key_about keyed.item };
}

impl<'a> KeyedItem<'a> {
    /// The item with its key, which must be the key that it is about.
    pub(crate) fn of(key: &'a Key, item: Item) -> KeyedItem<'a>
        requires { key.now ≡ key_about item }
        ensures { result ≡ item }
    {
        KeyedItem { key, item }
    }

    /// The key that the item is about, and the item.
    pub fn parts(self) -> (&'a Key, Item)
        ensures key { result.0.now ≡ key_about self.entry }
        ensures item { result.1 ≡ self.entry }
    {
        let KeyedItem { key, item } = self;
        (key, item)
    }
}
