//! What a paragraph of a submission asks, as `items` reads it and `handling` decides it.

ghost use Rattle.std.specs.Prelude.{◌≡◌, ◌⊎◌, Err, None, Ok, Some};
ghost use Rattle.rr_object.specs.KeySpellings.{key_of};

use crate::submission_text::{asks_deletion, own_paragraph};
use rr_auth::Item;
use rr_number::Name;
use rr_object::{Code, Key, Object, key_of};
use rr_text::Paragraph;
use std::alloc::Global;
use std::marker::Model;

/// What a paragraph of a submission asks: an item is about the key that the report shows.
#[derive(Drop)]
pub struct Request {
    /// The key of the object, if it was read.
    pub key: Option<Key>,
    /// What is asked, or the code of the refusal.
    pub action: Result<Item, Code>,
}

impl Model for Request {
    ghost use Rattle.rr_submission.specs.Requests.{Asked};

    ghost Value = { Asked };

    ghost use Rattle.std.specs.Prelude.{IfOk};
    ghost use Rattle.rr_submission.specs.ItemParts.{ShowsKeyOf};

    ghost view = { λ r. record { key = r.key; action = r.action } };

    ghost invariant = { λ r. IfOk r.action (ShowsKeyOf r.key) };
}

impl Request {
    ghost use Rattle.rr_submission.specs.Requests.{IsRequest, action_of, unread};

    /// The request of a paragraph that was refused with this code before its class and key were
    /// read.
    pub fn unread(code: Code) -> Request
        ensures { result ≡ unread code }
    {
        Request {
            key: None,
            action: Err(code),
        }
    }

    /// What a paragraph asks of a registry of this source. With `delete` it asks that the object of
    /// its key be deleted, and else that this be as the paragraph says. Its attributes `password`
    /// and `delete` are no part of the object. It is refused with the code of its first fault, in
    /// the order in which faults are judged. Of one with `delete` the class and the key alone are
    /// judged. It shows its key, if it has one. Where memory runs out, it is refused with E90, and
    /// shows its own key or none.
    pub fn read(alloc: Global, paragraph: Paragraph, source: &Name) -> Request
        ensures { IsRequest source.now paragraph result }
    {
        let deletes = asks_deletion(&paragraph);
        let Ok(own) = own_paragraph(alloc, paragraph) else {
            return Request::unread(Code::E90);
        };
        match key_of(alloc, &own) {
            Ok(key) => Request::about(alloc, own, source, key, deletes),
            Err(fault) => Request::unread(fault.code()),
        }
    }

    /// What is asked by a paragraph of this key. Where memory runs out, it is refused with E90, and
    /// shows the key.
    #[tactic(auto, using(crate::proofs::Asking::shown_action))]
    fn about(alloc: Global, own: Paragraph, source: &Name, key: Key, deletes: bool) -> Request
        requires { key_of own ≡ Ok key }
        ensures { (result
            ≡ record { key = Some key; action = action_of source.now own key deletes })
            ⊎ (result ≡ record { key = Some key; action = Err Code.E90 }) }
    {
        let action = match key.copy(alloc) {
            Ok(copy) => Request::action(alloc, own, source, copy, deletes),
            Err(_) => Err(Code::E90),
        };
        Request {
            key: Some(key),
            action,
        }
    }

    /// What is asked about the object of a key: an item, or the code of its refusal, which is E90
    /// where memory runs out.
    fn action(
        alloc: Global,
        own: Paragraph,
        source: &Name,
        key: Key,
        deletes: bool,
    ) -> Result<Item, Code>
        requires { key_of own ≡ Ok key }
        ensures { (result ≡ action_of source.now own key deletes) ⊎ (result ≡ Err Code.E90) }
    {
        if deletes {
            return Ok(Item::Delete(key));
        }
        match Object::read_with_key(alloc, key, own, source) {
            Ok(object) => Ok(Item::Submit(object)),
            Err(fault) => Err(fault.code()),
        }
    }
}
