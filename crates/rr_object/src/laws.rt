//! What follows of an object from how it is read, and of keys from their bytes: for readers, and
//! for the proofs of this crate and others. Each function states a law and does nothing.

ghost use Rattle.std.specs.Prelude.{◌≡◌, ◌<◌, List, Ok, Some, length, ℕ};
ghost use Rattle.rr_text.specs.Fields.{Field};
ghost use Rattle.rr_object.specs.FirstFaults.{FirstFaultIsTold, ObjectsSayTheirParagraphs};
ghost use Rattle.rr_object.specs.GrantTexts.{ReadGrantsAreSpelled, SpelledGrantsAreRead};
ghost use Rattle.rr_object.specs.KeyOrders.{BytesTell, BytesTellKeys, HasKeyParts, IsKeyValue};
ghost use Rattle.rr_object.specs.KeyOrders.{class_and_bytes_cmp, key_cmp};
ghost use Rattle.rr_object.specs.KeySpellings.{key_of, key_of_text};
ghost use Rattle.rr_object.specs.Objects.{Obj};
ghost use Rattle.rr_object.specs.OldKeys.{OldBytesKeepOrder, OldBytesTellKeys};
ghost use Rattle.rr_object.specs.Readings.{obj_of, object_of};
ghost use Rattle.rr_object.specs.declared.class.Class.{Class};
ghost use Rattle.rr_object.specs.declared.key.Key as keys;

use crate::key::Key;

/// In a registry of a source, a paragraph is refused for the first of its faults in the order of
/// `ObjectFault`, and for nothing else. An object has the key of its paragraph, and says what the
/// paragraph says.
pub fn the_first_fault_is_told()
    ensures told { FirstFaultIsTold }
    ensures says { ObjectsSayTheirParagraphs }
{}

/// A paragraph that is an object in a registry of a source is the same object where its source is
/// not compared.
pub fn an_object_is_of_its_paragraph()
    ensures { (fields : List Field) (source : List ℕ) (object : Obj)
        → object_of fields source ≡ Ok object
        → obj_of fields ≡ Ok object }
{}

/// An object keeps the whole paragraph that it is read from.
pub fn an_object_keeps_its_paragraph()
    ensures { (fields : List Field) (object : Obj) → obj_of fields ≡ Ok object
        → object.paragraph ≡ fields }
{}

/// An object has the key of its paragraph.
pub fn an_object_has_its_paragraphs_key()
    ensures { (fields : List Field) (object : Obj) → obj_of fields ≡ Ok object
        → key_of fields ≡ Ok object.key }
{}

/// An object names at least one maintainer in its `mnt-by`.
pub fn an_object_has_a_maintainer()
    ensures { (fields : List Field) (object : Obj) → obj_of fields ≡ Ok object
        → 0 < length object.maintainers }
{}

/// Keys are ordered by the numbers of their classes, then by the numbers that make up the keys, as
/// in a dictionary. These are the bytes of a name, the ends of a span, an AS number, or a route's
/// address, length and origin.
#[tactic(auto, using(crate::proofs::DerivedOrder::derived_order))]
pub fn keys_compare_by_their_parts()
    ensures { (a b : keys.Key) → ⟦<Key as Ord>⟧.cmp a b ≡ key_cmp a b }
{}

/// Well-formed keys are ordered by the numbers of their classes, then by their bytes, as in a
/// dictionary. Two of a class have equal bytes only if they are equal.
pub fn keys_compare_as_their_bytes()
    ensures order { (a b : keys.Key) → IsKeyValue a → IsKeyValue b
        → ⟦<Key as Ord>⟧.cmp a b ≡ class_and_bytes_cmp a b }
    ensures told { BytesTellKeys }
{}

/// A key is made of names, spans, prefixes and AS numbers. Its name is in upper case; that of a set
/// is as it is printed, of whichever kind. The ends of its span are in order, both addresses or
/// both AS numbers. Its prefix has an address below 2^32, a length of at most 32 and no bit past
/// its length. Its AS number has 32 bits.
pub fn a_key_has_its_parts(key: &Key)
    ensures { HasKeyParts key.now }
{
    // Here and below: a call says what the type of a part promises. What it gives is not needed.
    match key {
        Key::Mntner(name) => {
            let _bytes = name.as_bytes();
        }
        Key::AsBlock(block) => {
            let _span = block.span();
        }
        Key::AutNum(number) => {
            let _number = number.number();
        }
        Key::Inetnum(span) => {
            let _last = span.last();
        }
        Key::Route(prefix, origin) => {
            let _length = prefix.length();
            let _number = origin.number();
        }
        Key::AsSet(name) | Key::RouteSet(name) => {
            let _bytes = name.as_bytes();
        }
    }
}

/// Any two keys are ordered by the numbers of their classes, then by their bytes, as in a
/// dictionary. Two keys of a class have equal bytes only if they are equal.
pub fn any_two_keys_compare_as_their_bytes(key: &Key, other: &Key)
    ensures order { ⟦<Key as Ord>⟧.cmp key.now other.now
        ≡ class_and_bytes_cmp key.now other.now }
    ensures told { BytesTell key.now other.now }
{
    a_key_has_its_parts(key);
    a_key_has_its_parts(other);
}

/// Old bytes are those of tables of version 1. Well-formed keys of a class have equal old bytes
/// only if they are equal. Well-formed keys that have old bytes are ordered by the numbers of their
/// classes, then by these bytes, as in a dictionary.
pub fn old_bytes_tell_keys_in_their_order()
    ensures told { OldBytesTellKeys }
    ensures order { OldBytesKeepOrder }
{}

/// The key that a text spells as one of a class, or that a paragraph spells, is well formed. So is
/// that of an object that is read in a registry of a source.
pub fn keys_are_read_well_formed()
    ensures text { (class : Class) (text : List ℕ) (key : keys.Key)
        → key_of_text class text ≡ Some key → IsKeyValue key }
    ensures paragraph { (fields : List Field) (key : keys.Key) → key_of fields ≡ Ok key
        → IsKeyValue key }
    ensures object { (fields : List Field) (source : List ℕ) (object : Obj)
        → object_of fields source ≡ Ok object
        → IsKeyValue object.key }
{}

/// Items are read as entries of `mnt-routes` exactly where they spell such entries, one after
/// another, and then as those that they spell.
pub fn grants_are_read_as_spelled()
    ensures read { ReadGrantsAreSpelled }
    ensures spelled { SpelledGrantsAreRead }
{}
