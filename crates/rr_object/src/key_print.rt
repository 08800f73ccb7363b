//! Keys as texts. `print_to` writes them as reports do, for messages about dumps; reports have
//! `report_keys` of `rr_submission`. The bytes are those in rows of `rr_store`, and their order is
//! that of the keys of a class. Databases have them: other bytes need other versions of tables.

ghost use Rattle.std.specs.Prelude.{◌≡◌, ◌∷◌, ◌++◌, IfOk, OnOk};
ghost use Rattle.std.specs.List.{list_all};
ghost use Rattle.std.specs.Option.{option_map};
ghost use Rattle.rr_io.specs.Sending.{Writes};
ghost use Rattle.rr_number.specs.AsNumbers.{as_number_text};
ghost use Rattle.rr_number.specs.Prefixes.{prefix_text};
ghost use Rattle.rr_object.specs.KeyOrders.{HasKeyParts};
ghost use Rattle.rr_object.specs.KeyTexts.{bytes_with, eight_digits, key_bytes, key_text};
ghost use Rattle.rr_object.specs.KeyTexts.{length_bytes, route_bytes, span_bytes};
ghost use Rattle.rr_object.specs.OldKeys.{four_digits, has_two_octets, numbers_among, numbers_in};
ghost use Rattle.rr_object.specs.OldKeys.{old_key_bytes};
ghost use Rattle.rr_object.specs.KeyParts.{digits_of, is_old_component};

use crate::key::Key;
use crate::laws::a_key_has_its_parts;
use rr_io::{Writer, write_pieces};
use rr_number::{AsNumber, Prefix, Span};
use std::alloc::{AllocError, Global};
use std::io;

/// The bytes of a number with eight digits, of a span of such, and of a route.
const NUMBER_LENGTH: usize = 8;

const SPAN_LENGTH: usize = NUMBER_LENGTH + 1 + NUMBER_LENGTH;

const ROUTE_LENGTH: usize = NUMBER_LENGTH + 1 + 2 + 1 + NUMBER_LENGTH;

impl Key {
    /// Writes the key, as `write_all` does, in the form of reports: a route as its prefix, a space
    /// and its origin (profile). The error is that a write failed: the writer has then taken the
    /// beginning of the text, and not all.
    pub fn print_to<W: Writer>(&self, writer: &mut W) -> io::Result<()>
        ensures { Writes (W.told writer.old) (W.told writer.new) (key_text self.now) result }
    {
        match self {
            Key::Mntner(name) => name.print_to(writer),
            Key::AsBlock(block) => block.print_to(writer),
            Key::AutNum(number) => number.print_to(writer),
            Key::Inetnum(span) => span.print_to(writer),
            Key::Route(prefix, origin) => print_route(*prefix, *origin, writer),
            Key::AsSet(name) => name.print_to(writer),
            Key::RouteSet(name) => name.print_to(writer),
        }
    }

    /// The bytes by which the keys of a class are ordered and stored (profile); the error is that
    /// memory ran out. In either case a name in the key is in upper case, and a set's name as it is
    /// printed, of whichever kind. The ends of a span are in order, both addresses or both AS
    /// numbers. A prefix has an address below 2^32, a length of at most 32 and no bit past its
    /// length. An AS number has 32 bits.
    pub fn bytes(&self, alloc: Global) -> Result<Vec<u8>, AllocError>
        ensures value { IfOk result (λ bytes. bytes.items ≡ key_bytes self.now) }
        ensures parts { HasKeyParts self.now }
    {
        a_key_has_its_parts(self);
        bytes_with(alloc, Digits::Eight, self)
    }

    /// The bytes of the key in tables of version 1 (profile); `None` where an AS number in it, also
    /// in a set's name, is above 65535. The error is that memory ran out.
    pub fn old_bytes(&self, alloc: Global) -> Result<Option<Vec<u8>>, AllocError>
        ensures { IfOk result
            (λ old. option_map (λ bytes. bytes.items) old ≡ old_key_bytes self.now) }
    {
        if has_old_bytes(self) {
            Ok(Some(bytes_with(alloc, Digits::Four, self)?))
        } else {
            Ok(None)
        }
    }
}

/// How many hexadecimal digits an AS number has.
#[derive(Clone, Copy, Debug)]
pub(crate) enum Digits {
    /// Four, for the lower two octets of it.
    Four,
    /// Eight.
    Eight,
}

/// The bytes of a key, with so many digits for an AS number.
fn bytes_with(alloc: Global, digits: Digits, key: &Key) -> Result<Vec<u8>, AllocError>
    ensures { IfOk result (λ bytes. bytes.items ≡ bytes_with (digits_of digits) key.now) }
{
    match key {
        Key::Mntner(name) => Vec::from_slice(alloc, name.as_bytes()),
        Key::AsBlock(block) => span_bytes(alloc, digits, block.span()),
        Key::AutNum(number) => number_bytes(alloc, digits, number.number()),
        Key::Inetnum(span) => span_bytes(alloc, Digits::Eight, *span),
        Key::Route(prefix, origin) => route_bytes(alloc, digits, *prefix, *origin),
        Key::AsSet(name) | Key::RouteSet(name) => Vec::from_slice(alloc, name.as_bytes()),
    }
}

/// Whether each AS number in the key has two octets.
fn has_old_bytes(key: &Key) -> bool
    ensures { result ≡ list_all has_two_octets (numbers_in key.now) }
{
    match key {
        Key::AsBlock(block) => {
            let span = block.span();
            has_two_octets(span.first()) && has_two_octets(span.last())
        }
        Key::AutNum(number) => has_two_octets(number.number()),
        Key::Route(_, origin) => has_two_octets(origin.number()),
        Key::AsSet(name) | Key::RouteSet(name) => numbers_have_two_octets(name.as_bytes()),
        Key::Mntner(_) | Key::Inetnum(_) => true,
    }
}

fn has_two_octets(number: u32) -> bool
    ensures { result ≡ has_two_octets number }
{
    number <= u32::from(u16::MAX)
}

/// Whether each AS number among the components of a set's name has two octets.
fn numbers_have_two_octets(name: &[u8]) -> bool
    ensures { result ≡ list_all has_two_octets (numbers_among name.now) }
{
    name.split(|b| *b == b':')
        .all(|component| is_old_component(component))
}

/// Whether a component of a set's name is no AS number of more than two octets.
fn is_old_component(component: &[u8]) -> bool
    ensures { result ≡ is_old_component component.now }
{
    match AsNumber::read(component) {
        Some(number) => has_two_octets(number.number()),
        None => true,
    }
}

/// Writes a route's prefix, a space and its origin.
fn print_route<W: Writer>(prefix: Prefix, origin: AsNumber, writer: &mut W) -> io::Result<()>
    ensures { Writes (W.told writer.old) (W.told writer.new)
        (prefix_text prefix ++ (32 ∷ as_number_text origin)) result }
{
    let prefix = prefix.text();
    let origin = origin.text();
    let pieces = [prefix.as_bytes(), b" ".as_slice(), origin.as_bytes()];
    write_pieces(writer, &pieces)
}

/// The lower two octets of a number as four hexadecimal digits in lower case.
fn four_digits(number: u32) -> [u8; 4]
    ensures { result ≡ four_digits number }
{
    let octets = number.to_be_bytes();
    let (_, low) = octets.split_at(2);
    let mut digits = [0; 4];
    match hex::encode_to_slice(low, &mut digits) {
        Ok(()) => digits,
        // Two octets have four digits.
        Err(_) => unreachable!(),
    }
}

/// A number as eight hexadecimal digits in lower case.
fn eight_digits(number: u32) -> [u8; 8]
    ensures { result ≡ eight_digits number }
{
    let mut digits = [0; 8];
    match hex::encode_to_slice(&number.to_be_bytes(), &mut digits) {
        Ok(()) => digits,
        // Four octets have eight digits.
        Err(_) => unreachable!(),
    }
}

/// Appends a number in so many digits. No clause says what the text has after memory ran out, here
/// and below.
fn push_digits(text: &mut Vec<u8>, digits: Digits, number: u32) -> Result<(), AllocError>
    ensures { OnOk result (text.new.items ≡ text.old.items ++ digits_of digits number) }
{
    match digits {
        Digits::Four => text.extend_from_slice(&four_digits(number)),
        Digits::Eight => text.extend_from_slice(&eight_digits(number)),
    }
}

/// Appends the length of a prefix as two decimal digits.
fn push_length(text: &mut Vec<u8>, prefix: Prefix) -> Result<(), AllocError>
    ensures { OnOk result (text.new.items ≡ text.old.items ++ length_bytes prefix.length) }
{
    let length = prefix.length();
    text.extend_from_slice(&[b'0' + length / 10, b'0' + length % 10])
}

fn number_bytes(alloc: Global, digits: Digits, number: u32) -> Result<Vec<u8>, AllocError>
    ensures { IfOk result (λ bytes. bytes.items ≡ digits_of digits number) }
{
    let mut bytes = Vec::with_capacity(alloc, NUMBER_LENGTH)?;
    push_digits(&mut bytes, digits, number)?;
    Ok(bytes)
}

fn span_bytes(alloc: Global, digits: Digits, span: Span) -> Result<Vec<u8>, AllocError>
    ensures { IfOk result (λ bytes. bytes.items ≡ span_bytes (digits_of digits) span) }
{
    let mut bytes = Vec::with_capacity(alloc, SPAN_LENGTH)?;
    push_digits(&mut bytes, digits, span.first())?;
    bytes.push(b'-')?;
    push_digits(&mut bytes, digits, span.last())?;
    Ok(bytes)
}

fn route_bytes(
    alloc: Global,
    digits: Digits,
    prefix: Prefix,
    origin: AsNumber,
) -> Result<Vec<u8>, AllocError>
    ensures { IfOk result
        (λ bytes. bytes.items ≡ route_bytes (digits_of digits) prefix origin) }
{
    let mut bytes = Vec::with_capacity(alloc, ROUTE_LENGTH)?;
    push_digits(&mut bytes, Digits::Eight, prefix.address().to_bits())?;
    bytes.push(b'/')?;
    push_length(&mut bytes, prefix)?;
    bytes.push(b'-')?;
    push_digits(&mut bytes, digits, origin.number())?;
    Ok(bytes)
}
