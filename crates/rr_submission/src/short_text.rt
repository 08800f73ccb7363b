//! A short text while it is put together, on the stack: a line of a report, or a reply over HTTP
//! without an answer.

ghost use Rattle.std.specs.Prelude.{◌≡◌, ◌+◌, ◌≤◌, [], ◌++◌, decimal, length};

use arrayvec::ArrayVec;
use itoa::Buffer;
use std::marker::Model;

/// The most bytes of a short text: a line of a report, whose number, class, key and outcome have
/// fewer together, or a reply without an answer.
pub const SHORT_SIZE: usize = 320;

/// The bytes of a short text so far, which take no memory beside the value itself; contracts see
/// the list of them.
#[derive(Drop)]
pub struct ShortText {
    bytes: ArrayVec<u8, SHORT_SIZE>,
}

impl Model for ShortText {
    ghost use Rattle.std.specs.Prelude.{List, ℕ};

    ghost Value = { List ℕ };

    ghost view = { λ text. text.bytes.items };
}

impl ShortText {
    /// A text of no bytes.
    pub fn new() -> ShortText
        ensures { result ≡ [] }
    {
        ShortText {
            bytes: ArrayVec::new(),
        }
    }

    /// The bytes of the text.
    pub fn as_bytes(&self) -> &[u8]
        ensures { result.now ≡ self.now }
    {
        self.bytes.as_slice()
    }

    /// Appends a piece, for which there must be room: a text has at most 320 bytes. It is then
    /// longer by those of the piece.
    pub fn push(&mut self, piece: &[u8])
        requires { length self.old + length piece.now ≤ SHORT_SIZE }
        ensures value { self.new ≡ self.old ++ piece.now }
        ensures longer { length self.new ≡ length self.old + length piece.now }
    {
        match self.bytes.try_extend_from_slice(piece) {
            Ok(()) => {}
            // There is room for it.
            Err(_) => unreachable!(),
        }
    }

    /// Appends a number in decimal digits, which are at most 20; there must be room for 20,
    /// whatever the number.
    pub fn push_number(&mut self, number: u64)
        requires { length self.old + 20 ≤ SHORT_SIZE }
        ensures value { self.new ≡ self.old ++ decimal number }
        ensures short { length self.new ≤ length self.old + 20 }
    {
        let mut buffer = Buffer::new();
        self.push(buffer.format(number).as_bytes());
    }
}
