//! The printed text of an address, an AS number, an operator, or a value made of them, on the
//! stack: what `text` of these types gives.
ghost use Rattle.std.specs.Prelude.{◌≡◌, ◌+◌, ◌≤◌, [], ◌++◌, length};
ghost use Rattle.std.specs.Fmt.{decimal};
ghost use Rattle.rr_number.specs.NumberTextParts.{Appends};
ghost use Rattle.rr_number.specs.Shown.{Shows};

use arrayvec::ArrayString;
use itoa::Buffer;
use std::marker::Model;

/// The most bytes that a `NumberText` has. The longest, of a span of addresses, has 33 at most.
pub const NUMBER_SIZE: usize = 40;

/// The printed text of an address, an AS number, or a prefix, span, block, operator or range. It
/// has at most 40 bytes, which lie in the value itself, so printing takes no memory.
#[derive(Clone, Drop)]
pub struct NumberText {
    text: ArrayString<NUMBER_SIZE>,
}

impl Model for NumberText {
    ghost use Rattle.std.specs.Prelude.{ℕ, List};

    ghost Value = { List ℕ };

    ghost view = { λ t. t.text.bytes };
}

impl NumberText {
    /// The empty text.
    pub(crate) fn new() -> Self
        ensures { result ≡ [] }
    {
        NumberText {
            text: ArrayString::new(),
        }
    }

    /// Appends the piece. The whole must have at most 40 bytes.
    pub(crate) fn push_str(&mut self, piece: &str)
        requires { length self.old + length piece.now ≤ NUMBER_SIZE }
        ensures { self.new ≡ self.old ++ piece.now }
    {
        self.text.push_str(piece);
    }

    /// Appends the number's decimal digits. The whole must have at most 40 bytes.
    pub(crate) fn push_number(&mut self, number: u32)
        requires { length self.old + length (decimal number) ≤ NUMBER_SIZE }
        ensures { self.new ≡ self.old ++ decimal number }
    {
        let mut buffer = Buffer::new();
        self.text.push_str(buffer.format(number));
    }

    /// Appends the decimal digits of a number below 256, at most three. There must be room for
    /// three.
    #[tactic(auto, using(crate::proofs::Decimals::three_digits))]
    pub(crate) fn push_byte(&mut self, number: u8)
        requires { length self.old + 3 ≤ NUMBER_SIZE }
        ensures { Appends 3 (decimal number) self.old self.new }
    {
        self.push_number(u32::from(number));
    }

    /// The text, of at most 40 bytes.
    pub fn as_str(&self) -> &str
        ensures { Shows (λ text. length text ≤ NUMBER_SIZE) self.now self.now result.now }
    {
        self.text.as_str()
    }

    /// The bytes of the text, at most 40.
    pub fn as_bytes(&self) -> &[u8]
        ensures { Shows (λ text. length text ≤ NUMBER_SIZE) self.now self.now result.now }
    {
        self.text.as_str().as_bytes()
    }
}
