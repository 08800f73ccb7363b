//! How a key is printed in a line of a report, for `report_line`.

ghost use Rattle.std.specs.Prelude.{◌≡◌, ◌+◌, ◌≤◌, ◌∷◌, ◌++◌, length};
ghost use Rattle.rr_number.specs.AsNumbers.{as_number_text};
ghost use Rattle.rr_number.specs.Prefixes.{prefix_text};
ghost use Rattle.rr_number.specs.SetNames.{set_name_limit};
ghost use Rattle.rr_object.specs.KeyTexts.{key_text};

use crate::short_text::{SHORT_SIZE, ShortText};
use rr_number::{AsNumber, Prefix};
use rr_object::Key;

impl ShortText {
    /// Appends a key as reports print it, at most 255 bytes; there must be room for so many.
    #[tactic(auto, using(crate::proofs::LineSizes::key_short))]
    pub(crate) fn push_key(&mut self, key: &Key)
        requires { length self.old + set_name_limit ≤ SHORT_SIZE }
        ensures value { self.new ≡ self.old ++ key_text key.now }
        ensures short { length self.new ≤ length self.old + set_name_limit }
    {
        match key {
            Key::Mntner(name) => self.push(name.as_bytes()),
            Key::AsBlock(block) => self.push(block.text().as_bytes()),
            Key::AutNum(number) => self.push(number.text().as_bytes()),
            Key::Inetnum(span) => self.push(span.text().as_bytes()),
            Key::Route(prefix, origin) => self.push_route(*prefix, *origin),
            Key::AsSet(name) => self.push(name.as_bytes()),
            Key::RouteSet(name) => self.push(name.as_bytes()),
        }
    }

    /// Appends a route: its prefix and its origin, at most 40 bytes each, and a space.
    fn push_route(&mut self, prefix: Prefix, origin: AsNumber)
        requires { length self.old + 81 ≤ SHORT_SIZE }
        ensures value { self.new
            ≡ self.old ++ (prefix_text prefix ++ (32 ∷ as_number_text origin)) }
        ensures short { length self.new ≤ length self.old + 81 }
    {
        self.push(prefix.text().as_bytes());
        self.push(b" ");
        self.push(origin.text().as_bytes());
    }
}
