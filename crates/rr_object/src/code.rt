//! The codes of refused items: which verdicts give, and reports print.

ghost use Rattle.std.specs.Prelude.{◌≡◌, Some};
ghost use Rattle.rr_object.specs.Codes.{code_name};

use std::fmt;

/// Why an item of a submission is refused. Its name is printed in reports (profile).
#[derive(Clone, Copy, Debug, PartialEq, Eq, PartialOrd, Ord)]
pub enum Code {
    /// The text of the paragraph has a fault.
    E01,
    /// The class is unknown, or there is no attribute.
    E02,
    /// The key is bad; for a route also its origin.
    E03,
    /// A needed attribute is missing or has no item, or one that stands once is repeated.
    E04,
    /// An interpreted attribute has a bad value, or there is a `password` or a `delete`.
    E05,
    /// The source is not the registry's own.
    E06,
    /// The paragraph is too large.
    E07,
    /// A maintainer that the object names is not registered.
    E10,
    /// The `mnt-by` does not pass: that of the new object, or of the stored one if there is one.
    E11,
    /// No object covers the new one, or the parent of a set is not registered.
    E12,
    /// No closest object that covers the new one authorises it, or the parent of a set does not.
    E13,
    /// The origin has no aut-num.
    E14,
    /// The origin's aut-num does not authorise it.
    E15,
    /// The span crosses another one of its class.
    E16,
    /// Another object still names the maintainer.
    E17,
    /// There is no such object to delete.
    E18,
    /// Memory ran out.
    E90,
    /// The store failed.
    E91,
    /// The desk is stopped.
    E92,
}

impl Code {
    /// The code as reports print it: `E` and two digits.
    pub fn name(self) -> &'static str
        ensures { result.now ≡ code_name self }
    {
        match self {
            Code::E01 => "E01",
            Code::E02 => "E02",
            Code::E03 => "E03",
            Code::E04 => "E04",
            Code::E05 => "E05",
            Code::E06 => "E06",
            Code::E07 => "E07",
            Code::E10 => "E10",
            Code::E11 => "E11",
            Code::E12 => "E12",
            Code::E13 => "E13",
            Code::E14 => "E14",
            Code::E15 => "E15",
            Code::E16 => "E16",
            Code::E17 => "E17",
            Code::E18 => "E18",
            Code::E90 => "E90",
            Code::E91 => "E91",
            Code::E92 => "E92",
        }
    }
}

impl fmt::Display for Code {
    ghost output = { λ code. Some (code_name code) };

    fn fmt<W: fmt::Write>(&self, f: &mut fmt::Formatter<W>) -> fmt::Result {
        f.write_str(self.name())
    }
}
