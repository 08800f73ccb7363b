//! Why a query is not answered: the faults of `query_reading`, of `answering`, and of a desk.

ghost use Rattle.std.specs.Prelude.{◌≡◌};
ghost use Rattle.rr_answer.specs.Faults.{error_line, error_number};

use std::alloc::AllocError;

/// An error of a query, which is answered as the one line `% error n` (profile).
#[derive(Clone, Copy, Debug, PartialEq, Eq)]
pub enum QueryFault {
    /// 1: the text is not a query.
    Bad,
    /// 2: the text has more than 1,024 bytes.
    TooLong,
    /// 3: the expansion would go over the limit.
    TooMany,
    /// 4: memory ran out.
    Memory,
    /// 6: the desk is stopped.
    Stopped,
}

impl QueryFault {
    /// The number of the error: 1 to 4, or 6. Earlier versions gave 5 for a fault of the database.
    /// Clients know the numbers.
    pub fn number(self) -> u8
        ensures { result ≡ error_number self }
    {
        match self {
            QueryFault::Bad => 1,
            QueryFault::TooLong => 2,
            QueryFault::TooMany => 3,
            QueryFault::Memory => 4,
            QueryFault::Stopped => 6,
        }
    }

    /// The line that is answered: `% error`, a space and the number, with the LF that ends it.
    pub fn line(self) -> &'static [u8]
        ensures { result.now ≡ error_line self }
    {
        match self {
            QueryFault::Bad => b"% error 1\n",
            QueryFault::TooLong => b"% error 2\n",
            QueryFault::TooMany => b"% error 3\n",
            QueryFault::Memory => b"% error 4\n",
            QueryFault::Stopped => b"% error 6\n",
        }
    }
}

/// The fault is that memory ran out.
impl From<AllocError> for QueryFault {
    ghost use Rattle.std.specs.Prelude.{◌≡◌};
    ghost use Rattle.rr_answer.specs.declared.query_fault.QueryFault.TheVariants.{Memory};

    ghost from_gives = { λ _ fault. fault ≡ Memory };

    fn from(_refused: AllocError) -> QueryFault {
        QueryFault::Memory
    }
}
