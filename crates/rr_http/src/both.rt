//! Both protocols on one port, as the program serves a desk.

ghost use Rattle.rr_http.specs.DeskRegistrars.{serves_desk};

use crate::serving::serve_one;
use rr_desk::{ConnFault, Desk, Service};
use rr_io::Connection;
use sqlite::Alter;
use std::alloc::Global;

/// Serves whois and HTTP on one port, told apart by the first line of a connection (RFC 3912, RFC
/// 9112; profile). It serves each connection as `serve_one` does.
#[derive(Clone, Copy, Debug, PartialEq, Eq)]
pub struct Both;

impl Service for Both {
    ghost serves = { serves_desk };

    fn serve<S: Alter, C: Connection>(
        &self,
        alloc: Global,
        desk: &mut Desk<S>,
        conn: &mut C,
    ) -> Result<(), ConnFault> {
        let end = serve_one(alloc, desk, conn);
        prove!(desk.keeps_its_rows());
        end
    }
}
