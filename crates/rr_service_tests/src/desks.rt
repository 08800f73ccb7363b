//! What the tests do with a desk, and desks over databases in memory.

use crate::memory_peers::{MemoryInput, MemoryPeers};
use crate::texts::full_dump;
use rr_desk::{
    ConnFault, CreateFault, Desk, DeskDumpFault, Done, Served, Settings, SubmissionFault,
    WriteFault, serve_all,
};
use rr_http::{Both, Registrar, serve_one};
use rr_io::{Counted, Cut, Reader, Writer};
use rr_store::IdleConnection;
use sqlite::{Alter, Connection, Error};
use std::alloc::{AllocError, Global};
use std::process::Abort;
use std::test::Fail;

/// What comes of a submission: the answer, the bytes of the report, and how many bytes of the text
/// were not read.
#[derive(Drop)]
pub struct Submitted {
    pub answer: Result<Done, SubmissionFault>,
    pub report: Vec<u8>,
    pub left: usize,
}

/// What the tests do with a desk. No call promises anything, so what uses a desk by this trait is
/// soon proved.
pub trait Office: Sized {
    /// Submits a text whose reads fail after so many bytes, with a report whose writes fail after
    /// others.
    fn submitted(&mut self, alloc: Global, text: &str, given: usize, room: usize) -> Submitted;

    /// The number of the error that is answered to a query, and the answer.
    fn answered(&mut self, alloc: Global, query: &str) -> Result<(u8, Vec<u8>), Fail>;

    /// What is answered to the full dump, and the bytes of it.
    fn dumped(&self, alloc: Global) -> (Result<usize, DeskDumpFault>, Vec<u8>);

    /// How the serving of a connection ends, and what it is answered.
    fn served(&mut self, alloc: Global, input: MemoryInput<'_>) -> (Result<(), ConnFault>, Vec<u8>);

    /// Takes so many turns of these connections: how many were served and failed, and the
    /// connections.
    fn turned<'a>(
        &mut self,
        alloc: Global,
        inputs: &'a [MemoryInput<'a>],
        count: u64,
    ) -> Result<(Served, MemoryPeers<'a>), AllocError>;

    /// Whether a fault of the store stopped it.
    fn stopped(&self) -> bool;

    /// The error of the database that stopped it.
    fn cause(&self) -> Option<Error>;

    /// The same desk, opened again.
    fn begun_again(self, alloc: Global) -> Result<Self, Fail>;

    /// The desk that its database keeps, closed and opened again, after these statements.
    fn after(self, alloc: Global, statements: &[&str]) -> Result<Self, Fail>;

    /// Why no other desk is made in its place.
    fn refused_another(self, alloc: Global) -> Result<Option<CreateFault>, Fail>;
}

/// What is tried with a desk, wherever its tables are kept.
pub trait Trial {
    /// Tries it, and asserts what comes of it.
    fn tried<D: Office + Drop, R: Abort + AllocGlobal>(&self, rt: &R, desk: D) -> Result<(), Fail>;
}

impl<S: Alter + Drop> Office for Desk<S> {
    fn submitted(&mut self, alloc: Global, text: &str, given: usize, room: usize) -> Submitted {
        let mut reader = Cut::new(Counted::new(text.as_bytes()), 7, given);
        let mut writer = Cut::new(Counted::new(Vec::new(alloc)), 5, room);
        let answer = submit(alloc, self, &mut reader, &mut writer);
        let left = reader.into_inner().into_inner().len();
        let report = writer.into_inner().into_inner();
        Submitted {
            answer,
            report,
            left,
        }
    }

    fn answered(&mut self, alloc: Global, query: &str) -> Result<(u8, Vec<u8>), Fail> {
        let mut writer = Counted::new(Vec::new(alloc));
        let error = answer(alloc, self, query, &mut writer)?;
        Ok((error, writer.into_inner()))
    }

    fn dumped(&self, alloc: Global) -> (Result<usize, DeskDumpFault>, Vec<u8>) {
        let mut writer = Counted::new(Vec::new(alloc));
        let count = self.dump(alloc, &mut writer, true);
        (count, writer.into_inner())
    }

    fn served(
        &mut self,
        alloc: Global,
        input: MemoryInput<'_>,
    ) -> (Result<(), ConnFault>, Vec<u8>) {
        connected(alloc, self, input)
    }

    fn turned<'a>(
        &mut self,
        alloc: Global,
        inputs: &'a [MemoryInput<'a>],
        count: u64,
    ) -> Result<(Served, MemoryPeers<'a>), AllocError> {
        let mut peers = MemoryPeers::new(alloc, inputs)?;
        let served = serve_all(alloc, self, &mut peers, &Both, count);
        Ok((served, peers))
    }

    fn stopped(&self) -> bool {
        Desk::stopped(self)
    }

    fn cause(&self) -> Option<Error> {
        Desk::cause(self)
    }

    fn begun_again(self, alloc: Global) -> Result<Desk<S>, Fail> {
        opened(alloc, self.close().into_connection())
    }

    fn after(self, alloc: Global, statements: &[&str]) -> Result<Desk<S>, Fail> {
        opened(alloc, executed(self.close().into_connection(), statements)?)
    }

    fn refused_another(self, alloc: Global) -> Result<Option<CreateFault>, Fail> {
        Ok(created(alloc, self.close().into_connection())?.err())
    }
}

/// Submits what the reader gives, and writes the report. Like the two calls after it, it promises
/// nothing, so that long contracts are not met over readers and writers of many parts.
fn submit<S: Alter, R: Reader, W: Writer>(
    alloc: Global,
    desk: &mut Desk<S>,
    reader: &mut R,
    writer: &mut W,
) -> Result<Done, SubmissionFault> {
    desk.submit(alloc, reader, writer)
}

/// Answers a query: the number of the error.
fn answer<S: Alter, W: Writer>(
    alloc: Global,
    desk: &Desk<S>,
    query: &str,
    writer: &mut W,
) -> Result<u8, WriteFault> {
    Ok(desk.answer(alloc, query.as_bytes(), writer)?.error)
}

/// Serves a connection.
fn serve<D: Registrar, C: rr_io::Connection>(
    alloc: Global,
    desk: &mut D,
    connection: &mut C,
) -> Result<(), ConnFault> {
    serve_one(alloc, desk, connection)
}

/// How the serving of a connection ends, and what it is answered.
fn connected<D: Registrar>(
    alloc: Global,
    desk: &mut D,
    input: MemoryInput<'_>,
) -> (Result<(), ConnFault>, Vec<u8>) {
    let mut connection = input.connection(alloc);
    let end = serve(alloc, desk, &mut connection);
    let (_, writer) = connection.into_parts();
    (end, writer.into_inner().into_inner())
}

/// The desk, or why there is none.
fn desk_of<S: Alter + Drop, E: Drop>(
    found: Result<Desk<S>, (E, IdleConnection<S>)>,
) -> Result<Desk<S>, E> {
    match found {
        Ok(desk) => Ok(desk),
        Err((fault, _conn)) => Err(fault),
    }
}

/// The database after these statements.
fn executed<S: Alter + Drop>(
    mut conn: Connection<S>,
    statements: &[&str],
) -> Result<Connection<S>, Fail> {
    for statement in statements {
        let _count = conn.execute(statement, &[])?;
    }
    Ok(conn)
}

/// The database, which is in no transaction.
fn settled<S: Alter + Drop>(conn: Connection<S>) -> Result<IdleConnection<S>, Fail> {
    if conn.is_autocommit() {
        Ok(IdleConnection::of(conn))
    } else {
        Err("in a transaction".into())
    }
}

/// The desk that this database keeps.
fn opened<S: Alter + Drop>(alloc: Global, conn: Connection<S>) -> Result<Desk<S>, Fail> {
    let conn = settled(conn)?;
    let settings = Settings::built_in(alloc)?;
    Ok(desk_of(Desk::open(alloc, conn, settings))?)
}

/// A new desk in this database, or why none is made there.
fn created<S: Alter + Drop>(
    alloc: Global,
    conn: Connection<S>,
) -> Result<Result<Desk<S>, CreateFault>, Fail> {
    let conn = settled(conn)?;
    let settings = Settings::built_in(alloc)?;
    Ok(desk_of(Desk::create(alloc, conn, settings)))
}

/// Tries this with a new desk in this database.
pub fn try_in<S: Alter + Drop, T: Trial, R: Abort + AllocGlobal>(
    rt: &R,
    conn: Connection<S>,
    trial: &T,
) -> Result<(), Fail> {
    trial.tried(rt, created(rt.alloc(), conn)??)
}

/// Tries this with a new desk over a database in memory.
pub fn try_new<T: Trial, R: Abort + AllocGlobal>(rt: &R, trial: &T) -> Result<(), Fail> {
    try_in(rt, Connection::open_in_memory(rt.alloc())?, trial)
}

/// Asserts that these are the bytes of a text.
pub fn expect_text<R: Abort>(rt: &R, found: &[u8], wanted: &str) -> Result<(), Fail> {
    assert_eq!(rt; str::from_utf8(found)?, wanted);
    Ok(())
}

/// Asserts what is answered to a text whose reads fail after so many bytes, and the report.
pub fn expect_report<D: Office, R: Abort + AllocGlobal>(
    rt: &R,
    desk: &mut D,
    (text, given): (&str, usize),
    wanted: Result<Done, SubmissionFault>,
    report: &str,
) -> Result<(), Fail> {
    let found = desk.submitted(rt.alloc(), text, given, usize::MAX);
    assert_eq!(rt; found.answer, wanted);
    expect_text(rt, &found.report, report)
}

/// Asserts that a desk keeps the opening objects, and so many of the three inetnums.
pub fn expect_kept<D: Office, R: Abort + AllocGlobal>(
    rt: &R,
    desk: &D,
    added: usize,
) -> Result<(), Fail> {
    let (count, dump) = desk.dumped(rt.alloc());
    assert_eq!(rt; count, Ok(added.saturating_add(4)));
    let wanted = full_dump(rt.alloc(), added)?;
    expect_text(rt, &dump, wanted.as_str())
}
