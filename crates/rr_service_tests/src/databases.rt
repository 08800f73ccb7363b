//! What the tests do with the store in a database, and texts of its objects.

use rr_number::Name;
use rr_object::Object;
use rr_store::{CreateFault, IdleConnection, MigrateFault, OpenFault, Store};
use rr_text::{next_paragraph, print_onto};
use sqlite::{Alter, Connection, Error};
use sqlite_value::value::ValueRef;
use std::alloc::Global;
use std::process::Abort;
use std::test::Fail;

pub const HOLDER: &str = "\
mntner:         A-MNT
auth:           SHA256-PW ab:ba7816bf8f01cfea414140de5dae2223b00361a396177a9cb410ff61f20015ad
mnt-by:         A-MNT
source:         TEST
";

pub const ROOT: &str = "\
mntner:         ROOT-MNT
auth:           SHA256-PW a:ba7816bf8f01cfea414140de5dae2223b00361a396177a9cb410ff61f20015ad
mnt-by:         ROOT-MNT
source:         TEST
";

pub const WHOLE: &str = "\
inetnum:        0.0.0.0 - 255.255.255.255
mnt-by:         ROOT-MNT
source:         TEST
";

pub const TEN: &str = "\
inetnum:        10.0.0.0 - 10.255.255.255
mnt-by:         A-MNT
source:         TEST
";

/// The same inetnum, which the root maintains in place of the other maintainer.
pub const MOVED: &str = "\
inetnum:        10.0.0.0 - 10.255.255.255
mnt-by:         ROOT-MNT
source:         TEST
";

/// The block of 16-bit AS numbers.
pub const NUMBERS: &str = "\
as-block:       AS0 - AS65535
mnt-by:         ROOT-MNT
source:         TEST
";

/// The class of a row of version 1, its key, its object, and the maintainer that this names.
pub type OldRow = (i64, &'static str, &'static str, &'static str);

/// What the tests do with a database. No call promises anything, so what uses a database by this
/// trait is soon proved.
pub trait Database: Sized {
    /// Executes a statement; answers with the number of the rows that it changed.
    fn run(&mut self, sql: &str) -> Result<usize, Error>;

    /// Adds the rows of an object to tables of version 1.
    fn add(&mut self, row: OldRow) -> Result<(), Error>;

    /// The texts in the first column of what a statement selects, each with a bar after it.
    fn texts(&mut self, alloc: Global, sql: &str) -> Result<Vec<u8>, Fail>;

    /// Makes a store of the four objects.
    fn created(self, alloc: Global) -> Result<(Option<CreateFault>, Self), Fail>;

    /// The objects with which the store is opened for a source.
    fn opened(
        self,
        alloc: Global,
        source: &str,
    ) -> Result<(Result<Vec<u8>, OpenFault>, Self), Fail>;

    /// Puts an object into the store, and takes out another.
    fn changed(self, alloc: Global, put: &str, removed: &str) -> Result<Self, Fail>;

    /// Makes a store of the four objects, puts the moved one in place of its old text, and takes it
    /// out, while the disk lets it: how many of the three were done.
    fn written(self, alloc: Global) -> Result<(usize, Self), Fail>;

    /// Migrates tables of version 1, with this root.
    fn migrated(self, alloc: Global, root: &str) -> Result<(Option<MigrateFault>, Self), Fail>;

    /// The objects of tables of version 1.
    fn old_objects(self, alloc: Global) -> Result<(Vec<u8>, Self), Fail>;
}

impl<S: Alter + Drop> Database for Connection<S> {
    fn run(&mut self, sql: &str) -> Result<usize, Error> {
        self.execute(sql, &[])
    }

    fn add(&mut self, row: OldRow) -> Result<(), Error> {
        let (class, key, body, maintainer) = row;
        let key = ValueRef::Text(key.as_bytes());
        let object = [ValueRef::Int(class), key, ValueRef::Blob(body.as_bytes())];
        let named = [
            ValueRef::Text(maintainer.as_bytes()),
            ValueRef::Int(class),
            key,
        ];
        let _object = self.execute(
            "INSERT INTO object (class, okey, body) VALUES (?1, ?2, ?3)",
            &object,
        )?;
        let _named = self.execute(
            "INSERT INTO named (maintainer, class, okey) VALUES (?1, ?2, ?3)",
            &named,
        )?;
        Ok(())
    }

    fn texts(&mut self, alloc: Global, sql: &str) -> Result<Vec<u8>, Fail> {
        let rows = self.query_all(sql, &[])?;
        let mut texts = Vec::new(alloc);
        for row in &rows {
            texts.extend_from_slice(row.get::<String>(0)?.as_bytes())?;
            texts.push(b'|')?;
        }
        Ok(texts)
    }

    fn created(self, alloc: Global) -> Result<(Option<CreateFault>, Connection<S>), Fail> {
        match made(alloc, self)? {
            Ok(store) => Ok((None, store.close().into_connection())),
            Err((fault, conn)) => Ok((Some(fault), conn.into_connection())),
        }
    }

    fn opened(
        self,
        alloc: Global,
        source: &str,
    ) -> Result<(Result<Vec<u8>, OpenFault>, Connection<S>), Fail> {
        let source = name(alloc, source)?;
        match Store::open_all(alloc, settled(self)?, &source) {
            Ok((store, objects)) => Ok((
                Ok(text_of(alloc, &objects)?),
                store.close().into_connection(),
            )),
            Err((fault, conn)) => Ok((Err(fault), conn.into_connection())),
        }
    }

    fn changed(self, alloc: Global, put: &str, removed: &str) -> Result<Connection<S>, Fail> {
        let source = name(alloc, "TEST")?;
        let mut store = opened_alone(alloc, self, &source)?;
        exchange(alloc, &mut store, put, removed)?;
        Ok(store.close().into_connection())
    }

    fn written(self, alloc: Global) -> Result<(usize, Connection<S>), Fail> {
        match made(alloc, self)? {
            Ok(mut store) => {
                let done = put_and_removed(alloc, &mut store)?;
                Ok((done, store.close().into_connection()))
            }
            Err((_fault, conn)) => Ok((0, conn.into_connection())),
        }
    }

    fn migrated(
        self,
        alloc: Global,
        root: &str,
    ) -> Result<(Option<MigrateFault>, Connection<S>), Fail> {
        let root = name(alloc, root)?;
        let source = name(alloc, "TEST")?;
        match Store::migrate(alloc, settled(self)?, &root, &source) {
            Ok(store) => Ok((None, store.close().into_connection())),
            Err((fault, conn)) => Ok((Some(fault), conn.into_connection())),
        }
    }

    fn old_objects(self, alloc: Global) -> Result<(Vec<u8>, Connection<S>), Fail> {
        let source = name(alloc, "TEST")?;
        let mut conn = settled(self)?;
        let objects = Store::old_objects(alloc, &mut conn, &source)?;
        Ok((text_of(alloc, &objects)?, conn.into_connection()))
    }
}

/// The database, which is in no transaction.
fn settled<S: Alter + Drop>(conn: Connection<S>) -> Result<IdleConnection<S>, Fail> {
    if conn.is_autocommit() {
        Ok(IdleConnection::of(conn))
    } else {
        Err("in a transaction".into())
    }
}

/// A store of the four objects in this database, or why there is none, with the database.
type Made<S> = Result<Store<S>, (CreateFault, IdleConnection<S>)>;

fn made<S: Alter + Drop>(alloc: Global, conn: Connection<S>) -> Result<Made<S>, Fail> {
    let objects = four(alloc)?;
    let lent: Vec<&Object> = objects.iter().collect(alloc)?;
    Ok(Store::create(alloc, settled(conn)?, &lent))
}

/// Puts an object into the store, and takes out another.
fn exchange<S: Alter>(
    alloc: Global,
    store: &mut Store<S>,
    put: &str,
    removed: &str,
) -> Result<(), Fail> {
    if puts(alloc, store, put)? && removes(alloc, store, removed)? {
        Ok(())
    } else {
        Err("no change".into())
    }
}

/// Puts the moved object in place of its old text, and takes it out, while the disk lets it: how
/// many writes were done with the one that made the store.
fn put_and_removed<S: Alter>(alloc: Global, store: &mut Store<S>) -> Result<usize, Fail> {
    if !puts(alloc, store, MOVED)? {
        Ok(1)
    } else if !removes(alloc, store, MOVED)? {
        Ok(2)
    } else {
        Ok(3)
    }
}

/// Whether the object of this text is put into the store.
fn puts<S: Alter>(alloc: Global, store: &mut Store<S>, text: &str) -> Result<bool, Fail> {
    let object = object(alloc, text)?;
    Ok(store.put(alloc, &object).is_ok())
}

/// Whether the object of this text is taken out of the store.
fn removes<S: Alter>(alloc: Global, store: &mut Store<S>, text: &str) -> Result<bool, Fail> {
    let object = object(alloc, text)?;
    Ok(store.remove(alloc, object.key()).is_ok())
}

/// The store in this database, without the objects that come with it.
fn opened_alone<S: Alter + Drop>(
    alloc: Global,
    conn: Connection<S>,
    source: &Name,
) -> Result<Store<S>, Fail> {
    match Store::open_all(alloc, settled(conn)?, source) {
        Ok((store, _objects)) => Ok(store),
        Err((fault, _conn)) => Err(fault.into()),
    }
}

fn name(alloc: Global, text: &str) -> Result<Name, Fail> {
    Ok(Name::read(alloc, text.as_bytes())?.ok_or("no name")?)
}

/// The object of a text.
fn object(alloc: Global, text: &str) -> Result<Object, Fail> {
    let source = name(alloc, "TEST")?;
    let (paragraph, _end) = next_paragraph(alloc, text.as_bytes(), 0)?.ok_or("no object")?;
    Ok(Object::read(alloc, paragraph, &source)?)
}

/// The objects of four texts, not in the order of their keys.
fn four(alloc: Global) -> Result<Vec<Object>, Fail> {
    let mut objects = Vec::new(alloc);
    for text in [TEN, WHOLE, ROOT, HOLDER] {
        objects.push(object(alloc, text)?)?;
    }
    Ok(objects)
}

/// The canonical texts of objects, one after the other.
fn text_of(alloc: Global, objects: &[Object]) -> Result<Vec<u8>, Fail> {
    let mut text = Vec::new(alloc);
    for object in objects {
        print_onto(&mut text, object.paragraph())?;
    }
    Ok(text)
}

/// Whether the bytes are these texts, one after the other.
pub fn is_made_of(bytes: &[u8], texts: &[&str]) -> bool {
    let mut rest = bytes;
    for text in texts {
        if !rest.starts_with(text.as_bytes()) {
            return false;
        }
        let Some(after) = rest.get(text.len()..) else {
            return false;
        };
        rest = after;
    }
    rest.is_empty()
}

/// Asserts that the bytes are these texts, one after the other.
pub fn expect_texts<R: Abort>(rt: &R, bytes: &[u8], texts: &[&str]) -> Result<(), Fail> {
    let found = str::from_utf8(bytes)?;
    assert!(rt; is_made_of(bytes, texts), "found {found}");
    Ok(())
}
