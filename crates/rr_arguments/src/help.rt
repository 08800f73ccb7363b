//! What `--help` says of the program and of each command, each with an example: `grammar` gives it
//! to clap. No line has more than 79 columns.

/// What the program is.
pub const PROGRAM: &str = "An Internet routing registry for IPv4 (RFC 2622, RFC 2725).

Without a command it submits standard input to a registry in memory, of which
nothing lasts, and prints the report. The root maintainer of that registry is
ROOT-MNT, whose password `bc` is published.";

/// The program by an example, and its statuses.
pub const PROGRAM_EXAMPLE: &str = "Example, with the settings in irr.toml:
  irrdesk init irr.toml
  irrdesk submit irr.toml objects.rpsl
  irrdesk query irr.toml 10.1.2.3
`irrdesk help COMMAND` shows each command by an example.

irr.toml has the name of the registry, its root maintainer with the salt and
the hash of its password, the most names that an expansion of a set may reach,
and the path of the database:
  source = \"TEST\"
  root = \"ROOT-MNT\"
  auth = \"SHA256-PW salt:hash\"
  limit = 10000
  store = \"irr.db\"
This prints the value of `auth` for the salt `salt` and the password `secret`:
  printf 'SHA256-PW salt:%.64s\\n' \"$(printf %s saltsecret | sha256sum)\"

Status:
  0  done
  1  an item was refused, or an answer is an error
  2  wrong arguments
  3  the settings
  4  the database
  5  a file, a stream, a socket, memory, or a dump that is not loaded";

/// What `init` does.
pub const INIT: &str = "Makes the database of a registry, with its initial objects";

/// `init` by an example.
pub const INIT_EXAMPLE: &str = "Example:
  irrdesk init irr.toml
prints `created 4 objects`: the root maintainer and what it maintains, the two
blocks of all AS numbers and the inetnum of all addresses. The database is to
be new; `irrdesk load` makes one from a dump.";

/// What `submit` does.
pub const SUBMIT: &str = "Submits a file, item by item, and prints the report";

/// `submit` by an example.
pub const SUBMIT_EXAMPLE: &str =
    "Example, with the root's password `bc` and this in objects.rpsl, where each
line begins in the first column:
  password: bc

  inetnum:  10.0.0.0/8
  mnt-by:   ROOT-MNT
  source:   TEST
the command
  irrdesk submit irr.toml objects.rpsl
prints
  1 inetnum 10.0.0.0 - 10.255.255.255: added
  % items 1
Each item is in the database before its line is printed. An object with the
key of a registered one changes it; with an attribute `delete` it deletes that
one. FILE may be /dev/stdin.";

/// What `query` does.
pub const QUERY: &str = "Asks the registry, and prints the answer";

/// `query` by examples.
pub const QUERY_EXAMPLE: &str = "Examples:
  irrdesk query irr.toml 10.1.2.3             the closest inetnum and routes
  irrdesk query irr.toml exact 10.0.0.0/8     those of exactly this prefix
  irrdesk query irr.toml less 10.0.0.0/8      those around it, and its own
  irrdesk query irr.toml more 10.0.0.0/8      those inside it, and its own
  irrdesk query irr.toml AS1                  the aut-num; so with the name of
                                              a maintainer or a set
  irrdesk query irr.toml object route 10.0.0.0/8 AS1
  irrdesk query irr.toml inverse mnt A-MNT    what names a maintainer
  irrdesk query irr.toml inverse origin AS1   the routes of an AS
  irrdesk query irr.toml expand AS-X          the members of a set
  irrdesk query irr.toml prefixes AS-X        the prefixes of a set
These are not errors: `% no entries`, if nothing was found; `% empty`, if a set
that is registered gives nothing; and `% missing NAME`, if a set that is named
on the way is not registered. An error is one line `% error n` with
status 1: 1 is a bad query, 2 one over 1024 bytes, 3 an expansion over the
limit, 4 memory, 5 the database, 6 one that failed before.";

/// What `dump` does.
pub const DUMP: &str = "Prints all objects, by class and key, and their number";

/// `dump` by an example.
pub const DUMP_EXAMPLE: &str = "Example, a backup:
  irrdesk dump irr.toml --full > backup.rpsl
A whole dump ends in a line `% end n`. One without --full shows `# filtered`
as each value of `auth`, and cannot be loaded.";

/// What `load` does.
pub const LOAD: &str = "Makes a registry from a full dump, in a new database";

/// `load` by an example.
pub const LOAD_EXAMPLE: &str = "Example, with another `store` in the settings new.toml:
  tail -n 1 backup.rpsl
  irrdesk load new.toml backup.rpsl
prints `% end n`, and `loaded n objects`. All of it is loaded, or nothing. A
dump that was cut between two objects also loads: if its last line is not
`% end n`, it is not whole.";

/// What `migrate` does.
pub const MIGRATE: &str = "Migrates a database of version 1, with 16-bit AS numbers";

/// `migrate` by an example.
pub const MIGRATE_EXAMPLE: &str =
    "There is no way back, so copy the database first, with the log that may lie
beside it:
  mkdir kept
  cp irr.db* kept/
  irrdesk migrate irr.toml
prints `migrated to version 2`, which has 32-bit AS numbers.";

/// What `serve` does.
pub const SERVE: &str = "Answers whois and HTTP on a port of 127.0.0.1, one client at a time";

/// `serve` by an example.
pub const SERVE_EXAMPLE: &str = "Example, for a thousand connections:
  irrdesk serve irr.toml --port 4343 --count 1000
and from elsewhere on the same machine:
  whois -h 127.0.0.1 -p 4343 10.1.2.3
  curl http://127.0.0.1:4343/query/AS1
  curl http://127.0.0.1:4343/dump
  curl --data-binary @objects.rpsl http://127.0.0.1:4343/submissions
At the end it prints how many connections were served, and how many failed. It
listens on 127.0.0.1 alone, nothing on it is encrypted, and no other program
can use the database meanwhile.";

/// What `probe` does.
pub const PROBE: &str = "Opens the registry, and answers itself one whois query";

/// `probe` by an example.
pub const PROBE_EXAMPLE: &str = "Example:
  irrdesk probe irr.toml
prints the root maintainer of irr.toml, with `# filtered` as the value of its
`auth`: the registry can be opened and served.";
