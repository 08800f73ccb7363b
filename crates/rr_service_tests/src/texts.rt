//! Texts of objects, as dumps have them, and requests and queries with their reports and answers.
use std::alloc::Global;
use std::test::Fail;

/// The root maintainer of the built-in settings.
const ROOT: &str = "\
mntner:         ROOT-MNT
auth:           SHA256-PW a:ba7816bf8f01cfea414140de5dae2223b00361a396177a9cb410ff61f20015ad
mnt-by:         ROOT-MNT
source:         TEST

";

/// The 16-bit AS numbers.
const NUMBERS: &str = "\
as-block:       AS0 - AS65535
mnt-by:         ROOT-MNT
source:         TEST

";

/// The AS numbers of more than 16 bits.
const FOUR_OCTETS: &str = "\
as-block:       AS65536 - AS4294967295
mnt-by:         ROOT-MNT
source:         TEST

";

/// All addresses.
const ADDRESSES: &str = "\
inetnum:        0.0.0.0 - 255.255.255.255
mnt-by:         ROOT-MNT
source:         TEST

";

pub const TEN: &str =
    "inetnum:        10.0.0.0/8\nmnt-by:         ROOT-MNT\nsource:         TEST\n\n";

const ELEVEN: &str =
    "inetnum:        11.0.0.0/8\nmnt-by:         ROOT-MNT\nsource:         TEST\n\n";

const TWELVE: &str =
    "inetnum:        12.0.0.0/8\nmnt-by:         ROOT-MNT\nsource:         TEST\n\n";

/// The objects that a registry of the built-in settings opens with, and the three inetnums after
/// them.
const KEPT: [&str; 7] = [ROOT, NUMBERS, FOUR_OCTETS, ADDRESSES, TEN, ELEVEN, TWELVE];

/// A submission of three inetnums of the root, with its secret.
pub const THREE: &str = "\
password: bc

inetnum: 10.0.0.0/8
mnt-by: ROOT-MNT
source: TEST

inetnum: 11.0.0.0/8
mnt-by: ROOT-MNT
source: TEST

inetnum: 12.0.0.0/8
mnt-by: ROOT-MNT
source: TEST
";

/// The report on it.
pub const THREE_ADDED: &str = "\
1 inetnum 10.0.0.0 - 10.255.255.255: added
2 inetnum 11.0.0.0 - 11.255.255.255: added
3 inetnum 12.0.0.0 - 12.255.255.255: added
% items 3
";

/// The full dump of a registry with the opening objects and so many of the three inetnums.
pub fn full_dump(alloc: Global, added: usize) -> Result<String, Fail> {
    let objects = KEPT.get(..added.saturating_add(4)).ok_or("no such number")?;
    let mut text = String::new(alloc);
    for object in objects {
        text.push_str(object)?;
    }
    let count = objects.len();
    Ok(format!(in alloc; "{text}% end {count}\n")?)
}

/// A request with a submission of an inetnum, of one whose prefix is too long, and of an AS number,
/// which has 160 bytes.
pub const POSTED: &str = "\
POST /submissions HTTP/1.1\r
Content-Length: 160\r
\r
password: bc

inetnum: 10.0.0.0/8
mnt-by: ROOT-MNT
source: TEST

inetnum: 10.0.0.0/40
mnt-by: ROOT-MNT
source: TEST

aut-num: AS1
mnt-by: ROOT-MNT
source: TEST
";

/// The report on it.
pub const POSTED_REPORT: &str = "\
1 inetnum 10.0.0.0 - 10.255.255.255: added
2 -: refused E03
3 aut-num AS1: added
% items 3
";

/// The query for the inetnum that is submitted.
pub const EXACT: &str = "exact 10.0.0.0/8\r\n";
