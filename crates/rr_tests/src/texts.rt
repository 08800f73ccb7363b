//! The text that registries begin with.

/// The objects that a registry of the built-in settings opens with.
pub const OPENING: &str = "\
mntner:         ROOT-MNT
auth:           SHA256-PW a:ba7816bf8f01cfea414140de5dae2223b00361a396177a9cb410ff61f20015ad
mnt-by:         ROOT-MNT
source:         TEST

as-block:       AS0 - AS65535
mnt-by:         ROOT-MNT
source:         TEST

as-block:       AS65536 - AS4294967295
mnt-by:         ROOT-MNT
source:         TEST

inetnum:        0.0.0.0 - 255.255.255.255
mnt-by:         ROOT-MNT
source:         TEST

";
