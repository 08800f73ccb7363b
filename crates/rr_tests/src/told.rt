//! What is written, as its text.
use std::process::Abort;
use std::test::Fail;

/// Asserts that these are the bytes of a text.
pub fn expect_text<R: Abort + AllocGlobal>(
    rt: &R,
    found: &[u8],
    wanted: &str,
    shows: &str,
) -> Result<(), Fail> {
    assert_eq!(rt; str::from_utf8(found)?, wanted, "{shows}");
    Ok(())
}
