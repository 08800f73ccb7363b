//! Prefixes, operators and addresses as text, and texts that no use of the program hands to a
//! reader of numbers.
use rr_io::{Counted, Cut};
use rr_number::*;
use std::test::Fail;

#[test]
fn blanks_round_a_text_are_refused(rt: HostRuntime) {
    assert!(rt; read_ranged(b"10.0.0.0/8^+ ").is_none());
    assert!(rt; Span::read(b" 10.0.0.0 - 10.0.0.1").is_none());
    assert!(rt; Span::read(b"10.0.0.0 - 10.0.0.1 ").is_none());
    assert!(rt; AsSpan::read(b" AS10 - AS20").is_none());
    assert!(rt; AsSpan::read(b"AS10 - AS20 ").is_none());
}

#[test]
fn addresses_prefixes_and_operators_are_written(rt: HostRuntime) -> Result<(), Fail> {
    let (prefix, operator) = read_ranged(b"10.1.0.0/16^24").ok_or("no range")?;
    let text = prefix.text();
    assert_eq!(rt; text.as_bytes(), &b"10.1.0.0/16"[..]);
    let address = prefix.address().text();
    assert_eq!(rt; address.as_bytes(), &b"10.1.0.0"[..]);
    let operator = operator.text();
    assert_eq!(rt; operator.as_bytes(), &b"^24"[..]);
    Ok(())
}

#[test]
fn printing_stops_where_the_writer_fails(rt: HostRuntime) -> Result<(), Fail> {
    let span = Span::read(b"10.1.0.0/16").ok_or("no span")?;
    let mut short = Cut::new(Counted::new(Vec::new(rt.alloc())), 3, 5);
    assert!(rt; span.print_to(&mut short).is_err());
    assert_eq!(rt; short.into_inner().into_inner().as_slice(), &b"10.1."[..]);
    Ok(())
}

#[test]
fn prefixes_and_operators_are_formatted(rt: HostRuntime) -> Result<(), Fail> {
    let (prefix, operator) = read_ranged(b"10.1.0.0/16^24").ok_or("no range")?;
    let text = format!(in rt.alloc(); "{prefix} {operator} {:>9}", prefix.address())?;
    assert_eq!(rt; text.as_str(), "10.1.0.0/16 ^24  10.1.0.0");
    Ok(())
}
