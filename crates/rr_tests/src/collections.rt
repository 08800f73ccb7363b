//! Nests of spans, trees of prefixes and plain vectors, as one.
use rr_cover::{InsertFault, PrefixTree, SpanNest};
use rr_number::{Address, Prefix, Span};
use std::alloc::{AllocError, Global};

/// A collection of spans with values.
pub trait Collection {
    fn put(&mut self, span: Span, value: u32) -> Result<Option<u32>, InsertFault<u32>>;

    fn take(&mut self, span: Span) -> Option<u32>;

    fn is_crossed_by(&self, span: Span) -> bool;

    fn closest_to(&self, span: Span) -> Option<(Span, u32)>;

    fn spans_covering(&self, alloc: Global, span: Span) -> Result<Vec<Span>, AllocError>;
}

/// Whether a collection holds the span, which then is the closest to itself.
pub fn is_held<C: Collection>(collection: &C, span: Span) -> bool {
    match collection.closest_to(span) {
        Some((closest, _)) => closest == span,
        None => false,
    }
}

/// Spans in no order, which are scanned: the simplest way, with which the others are compared.
impl Collection for Vec<(Span, u32)> {
    fn put(&mut self, span: Span, value: u32) -> Result<Option<u32>, InsertFault<u32>> {
        if self.is_crossed_by(span) {
            return Err(InsertFault::Overlap(value));
        }
        let old = self.take(span);
        match self.push((span, value)) {
            Ok(()) => Ok(old),
            Err(_) => Err(InsertFault::Memory(value)),
        }
    }

    fn take(&mut self, span: Span) -> Option<u32> {
        let found = self.iter().find(|entry| entry.0 == span)?;
        let old = found.1;
        self.retain(|entry| entry.0 != span);
        Some(old)
    }

    fn is_crossed_by(&self, span: Span) -> bool {
        self.iter().any(|entry| entry.0.crosses(span))
    }

    fn closest_to(&self, span: Span) -> Option<(Span, u32)> {
        let mut closest: Option<(Span, u32)> = None;
        let mut least = u64::MAX;
        for entry in self.iter() {
            if entry.0.covers(span) && entry.0.size() < least {
                least = entry.0.size();
                closest = Some(*entry);
            }
        }
        closest
    }

    fn spans_covering(&self, alloc: Global, span: Span) -> Result<Vec<Span>, AllocError> {
        let held = self.iter().map(|entry| entry.0);
        let mut found: Vec<Span> = held.filter(|held| held.covers(span)).collect(alloc)?;
        found.sort_unstable();
        Ok(found)
    }
}

impl Collection for SpanNest<u32> {
    fn put(&mut self, span: Span, value: u32) -> Result<Option<u32>, InsertFault<u32>> {
        self.insert(span, value)
    }

    fn take(&mut self, span: Span) -> Option<u32> {
        self.remove(span)
    }

    fn is_crossed_by(&self, span: Span) -> bool {
        self.crosses(span)
    }

    fn closest_to(&self, span: Span) -> Option<(Span, u32)> {
        match self.closest(span) {
            Some((found, value)) => Some((found, *value)),
            None => None,
        }
    }

    fn spans_covering(&self, alloc: Global, span: Span) -> Result<Vec<Span>, AllocError> {
        self.covering(alloc, span)
    }
}

/// The prefix of a span that is one.
fn prefix_of(span: Span) -> Prefix {
    let bits = span.first() ^ span.last();
    let length = bits.leading_zeros().min(32) as u8;
    Prefix::new(Address::from_bits(span.first()), length)
}

/// Spans that are prefixes; those of the others may be any.
impl Collection for PrefixTree<u32> {
    fn put(&mut self, span: Span, value: u32) -> Result<Option<u32>, InsertFault<u32>> {
        match self.insert(prefix_of(span), value) {
            Ok(old) => Ok(old),
            Err(refused) => Err(InsertFault::Memory(refused.value)),
        }
    }

    fn take(&mut self, span: Span) -> Option<u32> {
        self.remove(prefix_of(span))
    }

    /// Prefixes never cross.
    fn is_crossed_by(&self, _span: Span) -> bool {
        false
    }

    fn closest_to(&self, span: Span) -> Option<(Span, u32)> {
        match self.closest(prefix_of(span)) {
            Some((found, value)) => Some((found.span(), *value)),
            None => None,
        }
    }

    fn spans_covering(&self, alloc: Global, span: Span) -> Result<Vec<Span>, AllocError> {
        let found = self.covering(alloc, span)?;
        found.iter().map(|prefix| prefix.span()).collect(alloc)
    }
}
