//! The sets and ASes to which a set refers, each with its operator: for `route_sets`.

ghost use Rattle.std.specs.Prelude.{◌≡◌, ◌↔◌, ◌++◌, ℕ, List, Contains, IfOk, map};
ghost use Rattle.std.specs.FinMap.{get};
ghost use Rattle.std.specs.List.{filter_map};
ghost use Rattle.std.specs.Option.{option_copied};
ghost use Rattle.rr_auth.specs.Registries.{LooksUp, Reg};
ghost use Rattle.rr_graph.specs.Answered.{ListsInOrder};
ghost use Rattle.rr_number.specs.declared.operator.Operator.{Operator};
ghost use Rattle.rr_object.specs.declared.member.MemberSet.{MemberSet};
ghost use Rattle.rr_sets.specs.MemberParts.{reference_of, number_reference, set_reference};
ghost use Rattle.rr_sets.specs.RouteSets.{AreReferences, AsSetRefers, FindsSet, Refers};
ghost use Rattle.rr_sets.specs.RouteSets.{RouteSetRefers};

use crate::as_sets::names_listed;
use crate::book::SetBook;
use crate::direct::direct_numbers;
use rr_graph::{Edge, put_in_order};
use rr_number::{AsNumber, Operator, SetKind, SetName};
use rr_object::{Key, Member, MemberSet, Object};
use std::alloc::{AllocError, Global};

/// A set or AS to which a set refers, with the operator of the reference.
pub type Reference = Edge<MemberSet, Operator>;

/// The sets and ASes to which the set refers, in ascending order: each once under each operator,
/// however often it is listed. An AS refers to none. `object` is the set's, if it is registered.
pub(crate) fn references_of<B: SetBook>(
    alloc: Global,
    book: &B,
    set: &MemberSet,
    object: Option<&Object>,
) -> Result<Vec<Reference>, AllocError>
    requires { FindsSet (B.contents book.now) set.now (option_copied object) }
    ensures { IfOk result (λ references. ListsInOrder ⟦<Edge<MemberSet, Operator> as Ord>⟧.cmp
        (λ e. Refers (B.contents book.now) set.now e.to e.label) references.items) }
{
    let mut references = all_references(alloc, book, set, object)?;
    put_in_order(&mut references);
    Ok(references)
}

/// The sets and ASes to which the set refers, where one may come twice.
fn all_references<B: SetBook>(
    alloc: Global,
    book: &B,
    set: &MemberSet,
    object: Option<&Object>,
) -> Result<Vec<Reference>, AllocError>
    requires { FindsSet (B.contents book.now) set.now (option_copied object) }
    ensures { IfOk result
        (λ references. AreReferences (B.contents book.now) set.now references.items) }
{
    match set {
        MemberSet::AutNum(_) => Ok(Vec::new(alloc)),
        MemberSet::Set(name) => match name.kind() {
            SetKind::AsSet => as_set_references(alloc, book, name, object),
            SetKind::RouteSet => route_set_references(alloc, object),
        },
    }
}

/// The ASes and sets to which an as-set refers; `set` is its object, if it is registered.
fn as_set_references<B: SetBook>(
    alloc: Global,
    book: &B,
    name: &SetName,
    set: Option<&Object>,
) -> Result<Vec<Reference>, AllocError>
    requires { LooksUp (B.contents book.now) (Key.AsSet name.now) (option_copied set) }
    ensures { IfOk result (λ references. (other : MemberSet) (operator : Operator)
        → Contains references.items (record { to = other; label = operator })
        ↔ AsSetRefers (B.contents book.now) name.now other operator) }
{
    let numbers = direct_numbers(alloc, book, name, set)?;
    let names = names_listed(alloc, set)?;
    plain_references(alloc, numbers, &names)
}

/// References to these ASes and to these sets, without operators.
fn plain_references(
    alloc: Global,
    numbers: Vec<AsNumber>,
    names: &[&SetName],
) -> Result<Vec<Reference>, AllocError>
    ensures { IfOk result (λ references. references.items ≡ map number_reference numbers.items
        ++ map set_reference (map (λ n. n.now) names.now)) }
{
    let mut references = number_references(alloc, numbers)?;
    for name in names {
        references.push(set_reference(name.copy(alloc)?))?;
    }
    Ok(references)
}

/// References to these ASes, without operators.
fn number_references(alloc: Global, numbers: Vec<AsNumber>) -> Result<Vec<Reference>, AllocError>
    ensures { IfOk result (λ references. references.items ≡ map number_reference numbers.items) }
{
    numbers
        .into_iter()
        .map(|number| number_reference(number))
        .collect(alloc)
}

fn number_reference(number: AsNumber) -> Reference
    ensures { result ≡ number_reference number }
{
    Edge {
        to: MemberSet::AutNum(number),
        label: Operator::Plain,
    }
}

fn set_reference(name: SetName) -> Reference
    ensures { result ≡ set_reference name }
{
    Edge {
        to: MemberSet::Set(name),
        label: Operator::Plain,
    }
}

/// The ASes and sets to which a route-set refers, where it is registered.
fn route_set_references(alloc: Global, set: Option<&Object>) -> Result<Vec<Reference>, AllocError>
    ensures { IfOk result (λ references. (r : Reg) (name : List ℕ)
        → option_copied set.entry ≡ get r (Key.RouteSet name)
        → (other : MemberSet) (operator : Operator)
        → Contains references.items (record { to = other; label = operator })
        ↔ RouteSetRefers r name other operator) }
{
    match set {
        Some(object) => references_listed(alloc, object.members()),
        None => Ok(Vec::new(alloc)),
    }
}

/// The references among the members.
fn references_listed(alloc: Global, members: &[Member]) -> Result<Vec<Reference>, AllocError>
    ensures { IfOk result
        (λ references. references.items ≡ filter_map reference_of members.now) }
{
    let mut references = Vec::new(alloc);
    for member in members {
        if let Member::Set(set, operator) = member {
            references.push(Edge {
                to: copy_of(alloc, set)?,
                label: *operator,
            })?;
        }
    }
    Ok(references)
}

/// An equal set; the error is that memory ran out.
pub(crate) fn copy_of(alloc: Global, set: &MemberSet) -> Result<MemberSet, AllocError>
    ensures { IfOk result (λ same. same ≡ set.now) }
{
    match set {
        MemberSet::AutNum(number) => Ok(MemberSet::AutNum(*number)),
        MemberSet::Set(name) => Ok(MemberSet::Set(name.copy(alloc)?)),
    }
}
