// The eight fields and their owners: whose a field is, which are free, and what a dead owner leaves.
ghost use Rattle.std.specs.Prelude.{◌≡◌, not, drop, if◌then◌else◌, map, slice_index_or, slice_set, Some};
ghost use Rattle.field.specs.declared.Field.{Field};
ghost use Rattle.field.specs.Fields.{empty_field, field_ok, unconfirmed};
ghost use Rattle.arithmetic.specs.Tests.{all};
ghost use Rattle.arena.specs.Fields.{field_of, owns, owner_dead, reclaimed, vacant, claimed};
ghost use Rattle.arena.specs.Support.Places.{place_of, field_at};
ghost use Rattle.arena.specs.Rules.{owners_well, lone};

use super::{Slot, links};
use field::{Field, NodeId};

// Whether the field is the node's.
fn owns(d: NodeId, f: &Field) -> bool
    ensures { result ≡ owns d f.now }
{
    f.owner == Some(d)
}

// The place of the node's own field: the first, where more than one has this owner.
pub fn field_place(fields: &[Field; 8], d: NodeId) -> Option<usize>
    ensures { (result ≡ place_of d fields.now) × (field_at fields.now result ≡ field_of d fields.now) }
{
    fields.iter().position(|f| owns(d, f))
}

// The field at a place; past the eight an empty one.
pub fn field_at(fields: &[Field; 8], i: usize) -> Field
    ensures { result ≡ slice_index_or fields.now i empty_field }
{
    fields.get(i).copied().unwrap_or(Field::empty())
}

// Another field at a place; past the eight nothing is stored.
pub fn set_field(fields: &mut [Field; 8], i: usize, f: Field)
    ensures { fields.new ≡ slice_set fields.old i f }
{
    if i < fields.len() {
        fields[i] = f;
    }
}

// Whether the field is nobody's.
fn is_vacant(f: Field) -> bool
    ensures { result ≡ vacant f }
{
    f.owner.is_none()
}

// Whether every field is somebody's.
pub fn all_taken(fields: &[Field; 8]) -> bool
    ensures { result ≡ all (λ (f : Field). not (vacant f)) fields.now }
{
    fields.iter().all(|f| !is_vacant(*f))
}

// The first free field is the node's from now on, where one is free.
pub fn claim(d: NodeId, fields: &mut [Field; 8])
    ensures { fields.new ≡ claimed d fields.old }
{
    if let Some(i) = fields.iter().position(|f| is_vacant(*f)) {
        fields[i] = Field::owned(d);
    }
}

// The field, or an empty one of nobody where its owner is dead.
fn reclaim_one(limit: u32, slots: &[Slot; 128], f: Field) -> Field
    ensures { result ≡ (if owner_dead limit slots.now f.owner then empty_field else f) }
{
    match f.owner {
        Some(d) if !links::is_live(limit, slots, d) => Field::empty(),
        _ => f,
    }
}

// Fields of dead owners are nobody's and empty from now on.
#[tactic(auto, unfolding(crate::specs::Fields::reclaimed))]
pub fn reclaim(limit: u32, slots: &[Slot; 128], fields: &mut [Field; 8])
    ensures { fields.new ≡ reclaimed limit slots.now fields.old }
{
    for f in fields.iter_mut() {
        *f = reclaim_one(limit, slots, *f);
    }
}

// For the next ship: no field is confirmed any more, those of dead owners neither.
pub fn unconfirm(fields: &mut [Field; 8])
    ensures { fields.new ≡ map unconfirmed fields.old }
{
    for f in fields.iter_mut() {
        *f = f.unconfirmed();
    }
}

// Whether none of the fields has this owner; a field of nobody has none to share.
// Not built into its caller, for what `tree::rules::broken` says.
#[inline(never)]
fn is_lone(fields: &[Field], owner: Option<NodeId>) -> bool
    ensures { result ≡ lone owner fields.now }
{
    match owner {
        None => true,
        Some(d) => fields.iter().all(|g| !owns(d, g)),
    }
}

// Whether no two fields have one owner.
// Not built into its caller, for what `tree::rules::broken` says.
#[inline(never)]
#[tactic(auto, unfolding(crate::specs::Rules::owners_well))]
pub fn owners_well(fields: &[Field; 8]) -> bool
    ensures { result ≡ owners_well fields.now }
{
    let mut rest = &fields[..];
    while let Some((f, after)) = rest.split_first() {
        if !is_lone(after, f.owner) {
            return false;
        }
        rest = after;
    }
    true
}

// Whether each field keeps the rules for one.
pub fn fields_ok(fields: &[Field; 8]) -> bool
    ensures { result ≡ all field_ok fields.now }
{
    fields.iter().all(|f| f.sound())
}
