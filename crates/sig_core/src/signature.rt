ghost use Rattle.std.specs.Prelude.{◌≡◌, ◌<◌, ◌≤◌, [], ◌∷◌, ◌++◌, Some, None, map, length, slice_get, option_map, All, IfSome, IfNone, IfOk, OnOk, OnErr, IsOkUnless, Err};
ghost use Rattle.sig_core.specs.Names.{place_of};
ghost use Rattle.sig_core.specs.WellFormed.{IsWellFormed, IsDeclared, IsRelation, constructor_names, relation_names};
ghost use Rattle.sig_core.specs.Refusals.{type_refusal, constructor_refusal, relation_refusal, with_type, with_constructor, with_relation};
ghost use Rattle.sig_core.specs.declared.signature.SigError.{SigError};
ghost use Rattle.sig_core.specs.declared.signature.SigError.TheVariants.{Memory};

use crate::Bytes;
use crate::ids::{ConId, RelId, TypeId, TypeIds};
use crate::names::NameTable;
use crate::text::{bytes_of, is_reserved};
use crate::value::Sort;
use items::Items;
use std::alloc::{AllocError, Global};
use std::marker::Model;
use thiserror::Error;

/// A constructor of terms: its name, the type of the terms that it makes, and the types of their children.
#[derive(Debug, Drop)]
pub struct Constructor {
    pub name: Bytes,
    pub owner: TypeId,
    pub args: TypeIds,
}

/// What a parameter of a relation is.
#[derive(Clone, Copy, Debug, PartialEq, Eq)]
pub enum Kind {
    /// a term of this type
    Term(TypeId),
    Input(Sort),
    Output(Sort),
}

#[derive(Debug, Drop)]
pub struct Param {
    pub name: Bytes,
    pub kind: Kind,
}

pub type Params = Items<Param>;

/// A relation between a term and values: its name and its parameters, in order.
#[derive(Debug, Drop)]
pub struct Relation {
    pub name: Bytes,
    pub params: Params,
}

/// Why an item was not added to a signature.
#[derive(Clone, Copy, Debug, PartialEq, Eq, Drop, Error)]
pub enum SigError {
    #[error("the name stands already or is reserved")]
    Twice,
    /// The number of the limit that adding would pass: 5 is 256 types, 6 is 4,096 constructors, 7 is 16 children of a
    /// constructor, 8 is 256 relations, 9 is 32 parameters of a relation.
    #[error("a limit is passed")]
    Limit(u8),
    #[error("out of memory")]
    Memory,
}

impl From<AllocError> for SigError {
    ghost use Rattle.std.specs.Prelude.{◌≡◌};
    ghost use Rattle.sig_core.specs.declared.signature.SigError.TheVariants.{Memory};

    ghost from_gives = { λ _ e. e ≡ Memory };

    fn from(_error: AllocError) -> SigError {
        SigError::Memory
    }
}

/// The types, constructors and relations of a file, each numbered in order of adding.
#[derive(Debug, Drop)]
pub struct Signature {
    alloc: Global,
    types: Items<Bytes>,
    constructors: Items<Constructor>,
    relations: Items<Relation>,
    type_places: NameTable,
    constructor_places: NameTable,
    relation_places: NameTable,
}

impl Model for Signature {
    ghost use Rattle.std.specs.Prelude.{◌≡◌};
    ghost use Rattle.sig_core.specs.Signatures.{Declarations};
    ghost use Rattle.sig_core.specs.WellFormed.{IsWellFormed, constructor_names, relation_names};

    ghost Value = { Declarations };

    ghost view = { λ s. record { types = s.types; constructors = s.constructors; relations = s.relations } };

    ghost invariant = { λ s. IsWellFormed (record { types = s.types; constructors = s.constructors; relations = s.relations })
        × (s.type_places ≡ s.types)
        × (s.constructor_places ≡ constructor_names s.constructors)
        × (s.relation_places ≡ relation_names s.relations) };
}

impl Signature {
    pub fn new(alloc: Global) -> Signature
        ensures { result ≡ record { types = []; constructors = []; relations = [] } }
    {
        Signature {
            alloc,
            types: Items::new(alloc),
            constructors: Items::new(alloc),
            relations: Items::new(alloc),
            type_places: NameTable::new(alloc),
            constructor_places: NameTable::new(alloc),
            relation_places: NameTable::new(alloc),
        }
    }

    /// Adds a type. `Twice` where a type has that name or it is `Int` or `Bool`, else `Limit(5)` where 256 types stand.
    pub fn add_type(&mut self, name: &[u8]) -> Result<TypeId, SigError>
        ensures refused { IfSome (type_refusal self.old name.now) (λ refusal. result ≡ Err refusal) }
        ensures accepted { IfNone (type_refusal self.old name.now) (IsOkUnless result Memory) }
        ensures added { IfOk result (λ id. (id ≡ record { 0 = length self.old.types }) × (self.new ≡ with_type self.old name.now)) }
        ensures unchanged { OnErr result (self.new ≡ self.old) }
    {
        if let Some(refusal) = self.type_refusal(name) {
            return Err(refusal);
        }
        let id = TypeId(self.types());
        let kept = bytes_of(self.alloc, name)?;
        let key = bytes_of(self.alloc, name)?;
        push_named(&mut self.types, &mut self.type_places, kept, key)?;
        Ok(id)
    }

    /// Adds a constructor. `Twice` where one has that name, else `Limit(6)` where 4,096 stand, else `Limit(7)` where it
    /// has more than 16 children.
    pub fn add_constructor(
        &mut self,
        name: &[u8],
        owner: TypeId,
        args: &[TypeId],
    ) -> Result<ConId, SigError>
        requires owner { IsDeclared (length self.old.types) owner }
        requires args { All (IsDeclared (length self.old.types)) args.now }
        requires rising { All (λ c. c.owner.0 ≤ owner.0) self.old.constructors }
        ensures refused { IfSome (constructor_refusal self.old name.now args.now) (λ refusal. result ≡ Err refusal) }
        ensures accepted { IfNone (constructor_refusal self.old name.now args.now) (IsOkUnless result Memory) }
        ensures added { IfOk result (λ id. (id ≡ record { 0 = length self.old.constructors })
            × (self.new ≡ with_constructor self.old (record { name = name.now; owner = owner; args = args.now }))) }
        ensures unchanged { OnErr result (self.new ≡ self.old) }
    {
        if let Some(refusal) = self.constructor_refusal(name, args) {
            return Err(refusal);
        }
        let id = ConId(self.constructors());
        let made = constructor_of(self.alloc, name, owner, args)?;
        let key = bytes_of(self.alloc, name)?;
        push_named(
            &mut self.constructors,
            &mut self.constructor_places,
            made,
            key,
        )?;
        Ok(id)
    }

    /// Adds a relation. `Twice` where one has that name or it is reserved, else `Limit(8)` where 256 stand, else
    /// `Limit(9)` where it has more than 32 parameters.
    pub fn add_relation(&mut self, relation: Relation) -> Result<RelId, SigError>
        requires { IsRelation (length self.old.types) relation }
        ensures refused { IfSome (relation_refusal self.old relation) (λ refusal. result ≡ Err refusal) }
        ensures accepted { IfNone (relation_refusal self.old relation) (IsOkUnless result Memory) }
        ensures added { IfOk result (λ id. (id ≡ record { 0 = length self.old.relations }) × (self.new ≡ with_relation self.old relation)) }
        ensures unchanged { OnErr result (self.new ≡ self.old) }
    {
        if let Some(refusal) = self.relation_refusal(&relation) {
            return Err(refusal);
        }
        let id = RelId(self.relations());
        let key = relation.name.copy(self.alloc)?;
        push_named(
            &mut self.relations,
            &mut self.relation_places,
            relation,
            key,
        )?;
        Ok(id)
    }

    fn type_refusal(&self, name: &[u8]) -> Option<SigError>
        ensures { result ≡ type_refusal self.now name.now }
    {
        if self.type_places.place(name).is_some()
            || name == b"Int".as_slice()
            || name == b"Bool".as_slice()
        {
            return Some(SigError::Twice);
        }
        if self.types.len() < 256 {
            None
        } else {
            Some(SigError::Limit(5))
        }
    }

    fn constructor_refusal(&self, name: &[u8], args: &[TypeId]) -> Option<SigError>
        ensures { result ≡ constructor_refusal self.now name.now args.now }
    {
        if self.constructor_places.place(name).is_some() {
            return Some(SigError::Twice);
        }
        if self.constructors.len() >= 4096 {
            return Some(SigError::Limit(6));
        }
        if args.len() > 16 {
            return Some(SigError::Limit(7));
        }
        None
    }

    fn relation_refusal(&self, relation: &Relation) -> Option<SigError>
        ensures { result ≡ relation_refusal self.now relation.now }
    {
        let name = relation.name.as_slice();
        if self.relation_places.place(name).is_some() || is_reserved(name) {
            return Some(SigError::Twice);
        }
        if self.relations.len() >= 256 {
            return Some(SigError::Limit(8));
        }
        if relation.params.len() > 32 {
            return Some(SigError::Limit(9));
        }
        None
    }

    /// The type with this name; none where none has it.
    pub fn type_named(&self, name: &[u8]) -> Option<TypeId>
        ensures value { result ≡ option_map (λ place. record { 0 = place }) (place_of self.now.types name.now) }
        ensures within { IfSome result (λ id. id.0 < length self.now.types) }
    {
        let place = self.type_places.place(name)?;
        Some(TypeId(place as u16))
    }

    /// The constructor with this name; none where none has it.
    pub fn constructor_named(&self, name: &[u8]) -> Option<ConId>
        ensures value { result ≡ option_map (λ place. record { 0 = place }) (place_of (constructor_names self.now.constructors) name.now) }
        ensures within { IfSome result (λ id. id.0 < length self.now.constructors) }
    {
        let place = self.constructor_places.place(name)?;
        Some(ConId(place as u16))
    }

    /// The relation with this name; none where none has it.
    pub fn relation_named(&self, name: &[u8]) -> Option<RelId>
        ensures value { result ≡ option_map (λ place. record { 0 = place }) (place_of (relation_names self.now.relations) name.now) }
        ensures within { IfSome result (λ id. id.0 < length self.now.relations) }
    {
        let place = self.relation_places.place(name)?;
        Some(RelId(place as u16))
    }

    /// The name of the type with this number.
    pub fn type_name(&self, id: TypeId) -> &Bytes
        requires { id.0 < length self.now.types }
        ensures { slice_get self.now.types id.0 ≡ Some result.now }
    {
        &self.types.as_slice()[usize::from(id.0)]
    }

    /// The constructor with this number.
    pub fn constructor(&self, id: ConId) -> &Constructor
        requires { id.0 < length self.now.constructors }
        ensures { slice_get self.now.constructors id.0 ≡ Some result.now }
    {
        &self.constructors.as_slice()[usize::from(id.0)]
    }

    /// The relation with this number.
    pub fn relation(&self, id: RelId) -> &Relation
        requires { id.0 < length self.now.relations }
        ensures { slice_get self.now.relations id.0 ≡ Some result.now }
    {
        &self.relations.as_slice()[usize::from(id.0)]
    }

    /// How many types stand, at most 256.
    pub fn types(&self) -> u16
        ensures value { result ≡ length self.now.types }
        ensures well_formed { IsWellFormed self.now }
    {
        self.types.len() as u16
    }

    /// How many constructors stand, at most 4,096.
    pub fn constructors(&self) -> u16
        ensures value { result ≡ length self.now.constructors }
        ensures well_formed { IsWellFormed self.now }
    {
        self.constructors.len() as u16
    }

    /// How many relations stand, at most 256.
    pub fn relations(&self) -> u16
        ensures value { result ≡ length self.now.relations }
        ensures well_formed { IsWellFormed self.now }
    {
        self.relations.len() as u16
    }
}

fn constructor_of(
    alloc: Global,
    name: &[u8],
    owner: TypeId,
    args: &[TypeId],
) -> Result<Constructor, AllocError>
    ensures { IfOk result (λ made. made ≡ record { name = name.now; owner = owner; args = args.now }) }
{
    let mut types = TypeIds::new(alloc);
    types.append(args)?;
    Ok(Constructor {
        name: bytes_of(alloc, name)?,
        owner,
        args: types,
    })
}

/// Puts an item last, and its name last in the table of names: both or neither.
fn push_named<T: Drop>(
    items: &mut Items<T>,
    places: &mut NameTable,
    item: T,
    name: Bytes,
) -> Result<(), AllocError>
    requires { place_of places.old name ≡ None }
    ensures ok { OnOk result ((items.new ≡ items.old ++ item ∷ []) × (places.new ≡ places.old ++ name ∷ [])) }
    ensures err { OnErr result ((items.new ≡ items.old) × (places.new ≡ places.old)) }
{
    places.add(name)?;
    if items.push(item).is_err() {
        places.remove_last();
        return Err(AllocError);
    }
    Ok(())
}
