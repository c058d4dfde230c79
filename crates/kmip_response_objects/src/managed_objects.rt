//! The row of a managed object, whose tag the object type chooses.

ghost use Rattle.std.specs.Prelude.{None, [], ◌∷◌, filter, if◌then◌else◌};
ghost use Rattle.kmip_tags.specs.Tags as tags;
ghost use Rattle.std.specs.Option.{option_map, option_and_then};
ghost use Rattle.std.proofs.Common.{ap};
ghost use Rattle.kmip_wire.specs.Items.{item_tree};
ghost use Rattle.kmip_shape.specs.Val.{One as one, Case as case_of};
ghost use Rattle.kmip_shape.specs.Shape.{AndRow, ByCase, Required, Chosen, Choice, OfNumber, among};
ghost use Rattle.kmip_shape.specs.Shape.{has_tag};
ghost use Rattle.kmip_shape.specs.Reads.{read_rows, read_in, with_field};
ghost use Rattle.kmip_shape.specs.Resume.{resume_only, case_field};
ghost use Rattle.kmip_shape.proofs.ByCase.{case_field_law};
ghost use Rattle.kmip_response_objects.specs.Tables.{name, certificate, symmetric_key, public_key};
ghost use Rattle.kmip_response_objects.specs.Tables.{private_key, managed_objects};
ghost use Rattle.kmip_response_objects.specs.Values.{managed_object_val};

use crate::managed_object::{Certificate, ManagedObject, PrivateKey, PublicKey, SymmetricKey};
use kmip_shape::row_readers::{Case, ReadRow};
use kmip_shape::row_writers::{FieldRow, ShowRow, WriteRow};
use kmip_shape::show::show_one;
use kmip_shape::{Item, Outer, ReadError, TextWriter, WriteItem};
use kmip_tags::tags::{CERTIFICATE, PRIVATE_KEY, PUBLIC_KEY, SYMMETRIC_KEY};
use kmip_wire::{Buffer, ItemRef, Tag};
use std::alloc::Global;

/// The items under the tags of managed objects. The object type chooses under which of these tags
/// the object stands; items under the others are not read.
#[derive(Drop)]
pub struct ManagedObjects<'a> {
    certificate: Case<'a, Certificate, 1, CERTIFICATE>,
    symmetric_key: Case<'a, SymmetricKey, 2, SYMMETRIC_KEY>,
    public_key: Case<'a, PublicKey, 3, PUBLIC_KEY>,
    private_key: Case<'a, PrivateKey, 4, PRIVATE_KEY>,
}

impl<'a> ReadRow<'a> for ManagedObjects<'a> {
    type Out = ManagedObject;

    ghost row_above = { λ rest. AndRow [] ByCase Required Chosen (Choice OfNumber managed_objects)
        rest };

    ghost reads = { λ o c xs.
        option_and_then (λ n. case_field managed_objects managed_objects c n xs) c.number };

    ghost resume = { λ s o c xs. option_and_then (λ n.
        if among n (1 ∷ []) then resume_only
        (λ x. option_map (case_of 1) (read_in certificate managed_objects c x))
        s.certificate.several (option_map item_tree s.certificate.item)
        (filter (has_tag tags.CERTIFICATE) xs)
        else if among n (2 ∷ []) then resume_only
        (λ x. option_map (case_of 2) (read_in symmetric_key managed_objects c x))
        s.symmetric_key.several (option_map item_tree s.symmetric_key.item)
        (filter (has_tag tags.SYMMETRIC_KEY) xs)
        else if among n (3 ∷ []) then resume_only
        (λ x. option_map (case_of 3) (read_in public_key managed_objects c x)) s.public_key.several
        (option_map item_tree s.public_key.item) (filter (has_tag tags.PUBLIC_KEY) xs)
        else if among n (4 ∷ []) then resume_only
        (λ x. option_map (case_of 4) (read_in private_key managed_objects c x))
        s.private_key.several (option_map item_tree s.private_key.item)
        (filter (has_tag tags.PRIVATE_KEY) xs)
        else None) c.number };

    ghost shows = { λ x. one (managed_object_val x) };

    ghost row_reads = { λ rest o c xs. ap (λ f. with_field f (λ _. read_rows rest o c xs))
        (case_field_law managed_objects c xs) };

    fn new(_alloc: Global) -> Self {
        ManagedObjects {
            certificate: Case::new(),
            symmetric_key: Case::new(),
            public_key: Case::new(),
            private_key: Case::new(),
        }
    }

    fn offer_child(
        &mut self,
        _alloc: Global,
        _outer: Outer<'_>,
        child: ItemRef<'a>,
    ) -> Result<(), ReadError> {
        self.certificate.offer_child(child);
        self.symmetric_key.offer_child(child);
        self.public_key.offer_child(child);
        self.private_key.offer_child(child);
        Ok(())
    }

    fn finish(
        self,
        alloc: Global,
        _outer: Outer<'_>,
        chosen: Outer<'_>,
    ) -> Result<ManagedObject, ReadError> {
        let ManagedObjects {
            certificate,
            symmetric_key,
            public_key,
            private_key,
        } = self;
        match chosen.number {
            Some(1) => Ok(ManagedObject::Certificate(certificate.read(alloc, chosen)?)),
            Some(2) => Ok(ManagedObject::SymmetricKey(symmetric_key.read(alloc, chosen)?)),
            Some(3) => Ok(ManagedObject::PublicKey(public_key.read(alloc, chosen)?)),
            Some(4) => Ok(ManagedObject::PrivateKey(private_key.read(alloc, chosen)?)),
            _ => Err(ReadError::Unread),
        }
    }
}

impl<'b> FieldRow<'b> for ManagedObjects<'b> {
    type Lent = &'b ManagedObject;

    ghost tag = { 0 };

    ghost shape = { Choice OfNumber managed_objects };

    ghost mark = { Required };

    ghost field = { λ x. one (managed_object_val x.now) };

    fn fits(lent: &'b ManagedObject) {
        lent.fits();
    }
}

impl<'b> WriteRow<'b> for ManagedObjects<'b> {
    fn len(lent: &'b ManagedObject) -> Option<u64> {
        lent.wire_len(Tag::of(0))
    }

    fn write(lent: &'b ManagedObject, out: &mut Buffer) {
        lent.write_into(Tag::of(0), out);
    }
}

impl<'b> ShowRow<'b> for ManagedObjects<'b> {
    fn show(lent: &'b ManagedObject, name: &str, after: bool, out: &mut TextWriter) -> bool {
        show_one(lent, name, after, out)
    }
}
