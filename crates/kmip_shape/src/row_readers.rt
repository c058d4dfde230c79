//! The rows of a record as they are read, in one walk over the record's children.

ghost use Rattle.std.specs.Prelude.{◌≡◌, ℕ, IfOk, Some, None, Err, Option, [], ◌∷◌, filter, map};
ghost use Rattle.std.specs.Prelude.{refl};
ghost use Rattle.std.specs.Prelude as p;
ghost use Rattle.std.specs.Option.{option_map, option_and_then};
ghost use Rattle.kmip_wire.specs.Tree.{Tree};
ghost use Rattle.kmip_wire.specs.Items.{item_tree};
ghost use Rattle.kmip_shape.specs.Val.{Val, Field, Absent as absent, One as one, Many as many};
ghost use Rattle.kmip_shape.specs.Val.{Case as case};
ghost use Rattle.kmip_shape.specs.Shape.{OuterValue, RowList, AndRow, Under, Required, Optional};
ghost use Rattle.kmip_shape.specs.Shape.{AnyNumber, AtLeastOne, OptionalList, Plain};
ghost use Rattle.kmip_shape.specs.Shape.{Chooser as chooser, Chosen, has_tag, chosen_by};
ghost use Rattle.kmip_shape.specs.Reads.{marked_field, read_of, read_rows, with_field};
ghost use Rattle.kmip_shape.specs.Writes.{optional, vals, optional_list};
ghost use Rattle.kmip_shape.specs.Resume.{outer_of, resume_only, resume_single, resume_kept};
ghost use Rattle.kmip_shape.specs.Resume.{resume_many, values_with};

use crate::item::Item;
use crate::read::{Outer, ReadError, ReadItem};
use kmip_wire::{ItemRef, List};
use std::alloc::Global;
use std::marker::PhantomData;

/// One row of a record, and the items of it that were found so far.
pub trait ReadRow<'a>: Drop {
    /// The field that is read.
    type Out: Drop;

    /// The table of this row and of those that follow it.
    ghost row_above: { RowList → RowList };

    /// The field that these children hold, where the chooser around the record and that of the
    /// record itself have these values.
    ghost reads: { OuterValue → OuterValue → p.List Tree → Option Field };

    /// The same field, where the children offered so far were followed by these.
    ghost resume: { Self → OuterValue → OuterValue → p.List Tree → Option Field };

    /// The meaning of a field.
    ghost shows: { Self.Out → Field };

    /// The row before the first child.
    fn new(alloc: Global) -> Self
        ensures { (o c : OuterValue) (xs : p.List Tree) → resume result o c xs ≡ reads o c xs };

    /// Offers a child to the row, which reads or keeps it where it is one of its items. `Unread`
    /// comes only where no further children could make a field.
    fn offer_child(
        &mut self,
        alloc: Global,
        outer: Outer<'_>,
        child: ItemRef<'a>,
    ) -> Result<(), ReadError>
        ensures ok { IfOk result (λ _. (c : OuterValue) (xs : p.List Tree) →
            resume self.old (outer_of outer.entry) c (item_tree child.entry ∷ xs)
            ≡ resume self.new (outer_of outer.entry) c xs) }
        ensures unread { result ≡ Err ReadError.Unread → (c : OuterValue) (xs : p.List Tree) →
            resume self.old (outer_of outer.entry) c (item_tree child.entry ∷ xs) ≡ None };

    /// The field, once every child was offered. `Unread` comes exactly where the children hold no
    /// field of the row. A row that is chosen is read with `chosen`.
    fn finish(
        self,
        alloc: Global,
        outer: Outer<'_>,
        chosen: Outer<'_>,
    ) -> Result<Self::Out, ReadError>
        ensures ok { IfOk result (λ out.
            resume self (outer_of outer.entry) (outer_of chosen.entry) [] ≡ Some (shows out)) }
        ensures unread { result ≡ Err ReadError.Unread →
            resume self (outer_of outer.entry) (outer_of chosen.entry) [] ≡ None };

    /// Lemma: `reads` is how the table's row is read.
    ghost row_reads: { (rest : RowList) (o c : OuterValue) (xs : p.List Tree) →
        read_rows (row_above rest) o c xs
        ≡ with_field (reads o c xs) (λ f. read_rows rest o c xs) };
}

/// A required item.
#[derive(Drop)]
pub struct One<T, const TAG: u32> {
    slot: Option<T>,
}

impl<'a, T: ReadItem, const TAG: u32> ReadRow<'a> for One<T, TAG> {
    type Out = T;

    ghost row_above = { λ rest. AndRow [] (Under TAG) Required Plain T.shape rest };

    ghost row_reads = { λ rest o c xs. refl };

    ghost reads = { λ o c xs. marked_field Required (read_of T.shape o) (filter (has_tag TAG) xs) };

    ghost resume = { λ s o c xs. resume_single Required (read_of T.shape o)
        (option_map T.val s.slot) (filter (has_tag TAG) xs) };

    ghost shows = { λ x. one (T.val x) };

    fn new(_alloc: Global) -> Self {
        One { slot: None }
    }

    fn offer_child(
        &mut self,
        alloc: Global,
        outer: Outer<'_>,
        child: ItemRef<'a>,
    ) -> Result<(), ReadError> {
        if child.tag().number() == TAG {
            if self.slot.is_some() {
                return Err(ReadError::Unread);
            }
            self.slot = Some(T::read(alloc, outer, child)?);
        }
        Ok(())
    }

    fn finish(self, _alloc: Global, _outer: Outer<'_>, _chosen: Outer<'_>) -> Result<T, ReadError> {
        self.slot.ok_or(ReadError::Unread)
    }
}

/// An optional item.
#[derive(Drop)]
pub struct Opt<T, const TAG: u32> {
    slot: Option<T>,
}

impl<'a, T: ReadItem, const TAG: u32> ReadRow<'a> for Opt<T, TAG> {
    type Out = Option<T>;

    ghost row_above = { λ rest. AndRow [] (Under TAG) Optional Plain T.shape rest };

    ghost row_reads = { λ rest o c xs. refl };

    ghost reads = { λ o c xs. marked_field Optional (read_of T.shape o) (filter (has_tag TAG) xs) };

    ghost resume = { λ s o c xs. resume_single Optional (read_of T.shape o)
        (option_map T.val s.slot) (filter (has_tag TAG) xs) };

    ghost shows = { λ x. optional T.val x };

    fn new(_alloc: Global) -> Self {
        Opt { slot: None }
    }

    fn offer_child(
        &mut self,
        alloc: Global,
        outer: Outer<'_>,
        child: ItemRef<'a>,
    ) -> Result<(), ReadError> {
        if child.tag().number() == TAG {
            if self.slot.is_some() {
                return Err(ReadError::Unread);
            }
            self.slot = Some(T::read(alloc, outer, child)?);
        }
        Ok(())
    }

    fn finish(
        self,
        _alloc: Global,
        _outer: Outer<'_>,
        _chosen: Outer<'_>,
    ) -> Result<Option<T>, ReadError> {
        Ok(self.slot)
    }
}

/// An optional item, which is kept until the chooser of the record is known and then read with it.
#[derive(Drop)]
pub struct ChosenOpt<'a, T, const TAG: u32> {
    kept: Option<ItemRef<'a>>,
    item: PhantomData<T>,
}

impl<'a, T: ReadItem, const TAG: u32> ReadRow<'a> for ChosenOpt<'a, T, TAG> {
    type Out = Option<T>;

    ghost row_above = { λ rest. AndRow [] (Under TAG) Optional Chosen T.shape rest };

    ghost row_reads = { λ rest o c xs. refl };

    ghost reads = { λ o c xs. marked_field Optional (read_of T.shape c) (filter (has_tag TAG) xs) };

    ghost resume = { λ s o c xs. resume_kept Optional (read_of T.shape c)
        (option_map item_tree s.kept) (filter (has_tag TAG) xs) };

    ghost shows = { λ x. optional T.val x };

    fn new(_alloc: Global) -> Self {
        ChosenOpt {
            kept: None,
            item: PhantomData,
        }
    }

    fn offer_child(
        &mut self,
        _alloc: Global,
        _outer: Outer<'_>,
        child: ItemRef<'a>,
    ) -> Result<(), ReadError> {
        if child.tag().number() == TAG {
            if self.kept.is_some() {
                return Err(ReadError::Unread);
            }
            self.kept = Some(child);
        }
        Ok(())
    }

    fn finish(
        self,
        alloc: Global,
        _outer: Outer<'_>,
        chosen: Outer<'_>,
    ) -> Result<Option<T>, ReadError> {
        match self.kept {
            None => Ok(None),
            Some(item) => Ok(Some(T::read(alloc, chosen, item)?)),
        }
    }
}

/// A required item, which is kept until the chooser of the record is known and then read with it.
#[derive(Drop)]
pub struct ChosenOne<'a, T, const TAG: u32> {
    kept: Option<ItemRef<'a>>,
    item: PhantomData<T>,
}

impl<'a, T: ReadItem, const TAG: u32> ReadRow<'a> for ChosenOne<'a, T, TAG> {
    type Out = T;

    ghost row_above = { λ rest. AndRow [] (Under TAG) Required Chosen T.shape rest };

    ghost row_reads = { λ rest o c xs. refl };

    ghost reads = { λ o c xs. marked_field Required (read_of T.shape c) (filter (has_tag TAG) xs) };

    ghost resume = { λ s o c xs. resume_kept Required (read_of T.shape c)
        (option_map item_tree s.kept) (filter (has_tag TAG) xs) };

    ghost shows = { λ x. one (T.val x) };

    fn new(_alloc: Global) -> Self {
        ChosenOne {
            kept: None,
            item: PhantomData,
        }
    }

    fn offer_child(
        &mut self,
        _alloc: Global,
        _outer: Outer<'_>,
        child: ItemRef<'a>,
    ) -> Result<(), ReadError> {
        if child.tag().number() == TAG {
            if self.kept.is_some() {
                return Err(ReadError::Unread);
            }
            self.kept = Some(child);
        }
        Ok(())
    }

    fn finish(self, alloc: Global, _outer: Outer<'_>, chosen: Outer<'_>) -> Result<T, ReadError> {
        match self.kept {
            None => Err(ReadError::Unread),
            Some(item) => T::read(alloc, chosen, item),
        }
    }
}

/// Reads one more item of a row that holds several.
#[tactic(auto, using(crate::proofs::Gathered::gathering))]
#[inline(never)]
pub(crate) fn push_item<T: ReadItem>(
    items: &mut Vec<T>,
    alloc: Global,
    outer: Outer<'_>,
    child: ItemRef<'_>,
) -> Result<(), ReadError>
    ensures ok { IfOk result (λ _. (xs : p.List Tree) →
        values_with (read_of T.shape (outer_of outer.entry)) (map T.val items.old.items)
        (item_tree child.entry ∷ xs)
        ≡ values_with (read_of T.shape (outer_of outer.entry)) (map T.val items.new.items) xs) }
    ensures unread { result ≡ Err ReadError.Unread → (xs : p.List Tree) →
        values_with (read_of T.shape (outer_of outer.entry)) (map T.val items.old.items)
        (item_tree child.entry ∷ xs) ≡ None }
{
    if items.is_empty() {
        items.reserve_exact(1)?;
    }
    items.push(T::read(alloc, outer, child)?)?;
    Ok(())
}

/// Any number of items.
#[derive(Drop)]
pub struct Many<T, const TAG: u32> {
    items: Vec<T>,
}

#[tactic(auto, using(crate::proofs::Gathered::gathering))]
impl<'a, T: ReadItem, const TAG: u32> ReadRow<'a> for Many<T, TAG> {
    type Out = List<T>;

    ghost row_above = { λ rest. AndRow [] (Under TAG) AnyNumber Plain T.shape rest };

    ghost row_reads = { λ rest o c xs. refl };

    ghost reads = { λ o c xs. marked_field AnyNumber (read_of T.shape o)
        (filter (has_tag TAG) xs) };

    ghost resume = { λ s o c xs. resume_many AnyNumber (read_of T.shape o) (map T.val s.items.items)
        (filter (has_tag TAG) xs) };

    ghost shows = { λ x. many (vals T.val x) };

    fn new(alloc: Global) -> Self {
        Many {
            items: Vec::new(alloc),
        }
    }

    fn offer_child(
        &mut self,
        alloc: Global,
        outer: Outer<'_>,
        child: ItemRef<'a>,
    ) -> Result<(), ReadError> {
        if child.tag().number() == TAG {
            push_item(&mut self.items, alloc, outer, child)?;
        }
        Ok(())
    }

    fn finish(
        self,
        _alloc: Global,
        _outer: Outer<'_>,
        _chosen: Outer<'_>,
    ) -> Result<List<T>, ReadError> {
        Ok(List::of_vec(self.items))
    }
}

/// At least one item.
#[derive(Drop)]
pub struct NonEmpty<T, const TAG: u32> {
    items: Vec<T>,
}

#[tactic(auto, using(crate::proofs::Gathered::gathering))]
impl<'a, T: ReadItem, const TAG: u32> ReadRow<'a> for NonEmpty<T, TAG> {
    type Out = List<T>;

    ghost row_above = { λ rest. AndRow [] (Under TAG) AtLeastOne Plain T.shape rest };

    ghost row_reads = { λ rest o c xs. refl };

    ghost reads = { λ o c xs. marked_field AtLeastOne (read_of T.shape o)
        (filter (has_tag TAG) xs) };

    ghost resume = { λ s o c xs. resume_many AtLeastOne (read_of T.shape o)
        (map T.val s.items.items) (filter (has_tag TAG) xs) };

    ghost shows = { λ x. many (vals T.val x) };

    fn new(alloc: Global) -> Self {
        NonEmpty {
            items: Vec::new(alloc),
        }
    }

    fn offer_child(
        &mut self,
        alloc: Global,
        outer: Outer<'_>,
        child: ItemRef<'a>,
    ) -> Result<(), ReadError> {
        if child.tag().number() == TAG {
            push_item(&mut self.items, alloc, outer, child)?;
        }
        Ok(())
    }

    fn finish(
        self,
        _alloc: Global,
        _outer: Outer<'_>,
        _chosen: Outer<'_>,
    ) -> Result<List<T>, ReadError> {
        if self.items.is_empty() {
            return Err(ReadError::Unread);
        }
        Ok(List::of_vec(self.items))
    }
}

/// A list, which is absent where there is no item.
#[derive(Drop)]
pub struct OptMany<T, const TAG: u32> {
    items: Vec<T>,
}

#[tactic(auto, using(crate::proofs::Gathered::gathering))]
impl<'a, T: ReadItem, const TAG: u32> ReadRow<'a> for OptMany<T, TAG> {
    type Out = Option<List<T>>;

    ghost row_above = { λ rest. AndRow [] (Under TAG) OptionalList Plain T.shape rest };

    ghost row_reads = { λ rest o c xs. refl };

    ghost reads = { λ o c xs. marked_field OptionalList (read_of T.shape o)
        (filter (has_tag TAG) xs) };

    ghost resume = { λ s o c xs. resume_many OptionalList (read_of T.shape o)
        (map T.val s.items.items) (filter (has_tag TAG) xs) };

    ghost shows = { λ x. optional_list T.val x };

    fn new(alloc: Global) -> Self {
        OptMany {
            items: Vec::new(alloc),
        }
    }

    fn offer_child(
        &mut self,
        alloc: Global,
        outer: Outer<'_>,
        child: ItemRef<'a>,
    ) -> Result<(), ReadError> {
        if child.tag().number() == TAG {
            push_item(&mut self.items, alloc, outer, child)?;
        }
        Ok(())
    }

    fn finish(
        self,
        _alloc: Global,
        _outer: Outer<'_>,
        _chosen: Outer<'_>,
    ) -> Result<Option<List<T>>, ReadError> {
        if self.items.is_empty() {
            return Ok(None);
        }
        Ok(Some(List::of_vec(self.items)))
    }
}

/// A type whose values choose the cases of other rows of their record.
pub trait Chooses: Item {
    /// The number or the text that chooses.
    fn outer(&self) -> Outer<'_>
        ensures { outer_of result ≡ chosen_by (one (Self.val self.now)) };
}

/// A row whose value chooses the cases of rows after it.
pub trait Chooser<'a>: ReadRow<'a> {
    /// The table of this row, as the chooser, and of those that follow it.
    ghost chooser_above: { RowList → RowList };

    /// The chooser's value, with which the chosen rows are read.
    fn outer(out: &Self::Out) -> Outer<'_>
        ensures { outer_of result ≡ chosen_by (Self.shows out.now) };

    /// Lemma: `reads` is how the table's row is read, and the chosen rows after it are read with its
    /// value.
    ghost chooser_reads: { (rest : RowList) (o c : OuterValue) (xs : p.List Tree) →
        read_rows (chooser_above rest) o c xs
        ≡ with_field (Self.reads o c xs) (λ f. read_rows rest o (chosen_by f) xs) };
}

impl<'a, T: ReadItem + Chooses, const TAG: u32> Chooser<'a> for One<T, TAG> {
    ghost chooser_above = { λ rest. AndRow [] (Under TAG) Required chooser T.shape rest };

    ghost chooser_reads = { λ rest o c xs. refl };

    fn outer(out: &T) -> Outer<'_> {
        Chooses::outer(out)
    }
}

impl<'a, T: ReadItem + Chooses, const TAG: u32> Chooser<'a> for Opt<T, TAG> {
    ghost chooser_above = { λ rest. AndRow [] (Under TAG) Optional chooser T.shape rest };

    ghost chooser_reads = { λ rest o c xs. refl };

    fn outer(out: &Option<T>) -> Outer<'_> {
        match out {
            None => Outer::none(),
            Some(value) => Chooses::outer(value),
        }
    }
}

/// A case whose items have a tag of their own: what stood under that tag. If the case is chosen,
/// exactly one item is wanted there.
#[derive(Drop)]
pub struct Case<'a, T, const NUMBER: u32, const TAG: u32> {
    /// The first item, where there is one.
    pub item: Option<ItemRef<'a>>,
    /// Whether there was a second one.
    pub several: bool,
    /// The type that it is read as.
    pub read: PhantomData<T>,
}

impl<'a, T: ReadItem, const NUMBER: u32, const TAG: u32> Case<'a, T, NUMBER, TAG> {
    /// The case before the first child.
    pub fn new() -> Self
        ensures { (r : Tree → Option Val) (xs : p.List Tree) →
            resume_only r result.several (option_map item_tree result.item)
            (filter (has_tag TAG) xs) ≡ marked_field Required r (filter (has_tag TAG) xs) }
    {
        Case {
            item: None,
            several: false,
            read: PhantomData,
        }
    }

    /// Offers a child to the case, which keeps it where it has the case's tag.
    pub fn offer_child(&mut self, child: ItemRef<'a>)
        ensures { (r : Tree → Option Val) (xs : p.List Tree) →
            resume_only r self.old.several (option_map item_tree self.old.item)
            (filter (has_tag TAG) (item_tree child.entry ∷ xs))
            ≡ resume_only r self.new.several (option_map item_tree self.new.item)
            (filter (has_tag TAG) xs) }
    {
        if child.tag().number() == TAG {
            if self.item.is_some() {
                self.several = true;
            } else {
                self.item = Some(child);
            }
        }
    }

    /// The value of the one item under the tag. `Unread` comes exactly where there is not exactly
    /// one, or it is no encoding of a value of the type.
    pub fn read(self, alloc: Global, outer: Outer<'_>) -> Result<T, ReadError>
        ensures ok { IfOk result (λ v. resume_only
            (λ x. option_map (case NUMBER) (read_of T.shape (outer_of outer.entry) x))
            self.entry.several (option_map item_tree self.entry.item) []
            ≡ Some (one (case NUMBER (T.val v)))) }
        ensures unread { result ≡ Err ReadError.Unread →
            resume_only (λ x. option_map (case NUMBER) (read_of T.shape (outer_of outer.entry) x))
            self.entry.several (option_map item_tree self.entry.item) [] ≡ None }
    {
        if self.several {
            return Err(ReadError::Unread);
        }
        match self.item {
            None => Err(ReadError::Unread),
            Some(item) => T::read(alloc, outer, item),
        }
    }
}
