//! Applies updating commands to files and queues in place, and adds the images that undo them.

ghost use Rattle.std.specs.Prelude.{◌≡◌, ◌<◌, ◌≤◌, ◌++◌, true, [], length, IfOk, OnErr};
ghost use Rattle.std.specs.Prelude.{option_map};
ghost use Rattle.cics_images.specs.declared.stores.StoreImage.TheVariants.{TempStorage};
ghost use Rattle.cics_history.specs.Store.{only as answer_of, numbered as answer_with};
ghost use Rattle.cics_history.specs.Store.{with_content as answer_of_record, found_condition};
ghost use Rattle.cics_units.specs.QueueChanges.{with_image, in_queue};
ghost use Rattle.cics_units.specs.Opening.Prefixed.{is_temp};
ghost use Rattle.cics_units.specs.Parts.{IsFitOp, image_if, with_stored, of_files};
ghost use Rattle.cics_units.specs.Applied.{IsApplied, IsBound};
ghost use Rattle.cics_units.specs.Applied.{counted_as};
ghost use Rattle.cics_units.specs.Cores.{CanApply};

use crate::opening::{FilesImage, QueueImage};
use crate::units_core::{BoundOp, Store};
use cics_history::{Answer, Op};
use cics_images::{Images, StoreImage};
use cics_ksds::FileImage;
use cics_names::{Condition, Items, Name4, Name8, NoMemory, Record};
use cics_tempstor::TsImage;
use cics_transdata::TdImage;

// Returns an answer of a condition alone.
fn only(condition: Condition) -> Answer
    ensures { result ≡ answer_of condition }
{
    Answer {
        condition,
        content: None,
        number: None,
    }
}

// Returns an answer with a number: of an item, or of records.
fn numbered(condition: Condition, number: Option<u64>) -> Answer
    ensures { result ≡ answer_with condition number }
{
    Answer {
        condition,
        content: None,
        number,
    }
}

// Adds the image of a change of a file as the newest, if the change has one.
fn add_file_image(images: &mut Images<Store>, file: Name8, image: Option<FileImage>)
    requires room { 0 < images.old.room }
    ensures { images.new.newest_first ≡ of_files (image_if file image) ++ images.old.newest_first }
{
    if let Some(image) = image {
        images.store(StoreImage::File(FilesImage { name: file, image }));
    }
}

// Adds the images of changes of a file, the last one as the newest.
fn add_file_images(images: &mut Images<Store>, file: Name8, made: Items<FileImage>)
    requires room { length made ≤ images.old.room }
    ensures { images.new.newest_first
        ≡ of_files (with_stored file made []) ++ images.old.newest_first }
{
    for image in made.into_vec() {
        images.store(StoreImage::File(FilesImage { name: file, image }));
    }
}

// Returns what DELETE GENERIC is answered: how many records it deleted, or NOTFND for none.
fn counted(number: u64) -> Answer
    ensures { result ≡ counted_as number }
{
    match number {
        0 => only(Condition::Notfnd),
        number => numbered(Condition::Normal, Some(number)),
    }
}

// Returns an answer with a record, if there is one.
fn with_content(condition: Condition, content: Option<Record>) -> Answer
    ensures { result ≡ answer_of_record condition content }
{
    Answer {
        condition,
        content,
        number: None,
    }
}

/// Returns what READ UPDATE is answered: its record, or NOTFND for none.
pub(crate) fn found(given: Option<Record>) -> Answer
    ensures { result ≡ answer_of_record (found_condition given) given }
{
    match given {
        Some(record) => with_content(Condition::Normal, Some(record)),
        None => only(Condition::Notfnd),
    }
}

// Adds the image of a change of a temporary storage queue as the newest, if the change has one.
fn add_temp_image(images: &mut Images<Store>, image: Option<TsImage>)
    requires room { 0 < images.old.room }
    ensures { images.new.newest_first
        ≡ with_image (option_map TempStorage image) images.old.newest_first }
{
    if let Some(image) = image {
        images.store(StoreImage::TempStorage(image));
    }
}

// Adds the image of a change of a transient data queue as the newest, if the change has one.
fn add_trans_image(images: &mut Images<Store>, queue: Name4, image: Option<TdImage>)
    requires room { 0 < images.old.room }
    ensures { images.new.newest_first
        ≡ with_image (option_map (in_queue queue) image) images.old.newest_first }
{
    if let Some(image) = image {
        images.store(StoreImage::TransData(QueueImage { name: queue, image }));
    }
}

/// Returns whether a command acts on something recoverable. Its file or transient data queue has to
/// be there. For a command on temporary storage it returns `recoverable`.
pub(crate) fn bind(store: &Store, op: &Op, recoverable: bool) -> bool
    requires fit { IsFitOp store.now op.now }
    ensures bound { IsBound store.now op.now result }
    ensures temp { is_temp op.now ≡ true → result ≡ recoverable }
{
    match op {
        Op::Write { file, .. }
        | Op::Rewrite { file, .. }
        | Op::Delete { file, .. }
        | Op::DeleteGeneric { file, .. }
        | Op::ReadUpdate { file, .. } => store.files.at(file).definition().recoverable,
        Op::TdWrite { queue, .. } | Op::TdRead { queue } | Op::TdDelete { queue } => {
            store.trans_data.at(queue).recovery().is_logical()
        }
        _ => recoverable,
    }
}

/// Applies a command other than READ UPDATE in place, and returns its answer, as the definition
/// `apply` says. Adds to its unit's images what undoes it, if it acts on something recoverable.
///
/// Errors: `NoMemory`, which changes nothing. After the change no memory is requested, since images
/// have their room.
pub(crate) fn apply(
    store: &mut Store,
    bound: &BoundOp<'_>,
    images: &mut Images<Store>,
) -> Result<Answer, NoMemory>
    requires { CanApply store.old bound.now images.old.room }
    ensures applied { IfOk result (λ answer.
        IsApplied store.old store.new images.old.newest_first images.new.newest_first
        bound.now.op.now bound.now.recoverable bound.now.own answer) }
    ensures err_store { OnErr result (store.new ≡ store.old) }
    ensures err_images { OnErr result (images.new ≡ images.old) }
{
    let recoverable = bound.recoverable;
    match bound.op {
        Op::Write { file, from, .. } => {
            let from = from.copy()?;
            let changed = store.files.at_mut(file).write(from, recoverable)?;
            add_file_image(images, *file, changed.image);
            Ok(only(changed.condition))
        }
        Op::Rewrite { file, from, .. } => {
            let from = from.copy()?;
            let changed = store.files.at_mut(file).rewrite(from, recoverable);
            add_file_image(images, *file, changed.image);
            Ok(only(changed.condition))
        }
        Op::Delete { file, key } => {
            let changed = store.files.at_mut(file).delete(key.bytes(), recoverable)?;
            add_file_image(images, *file, changed.image);
            Ok(only(changed.condition))
        }
        Op::DeleteGeneric { file, prefix } => {
            let lent = store.files.at_mut(file);
            let removed = lent.delete_prefix(prefix.bytes(), recoverable)?;
            add_file_images(images, *file, removed.images);
            Ok(counted(removed.number))
        }
        Op::ReadUpdate { .. } => unreachable!(),
        Op::TsWrite { queue, from } => {
            let written = store.temp_storage.write(*queue, from.copy()?, recoverable)?;
            add_temp_image(images, written.changed.image);
            Ok(numbered(written.changed.condition, written.number))
        }
        Op::TsRewrite { queue, item, from } => {
            let from = from.copy()?;
            let written = store.temp_storage.rewrite(queue, *item, from, recoverable)?;
            add_temp_image(images, written.changed.image);
            Ok(numbered(written.changed.condition, written.number))
        }
        Op::TsDelete { queue } => {
            let deleted = store.temp_storage.delete(queue, recoverable);
            add_temp_image(images, deleted.image);
            Ok(only(deleted.condition))
        }
        Op::TdWrite { queue, from } => {
            let from = from.copy()?;
            let written = store.trans_data.at_mut(queue).write(from)?;
            add_trans_image(images, *queue, written.image);
            Ok(only(written.condition))
        }
        Op::TdRead { queue } => {
            let read = store.trans_data.at_mut(queue).read(bound.own)?;
            add_trans_image(images, *queue, read.changed.image);
            Ok(with_content(read.changed.condition, read.content))
        }
        Op::TdDelete { queue } => {
            let deleted = store.trans_data.at_mut(queue).delete();
            add_trans_image(images, *queue, deleted.image);
            Ok(only(deleted.condition))
        }
    }
}
