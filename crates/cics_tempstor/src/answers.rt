//! What the commands on temporary storage queues are answered.

use crate::images::TsImage;
use cics_images::Changed;
use cics_names::{Condition, Record};

/// What READQ TS is answered.
///
/// - `condition`: NORMAL if there is an item, QIDERR if the queue is absent, ITEMERR if it has no
///   item of the number.
/// - `number`: the number of the item, from 1 on, if there is one.
/// - `content`: the bytes of the item, if there is one.
#[derive(Drop)]
pub struct TsRead {
    pub condition: Condition,
    pub number: Option<u64>,
    pub content: Option<Record>,
}

/// What WRITEQ TS is answered, with REWRITE or without.
///
/// - `changed`: NORMAL if the item was added or replaced. ITEMERR if the queue is full or has no
///   such item. QIDERR if there is no queue to replace an item of. And the image of the change, if
///   it has one.
/// - `number`: the number of the item, from 1 on, if the condition is NORMAL.
#[derive(Drop)]
pub struct TsWritten {
    pub changed: Changed<TsImage>,
    pub number: Option<u64>,
}
