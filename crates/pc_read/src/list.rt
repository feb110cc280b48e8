ghost use Rattle.std.specs.Prelude.{◌≡◌, ◌==◌, ◌||◌, List, ℕ, Bool, IfOk, IsSome, Option, Some, bytes_eq, codes, is_some};
ghost use Rattle.std.specs.List.{list_all, slice_split};
ghost use Rattle.pc_read.specs.Given.{StandsFor};
ghost use Rattle.pc_read.specs.Lists.{own_keys, own_metas, own_rows, own_told_rows, own_writes};
ghost use Rattle.pc_spelling.specs.Cutting.{each_at, list_at};
ghost use Rattle.pc_spelling.specs.Reading.{key_at, keys_at, meta_at, row_at, told_row_at, write_at, writes_at};

use crate::cut::{cut, is};
use crate::number::{self, number32};
use crate::part::meta;
use crate::text::{key, owned_key, owned_value, value_bytes};
use pc_base::{Items, Key, NoMemory, Value};
use pc_proto::{Keys, Metas, Origin, Rows, TxnMeta, Writes};
use std::alloc::Global;

/// A kind of items of a list.
pub trait Item {
    ghost readable: { List ℕ → Bool };

    /// Whether the bytes spell such an item.
    fn is_item(bytes: &[u8]) -> bool
        ensures { result ≡ readable bytes.now };
}

/// Whether the bytes are items with a comma between each two.
#[tactic(auto, using(crate::proofs::Items::list_parts))]
fn are_items<I: Item>(bytes: &[u8]) -> bool
    ensures { result ≡ list_all I.readable (slice_split (λ b. b == 44) bytes.now) }
{
    let mut rest = bytes;
    'items: loop {
        match cut(b',', rest) {
            None => return I::is_item(rest),
            Some((item, behind)) => {
                if !I::is_item(item) {
                    return false;
                }
                rest = behind;
            }
        }
    }
}

/// Whether the bytes are a list of such items: a dash for none, or items with a comma between each two.
pub fn is_list<I: Item>(bytes: &[u8]) -> bool
    ensures { result ≡ (bytes_eq bytes.now (codes "-") || list_all I.readable (slice_split (λ b. b == 44) bytes.now)) }
{
    is(bytes, b"-") || are_items::<I>(bytes)
}

pub struct KeyItem;

impl Item for KeyItem {
    ghost readable = { λ bs. is_some (key_at bs) };

    fn is_item(bytes: &[u8]) -> bool {
        key(bytes).is_some()
    }
}

struct WriteItem;

impl Item for WriteItem {
    ghost readable = { λ bs. is_some (write_at bs) };

    fn is_item(bytes: &[u8]) -> bool {
        is_write(bytes)
    }
}

struct MetaItem;

impl Item for MetaItem {
    ghost readable = { λ bs. is_some (meta_at bs) };

    fn is_item(bytes: &[u8]) -> bool {
        meta(bytes).is_some()
    }
}

struct RowItem;

impl Item for RowItem {
    ghost readable = { λ bs. is_some (row_at bs) };

    fn is_item(bytes: &[u8]) -> bool {
        is_row(bytes)
    }
}

struct ToldRowItem;

impl Item for ToldRowItem {
    ghost readable = { λ bs. is_some (told_row_at bs) };

    fn is_item(bytes: &[u8]) -> bool {
        is_told_row(bytes)
    }
}

#[tactic(auto, unfolding(pc_spelling::specs::Reading::write_at))]
fn is_write(bytes: &[u8]) -> bool
    ensures { result ≡ is_some (write_at bytes.now) }
{
    match cut(b':', bytes) {
        Some((name, sequence)) => key(name).is_some() && number32(sequence).is_some(),
        None => false,
    }
}

#[tactic(auto, unfolding(pc_spelling::specs::Reading::told_row_at))]
fn is_told_row(bytes: &[u8]) -> bool
    ensures { result ≡ is_some (told_row_at bytes.now) }
{
    match cut(b'=', bytes) {
        Some((name, value)) => key(name).is_some() && value_bytes(value).is_some(),
        None => false,
    }
}

#[tactic(auto, unfolding(pc_spelling::specs::Reading::row_at))]
fn is_row(bytes: &[u8]) -> bool
    ensures { result ≡ is_some (row_at bytes.now) }
{
    let Some((name, rest)) = cut(b'@', bytes) else {
        return false;
    };
    match cut(b'=', rest) {
        Some((origin, value)) => {
            key(name).is_some() && number::origin(origin).is_some() && value_bytes(value).is_some()
        }
        None => false,
    }
}

/// Keys, or a dash for none, as they stand.
pub fn keys(bytes: &[u8]) -> Option<&[u8]>
    ensures { StandsFor own_keys result (keys_at bytes.now) }
{
    if is_list::<KeyItem>(bytes) {
        Some(bytes)
    } else {
        None
    }
}

/// Writes, or a dash for none, as they stand.
pub fn writes(bytes: &[u8]) -> Option<&[u8]>
    ensures { StandsFor own_writes result (writes_at bytes.now) }
{
    if is_list::<WriteItem>(bytes) {
        Some(bytes)
    } else {
        None
    }
}

/// Metas, or a dash for none, as they stand.
pub fn metas(bytes: &[u8]) -> Option<&[u8]>
    ensures { StandsFor own_metas result (list_at meta_at bytes.now) }
{
    if is_list::<MetaItem>(bytes) {
        Some(bytes)
    } else {
        None
    }
}

/// Rows of a reply, or a dash for none, as they stand.
pub fn rows(bytes: &[u8]) -> Option<&[u8]>
    ensures { StandsFor own_rows result (list_at row_at bytes.now) }
{
    if is_list::<RowItem>(bytes) {
        Some(bytes)
    } else {
        None
    }
}

/// Rows that a client is told, or a dash for none, as they stand.
pub fn told_rows(bytes: &[u8]) -> Option<&[u8]>
    ensures { StandsFor own_told_rows result (list_at told_row_at bytes.now) }
{
    if is_list::<ToldRowItem>(bytes) {
        Some(bytes)
    } else {
        None
    }
}

/// Items that are kept in memory of their own.
pub trait Kept<T> {
    ghost read: { List ℕ → Option T };

    /// The item that the bytes spell.
    fn item(alloc: Global, bytes: &[u8]) -> Result<T, NoMemory>
        requires { IsSome (read bytes.now) }
        ensures { IfOk result (λ item. read bytes.now ≡ Some item) };
}

/// The items that the bytes spell, with this byte between each two.
#[tactic(auto, using(crate::proofs::Owned::owned_parts))]
pub fn owned_items<T: Drop, K: Kept<T>>(
    alloc: Global,
    byte: u8,
    bytes: &[u8],
) -> Result<Items<T>, NoMemory>
    requires { IsSome (each_at K.read (slice_split (λ b. b == byte) bytes.now)) }
    ensures { IfOk result (λ items. each_at K.read (slice_split (λ b. b == byte) bytes.now) ≡ Some items) }
{
    let mut items = Items::new(alloc);
    let mut rest = bytes;
    'items: loop {
        match cut(byte, rest) {
            None => {
                items.add(K::item(alloc, rest)?)?;
                return Ok(items);
            }
            Some((text, behind)) => {
                items.add(K::item(alloc, text)?)?;
                rest = behind;
            }
        }
    }
}

/// The items of a list, which is a dash for none.
fn owned_list<T: Drop, K: Kept<T>>(alloc: Global, bytes: &[u8]) -> Result<Items<T>, NoMemory>
    requires { IsSome (list_at K.read bytes.now) }
    ensures { IfOk result (λ items. list_at K.read bytes.now ≡ Some items) }
{
    if is(bytes, b"-") {
        Ok(Items::new(alloc))
    } else {
        owned_items::<T, K>(alloc, b',', bytes)
    }
}

impl Kept<Key> for KeyItem {
    ghost read = { key_at };

    fn item(alloc: Global, bytes: &[u8]) -> Result<Key, NoMemory> {
        owned_key(alloc, bytes)
    }
}

impl Kept<(Key, u32)> for WriteItem {
    ghost read = { write_at };

    #[tactic(auto, unfolding(pc_spelling::specs::Reading::write_at))]
    fn item(alloc: Global, bytes: &[u8]) -> Result<(Key, u32), NoMemory> {
        let Some((name, sequence)) = cut(b':', bytes) else {
            unreachable!()
        };
        let Some(sequence) = number32(sequence) else {
            unreachable!()
        };
        Ok((owned_key(alloc, name)?, sequence))
    }
}

impl Kept<TxnMeta> for MetaItem {
    ghost read = { meta_at };

    fn item(alloc: Global, bytes: &[u8]) -> Result<TxnMeta, NoMemory> {
        match meta(bytes) {
            Some(meta) => meta.meta(alloc),
            None => unreachable!(),
        }
    }
}

impl Kept<(Key, Origin, Value)> for RowItem {
    ghost read = { row_at };

    #[tactic(auto, unfolding(pc_spelling::specs::Reading::row_at))]
    fn item(alloc: Global, bytes: &[u8]) -> Result<(Key, Origin, Value), NoMemory> {
        let Some((name, rest)) = cut(b'@', bytes) else {
            unreachable!()
        };
        let Some((origin, value)) = cut(b'=', rest) else {
            unreachable!()
        };
        let Some(origin) = number::origin(origin) else {
            unreachable!()
        };
        let key = owned_key(alloc, name)?;
        let value = owned_value(alloc, value)?;
        Ok((key, origin, value))
    }
}

impl Kept<(Key, Origin, Value)> for ToldRowItem {
    ghost read = { told_row_at };

    #[tactic(auto, unfolding(pc_spelling::specs::Reading::told_row_at))]
    fn item(alloc: Global, bytes: &[u8]) -> Result<(Key, Origin, Value), NoMemory> {
        let Some((name, value)) = cut(b'=', bytes) else {
            unreachable!()
        };
        let key = owned_key(alloc, name)?;
        let value = owned_value(alloc, value)?;
        Ok((key, Origin::Nothing, value))
    }
}

/// Keys in memory of their own.
#[tactic(auto, unfolding(pc_spelling::specs::Reading::keys_at))]
pub fn owned_keys(alloc: Global, bytes: &[u8]) -> Result<Keys, NoMemory>
    requires { IsSome (keys_at bytes.now) }
    ensures { IfOk result (λ keys. keys_at bytes.now ≡ Some keys) }
{
    owned_list::<Key, KeyItem>(alloc, bytes)
}

/// Writes in memory of their own.
#[tactic(auto, unfolding(pc_spelling::specs::Reading::writes_at))]
pub fn owned_writes(alloc: Global, bytes: &[u8]) -> Result<Writes, NoMemory>
    requires { IsSome (writes_at bytes.now) }
    ensures { IfOk result (λ writes. writes_at bytes.now ≡ Some writes) }
{
    owned_list::<(Key, u32), WriteItem>(alloc, bytes)
}

/// Metas in memory of their own.
pub fn owned_metas(alloc: Global, bytes: &[u8]) -> Result<Metas, NoMemory>
    requires { IsSome (list_at meta_at bytes.now) }
    ensures { IfOk result (λ metas. list_at meta_at bytes.now ≡ Some metas) }
{
    owned_list::<TxnMeta, MetaItem>(alloc, bytes)
}

/// Rows of a reply in memory of their own.
pub fn owned_rows(alloc: Global, bytes: &[u8]) -> Result<Rows, NoMemory>
    requires { IsSome (list_at row_at bytes.now) }
    ensures { IfOk result (λ rows. list_at row_at bytes.now ≡ Some rows) }
{
    owned_list::<(Key, Origin, Value), RowItem>(alloc, bytes)
}

/// Rows that a client is told, in memory of their own; they have no origins.
pub fn owned_told_rows(alloc: Global, bytes: &[u8]) -> Result<Rows, NoMemory>
    requires { IsSome (list_at told_row_at bytes.now) }
    ensures { IfOk result (λ rows. list_at told_row_at bytes.now ≡ Some rows) }
{
    owned_list::<(Key, Origin, Value), ToldRowItem>(alloc, bytes)
}
