ghost use Rattle.std.specs.Prelude.{◌≡◌, ◌↔◌, ◌∷◌, ◌++◌, [], All, IsTrue, OnOk, false};
ghost use Rattle.pc_base.specs.Span.{contains, same_key};
ghost use Rattle.pc_known.specs.Parts.{part_span};
ghost use Rattle.pc_own.specs.Flying.{is_other_write, without_write};

use crate::read::contains;
use pc_base::{Key, NoMemory};
use pc_known::Part;
use std::marker::Model;

/// A write that is not proved yet, as a stage lists it.
#[derive(Drop)]
pub(crate) struct Flying<'a> {
    pub key: &'a Key,
    pub seq: u32,
}

impl<'a> Model for Flying<'a> {
    ghost use Rattle.std.specs.Prelude.{ℕ, List};

    ghost Value = { List ℕ × ℕ };

    ghost view = { λ f. (f.key.now, f.seq) };
}

/// One more write is not proved yet.
pub(crate) fn add_flying<'a>(
    flying: &mut Vec<Flying<'a>>,
    key: &'a Key,
    seq: u32,
) -> Result<(), NoMemory>
    ensures { OnOk result (flying.new.items ≡ flying.old.items ++ (key.now, seq) ∷ []) }
{
    flying.push(Flying { key, seq })?;
    Ok(())
}

/// The write of this key and sequence is proved.
pub(crate) fn land(flying: &mut Vec<Flying<'_>>, key: &Key, seq: u32)
    ensures { flying.new.items ≡ without_write key.now seq flying.old.items }
{
    flying.retain(|one| is_other_write(one, key, seq));
}

fn is_other_write(one: &Flying<'_>, key: &Key, seq: u32) -> bool
    ensures { result ≡ is_other_write key.now seq one.now }
{
    !(one.seq == seq && one.key == key)
}

fn is_elsewhere(one: &Flying<'_>, key: &Key) -> bool
    ensures { IsTrue result ↔ (same_key one.now.0 key.now ≡ false) }
{
    one.key != key
}

/// Whether none of these writes is of the key.
pub(crate) fn none_on(flying: &[Flying<'_>], key: &Key) -> bool
    ensures { IsTrue result ↔ All (λ one. same_key one.0 key.now ≡ false) flying.now }
{
    flying.iter().all(|one| is_elsewhere(one, key))
}

fn is_outside(one: &Flying<'_>, span: Part<'_>) -> bool
    ensures { IsTrue result ↔ (contains (part_span span.entry) one.now.0 ≡ false) }
{
    !contains(span, one.key)
}

/// Whether none of these writes is in the span.
pub(crate) fn none_in(flying: &[Flying<'_>], span: Part<'_>) -> bool
    ensures { IsTrue result ↔ All (λ one. contains (part_span span.entry) one.0 ≡ false) flying.now }
{
    flying.iter().all(|one| is_outside(one, span))
}
