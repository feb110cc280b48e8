ghost use Rattle.std.specs.Prelude.{◌≡◌, ◌↔◌, ◌+◌, ◌^◌, ◌<◌, ◌++◌, None, Some, IfOk, IsTrue, OnOk, length};
ghost use Rattle.std.specs.Option.{option_copied};
ghost use Rattle.pc_known.specs.Parts.{part_span};
ghost use Rattle.pc_base.specs.Span.{is_empty};
ghost use Rattle.pc_world.specs.RangeOf.{earlier_end, later_start, piece, pieces, pieces_from};

use pc_base::{Key, NoMemory, Span};
use pc_proto::Keys;
use pc_world::range_of;
use std::alloc::Global;
use std::marker::Model;

/// A part of a span in one range, by the keys at its ends.
#[derive(Clone, Copy)]
pub enum Part<'a> {
    One(&'a Key),
    Between {
        from: Option<&'a Key>,
        to: Option<&'a Key>,
    },
}

/// A part of a span, with the range in which it lies.
#[derive(Drop)]
pub struct Piece<'a> {
    pub range: u32,
    pub part: Part<'a>,
}

impl<'a> Model for Piece<'a> {
    ghost use Rattle.std.specs.Prelude.{ℕ};
    ghost use Rattle.pc_base.specs.declared.span.Span.{Span};

    ghost Value = { ℕ × Span };

    ghost use Rattle.pc_known.specs.Parts.{part_span};

    ghost view = { λ p. (p.range, part_span p.part) };
}

/// The parts of a span, cut at the ends of the ranges.
pub fn pieces<'a>(
    alloc: Global,
    splits: &'a Keys,
    span: &'a Span,
) -> Result<Vec<Piece<'a>>, NoMemory>
    requires { length splits.now + 1 < 2 ^ 32 }
    ensures { IfOk result (λ made. made.items ≡ pieces splits.now span.now) }
{
    match span {
        Span::One(key) => {
            let mut made = Vec::new(alloc);
            let range = range_of(splits, key);
            made.push(Piece {
                range,
                part: Part::One(key),
            })?;
            Ok(made)
        }
        Span::Between { from, to } => {
            pieces_between(alloc, splits.as_slice(), from.as_ref(), to.as_ref())
        }
    }
}

/// The parts of the keys between two ends.
fn pieces_between<'a>(
    alloc: Global,
    splits: &'a [Key],
    from: Option<&'a Key>,
    to: Option<&'a Key>,
) -> Result<Vec<Piece<'a>>, NoMemory>
    requires { length splits.now + 1 < 2 ^ 32 }
    ensures { IfOk result (λ made. made.items ≡ pieces_from 0 None splits.now (option_copied from.entry) (option_copied to.entry)) }
{
    let mut made = Vec::new(alloc);
    let mut low = None;
    let mut range = 0;
    for split in splits {
        add_piece(
            &mut made,
            range,
            later_start(low, from),
            earlier_end(split, to),
        )?;
        low = Some(split);
        range += 1;
    }
    add_piece(&mut made, range, later_start(low, from), to)?;
    Ok(made)
}

/// A part is there where a key may lie in it.
fn add_piece<'a>(
    made: &mut Vec<Piece<'a>>,
    range: u32,
    from: Option<&'a Key>,
    to: Option<&'a Key>,
) -> Result<(), NoMemory>
    ensures { OnOk result (made.new.items ≡ made.old.items ++ piece range (option_copied from.entry) (option_copied to.entry)) }
{
    if !is_empty(from, to) {
        made.push(Piece {
            range,
            part: Part::Between { from, to },
        })?;
    }
    Ok(())
}

fn is_empty(from: Option<&Key>, to: Option<&Key>) -> bool
    ensures { result ≡ is_empty (option_copied from.entry) (option_copied to.entry) }
{
    match (from, to) {
        (Some(first), Some(end)) => !(first < end),
        _ => false,
    }
}

fn later_start<'a>(one: Option<&'a Key>, other: Option<&'a Key>) -> Option<&'a Key>
    ensures { option_copied result ≡ later_start (option_copied one.entry) (option_copied other.entry) }
{
    match (one, other) {
        (None, _) => other,
        (Some(_), None) => one,
        (Some(first), Some(second)) => { if first < second { other } else { one } }
    }
}

fn earlier_end<'a>(split: &'a Key, to: Option<&'a Key>) -> Option<&'a Key>
    ensures { option_copied result ≡ earlier_end (Some split.now) (option_copied to.entry) }
{
    match to {
        Some(end) if end < split => to,
        _ => Some(split),
    }
}

/// Whether the part is this span.
pub fn is_span(part: Part<'_>, span: &Span) -> bool
    ensures { IsTrue result ↔ (part_span part.entry ≡ span.now) }
{
    match (part, span) {
        (Part::One(key), Span::One(other)) => is_key(key, other),
        (
            Part::Between { from, to },
            Span::Between {
                from: first,
                to: end,
            },
        ) => { is_end(from, first.as_ref()) && is_end(to, end.as_ref()) }
        _ => false,
    }
}

fn is_end(one: Option<&Key>, other: Option<&Key>) -> bool
    ensures { IsTrue result ↔ (option_copied one.entry ≡ option_copied other.entry) }
{
    match (one, other) {
        (None, None) => true,
        (Some(key), Some(other)) => is_key(key, other),
        _ => false,
    }
}

/// Whether the two are the same key.
#[tactic(auto, using(crate::proofs::Exact::same_key_is, crate::proofs::Exact::equal_key_is))]
pub fn is_key(one: &Key, other: &Key) -> bool
    ensures { IsTrue result ↔ (one.now ≡ other.now) }
{
    one == other
}
