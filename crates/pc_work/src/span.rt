ghost use Rattle.std.specs.Prelude.{◌≡◌, option_map};
ghost use Rattle.serde_json.specs.View.{view};
ghost use Rattle.pc_base.specs.Span.{key_below};
ghost use Rattle.pc_work.specs.Reading.{Gives};
ghost use Rattle.pc_work.specs.RefusedTexts.{span_refusal, spells_end, spells_span, two_texts};
ghost use Rattle.pc_work.specs.Span.{end_of, span_of};

use crate::fault::Misfit;
use crate::json::{pair, two_of};
use crate::judge::Judged;
use crate::keys::{key_in, spells_key};
use crate::refusal::{OTHER_FORM, WRONG_TEXT, unless};
use pc_base::{Key, Span};
use serde_json::Value as Json;
use std::alloc::Global;

#[tactic(auto, unfolding(crate::specs::Span::span_of))]
pub(crate) fn span_of(alloc: Global, json: &Json) -> Result<Span, Misfit>
    ensures { Gives result (span_of (view json.now)) }
{
    let (from, to) = pair(json)?;
    let from = end_of(alloc, from)?;
    let to = end_of(alloc, to)?;
    Span::between(from, to).or(Err(Misfit::OtherForm))
}

/// One end of a span; the empty text is an open one.
#[tactic(auto, unfolding(crate::specs::Span::end_of))]
fn end_of(alloc: Global, json: &Json) -> Result<Option<Key>, Misfit>
    ensures { Gives result (end_of (view json.now)) }
{
    let text = json.as_str().ok_or(Misfit::OtherForm)?;
    if text.is_empty() {
        return Ok(None);
    }
    Ok(Some(key_in(alloc, text)?))
}

impl Judged for Span {
    ghost refusal_in = { span_refusal };

    fn refusal(json: &Json) -> Option<u8> {
        match two_texts(json) {
            Some((from, to)) => unless(spells_span(from, to), WRONG_TEXT),
            None => Some(OTHER_FORM),
        }
    }
}

/// The two texts of a list of exactly two.
#[tactic(auto, unfolding(crate::specs::RefusedTexts::two_texts))]
fn two_texts(json: &Json) -> Option<(&str, &str)>
    ensures { option_map (λ both. (both.0.now, both.1.now)) result ≡ two_texts (view json.now) }
{
    let (from, to) = two_of(json)?;
    Some((from.as_str()?, to.as_str()?))
}

/// Whether the two texts spell the ends of a span.
fn spells_span(from: &str, to: &str) -> bool
    ensures { result ≡ spells_span from.now to.now }
{
    spells_end(from) && spells_end(to) && (from.is_empty() || to.is_empty() || is_below(from, to))
}

fn is_below(from: &str, to: &str) -> bool
    ensures { result ≡ key_below from.now to.now }
{
    from < to
}

/// Whether the text spells the end of a span.
fn spells_end(text: &str) -> bool
    ensures { result ≡ spells_end text.now }
{
    text.is_empty() || spells_key(text.as_bytes())
}
