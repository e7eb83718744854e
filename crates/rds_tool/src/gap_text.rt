//! Gaps as a command line names them.
ghost use Rattle.std.specs.{Prelude.◌==◌, Prelude.◌≡◌, Prelude.IfOk, Prelude.Option, Prelude.if◌then◌else◌, Prelude.map, List.slice_split, Option.option_map, Str.all_ascii_digits};
ghost use Rattle.rds_tool.specs.GapText.{each_gap as the_gaps_of_each, gap_of as the_gap_of, gaps_of as the_gaps_of, place_of as the_place_of};

use std::alloc::{AllocError, Global};

/// The most digits of a place: two more than the longest recording needs.
const MOST_DIGITS: usize = 12;

/// The gaps that a text spells: pairs `from-to`, with a comma between each two. None if it spells none.
pub fn gaps_of(alloc: Global, text: &str) -> Result<Option<Vec<(u64, u64)>>, AllocError>
    ensures { IfOk result (λ gaps. option_map (λ g. g.items) gaps ≡ the_gaps_of text.now) }
{
    let pairs = pairs_of(alloc, text)?;
    each_gap(alloc, pairs.as_slice())
}

fn pairs_of(alloc: Global, text: &str) -> Result<Vec<&str>, AllocError>
    ensures { IfOk result (λ pairs. map (λ pair. pair.now) pairs.items
        ≡ slice_split (λ b. b == 44) text.now) }
{
    text.split(',').collect(alloc)
}

fn each_gap(alloc: Global, pairs: &[&str]) -> Result<Option<Vec<(u64, u64)>>, AllocError>
    ensures { IfOk result (λ gaps. option_map (λ g. g.items) gaps
        ≡ the_gaps_of_each (map (λ pair. pair.now) pairs.now)) }
{
    let mut gaps = Vec::new(alloc);
    for pair in pairs {
        let Some(gap) = gap_of(pair) else {
            return Ok(None);
        };
        gaps.push(gap)?;
    }
    Ok(Some(gaps))
}

fn gap_of(pair: &str) -> Option<(u64, u64)>
    ensures { result ≡ the_gap_of pair.now }
{
    let (from, to) = pair.split_once('-')?;
    Some((place_of(from)?, place_of(to)?))
}

#[tactic(auto, using(crate::proofs::GapTexts::place_steps))]
fn place_of(digits: &str) -> Option<u64>
    ensures { result ≡ the_place_of digits.now }
{
    if digits.len() > MOST_DIGITS || !has_digits_alone(digits) {
        return None;
    }
    digits.parse().ok()
}

fn has_digits_alone(text: &str) -> bool
    ensures { result ≡ all_ascii_digits text.now }
{
    text.as_bytes().iter().all(|b| b.is_ascii_digit())
}
