//! Rows of numbers.
ghost use Rattle.std.specs.Prelude.{◌≡◌, ◌≤◌, ◌<◌, ◌^◌, length, codes, IfOk, IfSome};
ghost use Rattle.trop_text.specs.declared.fault.FaultKind.TheVariants.{Syntax};
ghost use Rattle.shape_grammar.specs.Steps.{token_past};
ghost use Rattle.prog_texts.specs.Words.{skipped};
ghost use Rattle.prog_texts.specs.Rows as spec;
ghost use Rattle.prog_reading.specs.Left.{left, entry_of};
ghost use Rattle.prog_reading.specs.Gives.{Gives, Passed, IsLetPass};
ghost use Rattle.prog_lang.specs.RowParts.{row_rule_of, row_start_of, IsSmall, IsSmallStart, entry_at, entries_at};

use prog_reading::{At, Entry, GREATEST_ENTRY, ReadErr, bounded, said, settle, sized};
use prog_tree::Numbers;
use std::alloc::Global;
use trop_text::FaultKind;

/// How many entries a row may have.
#[derive(Clone, Copy, Drop)]
pub(crate) enum RowRule {
    /// One for each name of the declaration.
    OneEach,
    /// Any number.
    AnyNumber,
}

/// What stands behind the `[` of a row.
#[derive(Clone, Copy, Drop)]
pub(crate) enum RowStart {
    /// The end of the row.
    Bare,
    /// The first token of an entry: a number, or none where it is the `-` of one.
    Starts(Option<u64>),
}

impl RowRule {
    // Whether `]` may stand behind `[`.
    fn bare(self, entry: Entry<'_>) -> bool
        ensures { result ≡ (row_rule_of self).bare (entry_of entry.entry) }
    {
        match self {
            RowRule::OneEach => entry.before.names == 0,
            RowRule::AnyNumber => true,
        }
    }

    // Whether an entry may.
    fn starts(self, entry: Entry<'_>) -> bool
        ensures { result ≡ (row_rule_of self).starts (entry_of entry.entry) }
    {
        match self {
            RowRule::OneEach => !(entry.before.names == 0),
            RowRule::AnyNumber => true,
        }
    }

    // Whether `,` may stand behind an entry.
    fn goes_on(self, entry: Entry<'_>) -> bool
        ensures { result ≡ (row_rule_of self).goes_on (entry_of entry.entry) }
    {
        match self {
            RowRule::OneEach => 1 < entry.before.names.saturating_sub(entry.before.commas),
            RowRule::AnyNumber => true,
        }
    }

    // Whether `]` may.
    fn ends(self, entry: Entry<'_>) -> bool
        ensures { result ≡ (row_rule_of self).ends (entry_of entry.entry) }
    {
        match self {
            RowRule::OneEach => entry.before.names.saturating_sub(entry.before.commas) == 1,
            RowRule::AnyNumber => true,
        }
    }
}

// The first token of an entry: a number, or none where it is the `-` of one.
fn entry_first(entry: Entry<'_>) -> Result<Option<u64>, FaultKind>
    ensures small { IfOk result IsSmall }
    ensures value { result ≡ spec.entry_first (2 ^ 40) (entry_of entry.entry) }
{
    if entry.is_digits() {
        return match sized(entry, GREATEST_ENTRY) {
            Ok(n) => Ok(Some(n)),
            Err(what) => Err(what),
        };
    }
    if entry.says(b"-") {
        Ok(None)
    } else {
        Err(FaultKind::Syntax)
    }
}

// The rest of an entry, behind its first token.
#[tactic(auto, unfolding(trop_grammar::specs::Reading::read_then, trop_grammar::specs::Reading::gives, prog_texts::specs::Rows::entry_rest))]
fn entry_rest<'a>(first: Option<u64>, at: At<'a>) -> Result<(i64, At<'a>), ReadErr<'a>>
    requires { IsSmall first }
    ensures gives { Gives (λ x. (x.0, left x.1)) result (spec.entry_rest (2 ^ 40) first (left at.entry)) }
    ensures shorter { IfOk result (λ x. length (left x.1) ≤ length (left at.entry)) }
{
    match first {
        Some(n) => Ok((n as i64, at)),
        None => {
            let (n, rest) = bounded(at, GREATEST_ENTRY)?;
            Ok((-(n as i64), rest))
        }
    }
}

// What an entry begins with, and what is behind it.
#[tactic(auto, unfolding(trop_grammar::specs::Reading::token_at, shape_grammar::specs::Steps::token_past))]
fn begin_entry<'a>(at: At<'a>) -> Result<(Option<u64>, At<'a>), ReadErr<'a>>
    ensures gives { Gives (λ x. (x.0, left x.1)) result (token_past skipped Syntax (spec.entry_first (2 ^ 40)) (left at.entry)) }
    ensures small { IfOk result (λ x. IsSmall x.0) }
    ensures shorter { IfOk result (λ x. length (left x.1) ≤ length (left at.entry)) }
{
    let here = at.past();
    let Some((entry, rest)) = here.next() else {
        return Err(ReadErr::Wrong(FaultKind::Syntax, here));
    };
    settle(entry_first(entry), here, rest)
}

// An entry of a row.
#[tactic(auto, unfolding(trop_grammar::specs::Reading::read_then))]
fn next_entry<'a>(at: At<'a>) -> Result<(i64, At<'a>), ReadErr<'a>>
    ensures gives { Gives (λ x. (x.0, left x.1)) result (entry_at (left at.entry)) }
    ensures shorter { IfOk result (λ x. length (left x.1) ≤ length (left at.entry)) }
{
    let (first, rest) = begin_entry(at)?;
    entry_rest(first, rest)
}

// What is behind the `,` that goes on with a row, where it is the next token.
fn comma<'a>(rule: RowRule, at: At<'a>) -> Option<At<'a>>
    ensures passes { IsLetPass (spec.comma (row_rule_of rule)) (left at.entry) result }
    ensures shorter { IfSome result (λ rest. length (left rest) < length (left at.entry)) }
{
    let (entry, rest) = at.past().next()?;
    if entry.says(b",") && rule.goes_on(entry) {
        Some(rest)
    } else {
        None
    }
}

// The end of a row behind an entry.
#[tactic(auto, unfolding(trop_grammar::specs::Reading::token_at, shape_grammar::specs::Steps::token_past))]
fn row_end<'a>(rule: RowRule, at: At<'a>) -> Result<At<'a>, ReadErr<'a>>
    ensures { Gives (λ rest. (tt, left rest)) result (token_past skipped Syntax (spec.row_end (row_rule_of rule)) (left at.entry)) }
{
    let here = at.past();
    match here.next() {
        Some((entry, rest)) if entry.says(b"]") && rule.ends(entry) => Ok(rest),
        _ => Err(ReadErr::Wrong(FaultKind::Syntax, here)),
    }
}

// The entries of a row from the first on.
fn entries<'a>(
    alloc: Global,
    rule: RowRule,
    first: i64,
    at: At<'a>,
) -> Result<(Numbers, At<'a>), ReadErr<'a>>
    ensures { Gives (λ x. (x.0, left x.1)) result (entries_at rule first (left at.entry)) }
{
    let mut numbers = Numbers::new(alloc);
    numbers.push(first)?;
    let mut rest = at;
    'entries: while let Some(after) = comma(rule, rest) {
        let (number, behind) = next_entry(after)?;
        numbers.push(number)?;
        rest = behind;
    }
    Ok((numbers, rest))
}

// The entries of a row from the first on, and its end.
#[tactic(auto, unfolding(trop_grammar::specs::Reading::read_then, trop_grammar::specs::Reading::gives, prog_texts::specs::Rows::more_at))]
fn more<'a>(
    alloc: Global,
    rule: RowRule,
    first: i64,
    at: At<'a>,
) -> Result<(Numbers, At<'a>), ReadErr<'a>>
    ensures { Gives (λ x. (x.0, left x.1)) result (spec.more_at (row_rule_of rule) (2 ^ 40) first (left at.entry)) }
{
    let (numbers, rest) = entries(alloc, rule, first, at)?;
    let rest = row_end(rule, rest)?;
    Ok((numbers, rest))
}

// What stands behind the `[` of a row.
fn row_first(rule: RowRule, entry: Entry<'_>) -> Result<RowStart, FaultKind>
    ensures passed { Passed row_start_of result (spec.row_first (row_rule_of rule) (2 ^ 40) (entry_of entry.entry)) }
    ensures small { IfOk result IsSmallStart }
{
    if entry.says(b"]") && rule.bare(entry) {
        return Ok(RowStart::Bare);
    }
    if !rule.starts(entry) {
        return Err(FaultKind::Syntax);
    }
    match entry_first(entry) {
        Ok(first) => Ok(RowStart::Starts(first)),
        Err(what) => Err(what),
    }
}

// What stands behind the `[` of a row, and what is behind it.
#[tactic(auto, unfolding(trop_grammar::specs::Reading::token_at, shape_grammar::specs::Steps::token_past))]
fn begin_row<'a>(rule: RowRule, at: At<'a>) -> Result<(RowStart, At<'a>), ReadErr<'a>>
    ensures gives { Gives (λ x. (row_start_of x.0, left x.1)) result (token_past skipped Syntax (spec.row_first (row_rule_of rule) (2 ^ 40)) (left at.entry)) }
    ensures small { IfOk result (λ x. IsSmallStart x.0) }
{
    let here = at.past();
    let Some((entry, rest)) = here.next() else {
        return Err(ReadErr::Wrong(FaultKind::Syntax, here));
    };
    settle(row_first(rule, entry), here, rest)
}

// The rest of a row, behind what stands behind its `[`.
#[tactic(auto, unfolding(trop_grammar::specs::Reading::read_then, trop_grammar::specs::Reading::gives, prog_texts::specs::Rows::row_rest_at))]
fn row_rest<'a>(
    alloc: Global,
    rule: RowRule,
    start: RowStart,
    at: At<'a>,
) -> Result<(Numbers, At<'a>), ReadErr<'a>>
    requires { IsSmallStart start }
    ensures { Gives (λ x. (x.0, left x.1)) result (spec.row_rest_at (row_rule_of rule) (2 ^ 40) (row_start_of start) (left at.entry)) }
{
    match start {
        RowStart::Bare => Ok((Numbers::new(alloc), at)),
        RowStart::Starts(first) => {
            let (number, rest) = entry_rest(first, at)?;
            more(alloc, rule, number, rest)
        }
    }
}

/// A row of numbers.
#[tactic(auto, unfolding(trop_grammar::specs::Reading::read_then, prog_texts::specs::Rows::row_at))]
pub(crate) fn row<'a>(
    alloc: Global,
    rule: RowRule,
    at: At<'a>,
) -> Result<(Numbers, At<'a>), ReadErr<'a>>
    ensures { Gives (λ x. (x.0, left x.1)) result (spec.row_at (row_rule_of rule) (2 ^ 40) (left at.entry)) }
{
    let rest = said(at, b"[")?;
    let (start, rest) = begin_row(rule, rest)?;
    row_rest(alloc, rule, start, rest)
}
