//! The rules as values.
ghost use Rattle.std.specs.Prelude.{◌≡◌, IfOk, IsTrue};
ghost use Rattle.up_hooks.specs.Verdicts.{is_allowed_verdict};
ghost use Rattle.up_rules.specs.Rules.{asked_by, judged, meant_by, point_of};

use crate::answers::{at_most, finishes_at_most, keeps, needs_key};
use std::alloc::{AllocError, Global};
use up_machine::{Ask, Point, Verdict};
use up_words::Words;

/// A rule that a closure of the program enforces.
#[derive(Drop, PartialEq, Eq)]
pub enum Rule {
    /// A plain or final upload is created only with this key in its metadata.
    NeedsKey(String),
    /// An upload is created only if its length is not known or at most this number of bytes.
    AtMost(u64),
    /// No upload is removed.
    Keeps,
    /// An upload is completed only if it then has at most this number of bytes.
    FinishesAtMost(u64),
}

impl Rule {
    /// The point at which the rule is asked.
    pub fn point(&self) -> Point
        ensures { result ≡ point_of self.now }
    {
        match self {
            Rule::NeedsKey(_) | Rule::AtMost(_) => Point::Create,
            Rule::Keeps => Point::Terminate,
            Rule::FinishesAtMost(_) => Point::Finish,
        }
    }

    /// The verdict of the rule. It refuses with 403, 413 or 422.
    pub fn judge(&self, ask: &Ask) -> Verdict
        ensures answer { result ≡ judged self.now ask.now }
        ensures lawful { IsTrue (is_allowed_verdict result) }
    {
        match self {
            Rule::NeedsKey(key) => needs_key(ask, key.as_bytes()),
            Rule::AtMost(limit) => at_most(ask, *limit),
            Rule::Keeps => keeps(ask),
            Rule::FinishesAtMost(limit) => finishes_at_most(ask, *limit),
        }
    }
}

/// The rules that the words ask for, in the order of the help. `AllocError` if memory runs out.
pub fn rules_of(alloc: Global, words: &Words) -> Result<Vec<Rule>, AllocError>
    ensures { IfOk result (λ rules. meant_by rules.items ≡ asked_by words.now) }
{
    let mut rules = Vec::new(alloc);
    if let Some(key) = &words.require_key {
        rules.push(Rule::NeedsKey(key.clone()?))?;
    }
    if let Some(limit) = words.max_length {
        rules.push(Rule::AtMost(limit))?;
    }
    if words.keep {
        rules.push(Rule::Keeps)?;
    }
    if let Some(limit) = words.max_finish {
        rules.push(Rule::FinishesAtMost(limit))?;
    }
    Ok(rules)
}
