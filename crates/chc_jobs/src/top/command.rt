//! The commands that words may be.

ghost use Rattle.std.specs.Prelude.{◌≡◌, ◌≢◌, [], ◌∷◌, length, MatchOption};
ghost use Rattle.chc_jobs.specs.Commands.{IsNormalise, IsLift, IsNoNormalise, IsNoLift};

use super::word::Word;

/// The files of `normalise SCRIPT OUT TRACE`.
#[derive(Clone, Copy)]
pub(crate) struct NormaliseNames<'a> {
    pub(crate) script: &'a str,
    pub(crate) out: &'a str,
    pub(crate) trace: &'a str,
}

/// The files of `lift SCRIPT TRACE ANSWER OUT`.
#[derive(Clone, Copy)]
pub(crate) struct LiftNames<'a> {
    pub(crate) script: &'a str,
    pub(crate) trace: &'a str,
    pub(crate) answer: &'a str,
    pub(crate) out: &'a str,
}

/// Four words.
#[derive(Clone, Copy)]
struct FourWords<'a> {
    command: &'a Word,
    first: &'a Word,
    second: &'a Word,
    third: &'a Word,
}

/// Five words.
#[derive(Clone, Copy)]
struct FiveWords<'a> {
    command: &'a Word,
    first: &'a Word,
    second: &'a Word,
    third: &'a Word,
    fourth: &'a Word,
}

/// The words, where they are four.
fn split_four(words: &[Word]) -> Option<FourWords<'_>>
    ensures { MatchOption result (length words.now ≢ 4) (λ f. words.now ≡ f.command.now ∷ f.first.now ∷ f.second.now ∷ f.third.now ∷ []) }
{
    match words {
        [command, first, second, third] => Some(FourWords {
            command,
            first,
            second,
            third,
        }),
        _ => None,
    }
}

/// The words, where they are five.
fn split_five(words: &[Word]) -> Option<FiveWords<'_>>
    ensures { MatchOption result (length words.now ≢ 5) (λ f. words.now ≡ f.command.now ∷ f.first.now ∷ f.second.now ∷ f.third.now ∷ f.fourth.now ∷ []) }
{
    match words {
        [command, first, second, third, fourth] => Some(FiveWords {
            command,
            first,
            second,
            third,
            fourth,
        }),
        _ => None,
    }
}

/// The files that the words name, where they are `normalise` with three names, of which the outputs'
/// differ from each other and from the script's.
pub(crate) fn normalise_names(words: &[Word]) -> Option<NormaliseNames<'_>>
    ensures { MatchOption result (IsNoNormalise words.now) (λ n. IsNormalise words.now n.script.now n.out.now n.trace.now) }
{
    let FourWords {
        command,
        first: script,
        second: out,
        third: trace,
    } = split_four(words)?;
    let is_command = command.is("normalise");
    let is_apart = !out.is(script.text()) && !trace.is(script.text()) && !trace.is(out.text());
    if is_command && is_apart {
        Some(NormaliseNames {
            script: script.text(),
            out: out.text(),
            trace: trace.text(),
        })
    } else {
        None
    }
}

/// The files that the words name, where they are `lift` with four names, of which the output's differs
/// from the others.
pub(crate) fn lift_names(words: &[Word]) -> Option<LiftNames<'_>>
    ensures { MatchOption result (IsNoLift words.now) (λ n. IsLift words.now n.script.now n.trace.now n.answer.now n.out.now) }
{
    let FiveWords {
        command,
        first: script,
        second: trace,
        third: answer,
        fourth: out,
    } = split_five(words)?;
    let is_command = command.is("lift");
    let is_apart = !out.is(script.text()) && !out.is(trace.text()) && !out.is(answer.text());
    if is_command && is_apart {
        Some(LiftNames {
            script: script.text(),
            trace: trace.text(),
            answer: answer.text(),
            out: out.text(),
        })
    } else {
        None
    }
}
