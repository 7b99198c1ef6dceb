//! Answers: statuses, with the texts that are to be written.

ghost use Rattle.std.specs.Prelude.{◌≡◌, IfOk};
ghost use Rattle.gnatprove_core.specs.Answers.{AnswersFault, AnswersMissing, PassesLimit, Refuses};
ghost use Rattle.gnatprove_core.specs.Texts.{usage_text};

use crate::status::Status;
use crate::texts::{error_text, limit_text, no_file_text, read_fault_text, usage_text};
use ada_values::{ByteList, NameText, Starved};
use std::alloc::Global;

/// A status, and the text that is to be written.
#[derive(Drop)]
pub struct Answer {
    pub status: Status,
    pub text: ByteList,
}

/// The answer to words without a reading.
pub fn usage(alloc: Global) -> Result<Answer, Starved>
    ensures status { IfOk result (λ answer. answer.status ≡ Status.Usage) }
    ensures text { IfOk result (λ answer. answer.text ≡ usage_text) }
{
    let text = usage_text(alloc)?;
    Ok(Answer {
        status: Status::Usage,
        text,
    })
}

/// The answer for a file that is missing.
pub fn missing(alloc: Global, name: &NameText) -> Result<Answer, Starved>
    ensures { IfOk result (λ answer. AnswersMissing name.now answer.status answer.text) }
{
    let text = no_file_text(alloc, name)?;
    Ok(Answer {
        status: Status::Refused,
        text,
    })
}

/// The answer for a file that could not be read.
pub fn fault(alloc: Global, name: &NameText) -> Result<Answer, Starved>
    ensures { IfOk result (λ answer. AnswersFault name.now answer.status answer.text) }
{
    let text = read_fault_text(alloc, name)?;
    Ok(Answer {
        status: Status::ReadFault,
        text,
    })
}

/// The answer where a quantity passed its limit.
pub fn past_limit(alloc: Global, quantity: &str) -> Result<Answer, Starved>
    ensures { IfOk result (λ answer. PassesLimit quantity.now answer.status answer.text) }
{
    let text = limit_text(alloc, quantity)?;
    Ok(Answer {
        status: Status::Limit,
        text,
    })
}

/// The refusal of a file at a place.
pub fn refusal(
    alloc: Global,
    name: &NameText,
    line: u32,
    column: u32,
    code: &str,
) -> Result<Answer, Starved>
    ensures { IfOk result (λ answer. Refuses name.now line column code.now answer.status answer.text) }
{
    let text = error_text(alloc, name, line, column, code)?;
    Ok(Answer {
        status: Status::Refused,
        text,
    })
}
