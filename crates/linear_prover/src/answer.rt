//! What the linear machine is asked and answers.

use cert_lines::StepLines;
use linear_forms::LinearForm;
use sqlite_items::Items;

/// Forms in order, each of which says that it is at least 0.
pub type FormList = Items<LinearForm>;

/// Numbers in order.
pub type NumberList = Items<i128>;

/// What the machine finds of forms.
#[derive(Drop)]
pub enum LinearAnswer {
    /// They cannot all be at least 0. The lines make a negative constant of them: the inputs have the numbers from 0, each line
    /// the next one. Without lines an input is a negative constant.
    Refuted(StepLines),
    /// They all are, where the variables have these values: one for each variable of the forms, in the order in which they
    /// appear.
    Point(NumberList),
    /// No integer is between the bounds of a variable.
    Gap,
    /// A number on the way leaves 128 bits.
    WideForm,
    /// A step was due, and none was left.
    StepsOut,
}
