//! Forms that can't all be at least 0.

ghost use Rattle.std.specs.Prelude.{◌≡◌, map};
ghost use Rattle.linear_forms.specs.View.{linear};
ghost use Rattle.cert_lines.specs.View.{step};
ghost use Rattle.cert_rules.specs.Linear.{is_negative_constant, some_is_negative, last_is_negative, refuted};
ghost use Rattle.cert_linear.specs.Here.{forms as forms_of};

use cert_lines::StepLines;
use linear_forms::LinearForm;

/// Whether the form is a negative constant.
fn is_negative_constant(form: &LinearForm) -> bool
    ensures { result ≡ is_negative_constant (linear form.now) }
{
    form.parts.is_empty() && form.constant < 0
}

/// Whether one of the forms is a negative constant.
fn some_is_negative(forms: &[LinearForm]) -> bool
    ensures { result ≡ some_is_negative (forms_of forms.now) }
{
    for form in forms {
        if is_negative_constant(form) {
            return true;
        }
    }
    false
}

/// Whether the last form is a negative constant.
fn last_is_negative(forms: &[LinearForm]) -> bool
    ensures { result ≡ last_is_negative (forms_of forms.now) }
{
    match forms {
        [.., last] => is_negative_constant(last),
        [] => false,
    }
}

/// Whether the last form is a negative constant, or, without steps, one of them is.
pub fn refuted(steps: &StepLines, forms: &[LinearForm]) -> bool
    ensures { result ≡ refuted (map step steps.now) (forms_of forms.now) }
{
    if steps.is_empty() {
        some_is_negative(forms)
    } else {
        last_is_negative(forms)
    }
}
