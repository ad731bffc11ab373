//! Text that more than one answer has.
ghost use Rattle.std.specs.Prelude.{◌≡◌};
ghost use Rattle.answers.specs.Texts.{yes_or_no_of};

/// `yes` or `no`; a `bool` prints as true or false.
pub(crate) fn yes_or_no(answer: bool) -> &'static str
    ensures { result.now ≡ yes_or_no_of answer }
{
    if answer { "yes" } else { "no" }
}
