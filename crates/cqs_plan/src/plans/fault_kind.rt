//! What can be wrong at a place of a document.

ghost use Rattle.std.specs.Prelude.{◌≡◌};

/// What is wrong at one place of a plan.
#[derive(Clone, Copy)]
pub enum FaultKind {
    /// The table has a key that the plan language doesn't know.
    Key,
    /// A required key is absent.
    Missing,
    /// The value has another TOML type.
    Shape,
    /// An integer is out of its range.
    Range,
    /// A name breaks the rule for names, or stands already.
    Name,
    /// The text is no step.
    Step,
    /// The step names no resource, or one of a kind that its verb doesn't take.
    Target,
    /// The job gives what it hasn't taken before.
    Unheld,
    /// There are too many of them.
    Many,
}

impl FaultKind {
    ghost use Rattle.cqs_plan.specs.FaultLine.{word_of};

    /// The word by which a fault line names this kind.
    pub fn word(self) -> &'static str
        ensures { result.now ≡ word_of self }
    {
        match self {
            FaultKind::Key => "key",
            FaultKind::Missing => "missing",
            FaultKind::Shape => "shape",
            FaultKind::Range => "range",
            FaultKind::Name => "name",
            FaultKind::Step => "step",
            FaultKind::Target => "target",
            FaultKind::Unheld => "unheld",
            FaultKind::Many => "many",
        }
    }
}
